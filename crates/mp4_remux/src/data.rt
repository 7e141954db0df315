//! The data of samples, closed up: what lies between it is left out.

ghost use Rattle.std.specs.Prelude.{◌≡◌, ◌⊎◌, ◌+◌, ◌-◌, ◌<◌, ◌≤◌, ◌^◌, ◌++◌, ◌∷◌, ℕ, [], min};
ghost use Rattle.std.specs.Prelude.{IfErr, IfNone, IfOk, IfSome, OnOk};
ghost use Rattle.std.specs.List.{All};
ghost use Rattle.std.specs.List.Sorted.{IsNonDecreasingBy};
ghost use Rattle.mp4_codec.specs.Cause.{cause_of};
ghost use Rattle.mp4_codec.specs.declared.error.Error.TheVariants.{OutOfMemory};
ghost use Rattle.mp4_media.specs.FileBoxes.{opened_movie};
ghost use Rattle.mp4_media.specs.MovieTracks.{AreTracks};
ghost use Rattle.mp4_remux.specs.Data.{AddsBytes, AreApartFrom, AreClosedUp, AreDataOf, BeginsBy, IsTrackByte};
ghost use Rattle.mp4_remux.specs.Data.{IsWithin, data_len, have_byte};
ghost use Rattle.mp4_remux.specs.Errors.{of_layout};
ghost use Rattle.mp4_remux.specs.Refused.{IsUnreadable, SaysDiffers, SaysWhy};
ghost use Rattle.mp4_remux.specs.RefusedRebuilt.{IsCutSample};
ghost use Rattle.mp4_remux.specs.Named.{IsWhy};
ghost use Rattle.mp4_remux.specs.Why.{HasSamples};

use crate::layout_error::LayoutError;
use crate::moves::Move;
use crate::same::place_of_any;
use mp4_codec::Put;
use mp4_media::{Movie, SamplePlace};
use std::alloc::{AllocError, Global};

/// Bytes of a file: the first, and the one after the last, by their places, which count from 0.
#[derive(Debug, Clone, Copy)]
pub(crate) struct Extent {
    pub place: u64,
    pub end: u64,
}

/// Adds bytes after those before: where they begin with the place after these or within them, as one with them.
fn push_extent(extents: &mut Vec<Extent>, extent: Extent) -> Put
    ensures bytes { OnOk result ((byte : ℕ) → have_byte byte extents.new.items
        ≡ have_byte byte (extents.old.items ++ extent ∷ [])) }
    ensures within { OnOk result ((len : ℕ) → All (IsWithin len) extents.old.items → IsWithin len extent
        → All (IsWithin len) extents.new.items) }
    ensures begin { OnOk result ((place : ℕ) → All (BeginsBy place) extents.old.items → extent.place ≤ place
        → All (BeginsBy place) extents.new.items) }
    ensures apart { OnOk result (AreApartFrom 0 extents.old.items → All (BeginsBy extent.place) extents.old.items
        → extent.place < extent.end → AreApartFrom 0 extents.new.items) }
{
    if let Some(last) = extents.pop() {
        if last.place <= extent.place && extent.place <= last.end {
            extents.push(Extent {
                place: last.place,
                end: last.end.max(extent.end),
            })?;
            return Ok(());
        }
        extents.push(last)?;
    }
    extents.push(extent)?;
    Ok(())
}

/// Adds bytes so, where there are any.
fn push_any(extents: &mut Vec<Extent>, extent: Extent) -> Put
    ensures bytes { OnOk result ((byte : ℕ) → have_byte byte extents.new.items
        ≡ have_byte byte (extents.old.items ++ extent ∷ [])) }
    ensures within { OnOk result ((len : ℕ) → All (IsWithin len) extents.old.items → extent.end ≤ len
        → All (IsWithin len) extents.new.items) }
{
    if extent.place >= extent.end {
        return Ok(());
    }
    push_extent(extents, extent)?;
    Ok(())
}

/// The bytes of a sample; none where they pass the end of a file of `len` bytes.
fn extent_of(sample: &SamplePlace, len: u64) -> Option<Extent>
    ensures place { IfSome result (λ extent. extent.place ≡ sample.now.offset) }
    ensures end { IfSome result (λ extent. extent.end ≡ sample.now.offset + sample.now.size) }
    ensures within { IfSome result (λ extent. extent.end ≤ len) }
    ensures none { IfNone result (len < sample.now.offset + sample.now.size) }
{
    let end = sample.offset.checked_add(u64::from(sample.size))?;
    if end > len {
        return None;
    }
    Some(Extent {
        place: sample.offset,
        end,
    })
}

/// Adds the bytes of the samples of a track in a file of `len` bytes, and answers how many samples these are. `Differs`
/// for one that isn't whole in the file, `TooManySamples` where they are more than `most`.
fn push_track(
    movie: &Movie,
    track_id: u32,
    len: u64,
    most: u32,
    extents: &mut Vec<Extent>,
) -> Result<u32, LayoutError>
    requires most { most < 2 ^ 32 - 1 }
    requires tracks { AreTracks movie.now.moov movie.now.moofs movie.now.moof_places movie.now.tracks }
    ensures few { IfOk result (λ count. count ≤ most) }
    ensures counted { IfOk result (λ count. HasSamples (opened_movie movie.now) track_id count) }
    ensures bytes { OnOk result (AddsBytes (IsTrackByte (opened_movie movie.now) track_id) extents.old.items
        extents.new.items) }
    ensures within { OnOk result (All (IsWithin len) extents.old.items → All (IsWithin len) extents.new.items) }
    ensures why { IfErr result (IsWhy (track_id ∷ []) most (opened_movie movie.now)) }
    ensures unread { IfErr result (λ e. SaysWhy (λ error. (error ≡ OutOfMemory)
        ⊎ IsUnreadable (opened_movie movie.now) (track_id ∷ []) (cause_of error)) ⊥
        (IsCutSample len (track_id ∷ []) (opened_movie movie.now)) (of_layout e)) }
{
    let mut k = 0;
    while k <= most {
        let Some(sample) = place_of_any(movie, track_id, k + 1)? else {
            return Ok(k);
        };
        let Some(extent) = extent_of(&sample, len) else {
            return Err(LayoutError::Differs(track_id, k + 1));
        };
        push_any(extents, extent)?;
        k += 1;
    }
    Err(LayoutError::TooManySamples(track_id))
}

/// The bytes of the samples of these tracks in a file of `len` bytes, in its order, those of two samples once.
/// `Differs` for a sample that isn't whole in the file, `TooManySamples` where they are more than `most`.
pub(crate) fn data_of(
    alloc: Global,
    movie: &Movie,
    ids: &[u32],
    len: u64,
    most: u32,
) -> Result<Vec<Extent>, LayoutError>
    requires most { most < 2 ^ 32 - 1 }
    requires tracks { AreTracks movie.now.moov movie.now.moofs movie.now.moof_places movie.now.tracks }
    ensures data { IfOk result (λ extents. AreDataOf (opened_movie movie.now) ids.now extents.items) }
    ensures within { IfOk result (λ extents. All (IsWithin len) extents.items) }
    ensures why { IfErr result (IsWhy ids.now most (opened_movie movie.now)) }
    ensures differs { IfErr result (λ e. SaysDiffers (IsCutSample len ids.now (opened_movie movie.now))
        (of_layout e)) }
    ensures unread { IfErr result (λ e. SaysWhy (λ error. (error ≡ OutOfMemory)
        ⊎ IsUnreadable (opened_movie movie.now) ids.now (cause_of error)) ⊥
        (IsCutSample len ids.now (opened_movie movie.now)) (of_layout e)) }
{
    let mut extents = Vec::new(alloc);
    let mut left = most;
    let mut i = 0;
    while i < ids.len() {
        left -= push_track(movie, ids[i], len, left, &mut extents)?;
        i += 1;
    }
    Ok(in_order(alloc, extents)?)
}

/// These bytes in the order of the file, each once.
fn in_order(alloc: Global, mut extents: Vec<Extent>) -> Result<Vec<Extent>, AllocError>
    ensures bytes { IfOk result (λ all. (byte : ℕ) → have_byte byte all.items ≡ have_byte byte extents.items) }
    ensures within { IfOk result (λ all. (len : ℕ) → All (IsWithin len) extents.items
        → All (IsWithin len) all.items) }
    ensures apart { IfOk result (λ all. (len : ℕ) → All (IsWithin len) extents.items → AreApartFrom 0 all.items) }
{
    extents.sort_by_key(|extent| extent.place)?;
    let all = joined(alloc, &extents)?;
    Ok(all)
}

/// Bytes that are in order, each once.
fn joined(alloc: Global, extents: &[Extent]) -> Result<Vec<Extent>, AllocError>
    ensures bytes { IfOk result (λ all. (byte : ℕ) → have_byte byte all.items ≡ have_byte byte extents.now) }
    ensures within { IfOk result (λ all. (len : ℕ) → All (IsWithin len) extents.now → All (IsWithin len) all.items) }
    ensures apart { IfOk result (λ all. (len : ℕ) → IsNonDecreasingBy (λ e. e.place) extents.now
        → All (IsWithin len) extents.now → AreApartFrom 0 all.items) }
{
    let mut joined = Vec::new(alloc);
    for extent in extents {
        push_extent(&mut joined, *extent)?;
    }
    Ok(joined)
}

/// Where these bytes are when each follow those before, counted from the first of them.
pub(crate) fn closed_up(alloc: Global, extents: &[Extent]) -> Result<Vec<Move>, AllocError>
    ensures moves { IfOk result (λ moves. AreApartFrom 0 extents.now → AreClosedUp extents.now moves.items) }
{
    let mut moves = Vec::with_capacity(alloc, extents.len())?;
    let mut to: u64 = 0;
    for extent in extents {
        moves.push(Move {
            from: extent.place,
            end: extent.end,
            to,
        })?;
        to = to.saturating_add(extent.end.saturating_sub(extent.place));
    }
    Ok(moves)
}

/// How many bytes all these have; the largest number where that passes 64 bits.
pub(crate) fn len_of(extents: &[Extent]) -> u64
    ensures { result ≡ min (2 ^ 64 - 1) (data_len extents.now) }
{
    let mut len: u64 = 0;
    for extent in extents {
        len = len.saturating_add(extent.end.saturating_sub(extent.place));
    }
    len
}
