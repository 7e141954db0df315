//! Whether every sample is read as before.

ghost use Rattle.std.specs.Prelude.{◌≡◌, ◌↔◌, ◌⊎◌, ◌-◌, ◌<◌, ◌≤◌, ◌^◌, ◌∷◌, ℕ, [], None, Some, Ok, IfErr, IfOk, IfSome};
ghost use Rattle.std.specs.Prelude.{IfNone, OnOk, IsTrue, is_some, option_map, slice_get};
ghost use Rattle.mp4_codec.specs.Cause.{cause_of};
ghost use Rattle.mp4_boxes.specs.declared.trak.TrakBox.{TrakBox};
ghost use Rattle.mp4_samples.specs.declared.sample.Place.{Place};
ghost use Rattle.mp4_samples.specs.Places.{place_of};
ghost use Rattle.mp4_media.specs.FileBoxes.{opened_movie};
ghost use Rattle.mp4_media.specs.MovieTracks.{AreTracks};
ghost use Rattle.mp4_remux.specs.Errors.{of_layout};
ghost use Rattle.mp4_remux.specs.Headers.{HasNoSamples, IsShownUntil};
ghost use Rattle.mp4_remux.specs.Named.{IsWhy, SaysNone};
ghost use Rattle.mp4_remux.specs.Reads.{count_of, place_in};
ghost use Rattle.mp4_remux.specs.Refused.{IsUnreadable, IsWhyOther, KeepsMovie, KeepsSamples};
ghost use Rattle.mp4_remux.specs.Remuxed.{ids_of};
ghost use Rattle.mp4_remux.specs.declared.made.Made.TheVariants.{Tables};
ghost use Rattle.mp4_remux.specs.Same.{IsMovedSample, IsNumberAsBefore, IsTrackAsBefore};
ghost use Rattle.mp4_remux.specs.Why.{HasSample, HasSamples, most_samples};

use crate::layout::Layout;
use crate::layout_error::LayoutError;
use crate::made::Made;
use crate::shown::shown_end;
use mp4_boxes::TrakBox;
use mp4_codec::is_equal;
use mp4_media::{Movie, SamplePlace};

/// How many samples are compared at most: as many as have numbers, less one.
const MOST_SAMPLES: u64 = u32::MAX as u64 - 1;

/// Whether a sample that is opened from a layout is one of its file.
fn is_same(layout: &Layout, before: &SamplePlace, after: &SamplePlace) -> bool
    ensures { IsTrue result ↔ IsMovedSample layout.now.pieces.items layout.now.source_len layout.now.len
        (place_of before.now) (place_of after.now) }
{
    if after.size != before.size
        || after.start_time != before.start_time
        || after.duration != before.duration
        || !is_equal(&after.rendering_offset, &before.rendering_offset)
        || !is_equal(&after.is_sync, &before.is_sync)
    {
        return false;
    }
    layout.is_part(after.offset, before.offset, before.size)
}

/// Where sample `k` of a track is after, which is the same before and after, or is there neither before nor after; else
/// it is an error.
fn check_sample(
    before: &Movie,
    after: &Movie,
    layout: &Layout,
    track_id: u32,
    k: u32,
) -> Result<Option<SamplePlace>, LayoutError>
    requires before { AreTracks before.now.moov before.now.moofs before.now.moof_places before.now.tracks }
    requires after { AreTracks after.now.moov after.now.moofs after.now.moof_places after.now.tracks }
    requires number { 1 ≤ k }
    ensures same { IfOk result (λ p. IsNumberAsBefore layout.now.source_len layout.now.made.items
        layout.now.pieces.items (opened_movie before.now) (opened_movie after.now) track_id k (is_some p)) }
    ensures there { IfOk result (λ p. place_in (opened_movie after.now) track_id k ≡ Ok (option_map place_of p)) }
    ensures was { IfOk result (λ p. IfSome p (λ _. HasSample (opened_movie before.now) track_id k)) }
    ensures why { IfErr result SaysNone }
    ensures other { IfErr result (λ e. IsWhyOther ⊥ (track_id ∷ []) layout.now.pieces.items layout.now.source_len
        layout.now.len (opened_movie before.now) (opened_movie after.now) (of_layout e)) }
{
    let Some(kept) = before.place(track_id, k)? else {
        return match after.place(track_id, k)? {
            None => Ok(None),
            Some(_) => Err(LayoutError::Differs(track_id, k)),
        };
    };
    let Some(moved) = after.place(track_id, k)? else {
        return Err(LayoutError::Differs(track_id, k));
    };
    if !is_same(layout, &kept, &moved) {
        return Err(LayoutError::Differs(track_id, k));
    }
    Ok(Some(moved))
}

/// Whether the first sample of a track isn't there, or can't be looked up, as of tables that are empty.
fn is_nowhere(movie: &Movie, track_id: u32) -> bool
    requires { AreTracks movie.now.moov movie.now.moofs movie.now.moof_places movie.now.tracks }
    ensures { IsTrue result → (first : Place) → place_in (opened_movie movie.now) track_id 1 ≡ Ok (Some first) → ⊥ }
{
    match movie.place(track_id, 1) {
        Ok(first) => first.is_none(),
        Err(_) => true,
    }
}

/// Where sample `k` of a track is; none where the track says that it has no samples, and its tables are too empty to be
/// looked into.
pub(crate) fn place_of_any(
    movie: &Movie,
    track_id: u32,
    k: u32,
) -> mp4_media::Result<Option<SamplePlace>>
    requires tracks { AreTracks movie.now.moov movie.now.moofs movie.now.moof_places movie.now.tracks }
    requires number { 1 ≤ k }
    ensures some { IfOk result (λ p. IfSome p (λ s. place_in (opened_movie movie.now) track_id k
        ≡ Ok (Some (place_of s)))) }
    ensures none { IfOk result (λ p. IfNone p (((k ≡ 1) × HasNoSamples (opened_movie movie.now) track_id)
        ⊎ (place_in (opened_movie movie.now) track_id k ≡ Ok None))) }
    ensures unread { IfErr result (λ e. IsUnreadable (opened_movie movie.now) (track_id ∷ []) (cause_of e)) }
{
    let error = match movie.place(track_id, k) {
        Ok(place) => return Ok(place),
        Err(error) => error,
    };
    if k != 1 {
        return Err(error);
    }
    if movie.sample_count(track_id)? == 0 {
        return Ok(None);
    }
    Err(error)
}

/// A track that is the same before and after.
#[derive(Debug, Clone, Copy)]
struct SameTrack {
    /// How many samples it has.
    count: u32,
    /// When all of them have been shown, in ticks of the track.
    end: u128,
}

/// A track whose samples are the same before and after. `TooManySamples` where they are more than `most`.
fn count_same(
    before: &Movie,
    after: &Movie,
    layout: &Layout,
    track_id: u32,
    most: u32,
) -> Result<SameTrack, LayoutError>
    requires before { AreTracks before.now.moov before.now.moofs before.now.moof_places before.now.tracks }
    requires after { AreTracks after.now.moov after.now.moofs after.now.moof_places after.now.tracks }
    requires most { most < 2 ^ 32 - 1 }
    ensures same { OnOk result (IsTrackAsBefore layout.now.source_len layout.now.made.items
        layout.now.pieces.items (opened_movie before.now) (opened_movie after.now) track_id) }
    ensures end { IfOk result (λ same. IsShownUntil (opened_movie after.now) track_id same.end) }
    ensures few { IfOk result (λ same. same.count ≤ most) }
    ensures counted { IfOk result (λ same. HasSamples (opened_movie before.now) track_id same.count) }
    ensures why { IfErr result (IsWhy (track_id ∷ []) most (opened_movie before.now)) }
    ensures other { IfErr result (λ e. IsWhyOther (count_of (opened_movie after.now) track_id
        ≡ count_of (opened_movie before.now) track_id → ⊥) (track_id ∷ []) layout.now.pieces.items
        layout.now.source_len layout.now.len (opened_movie before.now) (opened_movie after.now) (of_layout e)) }
{
    let count = before.sample_count(track_id)?;
    if after.sample_count(track_id)? != count {
        return Err(LayoutError::OtherTracks);
    }
    if count == 0 && is_nowhere(before, track_id) && is_nowhere(after, track_id) {
        return Ok(SameTrack { count: 0, end: 0 });
    }
    let mut k = 0;
    let mut end: u128 = 0;
    while k <= most {
        let Some(sample) = check_sample(before, after, layout, track_id, k + 1)? else {
            return Ok(SameTrack { count: k, end });
        };
        end = shown_end(&sample).max(end);
        k += 1;
    }
    Err(LayoutError::TooManySamples(track_id))
}

/// How many samples the track of this box has, which are the same before and after. `OtherTracks` where tables were
/// made and its media don't last until all have been shown, `TooManySamples` where they are more than `most`.
fn check_track(
    before: &Movie,
    after: &Movie,
    layout: &Layout,
    trak: &TrakBox,
    made: Made,
    most: u32,
) -> Result<u32, LayoutError>
    requires before { AreTracks before.now.moov before.now.moofs before.now.moof_places before.now.tracks }
    requires after { AreTracks after.now.moov after.now.moofs after.now.moof_places after.now.tracks }
    requires most { most < 2 ^ 32 - 1 }
    ensures same { OnOk result (IsTrackAsBefore layout.now.source_len layout.now.made.items
        layout.now.pieces.items (opened_movie before.now) (opened_movie after.now) trak.now.tkhd.track_id) }
    ensures media { OnOk result (made ≡ Tables
        → IsShownUntil (opened_movie after.now) trak.now.tkhd.track_id trak.now.mdia.mdhd.duration) }
    ensures few { IfOk result (λ count. count ≤ most) }
    ensures counted { IfOk result (λ count. HasSamples (opened_movie before.now) trak.now.tkhd.track_id count) }
    ensures why { IfErr result (IsWhy (trak.now.tkhd.track_id ∷ []) most (opened_movie before.now)) }
    ensures other { IfErr result (λ e. IsWhyOther (KeepsSamples made (opened_movie before.now)
        (opened_movie after.now) trak.now → ⊥) (trak.now.tkhd.track_id ∷ []) layout.now.pieces.items
        layout.now.source_len layout.now.len (opened_movie before.now) (opened_movie after.now) (of_layout e)) }
{
    let same = count_same(before, after, layout, trak.tkhd.track_id, most)?;
    if !made.has_tables() {
        return Ok(same.count);
    }
    if u128::from(trak.mdia.mdhd.duration) == same.end {
        return Ok(same.count);
    }
    Err(LayoutError::OtherTracks)
}

/// Whether a movie has tracks of these ids, in this order.
fn has_ids(movie: &Movie, ids: &[u32]) -> bool
    ensures { IsTrue result ↔ (ids_of movie.now.moov ≡ ids.now) }
{
    let traks = movie.moov.traks.as_slice();
    if traks.len() != ids.len() {
        return false;
    }
    let mut i = 0;
    while i < traks.len() {
        if traks[i].tkhd.track_id != ids[i] {
            return false;
        }
        i += 1;
    }
    true
}

/// How many samples of a file of so many bytes are compared at most: as many as it has bytes, so that a small file
/// takes no long time, and no more than `MOST_SAMPLES`.
pub(crate) fn most_samples(len: u64) -> u32
    ensures few { result < 2 ^ 32 - 1 }
    ensures most { result ≡ most_samples len }
{
    len.min(MOST_SAMPLES) as u32
}

/// Checks that a movie which is opened from a layout has tracks of these ids and no fragments, and that each is read as
/// in its file; and where tables were made, that its media last until all samples have been shown. `SameIds` where two
/// of that have one id; `TooManySamples` where the samples are more than `most_samples` says.
pub(crate) fn check_same(
    before: &Movie,
    after: &Movie,
    layout: &Layout,
    ids: &[u32],
    made: Made,
) -> Result<(), LayoutError>
    requires before { AreTracks before.now.moov before.now.moofs before.now.moof_places before.now.tracks }
    requires after { AreTracks after.now.moov after.now.moofs after.now.moof_places after.now.tracks }
    ensures ids { OnOk result (ids_of after.now.moov ≡ ids.now) }
    ensures unfragmented { OnOk result (after.now.moofs ≡ []) }
    ensures tracks { OnOk result ((t : TrakBox) (i : ℕ) → slice_get after.now.moov.traks i ≡ Some t
        → IsTrackAsBefore layout.now.source_len layout.now.made.items layout.now.pieces.items
        (opened_movie before.now) (opened_movie after.now) t.tkhd.track_id) }
    ensures media { OnOk result (made ≡ Tables → (t : TrakBox) (i : ℕ) → slice_get after.now.moov.traks i ≡ Some t
        → IsShownUntil (opened_movie after.now) t.tkhd.track_id t.mdia.mdhd.duration) }
    ensures why { IfErr result (IsWhy ids.now (most_samples layout.now.source_len) (opened_movie before.now)) }
    ensures other { IfErr result (λ e. IsWhyOther (KeepsMovie made (opened_movie before.now) (opened_movie after.now)
        ids.now → ⊥) ids.now layout.now.pieces.items layout.now.source_len layout.now.len (opened_movie before.now)
        (opened_movie after.now) (of_layout e)) }
{
    if before.tracks().len() < before.moov.traks.len() {
        return Err(LayoutError::SameIds);
    }
    if !has_ids(after, ids) || !after.moofs.is_empty() {
        return Err(LayoutError::OtherTracks);
    }
    let traks = after.moov.traks.as_slice();
    let mut left = most_samples(layout.source_len());
    let mut i = 0;
    while i < traks.len() {
        left -= check_track(before, after, layout, &traks[i], made, left)?;
        i += 1;
    }
    Ok(())
}
