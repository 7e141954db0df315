//! The headers of a movie that was made, beside those that it had.

ghost use Rattle.std.specs.Prelude.{◌≡◌, ◌↔◌, ◌≤◌, ◌^◌, ℕ, IsTrue, IsFalse, IfNone, IfSome, Some, slice_get};
ghost use Rattle.mp4_boxes.specs.declared.trak.TrakBox.{TrakBox};
ghost use Rattle.mp4_media.specs.FileBoxes.{opened_movie};
ghost use Rattle.mp4_media.specs.MovieTracks.{AreTracks};
ghost use Rattle.mp4_remux.specs.Headers.{DurationsOf, HasFarChunk, IsAsLong, IsNarrow, IsRoundedUp, IsTrackTime};
ghost use Rattle.mp4_remux.specs.Headers.{KeepsEdits, KeepsHeaders, KeepsTrack, edit_like, edits_time, longest};
ghost use Rattle.mp4_remux.specs.Headers.{media_header_like, movie_header_like, track_header_like};
ghost use Rattle.mp4_remux.specs.declared.made.Made.TheVariants.{Offsets, Tables};

use crate::edits::edits_of;
use crate::made::Made;
use mp4_boxes::{StblBox, TrakBox};
use mp4_codec::is_equal;
use mp4_leaf::{ElstEntry, MdhdBox, MvhdBox, TkhdBox};
use mp4_media::Movie;
use mp4_table::Co64Box;

/// Whether a duration by one clock is so long by another, rounded up. Clocks are by their ticks in a second.
fn is_rounded_up(duration: u64, clock: u32, other: u32, shown: u64) -> bool
    ensures { IsTrue result ↔ IsRoundedUp duration clock other shown }
{
    if clock == 0 {
        return shown == 0;
    }
    let clock = u128::from(clock);
    let media = u128::from(duration) * u128::from(other);
    let track = u128::from(shown) * clock;
    if track < media {
        return false;
    }
    track < media + clock
}

/// How long these edits are, one after the other; none where that passes 64 bits.
pub(crate) fn time_of(edits: &[ElstEntry]) -> Option<u64>
    ensures time { IfSome result (λ time. time ≡ edits_time edits.now) }
    ensures long { IfNone result (2 ^ 64 ≤ edits_time edits.now) }
{
    let mut time: u64 = 0;
    let mut i = 0;
    while i < edits.len() {
        time = time.checked_add(edits[i].segment_duration)?;
        i += 1;
    }
    Some(time)
}

/// Whether these edits, one after the other, are so long.
fn are_so_long(edits: &[ElstEntry], shown: u64) -> bool
    ensures { IsTrue result ↔ (shown ≡ edits_time edits.now) }
{
    match time_of(edits) {
        Some(time) => shown == time,
        None => false,
    }
}

/// Whether its header says how long a track is, by the movie's clock.
fn has_track_time(trak: &TrakBox, clock: u32) -> bool
    ensures { IsTrue result ↔ IsTrackTime trak.now clock }
{
    let edits = edits_of(trak);
    if edits.is_empty() {
        let media = &trak.mdia.mdhd;
        return is_rounded_up(media.duration, media.timescale, clock, trak.tkhd.duration);
    }
    are_so_long(edits, trak.tkhd.duration)
}

/// Whether the headers of these tracks say how long they are, by the movie's clock.
fn have_track_times(traks: &[TrakBox], clock: u32) -> bool
    ensures { IsTrue result ↔ ((t : TrakBox) (i : ℕ) → slice_get traks.now i ≡ Some t → IsTrackTime t clock) }
{
    let mut i = 0;
    while i < traks.len() {
        if !has_track_time(&traks[i], clock) {
            return false;
        }
        i += 1;
    }
    true
}

/// How long the longest of these tracks is, in ticks of the movie.
fn longest(traks: &[TrakBox]) -> u64
    ensures { result ≡ longest traks.now }
{
    let mut most = 0;
    let mut i = 0;
    while i < traks.len() {
        most = traks[i].tkhd.duration.max(most);
        i += 1;
    }
    most
}

/// Whether a movie is as long as its longest track.
fn is_as_long(movie: &Movie) -> bool
    ensures { IsTrue result ↔ IsAsLong (opened_movie movie.now) }
{
    movie.moov.mvhd.duration == longest(movie.moov.traks.as_slice())
}

/// Whether the headers say how long the movie is and its tracks are, as far as that is made anew.
pub(crate) fn has_durations(movie: &Movie, made: Made) -> bool
    ensures movie { IsTrue result → (made ≡ Offsets → ⊥) → IsAsLong (opened_movie movie.now) }
    ensures tracks { IsTrue result → made ≡ Tables → (t : TrakBox) (i : ℕ) → slice_get movie.now.moov.traks i ≡ Some t
        → IsTrackTime t movie.now.moov.mvhd.timescale }
    ensures other { IsFalse result → DurationsOf made (opened_movie movie.now) → ⊥ }
{
    match made {
        Made::Offsets => true,
        Made::Tracks => is_as_long(movie),
        Made::Tables => {
            is_as_long(movie) && have_track_times(movie.moov.traks.as_slice(), movie.timescale())
        }
    }
}

/// Whether the header of a movie is as it was, but for its version and its duration.
fn keeps_movie_header(was: &MvhdBox, is: &MvhdBox) -> bool
    ensures { IsTrue result ↔ (is.now ≡ movie_header_like was.now is.now) }
{
    let like = MvhdBox {
        version: is.version,
        duration: is.duration,
        ..*was
    };
    is_equal(is, &like)
}

/// Whether the header of a track is as it was, but for its version and its duration.
fn keeps_track_header(was: &TkhdBox, is: &TkhdBox) -> bool
    ensures { IsTrue result ↔ (is.now ≡ track_header_like was.now is.now) }
{
    let like = TkhdBox {
        version: is.version,
        duration: is.duration,
        ..*was
    };
    is_equal(is, &like)
}

/// Whether the header of a track's media is as it was, but for its version and its duration.
fn keeps_media_header(was: &MdhdBox, is: &MdhdBox) -> bool
    ensures { IsTrue result ↔ (is.now ≡ media_header_like was.now is.now) }
{
    if is.flags != was.flags
        || is.creation_time != was.creation_time
        || is.modification_time != was.modification_time
        || is.timescale != was.timescale
    {
        return false;
    }
    is_equal(&is.language, &was.language)
}

/// Whether a chunk begins past 32 bits.
fn has_far_chunk(table: &Co64Box) -> bool
    ensures { IsTrue result ↔ HasFarChunk table.now }
{
    let offsets = table.entries.as_slice();
    let mut i = 0;
    while i < offsets.len() {
        if offsets[i] > u64::from(u32::MAX) {
            return true;
        }
        i += 1;
    }
    false
}

/// Whether chunk offsets have 64 bits only where one needs them, or where they had.
fn is_narrow(was: &StblBox, is: &StblBox) -> bool
    ensures { IsTrue result ↔ IsNarrow was.now is.now }
{
    match &is.co64 {
        Some(table) => was.co64.is_some() || has_far_chunk(table),
        None => true,
    }
}

/// Whether an edit is as it was; the last one, but for how long it lasts.
fn is_kept_edit(was: &ElstEntry, is: &ElstEntry, is_last: bool) -> bool
    ensures { IsTrue result ↔ (is.now ≡ edit_like was.now is.now) × (IsFalse is_last → is.now ≡ was.now) }
{
    if !is_last {
        return is_equal(is, was);
    }
    let like = ElstEntry {
        segment_duration: is.segment_duration,
        ..*was
    };
    is_equal(is, &like)
}

/// Whether edits are as they were, but for how long the last one lasts.
fn keeps_edits(was: &[ElstEntry], is: &[ElstEntry]) -> bool
    ensures { IsTrue result ↔ KeepsEdits was.now is.now }
{
    if is.len() != was.len() {
        return false;
    }
    let mut i = 0;
    while i < is.len() {
        if !is_kept_edit(&was[i], &is[i], i + 1 == was.len()) {
            return false;
        }
        i += 1;
    }
    true
}

/// Whether a track keeps what its headers say beside durations, and its edits.
fn keeps_track(was: &TrakBox, is: &TrakBox) -> bool
    ensures { IsTrue result ↔ KeepsTrack was.now is.now }
{
    keeps_track_header(&was.tkhd, &is.tkhd)
        && keeps_media_header(&was.mdia.mdhd, &is.mdia.mdhd)
        && is_narrow(&was.mdia.minf.stbl, &is.mdia.minf.stbl)
        && keeps_edits(edits_of(was), edits_of(is))
}

/// Whether a movie keeps what its headers and those of its tracks say beside durations, and its edits.
pub(crate) fn keeps_headers(before: &Movie, after: &Movie) -> bool
    requires { AreTracks before.now.moov before.now.moofs before.now.moof_places before.now.tracks }
    ensures { IsTrue result ↔ KeepsHeaders (opened_movie before.now) (opened_movie after.now) }
{
    if !keeps_movie_header(&before.moov.mvhd, &after.moov.mvhd) {
        return false;
    }
    let traks = after.moov.traks.as_slice();
    let mut i = 0;
    while i < traks.len() {
        let trak = &traks[i];
        let Ok(was) = before.track(trak.tkhd.track_id) else {
            return false;
        };
        if !keeps_track(&was.trak, trak) {
            return false;
        }
        i += 1;
    }
    true
}
