//! Edit lists of tracks whose tables are made (ISO/IEC 14496-12, 8.6.6).

ghost use Rattle.std.specs.Prelude.{◌≡◌, ◌-◌, ◌^◌, ◌++◌, length, min, Some, IfErr, OnOk};
ghost use Rattle.mp4_remux.specs.Edit.{box_of, each_box, edit_box, joined, last_edit_place, with_last_edit};
ghost use Rattle.mp4_remux.specs.Edited.{IsHeader, IsWhyNone};
ghost use Rattle.mp4_remux.specs.Headers.{edits_of_box, edits_time};
ghost use Rattle.mp4_remux.specs.ShownTimes.{IsShownTime, is_empty, lasts_to_the_end, movie_ticks};

use crate::box_bytes::{BoxBytes, end_box, first_box, put_whole};
use crate::header_box::{is_version_1, put_with_time, time_size};
use crate::headers::time_of;
use byteorder::{BigEndian, ByteOrder};
use mp4_boxes::TrakBox;
use mp4_codec::{BoxType, Error, Limit, Result};
use mp4_leaf::{ElstEntry, MdhdBox};

/// How long a track is shown, in ticks of the movie.
#[derive(Debug, Clone, Copy)]
pub(crate) struct ShownTime {
    /// The track: the sum of its edits, or where it has none, its media.
    pub total: u64,
    /// Its last edit, where that lasts to the end of the media, whatever its length is then.
    pub last: Option<u64>,
}

/// A duration in ticks of the movie, rounded up, of one in ticks of a track.
pub(crate) fn movie_ticks(duration: u64, movie_timescale: u32, timescale: u32) -> u64
    ensures { result ≡ movie_ticks duration movie_timescale timescale }
{
    if timescale == 0 {
        return 0;
    }
    let ticks = u128::from(duration) * u128::from(movie_timescale);
    let ticks = ticks.div_ceil(u128::from(timescale));
    ticks.min(u128::from(u64::MAX)) as u64
}

/// Whether an edit shows nothing of the media: its time is -1, of 32 bits or of 64.
fn is_empty(entry: &ElstEntry) -> bool
    ensures { result ≡ is_empty entry.now }
{
    entry.media_time == u64::MAX || entry.media_time == u64::from(u32::MAX)
}

/// The edits of a track, in the order in which they are shown.
pub(crate) fn edits_of(trak: &TrakBox) -> &[ElstEntry]
    ensures { result.now ≡ edits_of_box trak.now.edts }
{
    match &trak.edts {
        Some(edts) => match &edts.elst {
            Some(elst) => elst.entries.as_slice(),
            None => &[],
        },
        None => &[],
    }
}

/// Whether an edit lasts to the end of media that last so long with all fragments, in ticks of the track: it has no
/// duration, or ends with the media of the movie box alone, as where a recording was broken off.
fn lasts_to_the_end(last: &ElstEntry, header: &MdhdBox, duration: u64, movie_timescale: u32) -> bool
    ensures { result ≡ lasts_to_the_end header.now duration movie_timescale last.now }
{
    if is_empty(last) {
        return false;
    }
    if last.segment_duration == 0 {
        return true;
    }
    let shown = header.duration.saturating_sub(last.media_time);
    let shown = movie_ticks(shown, movie_timescale, header.timescale);
    0 < header.duration
        && header.duration < duration
        && shown <= last.segment_duration.saturating_add(1)
}

/// How long these edits last, one after the other; the largest number where that passes 64 bits.
fn sum_of(edits: &[ElstEntry]) -> u64
    ensures { result ≡ min (2 ^ 64 - 1) (edits_time edits.now) }
{
    time_of(edits).unwrap_or(u64::MAX)
}

/// How long a track is shown whose media last so long, in its ticks.
pub(crate) fn shown_time(trak: &TrakBox, duration: u64, movie_timescale: u32) -> ShownTime
    ensures { IsShownTime (edits_of_box trak.now.edts) trak.now.mdia.mdhd duration movie_timescale result }
{
    let header = &trak.mdia.mdhd;
    let Some((last, before)) = edits_of(trak).split_last() else {
        return ShownTime {
            total: movie_ticks(duration, movie_timescale, header.timescale),
            last: None,
        };
    };
    let sum = sum_of(before);
    if !lasts_to_the_end(last, header, duration, movie_timescale) {
        return ShownTime {
            total: sum.saturating_add(last.segment_duration),
            last: None,
        };
    }
    let left = duration.saturating_sub(last.media_time);
    let rest = movie_ticks(left, movie_timescale, header.timescale);
    ShownTime {
        total: sum.saturating_add(rest),
        last: Some(rest),
    }
}

/// Where the last edit of an edit list begins in its payload; none where the list is empty or cut.
fn last_edit_place(payload: &[u8]) -> Option<usize>
    ensures { result ≡ last_edit_place payload.now }
{
    if payload.len() < 8 {
        return None;
    }
    let size = 2 * time_size(payload) + 4;
    let count = BigEndian::read_u32(&payload[4..]) as usize;
    if count == 0 || count > (payload.len() - 8) / size {
        return None;
    }
    Some(8 + (count - 1) * size)
}

/// Adds the payload of an edit list whose last edit lasts so long. `TooLarge(TrackDuration)` where that passes 32 bits
/// in version 0.
#[tactic(auto, unfolding(crate::specs::Edit::with_last_edit))]
fn put_last_edit(payload: &[u8], last: u64, out: &mut Vec<u8>) -> Result<()>
    ensures added { OnOk result (joined (Some out.old.items) (with_last_edit last payload.now) ≡ Some out.new.items) }
    ensures refused { IfErr result (IsWhyNone (with_last_edit last payload.now)) }
{
    let Some(place) = last_edit_place(payload) else {
        return Ok(out.extend_from_slice(payload)?);
    };
    if !is_version_1(payload) && last > u64::from(u32::MAX) {
        return Err(Error::TooLarge(Limit::TrackDuration));
    }
    Ok(put_with_time(payload, place, last, out)?)
}

/// Adds an edit list whose last edit lasts so long.
fn put_list(list: &BoxBytes, last: u64, out: &mut Vec<u8>) -> Result<()>
    requires { IsHeader list.now.header.now (length list.now.header.now) }
    ensures added { OnOk result (joined (Some out.old.items)
        (box_of list.now.header.now (with_last_edit last list.now.payload.now)) ≡ Some out.new.items) }
    ensures refused { IfErr result
        (IsWhyNone (box_of list.now.header.now (with_last_edit last list.now.payload.now))) }
{
    let start = out.len();
    out.extend_from_slice(list.header)?;
    put_last_edit(list.payload, last, out)?;
    end_box(out, start, list.header.len())
}

/// Adds a box in an `edts`: in an edit list the last edit lasts so long.
fn put_child(child: &BoxBytes, last: u64, out: &mut Vec<u8>) -> Result<()>
    requires { IsHeader child.now.header.now (length child.now.header.now) }
    ensures added { OnOk result (joined (Some out.old.items)
        (edit_box last child.now.name child.now.header.now child.now.payload.now) ≡ Some out.new.items) }
    ensures refused { IfErr result
        (IsWhyNone (edit_box last child.now.name child.now.header.now child.now.payload.now)) }
{
    match child.name {
        BoxType::ElstBox => put_list(child, last, out),
        _ => Ok(put_whole(child, out)?),
    }
}

/// Adds the payload of an `edts` in whose edit list the last edit lasts so long.
fn put_children(payload: &[u8], last: u64, out: &mut Vec<u8>) -> Result<()>
    ensures added { OnOk result (joined (Some out.old.items) (each_box (edit_box last) (λ rest. rest) payload.now)
        ≡ Some out.new.items) }
    ensures refused { IfErr result (IsWhyNone (each_box (edit_box last) (λ rest. rest) payload.now)) }
{
    let mut rest = payload;
    while let Some(child) = first_box(rest) {
        put_child(&child, last, out)?;
        rest = child.after;
    }
    Ok(out.extend_from_slice(rest)?)
}

/// Adds an `edts` in whose edit list the last edit lasts so long.
pub(crate) fn put_edits(one: &BoxBytes, last: u64, out: &mut Vec<u8>) -> Result<()>
    requires { IsHeader one.now.header.now (length one.now.header.now) }
    ensures added { OnOk result (joined (Some out.old.items)
        (box_of one.now.header.now (each_box (edit_box last) (λ rest. rest) one.now.payload.now))
        ≡ Some out.new.items) }
    ensures refused { IfErr result
        (IsWhyNone (box_of one.now.header.now (each_box (edit_box last) (λ rest. rest) one.now.payload.now))) }
{
    let start = out.len();
    out.extend_from_slice(one.header)?;
    put_children(one.payload, last, out)?;
    end_box(out, start, one.header.len())
}
