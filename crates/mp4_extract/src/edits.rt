//! How the edits of a track move the times of its texts (ISO/IEC 14496-12, 8.6.6).

ghost use denote.Enum.Bare.{same_true};
ghost use Rattle.std.specs.Prelude.{◌≡◌, option_copied};
ghost use Rattle.mp4_codec.specs.ExactTest.{by_test, field_tests};
ghost use Rattle.mp4_extract.specs.contracts.edits.SubtitleTimes.{the_type as subtitle_times};
ghost use Rattle.mp4_codec.specs.Cause.{Gives};
ghost use Rattle.mp4_extract.specs.Edits.{edit_list_of, is_empty_edit, shift_by, shift_by_two, shift_of, skipped_by};
ghost use Rattle.mp4_extract.specs.Edits.{skipped_by_next};

use crate::times::milliseconds;
use mp4_boxes::TrakBox;
use mp4_codec::{ExactEq, Result};
use mp4_leaf::{ElstBox, ElstEntry};

/// Which times subtitles have.
#[derive(Clone, Copy, Debug, PartialEq, Eq)]
pub enum SubtitleTimes {
    /// When they are shown: as the edits of their track say.
    Shown,
    /// When their samples are decoded, whatever the edits are.
    Decoded,
}

impl ExactEq for SubtitleTimes {
    ghost exact = { same_true subtitle_times tt };
}

/// How the times of a track's media become those of the movie.
#[derive(Clone, Copy, Debug, PartialEq, Eq)]
pub struct TextShift {
    /// How many milliseconds of the movie pass before the media begins.
    pub(crate) delay: u64,
    /// How many ticks of the media are left out at its start.
    pub(crate) skipped: u64,
}

impl ExactEq for TextShift {
    ghost exact = { by_test (Prim.hlevel field_tests) };
}

/// Whether an edit of a list of this version is empty: its media time is -1, of 32 bits in version 0 and of 64 in
/// version 1.
fn is_empty_edit(version: u8, edit: ElstEntry) -> bool
    ensures { result ≡ is_empty_edit version edit }
{
    if version == 1 {
        edit.media_time == u64::MAX
    } else {
        edit.media_time == u64::from(u32::MAX)
    }
}

/// How many ticks of the media are before the part that an edit shows: none where its media time is negative.
fn skipped_by(version: u8, edit: ElstEntry) -> u64
    ensures { result ≡ skipped_by version edit }
{
    let most = if version == 1 {
        i64::MAX as u64
    } else {
        i32::MAX as u64
    };
    if edit.media_time > most {
        0
    } else {
        edit.media_time
    }
}

/// The same of an edit that may be missing.
fn skipped_by_next(version: u8, edit: Option<ElstEntry>) -> u64
    ensures { result ≡ skipped_by_next version edit }
{
    match edit {
        Some(edit) => skipped_by(version, edit),
        None => 0,
    }
}

/// The shift of a list that begins with these two edits; the movie has so many ticks in a second.
///
/// `ZeroTimescale` where the first is empty and that is 0, then `TooLarge(Value)` where it lasts longer than 64 bits of
/// milliseconds.
fn shift_by_two(
    version: u8,
    first: Option<ElstEntry>,
    second: Option<ElstEntry>,
    timescale: u32,
) -> Result<TextShift>
    ensures { Gives (λ shift. shift) result (shift_by_two version first second timescale) }
{
    let Some(first) = first else {
        return Ok(TextShift {
            delay: 0,
            skipped: 0,
        });
    };
    if is_empty_edit(version, first) {
        let delay = milliseconds(first.segment_duration, timescale)?;
        return Ok(TextShift {
            delay,
            skipped: skipped_by_next(version, second),
        });
    }
    Ok(TextShift {
        delay: 0,
        skipped: skipped_by(version, first),
    })
}

/// The shift of an edit list.
#[tactic(auto, unfolding(crate::specs::Edits::shift_by))]
fn shift_by(list: &ElstBox, timescale: u32) -> Result<TextShift>
    ensures { Gives (λ shift. shift) result (shift_by list.now timescale) }
{
    let edits = list.entries.as_slice();
    shift_by_two(
        list.version,
        edits.get(0).copied(),
        edits.get(1).copied(),
        timescale,
    )
}

/// The edit list of a track, if it has one.
fn edit_list_of(trak: &TrakBox) -> Option<&ElstBox>
    ensures { option_copied result ≡ edit_list_of trak.now }
{
    trak.edts.as_ref()?.elst.as_ref()
}

/// The shift of a track's texts; the movie has so many ticks in a second. The refusals are those of the first edit.
pub(crate) fn shift_of(times: SubtitleTimes, trak: &TrakBox, timescale: u32) -> Result<TextShift>
    ensures { Gives (λ shift. shift) result (shift_of times (edit_list_of trak.now) timescale) }
{
    match (times, edit_list_of(trak)) {
        (SubtitleTimes::Shown, Some(list)) => shift_by(list, timescale),
        _ => Ok(TextShift {
            delay: 0,
            skipped: 0,
        }),
    }
}
