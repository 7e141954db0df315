//! The metadata of a movie, and the parameter sets of its video.

ghost use Rattle.std.specs.Prelude.{ℕ, List, Ok, Option, Result, Some};
ghost use Rattle.std.specs.Cow.{cow_str_bytes};
ghost use Rattle.std.specs.Fmt.{decimal};
ghost use Rattle.std.specs.Option.{option_map};
ghost use Rattle.mp4_codec.specs.Cause.{Answers, Cause, Gives};
ghost use Rattle.mp4_c.specs.Metadata.{GaveMetadata, GaveOrOutOfMemory, found_reply, item_bytes};
ghost use Rattle.mp4_c.specs.ParameterSets.{GaveSet, bytes_reply};
ghost use Rattle.mp4_c.specs.Replies.{Gave, OnFile, OnTrack};

use crate::answer::{Answer, NOT_PRESENT, UNKNOWN_CHOICE};
use crate::copied::copy_to_front;
use crate::opened_file::opened;
use mp4_media::{Error, IlstBox, Metadata, Mp4Reader, Mp4Track, Result};
use std::alloc::Global;
use std::borrow::CowStr;

/// Copies a text that was found, if one was.
fn text_found(words: Option<CowStr<'_, Global>>, room: &mut [u8]) -> Answer
    ensures { Gave (found_reply (option_map cow_str_bytes words.entry) room.old) room.new result }
{
    match words {
        Some(words) => copy_to_front(words.as_bytes(), room),
        None => Answer::plain(NOT_PRESENT),
    }
}

/// Copies a text, if there is one.
fn text(answer: Result<Option<CowStr<'_, Global>>>, room: &mut [u8]) -> Answer
    ensures { (found : Option (List ℕ)) → Answers (option_map cow_str_bytes) answer.entry (Ok found)
        → GaveOrOutOfMemory (found_reply found room.old) room.old room.new result }
{
    match answer {
        Ok(words) => text_found(words, room),
        Err(error) => Answer::refused(&error),
    }
}

/// Copies the decimal digits of a number.
fn digits_of(alloc: Global, n: u32, room: &mut [u8]) -> Answer
    ensures { GaveOrOutOfMemory (found_reply (Some (decimal n)) room.old) room.old room.new result }
{
    match format!(in alloc; "{n}") {
        Ok(line) => copy_to_front(line.as_bytes(), room),
        Err(_) => Answer::refused(&Error::OutOfMemory),
    }
}

/// Copies the decimal digits of a number, if there is one.
fn digits(alloc: Global, number: Option<u32>, room: &mut [u8]) -> Answer
    ensures { GaveOrOutOfMemory (found_reply (option_map decimal number) room.old) room.old room.new result }
{
    match number {
        Some(n) => digits_of(alloc, n, room),
        None => Answer::plain(NOT_PRESENT),
    }
}

/// Copies bytes, if there are any.
fn picture(bytes: Option<&[u8]>, room: &mut [u8]) -> Answer
    ensures { Gave (found_reply (option_map (λ b. b.now) bytes.entry) room.old) room.new result }
{
    match bytes {
        Some(bytes) => copy_to_front(bytes, room),
        None => Answer::plain(NOT_PRESENT),
    }
}

/// Copies what a list of items says at a key of 1 to 4.
fn item(alloc: Global, items: &IlstBox, key: u32, room: &mut [u8]) -> Answer
    ensures { GaveOrOutOfMemory (found_reply (item_bytes key items.now) room.old) room.old room.new result }
{
    match key {
        1 => text(items.title(), room),
        2 => digits(alloc, items.year(), room),
        3 => picture(items.poster(), room),
        _ => text(items.summary(), room),
    }
}

/// Copies what a movie says at a key.
fn metadata_of(alloc: Global, movie: &Mp4Reader, key: u32, room: &mut [u8]) -> Answer
    ensures { GaveMetadata key movie.now room.old room.new result }
{
    if key == 0 || key > 4 {
        return Answer::plain(UNKNOWN_CHOICE);
    }
    match movie.metadata() {
        Some(items) => item(alloc, items, key, room),
        None => Answer::plain(NOT_PRESENT),
    }
}

/// Copies what the metadata of a file says at a key, where there is room for all of it: the title (1) and the summary
/// (4) in UTF-8, the year (2) as its decimal digits, and the poster (3) as the bytes of a picture. `count` is how many
/// bytes it has, and `filled` is `count`, or 0 where they don't fit.
///
/// The code `UNKNOWN_CHOICE` for another key, and `NOT_PRESENT` where the file doesn't say it.
#[unsafe(no_mangle)]
pub extern "C" fn mp4_c_metadata(alloc: Global, file: &[u8], key: u32, room: &mut [u8]) -> Answer
    ensures { OnFile file.now (GaveMetadata key) room.old room.new result }
{
    match opened(alloc, file) {
        Ok(movie) => metadata_of(alloc, &movie, key, room),
        Err(error) => Answer::refused(&error),
    }
}

/// Copies the bytes of a parameter set.
fn copy_set(set: Result<&[u8]>, room: &mut [u8]) -> Answer
    ensures { (bytes : Result (List ℕ) Cause) → Gives (λ b. b.now) set.entry bytes
        → Gave (bytes_reply bytes room.old) room.new result }
{
    match set {
        Ok(bytes) => copy_to_front(bytes, room),
        Err(error) => Answer::refused(&error),
    }
}

/// Copies the first parameter set of a kind of a track.
fn copy_set_of(track: &Mp4Track, kind: u32, room: &mut [u8]) -> Answer
    ensures { GaveSet kind track.now room.old room.new result }
{
    match kind {
        1 => copy_set(track.sequence_parameter_set(), room),
        2 => copy_set(track.picture_parameter_set(), room),
        _ => Answer::plain(UNKNOWN_CHOICE),
    }
}

/// Copies the first parameter set of a kind of the track with this id.
fn copy_set_in(movie: &Mp4Reader, track_id: u32, kind: u32, room: &mut [u8]) -> Answer
    ensures { OnTrack track_id (GaveSet kind) movie.now room.old room.new result }
{
    match movie.track(track_id) {
        Ok(track) => copy_set_of(track, kind, room),
        Err(error) => Answer::refused(&error),
    }
}

/// Copies the first sequence parameter set (1) or picture parameter set (2) of a track of AVC video, where there is
/// room for all of it. `count` is how many bytes it has, and `filled` is `count`, or 0 where they don't fit.
///
/// `TrakNotFound` where there is no such track, then the code `UNKNOWN_CHOICE` for another kind, then
/// `BoxInStblNotFound` where it has no avc1 and `EntryInStblNotFound` where it has no such set.
#[unsafe(no_mangle)]
pub extern "C" fn mp4_c_parameter_set(
    alloc: Global,
    file: &[u8],
    track_id: u32,
    kind: u32,
    room: &mut [u8],
) -> Answer
    ensures { OnFile file.now (OnTrack track_id (GaveSet kind)) room.old room.new result }
{
    match opened(alloc, file) {
        Ok(movie) => copy_set_in(&movie, track_id, kind, room),
        Err(error) => Answer::refused(&error),
    }
}
