//! What an answer says in words.

ghost use Rattle.std.specs.Prelude.{◌≡◌, ◌⊎◌, ◌<◌, ◌≤◌, IfNone, IfSome};
ghost use Rattle.mp4_codec.specs.Cause.{cause_of};
ghost use Rattle.mp4_c.specs.Answers.{code_bytes, limit_number, refused};
ghost use Rattle.mp4_c.specs.ErrorText.{GaveWords, IsErrorOf, IsRemuxErrorOf, named, plain_words};

use crate::answer::{Answer, NOT_PRESENT, NULL_POINTER, UNKNOWN_CHOICE};
use crate::copied::copy_to_front;
use crate::opened_file::opened;
use mp4_media::{BoxType, Error, Limit};
use mp4_remux::RemuxError;
use std::alloc::{AllocError, Global};

/// The limit of a number.
fn limit_of(number: u32) -> Option<Limit>
    ensures some { IfSome result (λ l. limit_number l ≡ number) }
    ensures none { IfNone result ((number ≡ 0) ⊎ (6 < number)) }
{
    match number {
        1 => Some(Limit::SampleBytes),
        2 => Some(Limit::SampleCount),
        3 => Some(Limit::TrackDuration),
        4 => Some(Limit::TrackCount),
        5 => Some(Limit::BoxSize),
        6 => Some(Limit::Value),
        _ => None,
    }
}

/// The type of box of these bytes.
fn box_type_of(bytes: [u8; 4]) -> BoxType
    ensures { code_bytes result ≡ bytes }
{
    BoxType::from(u32::from_be_bytes(bytes))
}

/// The error that names a box of a track or of a fragment.
#[tactic(auto, unfolding(crate::specs::ErrorText::named))]
fn box_error_of(answer: &Answer) -> Option<Error>
    ensures some { IfSome result (λ e. refused (cause_of e) ≡ named answer.now) }
    ensures none { IfNone result ((answer.now.code < 7) ⊎ (12 < answer.now.code)
        ⊎ ((answer.now.code ≡ 12) × (256 ≤ answer.now.number))) }
{
    let id = answer.track_id;
    let name = box_type_of(answer.box_type);
    match answer.code {
        7 => Some(Error::BoxInTrakNotFound(id, name)),
        8 => Some(Error::BoxInTrafNotFound(id, name)),
        9 => Some(Error::BoxInStblNotFound(id, name)),
        10 => Some(Error::EntryInStblNotFound(id, name, answer.number)),
        11 => Some(Error::EntryInTrunNotFound(id, name, answer.number)),
        12 => match u8::try_from(answer.number) {
            Ok(version) => Some(Error::UnsupportedBoxVersion(name, version)),
            Err(_) => None,
        },
        _ => None,
    }
}

/// The error of an answer; None for an answer without one.
#[tactic(auto, unfolding(crate::specs::ErrorText::named))]
fn error_of(answer: &Answer) -> Option<Error>
    ensures { IsErrorOf answer.now result }
{
    match answer.code {
        1 => Some(Error::EndOfData),
        2 => Some(Error::OutOfMemory),
        3 => Some(Error::InvalidData("")),
        4 => Some(Error::BoxNotFound(box_type_of(answer.box_type))),
        5 => Some(Error::Box2NotFound(
            box_type_of(answer.box_type),
            box_type_of(answer.second_box_type),
        )),
        6 => Some(Error::TrakNotFound(answer.track_id)),
        13 => Some(Error::Ended),
        14 => Some(Error::ZeroTimescale),
        15 => match limit_of(answer.limit) {
            Some(limit) => Some(Error::TooLarge(limit)),
            None => None,
        },
        16 => Some(Error::Unrepresentable("")),
        _ => box_error_of(answer),
    }
}

/// Why a movie isn't rewritten, by an answer; None for another answer.
#[tactic(auto, unfolding(crate::specs::ErrorText::named_of_remux))]
fn remux_error_of(answer: &Answer) -> Option<RemuxError>
    ensures { IsRemuxErrorOf answer.now result }
{
    let id = answer.track_id;
    let name = box_type_of(answer.box_type);
    match answer.code {
        20 => Some(RemuxError::Twice(name)),
        21 => Some(RemuxError::SaysPlaces(name, answer.index)),
        22 => Some(RemuxError::TooManySamples(id)),
        23 => Some(RemuxError::OtherTracks),
        24 => Some(RemuxError::Differs(id, answer.number)),
        25 => Some(RemuxError::SaysOfSamples(name, answer.index)),
        26 => Some(RemuxError::StartsElsewhere(id, answer.number)),
        27 => Some(RemuxError::SameIds),
        _ => None,
    }
}

/// The words of an answer without an error.
#[tactic(auto, unfolding(crate::specs::ErrorText::plain_words))]
fn plain_words(code: u32) -> &'static str
    ensures { result.now ≡ plain_words code }
{
    match code {
        0 => "no error",
        NOT_PRESENT => "not present",
        UNKNOWN_CHOICE => "unknown choice",
        NULL_POINTER => "null pointer",
        _ => "unknown error",
    }
}

/// The words of an error.
fn words_of(alloc: Global, error: &Error) -> std::result::Result<String, AllocError> {
    format!(in alloc; "{error}")
}

/// The words of an answer; None for one without an error.
fn words_of_answer(
    alloc: Global,
    answer: &Answer,
) -> Option<std::result::Result<String, AllocError>> {
    if let Some(error) = error_of(answer) {
        return Some(words_of(alloc, &error));
    }
    match remux_error_of(answer) {
        Some(error) => Some(format!(in alloc; "{error}")),
        None => None,
    }
}

/// Copies the words of an error.
fn copy_words(words: std::result::Result<String, AllocError>, room: &mut [u8]) -> Answer
    ensures { GaveWords room.old room.new result }
{
    match words {
        Ok(words) => copy_to_front(words.as_bytes(), room),
        Err(_) => Answer::refused(&Error::OutOfMemory),
    }
}

/// The words that say why a file doesn't open: those of the error, and after a colon the text of `InvalidData`. None
/// where memory for opening it was refused.
fn reason_of(alloc: Global, error: &Error) -> std::result::Result<String, AllocError> {
    match error {
        Error::InvalidData(text) => format!(in alloc; "{error}: {text}"),
        Error::OutOfMemory => Err(AllocError),
        _ => words_of(alloc, error),
    }
}

/// Copies in words why a file doesn't open, without a zero after them, where there is room for all of them: the words
/// of [`mp4_c_error_text`], and after "invalid data: " what it is that is invalid. `count` is how many bytes they have,
/// and `filled` is `count`, or 0 where they don't fit. Of a file that opens the words are those of no error.
#[unsafe(no_mangle)]
pub extern "C" fn mp4_c_open_error_text(alloc: Global, file: &[u8], room: &mut [u8]) -> Answer
    ensures { GaveWords room.old room.new result }
{
    match opened(alloc, file) {
        Ok(_) => copy_to_front(plain_words(0).as_bytes(), room),
        Err(error) => copy_words(reason_of(alloc, &error), room),
    }
}

/// Copies what an answer says in words, without a zero after it, where there is room for all of it. `count` is how many
/// bytes it has, and `filled` is `count`, or 0 where they don't fit.
#[unsafe(no_mangle)]
pub extern "C" fn mp4_c_error_text(alloc: Global, answer: &Answer, room: &mut [u8]) -> Answer
    ensures { GaveWords room.old room.new result }
{
    match words_of_answer(alloc, answer) {
        Some(words) => copy_words(words, room),
        None => copy_to_front(plain_words(answer.code).as_bytes(), room),
    }
}
