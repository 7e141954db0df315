//! What a writer and the plain model make of the calls that a test writes down.

use crate::writer_calls::{config_of, make};
use mp4_codec::{Error, Result};
use mp4_media::Mp4Writer;
use mp4_plain_movies::calls::{Beginning, Call};
use mp4_plain_movies::encoded::hex;
use mp4_plain_movies::plain_movie::PlainMovie;
use std::alloc::Global;
use std::process::Abort;

/// Whether an answer is the one that the model gives, the texts of refusals left out.
pub fn is_expected(answer: &Result<()>, expected: &Option<Error>) -> bool {
    match (answer, expected) {
        (Ok(()), None) => true,
        (Err(Error::Unrepresentable(_)), Some(Error::Unrepresentable(_))) => true,
        (Err(error), Some(refusal)) => error == refusal,
        _ => false,
    }
}

/// Makes a call of both. Whether they answer the same.
pub fn answers_alike<'a>(
    rt: &impl Abort,
    alloc: Global,
    writer: &mut Mp4Writer,
    movie: &mut PlainMovie<'a>,
    call: &Call<'a>,
) -> bool {
    let expected = movie.make(call).expect(rt, "memory");
    is_expected(&make(rt, alloc, writer, call), &expected)
}

/// Makes calls and an end, of which some may be refused.
fn make_all(rt: &impl Abort, alloc: Global, writer: &mut Mp4Writer, calls: &[Call]) {
    for call in calls {
        let _ = make(rt, alloc, writer, call);
    }
    let _ = writer.write_end();
}

/// A writer of a movie after the bytes of a buffer.
pub fn begun(rt: &impl Abort, alloc: Global, buffer: &[u8], beginning: &Beginning) -> Mp4Writer {
    let buffer = buffer.to_vec(alloc).expect(rt, "memory");
    let config = config_of(rt, alloc, beginning);
    Mp4Writer::write_start(alloc, buffer, &config).expect(rt, "a writer")
}

/// The bytes that a writer makes of these calls and an end.
pub fn written(
    rt: &impl Abort,
    alloc: Global,
    buffer: &[u8],
    beginning: &Beginning,
    calls: &[Call],
) -> Vec<u8> {
    let mut writer = begun(rt, alloc, buffer, beginning);
    make_all(rt, alloc, &mut writer, calls);
    writer.into_writer()
}

/// The model's movie after these calls, of which some may be refused.
pub fn movie_of<'a>(
    rt: &impl Abort,
    alloc: Global,
    buffer: &[u8],
    beginning: &Beginning,
    calls: &[Call<'a>],
) -> PlainMovie<'a> {
    let mut movie = PlainMovie::begin(alloc, buffer, beginning).expect(rt, "memory");
    for call in calls {
        let _ = movie.make(call).expect(rt, "memory");
    }
    movie
}

/// The place after bytes that are looked for from a place on.
fn end_of(bytes: &[u8], from: usize, piece: &[u8]) -> Option<usize> {
    for start in from..bytes.len() {
        let end = start.wrapping_add(piece.len());
        if bytes.get(start..end) == Some(piece) {
            return Some(end);
        }
    }
    None
}

/// Whether bytes have all that these texts encode, one after the other, perhaps with others between
/// them.
pub fn have_in_order(rt: &impl Abort, alloc: Global, bytes: &[u8], texts: &[&str]) -> bool {
    let mut from = 0usize;
    for text in texts {
        let piece = hex(alloc, text).expect(rt, "memory");
        match end_of(bytes, from, &piece) {
            Some(end) => from = end,
            None => return false,
        }
    }
    true
}
