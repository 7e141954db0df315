//! What a writer of movies answers to its calls, and what the file is that it wrote.

use crate::calls::call_of;
use crate::scripts::answer_of_made;
use mp4_cases::encoded::encoded_word;
use mp4_cases::refusals::{Answer, outcome, refused};
use mp4_media::{Error, FourCC, Items, Mp4Config, Mp4Writer, WriterCall};
use std::alloc::{AllocError, Global};

/// What a writer begins with: the bytes of its buffer, and what its movie is begun with.
#[derive(Drop)]
struct Beginning {
    buffer: Vec<u8>,
    config: Mp4Config,
}

/// Whether a question is a call of a writer.
pub fn is_call(question: &str) -> bool {
    question == "write_end"
        || question.starts_with("add_track ")
        || question.starts_with("write_sample ")
}

/// The four bytes of a code.
fn code_of(bytes: &[u8]) -> Option<FourCC> {
    match bytes {
        [a, b, c, d] => Some(FourCC::from([*a, *b, *c, *d])),
        _ => None,
    }
}

/// The codes that bytes are.
fn codes_of(alloc: Global, bytes: &[u8]) -> Result<Items<FourCC>, AllocError> {
    let mut codes = Items::new(alloc);
    for four in bytes.chunks(4) {
        if let Some(code) = code_of(four) {
            codes.push(code)?;
        }
    }
    Ok(codes)
}

/// What a movie is begun with: major brand, its version, all brands, and ticks in a second.
fn config_of(
    alloc: Global,
    major_brand: &str,
    version: &str,
    brands: &str,
    timescale: &str,
) -> Result<Option<Mp4Config>, AllocError> {
    let major_brand = encoded_word(alloc, major_brand)?;
    let Some(major_brand) = code_of(&major_brand) else {
        return Ok(None);
    };
    let (Ok(minor_version), Ok(timescale)) = (version.parse::<u32>(), timescale.parse::<u32>())
    else {
        return Ok(None);
    };
    let brands = encoded_word(alloc, brands)?;
    Ok(Some(Mp4Config {
        major_brand,
        minor_version,
        compatible_brands: codes_of(alloc, &brands)?,
        timescale,
    }))
}

/// The beginning that a text writes: `'isom' 512 'isommp41' timescale 1000`, and where it is so `after 'ab'`, the bytes
/// of the buffer.
fn beginning_of(alloc: Global, text: &str) -> Result<Option<Beginning>, AllocError> {
    let words: Vec<&str> = text.split(' ').collect(alloc)?;
    let [brand, version, brands, "timescale", timescale, more @ ..] = words.as_slice() else {
        return Ok(None);
    };
    let buffer = match more {
        [] => Vec::new(alloc),
        ["after", buffer] => encoded_word(alloc, buffer)?,
        _ => return Ok(None),
    };
    match config_of(alloc, brand, version, brands, timescale)? {
        Some(config) => Ok(Some(Beginning { buffer, config })),
        None => Ok(None),
    }
}

/// The calls of a list; None where one is no call.
fn calls_of(alloc: Global, texts: &[&str]) -> Result<Option<Vec<WriterCall>>, AllocError> {
    let mut calls = Vec::new(alloc);
    for text in texts {
        match call_of(alloc, text)? {
            Some(call) => calls.push(call)?,
            None => return Ok(None),
        }
    }
    Ok(Some(calls))
}

/// Makes a call, and makes it once more where memory is refused: that leaves the writer as it was.
fn perform_again(writer: &mut Mp4Writer, call: &WriterCall) -> Result<(), Error> {
    match writer.perform(call) {
        Err(Error::OutOfMemory) => writer.perform(call),
        answer => answer,
    }
}

/// Makes calls, and answers what the last one is answered.
fn perform_all(writer: &mut Mp4Writer, calls: &[WriterCall]) -> Result<(), Error> {
    let mut reply = Ok(());
    for call in calls {
        reply = perform_again(writer, call);
    }
    reply
}

/// What a writer answers to a question after its calls: to its last call its reply, and to any other what its bytes
/// are.
fn answer_after(alloc: Global, writer: Mp4Writer, calls: &[WriterCall], question: &str) -> Answer {
    let mut writer = writer;
    let reply = perform_all(&mut writer, calls);
    if is_call(question) {
        return outcome(alloc, &reply, "ok").map(Some);
    }
    answer_of_made(alloc, &writer.into_writer(), question)
}

/// The same of the writer that a text begins; None where it begins none.
fn answer_of_calls(alloc: Global, beginning: &str, calls: &[WriterCall], question: &str) -> Answer {
    let Some(Beginning { buffer, config }) = beginning_of(alloc, beginning)? else {
        return Ok(None);
    };
    match Mp4Writer::write_start(alloc, buffer, &config) {
        Ok(writer) => answer_after(alloc, writer, calls, question),
        Err(error) => refused(alloc, &error),
    }
}

/// What a writer answers to a question, whose beginning and calls are the parts of these words; None where they aren't
/// any.
pub fn answer_of_writer(alloc: Global, words: &str, question: &str) -> Answer {
    let texts: Vec<&str> = words.split(" / ").collect(alloc)?;
    let [beginning, calls @ ..] = texts.as_slice() else {
        return Ok(None);
    };
    match calls_of(alloc, calls)? {
        Some(calls) => answer_of_calls(alloc, beginning, &calls, question),
        None => Ok(None),
    }
}
