//! What headers of boxes and the children of payloads answer.

use crate::encoded::digits;
use crate::refusals::{Answer, refusal, refused};
use mp4_codec::{BoxHeader, ByteCursor, Child, Children, Error, FourCC, all_children};
use mp4_moof::MfhdBox;
use std::alloc::{AllocError, Global};
use std::fmt::Write;

/// Writes a header at the end of a buffer, and once more where memory is refused, which leaves the buffer as it was.
fn write_again(header: &BoxHeader, out: &mut Vec<u8>) -> Result<u64, Error> {
    match header.write(out) {
        Err(Error::OutOfMemory) => header.write(out),
        answer => answer,
    }
}

/// What a header is written as, after a byte that is there before; and whether the buffer is another after a refusal.
fn written(alloc: Global, header: &BoxHeader) -> Result<String, AllocError> {
    let mut out = vec![in alloc; 7u8]?;
    let written = write_again(header, &mut out);
    let text = match &written {
        Ok(8) => digits(alloc, out.get(1..).unwrap_or(&[])),
        Ok(count) => format!(in alloc; "{count} bytes"),
        Err(error) => refusal(alloc, error),
    };
    let mut text = text?;
    if written.is_err() && out.len() != 1 {
        text.push_str(", a part is written")?;
    }
    Ok(text)
}

/// What a header that was read answers to a question, after which the bytes go on at a place; None where that is no
/// question.
fn answer_of_read_header(alloc: Global, header: &BoxHeader, place: u64, question: &str) -> Answer {
    let answer = match question {
        "value" => format!(in alloc; "{header:?}"),
        "length" => format!(in alloc; "{place}"),
        "written" => written(alloc, header),
        _ => return Ok(None),
    };
    answer.map(Some)
}

/// What the header that begins bytes answers to a question; None where that is no question.
pub fn answer_of_header(alloc: Global, bytes: &[u8], question: &str) -> Answer {
    let mut cursor = ByteCursor::new(bytes);
    match BoxHeader::read(&mut cursor) {
        Ok(header) => answer_of_read_header(alloc, &header, cursor.position(), question),
        Err(error) => refused(alloc, &error),
    }
}

/// Writes a child as its type and its payload.
fn write_child(text: &mut String, alloc: Global, child: &Child) -> Result<(), AllocError> {
    let payload = digits(alloc, child.payload)?;
    write!(text, "{:?} [{payload}] / ", FourCC::from(child.name))
}

/// Writes the children of a payload one after the other, and whether it is closed after them, or why one is refused.
fn write_children(alloc: Global, text: &mut String, payload: &[u8]) -> Result<(), AllocError> {
    let mut children = Children::new(payload);
    for _ in 0..=payload.len() {
        match children.next_child() {
            Ok(Some(child)) => write_child(text, alloc, &child)?,
            Ok(None) => break,
            Err(error) => return text.push_str(refusal(alloc, &error)?.as_str()),
        }
    }
    text.push_str("closed")
}

/// The same as a text of its own.
fn listed_children(alloc: Global, payload: &[u8]) -> Result<String, AllocError> {
    let mut text = String::new(alloc);
    write_children(alloc, &mut text, payload)?;
    Ok(text)
}

/// All children of a payload that are headers of movie fragments.
fn fragment_headers(alloc: Global, payload: &[u8]) -> Result<String, AllocError> {
    match all_children::<MfhdBox>(alloc, payload) {
        Ok(headers) => format!(in alloc; "{:?}", headers.as_slice()),
        Err(error) => refusal(alloc, &error),
    }
}

/// What the children of a payload answer to a question; None where that is no question.
pub fn answer_of_children(alloc: Global, payload: &[u8], question: &str) -> Answer {
    let answer = match question {
        "value" => listed_children(alloc, payload),
        "all mfhd" => fragment_headers(alloc, payload),
        _ => return Ok(None),
    };
    answer.map(Some)
}
