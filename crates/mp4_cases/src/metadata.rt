//! What metadata says.

use crate::encoded::digits;
use crate::refusals::{Answer, refusal};
use mp4_codec::Error;
use mp4_meta::{IlstBox, Metadata};
use std::alloc::{AllocError, Global};
use std::borrow::CowStr;

/// A text as a literal.
fn text_of(
    alloc: Global,
    text: Result<Option<CowStr<'_, Global>>, Error>,
) -> Result<String, AllocError> {
    match text {
        Ok(Some(text)) => format!(in alloc; "{:?}", text.as_str()),
        Ok(None) => String::from_str(alloc, "none"),
        Err(error) => refusal(alloc, &error),
    }
}

/// A year as a number.
fn year_of(alloc: Global, year: Option<u32>) -> Result<String, AllocError> {
    match year {
        Some(year) => format!(in alloc; "{year}"),
        None => String::from_str(alloc, "none"),
    }
}

/// The bytes of a picture.
fn poster_of(alloc: Global, poster: Option<&[u8]>) -> Result<String, AllocError> {
    match poster {
        Some(bytes) => digits(alloc, bytes),
        None => String::from_str(alloc, "none"),
    }
}

/// Whether metadata is asked.
fn is_question(question: &str) -> bool {
    matches!(question, "title" | "year" | "poster" | "summary")
}

/// What metadata answers to a question; None where that is no question.
pub fn answer_of_metadata<M: Metadata>(alloc: Global, metadata: &M, question: &str) -> Answer {
    let answer = match question {
        "title" => text_of(alloc, metadata.title()),
        "year" => year_of(alloc, metadata.year()),
        "poster" => poster_of(alloc, metadata.poster()),
        "summary" => text_of(alloc, metadata.summary()),
        _ => return Ok(None),
    };
    answer.map(Some)
}

/// What the metadata of a movie answers to a question; None where that is no question.
pub fn answer_of_movie(alloc: Global, metadata: Option<&IlstBox>, question: &str) -> Answer {
    match metadata {
        Some(list) => answer_of_metadata(alloc, list, question),
        None if is_question(question) => String::from_str(alloc, "no metadata").map(Some),
        None => Ok(None),
    }
}
