//! What the language of a media header answers.

use crate::encoded::digits;
use crate::refusals::{Answer, outcome, refusal, refused};
use mp4_codec::{Error, Text, WriteBox};
use mp4_leaf::{MdhdBox, check_language};
use std::alloc::{AllocError, Global};
use std::str;

/// The bytes of a media header of this language.
fn header_of(alloc: Global, language: Text) -> Result<Vec<u8>, Error> {
    let mut header = MdhdBox::default(alloc)?;
    header.language = language;
    let mut out = Vec::new(alloc);
    header.write_box(&mut out)?;
    Ok(out)
}

/// The two bytes that a language is written as in a media header.
fn written(alloc: Global, language: Text) -> Result<String, AllocError> {
    match header_of(alloc, language) {
        Ok(header) => digits(alloc, header.get(28..30).unwrap_or(&[])),
        Err(error) => refusal(alloc, &error),
    }
}

/// What the language of a text answers to a question; None where that is no question.
fn answer(alloc: Global, text: &str, question: &str) -> Answer {
    let language = Text::from_str(alloc, text)?;
    match question {
        "written" => written(alloc, language).map(Some),
        "check" => outcome(alloc, &check_language(&language), "accepted").map(Some),
        _ => Ok(None),
    }
}

/// What the language that bytes are as a text answers to a question; None where that is no question.
pub fn answer_of_language(alloc: Global, bytes: &[u8], question: &str) -> Answer {
    match str::from_utf8(bytes) {
        Ok(text) => answer(alloc, text, question),
        Err(_) => refused(alloc, &Error::InvalidData("a text in UTF-8")),
    }
}
