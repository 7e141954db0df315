//! What a code of four bytes answers.

use crate::refusals::{Answer, refusal};
use mp4_codec::{BoxType, Error, FourCC};
use std::alloc::{AllocError, Global};
use std::str;

/// The code that bytes are; None where they aren't four.
fn code_of(bytes: &[u8]) -> Option<FourCC> {
    match bytes {
        [a, b, c, d] => Some(FourCC::from([*a, *b, *c, *d])),
        _ => None,
    }
}

/// The code that is read from bytes as a text.
fn parsed(bytes: &[u8]) -> Result<FourCC, Error> {
    match str::from_utf8(bytes) {
        Ok(text) => text.parse::<FourCC>(),
        Err(_) => Err(Error::InvalidData("a text in UTF-8")),
    }
}

/// The same as a text, or why none is read.
fn parsed_text(alloc: Global, bytes: &[u8]) -> Result<String, AllocError> {
    match parsed(bytes) {
        Ok(code) => format!(in alloc; "{code:?}"),
        Err(error) => refusal(alloc, &error),
    }
}

/// What a code answers to a question; None where that is no question.
fn answer(alloc: Global, code: FourCC, question: &str) -> Answer {
    let number = u32::from(code);
    let kind = BoxType::from(number);
    let answer = match question {
        "value" => format!(in alloc; "{code:?}"),
        "text" => format!(in alloc; "\"{code}\""),
        "number" => format!(in alloc; "{number:08x}"),
        "code of the number" => format!(in alloc; "{:?}", FourCC::from(number)),
        "type" => format!(in alloc; "{kind:?}"),
        "text of the type" => format!(in alloc; "\"{kind}\""),
        "number of the type" => format!(in alloc; "{:08x}", u32::from(kind)),
        "code of the type" => format!(in alloc; "{:?}", FourCC::from(kind)),
        _ => return Ok(None),
    };
    answer.map(Some)
}

/// What the code that bytes are answers to a question; None where that is no question.
pub fn answer_of_code(alloc: Global, bytes: &[u8], question: &str) -> Answer {
    if question == "parsed" {
        return parsed_text(alloc, bytes).map(Some);
    }
    match code_of(bytes) {
        Some(code) => answer(alloc, code, question),
        None => Ok(None),
    }
}
