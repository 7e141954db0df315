//! Why something is refused, in words.

use mp4_codec::Error;
use std::alloc::{AllocError, Global};
use std::fmt;
use std::fmt::Write;

/// An error in words: as its own text says it, and what it is that means nothing.
#[derive(Clone, Copy, Debug)]
pub struct Reason<'a>(pub &'a Error);

impl<'a> fmt::Display for Reason<'a> {
    fn fmt<W: fmt::Write>(&self, f: &mut fmt::Formatter<W>) -> fmt::Result {
        match self.0 {
            Error::InvalidData(text) => write!(f, "invalid data: {text}"),
            Error::Unrepresentable(text) => write!(f, "unrepresentable: {text}"),
            error => write!(f, "{error}"),
        }
    }
}

/// An error in words.
pub fn reason_text(alloc: Global, error: &Error) -> Result<String, AllocError> {
    let reason = Reason(error);
    format!(in alloc; "{reason}")
}
