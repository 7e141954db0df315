//! Answers, and calls that are refused.

use mp4_codec::Error;
use std::alloc::{AllocError, Global};

/// What is answered to a question; None where that is no question. Where memory ran out the question is asked again.
pub type Answer = Result<Option<String>, AllocError>;

/// Why a call is refused, as answers say it. Where memory ran out that is no answer: the question is asked again.
pub fn refusal(alloc: Global, error: &Error) -> Result<String, AllocError> {
    match error {
        Error::OutOfMemory => Err(AllocError),
        error => format!(in alloc; "refused: {error}"),
    }
}

/// Why a call is refused, as the answer to a question.
pub fn refused(alloc: Global, error: &Error) -> Answer {
    refusal(alloc, error).map(Some)
}

/// What a call answers that gives no value: this word, or why it is refused.
pub fn outcome(alloc: Global, call: &Result<(), Error>, done: &str) -> Result<String, AllocError> {
    match call {
        Ok(()) => String::from_str(alloc, done),
        Err(error) => refusal(alloc, error),
    }
}

/// What is said of a part of an answer: nothing where it is right, and else what is wrong.
pub fn unless(is_right: bool, fault: &str) -> &str {
    if is_right { "" } else { fault }
}
