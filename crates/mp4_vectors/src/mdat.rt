//! What the header of media data answers.

use mp4_cases::encoded::digits;
use mp4_cases::refusals::Answer;
use mp4_media::mdat_header;
use std::alloc::Global;

/// What the header of media data answers to a question, whose box has so many bytes; None where that is no question.
pub fn answer_of_mdat(alloc: Global, size: &str, question: &str) -> Answer {
    match (size.parse::<u64>(), question) {
        (Ok(size), "written") => digits(alloc, &mdat_header(size)).map(Some),
        _ => Ok(None),
    }
}
