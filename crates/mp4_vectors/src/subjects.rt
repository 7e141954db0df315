//! What cases are about, and who answers their questions.

use crate::files::answer_of_file;
use crate::mdat::answer_of_mdat;
use crate::reports::answer_of_report;
use crate::scripts::{answer_of_script, script_of};
use crate::writers::answer_of_writer;
use mp4_cases::codecs::answer_of_codec;
use mp4_cases::codes::answer_of_code;
use mp4_cases::configs::answer_of_config;
use mp4_cases::defaults::answer_of_default;
use mp4_cases::encoded::{Names, encoded};
use mp4_cases::fields::answer_of_fields;
use mp4_cases::fixed_point::{answer_of_i8, answer_of_u8, answer_of_u16};
use mp4_cases::framing::{answer_of_children, answer_of_header};
use mp4_cases::kinds::answer_of_box;
use mp4_cases::languages::answer_of_language;
use mp4_cases::refusals::Answer;
use std::alloc::{AllocError, Global};

/// What is asked.
#[derive(Clone, Copy, Debug, Drop)]
pub enum Subject {
    Box,
    Children,
    Code,
    Codec,
    Config,
    Default,
    Fields,
    File,
    FixedI8,
    FixedU8,
    FixedU16,
    Header,
    Language,
    Mdat,
    Report,
    Script,
    Writer,
}

/// The subject that a word begins; None where it begins none.
pub fn subject_of(word: &str) -> Option<Subject> {
    match word {
        "box" => Some(Subject::Box),
        "children" => Some(Subject::Children),
        "code" => Some(Subject::Code),
        "codec" => Some(Subject::Codec),
        "config" => Some(Subject::Config),
        "default" => Some(Subject::Default),
        "fields" => Some(Subject::Fields),
        "file" => Some(Subject::File),
        "header" => Some(Subject::Header),
        "i8.8" => Some(Subject::FixedI8),
        "language" => Some(Subject::Language),
        "mdat" => Some(Subject::Mdat),
        "report" => Some(Subject::Report),
        "script" => Some(Subject::Script),
        "u8.8" => Some(Subject::FixedU8),
        "u16.16" => Some(Subject::FixedU16),
        "writer" => Some(Subject::Writer),
        _ => None,
    }
}

/// The bytes that the words of a subject encode, none where they encode no bytes by their kind; None where they should.
pub fn bytes_of(
    alloc: Global,
    names: &Names,
    subject: Subject,
    words: &str,
) -> Result<Option<Vec<u8>>, AllocError> {
    match subject {
        Subject::Codec | Subject::Config | Subject::Default | Subject::Mdat | Subject::Writer => {
            Ok(Some(Vec::new(alloc)))
        }
        Subject::Script => script_of(alloc, words),
        _ => encoded(alloc, names, words),
    }
}

/// What a subject answers to a question; None where that is no question. `words` is what is after the subject's
/// word, and `bytes` is what they encode if they encode bytes.
pub fn answer(
    alloc: Global,
    subject: Subject,
    words: &str,
    bytes: &[u8],
    question: &str,
) -> Answer {
    match subject {
        Subject::Box => answer_of_box(alloc, bytes, question),
        Subject::Children => answer_of_children(alloc, bytes, question),
        Subject::Code => answer_of_code(alloc, bytes, question),
        Subject::Codec => answer_of_codec(alloc, words, question),
        Subject::Config => answer_of_config(alloc, words, question),
        Subject::Default => answer_of_default(alloc, words, question),
        Subject::Fields => answer_of_fields(alloc, bytes, question),
        Subject::File => answer_of_file(alloc, bytes, question),
        Subject::FixedI8 => answer_of_i8(alloc, bytes, question),
        Subject::FixedU8 => answer_of_u8(alloc, bytes, question),
        Subject::FixedU16 => answer_of_u16(alloc, bytes, question),
        Subject::Header => answer_of_header(alloc, bytes, question),
        Subject::Language => answer_of_language(alloc, bytes, question),
        Subject::Mdat => answer_of_mdat(alloc, words, question),
        Subject::Report => answer_of_report(alloc, bytes, question),
        Subject::Script => answer_of_script(alloc, bytes, question),
        Subject::Writer => answer_of_writer(alloc, words, question),
    }
}
