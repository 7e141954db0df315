//! What a configuration of a track answers.

use crate::boxes::{copy_of, made};
use crate::media::media_of;
use crate::refusals::{Answer, outcome};
use mp4_codec::BoxType;
use mp4_entry::{Avc1Box, Hev1Box, MediaConfig, Mp4aBox, StsdBox, Tx3gBox, Vp09Box};
use std::alloc::Global;

/// What the sample entry of a configuration answers.
fn answer_of_entry(alloc: Global, config: &MediaConfig, question: &str) -> Answer {
    match config {
        MediaConfig::AvcConfig(config) => made(alloc, Avc1Box::new(alloc, config), question),
        MediaConfig::HevcConfig(config) => made(alloc, Hev1Box::new(alloc, config), question),
        MediaConfig::Vp9Config(config) => made(alloc, Vp09Box::new(alloc, config), question),
        MediaConfig::AacConfig(config) => made(alloc, Ok(Mp4aBox::new(config)), question),
        MediaConfig::TtxtConfig(config) => made(alloc, Ok(Tx3gBox::new(config)), question),
    }
}

/// The type of a configuration's track, of its media, or of its sample entry; None where that isn't asked.
fn type_of(alloc: Global, config: &MediaConfig, question: &str) -> Answer {
    let answer = match question {
        "track_type" => format!(in alloc; "{}", config.track_type()),
        "media_type" => format!(in alloc; "{:?}", config.media_type()),
        "box_type" => format!(in alloc; "{}", BoxType::from(config.media_type())),
        _ => return Ok(None),
    };
    answer.map(Some)
}

/// What a configuration answers to a question; None where that is no question.
fn answer(alloc: Global, config: &MediaConfig, question: &str) -> Answer {
    match question {
        "check" => outcome(alloc, &config.check(), "accepted").map(Some),
        "copy" => copy_of(alloc, config).map(Some),
        "track_type" | "media_type" | "box_type" => type_of(alloc, config, question),
        _ => match question.strip_suffix(" stsd") {
            Some(question) => made(alloc, StsdBox::new(alloc, config), question),
            None => answer_of_entry(alloc, config, question),
        },
    }
}

/// What a configuration of media answers to a question; None where that is no question, or the words are no
/// configuration.
///
/// `value`, `size` and `written` are those of the sample entry, and with ` stsd` those of the sample description.
pub fn answer_of_config(alloc: Global, words: &str, question: &str) -> Answer {
    match media_of(alloc, words)? {
        Some(config) => answer(alloc, &config, question),
        None => Ok(None),
    }
}
