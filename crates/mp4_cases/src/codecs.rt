//! What the numbers and codes of codec types stand for.

use crate::encoded::encoded_word;
use crate::refusals::{Answer, refusal};
use mp4_codec::{Error, FourCC};
use mp4_entry::{AudioObjectType, AvcProfile, ChannelConfig, SampleFreqIndex, TrackType};
use std::alloc::{AllocError, Global};
use std::fmt::{Debug, Write};

/// What a call answered.
fn told<T: Debug>(alloc: Global, value: &Result<T, Error>) -> Result<String, AllocError> {
    match value {
        Ok(value) => format!(in alloc; "{value:?}"),
        Err(error) => format!(in alloc; "refused: {error}"),
    }
}

/// The type that a number stands for, and its own number where that is another.
fn numbered<T: Debug>(
    alloc: Global,
    number: u8,
    value: &Result<T, Error>,
    own: u8,
) -> Result<String, AllocError> {
    let mut text = told(alloc, value)?;
    if own != number {
        write!(text, ", of the number {own}")?;
    }
    Ok(text)
}

/// The type of sound of a number.
fn audio_object_type(alloc: Global, number: u8) -> Result<String, AllocError> {
    let value = AudioObjectType::try_from(number);
    let own = match &value {
        Ok(value) => value.number(),
        Err(_) => number,
    };
    numbered(alloc, number, &value, own)
}

/// The channels of a number.
fn channel_config(alloc: Global, number: u8) -> Result<String, AllocError> {
    let value = ChannelConfig::try_from(number);
    let own = match &value {
        Ok(value) => value.number(),
        Err(_) => number,
    };
    numbered(alloc, number, &value, own)
}

/// The frequency of an index, and its hertz.
fn sample_freq_index(alloc: Global, number: u8) -> Result<String, AllocError> {
    let value = SampleFreqIndex::try_from(number);
    let Ok(index) = &value else {
        return told(alloc, &value);
    };
    let mut text = numbered(alloc, number, &value, index.number())?;
    write!(text, ", {} Hz", index.freq())?;
    Ok(text)
}

/// The profile of video of two bytes: its number and the compatibility.
fn avc_profile(alloc: Global, question: &str) -> Answer {
    match encoded_word(alloc, question)?.as_slice() {
        [profile, compatibility] => {
            told(alloc, &AvcProfile::try_from((*profile, *compatibility))).map(Some)
        },
        _ => Ok(None),
    }
}

/// The type of track of a handler, by its name, and its own handler where that is another.
fn track_type_of(alloc: Global, handler: FourCC) -> Result<String, AllocError> {
    match TrackType::try_from(&handler) {
        Ok(value) if FourCC::from(value) == handler => format!(in alloc; "{value}"),
        Ok(value) => format!(in alloc; "{value}, of another handler"),
        Err(error) => refusal(alloc, &error),
    }
}

/// The type of track of a handler of four bytes.
fn track_type(alloc: Global, question: &str) -> Answer {
    match encoded_word(alloc, question)?.as_slice() {
        [a, b, c, d] => track_type_of(alloc, FourCC::from([*a, *b, *c, *d])).map(Some),
        _ => Ok(None),
    }
}

/// What a number stands for among the types of a name.
fn answer_of_number(alloc: Global, types: &str, question: &str) -> Answer {
    let Ok(number) = question.parse::<u8>() else {
        return Ok(None);
    };
    let answer = match types {
        "audio_object_type" => audio_object_type(alloc, number),
        "channel_config" => channel_config(alloc, number),
        "sample_freq_index" => sample_freq_index(alloc, number),
        _ => return Ok(None),
    };
    answer.map(Some)
}

/// What a number or a code stands for among the types of a name; None where it is no number, or the name isn't known.
pub fn answer_of_codec(alloc: Global, types: &str, question: &str) -> Answer {
    match types {
        "avc_profile" => avc_profile(alloc, question),
        "track_type" => track_type(alloc, question),
        _ => answer_of_number(alloc, types, question),
    }
}
