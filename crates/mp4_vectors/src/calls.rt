//! Calls of a writer, as cases write them.

use bytes::Bytes;
use mp4_cases::encoded::{encoded_word, encoded_words};
use mp4_cases::media::media_of;
use mp4_media::{Mp4Sample, Text, TrackConfig, TrackType, WriterCall};
use std::alloc::{AllocError, Global};
use std::str;

/// The kind of a track.
fn track_type_of(word: &str) -> Option<TrackType> {
    match word {
        "audio" => Some(TrackType::Audio),
        "subtitle" => Some(TrackType::Subtitle),
        "video" => Some(TrackType::Video),
        _ => None,
    }
}

/// The language that bytes encode.
fn language_of(alloc: Global, word: &str) -> Result<Option<Text>, AllocError> {
    match str::from_utf8(&encoded_word(alloc, word)?) {
        Ok(language) => Text::from_str(alloc, language).map(Some),
        Err(_) => Ok(None),
    }
}

/// Puts a value in the place of another. Whether there is one.
fn set<T: Drop>(place: &mut T, value: Option<T>) -> bool {
    match value {
        Some(value) => {
            *place = value;
            true
        }
        None => false,
    }
}

/// Changes what a track is added with: `timescale 3`, `language 'eng'` or `type video`. Whether that is such a change.
fn set_option(alloc: Global, config: &mut TrackConfig, option: &str) -> Result<bool, AllocError> {
    Ok(match option.split_once(' ') {
        Some(("timescale", number)) => set(&mut config.timescale, number.parse::<u32>().ok()),
        Some(("language", word)) => set(&mut config.language, language_of(alloc, word)?),
        Some(("type", word)) => set(&mut config.track_type, track_type_of(word)),
        _ => false,
    })
}

/// What a track is added with: its media, and after commas what differs from 1000 ticks a second, the language `und`
/// and the kind of track of such media.
fn track_of(alloc: Global, text: &str) -> Result<Option<TrackConfig>, AllocError> {
    let (media, options) = text.split_once(", ").unwrap_or((text, ""));
    let Some(media) = media_of(alloc, media)? else {
        return Ok(None);
    };
    let Ok(mut config) = TrackConfig::from_media(alloc, media) else {
        return Err(AllocError);
    };
    let mut is_track = true;
    for option in options.split(", ") {
        if !option.is_empty() {
            is_track = set_option(alloc, &mut config, option)? && is_track;
        }
    }
    Ok(if is_track { Some(config) } else { None })
}

/// The id of a track, and the sample whose words are these, with a start time that a writer doesn't look at.
fn sample_of(
    alloc: Global,
    id: &str,
    times: (&str, &str),
    sync: &str,
    bytes: &[&str],
) -> Result<Option<WriterCall>, AllocError> {
    let (Ok(id), Ok(duration), Ok(rendering_offset)) = (
        id.parse::<u32>(),
        times.0.parse::<u32>(),
        times.1.parse::<i32>(),
    ) else {
        return Ok(None);
    };
    let bytes = encoded_words(alloc, bytes)?;
    let sample = Mp4Sample {
        start_time: 77,
        duration,
        rendering_offset,
        is_sync: sync == "sync",
        bytes: Bytes::copy_from_slice(alloc, &bytes)?,
    };
    Ok(Some(WriterCall::WriteSample(id, sample)))
}

/// The call that a text writes: `add_track ttxt, timescale 3`; `write_sample 1 500 0 sync 'abc'`, with the id of the
/// track, duration, rendering offset, `sync` or `-`, and bytes; or `write_end`. None where it is no call.
pub fn call_of(alloc: Global, text: &str) -> Result<Option<WriterCall>, AllocError> {
    if let Some(track) = text.strip_prefix("add_track ") {
        return Ok(track_of(alloc, track)?.map(WriterCall::AddTrack));
    }
    let words: Vec<&str> = text.split(' ').collect(alloc)?;
    match words.as_slice() {
        ["write_sample", id, duration, offset, sync, bytes @ ..] => {
            sample_of(alloc, id, (duration, offset), sync, bytes)
        },
        ["write_end"] => Ok(Some(WriterCall::WriteEnd)),
        _ => Ok(None),
    }
}
