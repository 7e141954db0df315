//! What the reports of a file answer.

use crate::extracted::{Asked, extracted, extracted_into, format_of, texts};
use crate::files::number;
use mp4_box_report::{BoxesError, BoxesRequest, why_of, write_boxes};
use mp4_cases::refusals::{Answer, refusal};
use mp4_extract::{SampleFormat, SubtitleTimes};
use mp4_media::{FileError, Mp4File};
use mp4_readable::{DecimalTime, Grouped, TickClock, json_text};
use mp4_report::{
    First, PrintError, SamplesRequest, Tag, metadata_of, tags_of, tracks_of, tracks_past_end,
    write_samples,
};
use serde::Serialize;
use std::alloc::{AllocError, Global};
use std::fmt::{Display, Write};
use std::io;
use std::io::ErrorKind;

/// A report as a text or as JSON, which memory alone is refused to.
fn printed<T: Display + Serialize>(
    alloc: Global,
    report: &T,
    form: &str,
) -> Result<String, AllocError> {
    if form != "json" {
        return format!(in alloc; "{report}");
    }
    match json_text(alloc, report) {
        Ok(bytes) => String::from_utf8_lossy(alloc, bytes.as_slice()),
        Err(_) => Err(AllocError),
    }
}

/// Why reading or writing is refused, as answers say it. Where memory ran out that is no answer.
fn io_refusal(alloc: Global, error: &io::Error) -> Result<String, AllocError> {
    if error.kind() == ErrorKind::OutOfMemory {
        return Err(AllocError);
    }
    format!(in alloc; "refused: {error}")
}

/// Why a file is refused, as answers say it. Where memory ran out that is no answer.
fn file_refusal(alloc: Global, error: &FileError) -> Result<String, AllocError> {
    match error {
        FileError::Mp4(error) => refusal(alloc, error),
        FileError::Io(error) => io_refusal(alloc, error),
    }
}

/// The movie of these bytes.
pub fn opened(alloc: Global, bytes: &[u8]) -> Result<Mp4File<&[u8]>, FileError> {
    Mp4File::open(alloc, bytes, 0, bytes.len() as u64)
}

fn boxes(
    alloc: Global,
    bytes: &[u8],
    depth: Option<u32>,
    all: bool,
    form: &str,
) -> Result<String, AllocError> {
    let request = BoxesRequest { depth, all };
    let mut out = Vec::new(alloc);
    match write_boxes(alloc, bytes, request, form == "json", &mut out) {
        Ok(()) => String::from_utf8_lossy(alloc, out.as_slice()),
        Err(BoxesError::Read(error)) => file_refusal(alloc, &error),
        Err(BoxesError::Write(error)) => io_refusal(alloc, &error),
    }
}

fn tracks(alloc: Global, movie: &Mp4File<&[u8]>, form: &str) -> Result<String, AllocError> {
    let report = tracks_of(alloc, movie, movie.source_len())?;
    printed(alloc, &report, form)
}

/// What an opened movie says of its work, which has these tags.
fn metadata_of_tags(
    alloc: Global,
    movie: &Mp4File<&[u8]>,
    tags: Vec<Tag>,
    form: &str,
) -> Result<String, AllocError> {
    match metadata_of(alloc, movie, tags) {
        Ok(report) => printed(alloc, &report, form),
        Err(error) => refusal(alloc, &error),
    }
}

fn metadata(alloc: Global, bytes: &[u8], form: &str) -> Result<String, AllocError> {
    let tags = match tags_of(alloc, bytes) {
        Ok(tags) => tags,
        Err(error) => return file_refusal(alloc, &error),
    };
    match opened(alloc, bytes) {
        Ok(movie) => metadata_of_tags(alloc, &movie, tags, form),
        Err(error) => file_refusal(alloc, &error),
    }
}

fn samples(
    alloc: Global,
    movie: &Mp4File<&[u8]>,
    request: SamplesRequest,
    form: &str,
) -> Result<String, AllocError> {
    let file_size = movie.source_len();
    let mut out = Vec::new(alloc);
    match write_samples(alloc, movie, file_size, request, form == "json", &mut out) {
        Ok(()) => String::from_utf8_lossy(alloc, out.as_slice()),
        Err(PrintError::Movie(error)) => refusal(alloc, &error),
        Err(PrintError::Write(error)) => io_refusal(alloc, &error),
    }
}

/// A line for each track that has samples past the end of the file; `none` where none has.
fn past_end(alloc: Global, movie: &Mp4File<&[u8]>) -> Result<String, AllocError> {
    let mut lines = String::new(alloc);
    for track in tracks_past_end(alloc, movie, movie.source_len())?.iter() {
        writeln!(lines, "{track}")?;
    }
    if lines.is_empty() {
        lines.push_str("none")?;
    }
    Ok(lines)
}

fn why(alloc: Global, bytes: &[u8]) -> Result<String, AllocError> {
    match why_of(alloc, bytes) {
        Ok(Some(report)) => format!(in alloc; "{report}"),
        Ok(None) => String::from_str(alloc, "opens"),
        Err(error) => file_refusal(alloc, &error),
    }
}

/// A number with its groups, as reports show it.
fn grouped(alloc: Global, word: &str) -> Result<String, AllocError> {
    let number = Grouped(word.parse::<u64>().unwrap_or(0));
    format!(in alloc; "{number}")
}

/// A time in ticks, as a clock shows it.
fn clock(alloc: Global, ticks: &str, timescale: &str) -> Result<String, AllocError> {
    let clock = TickClock {
        ticks: i128::from(ticks.parse::<i64>().unwrap_or(0)),
        timescale: number(timescale),
    };
    format!(in alloc; "{clock}")
}

/// The last tick at or before a time.
fn ticks(alloc: Global, time: &str, timescale: &str) -> Result<String, AllocError> {
    match DecimalTime::parse(time) {
        Some(time) => format!(in alloc; "{}", time.ticks(number(timescale))),
        None => String::from_str(alloc, "no time"),
    }
}

/// The form of a report whose question has these words after its name; `None` where they are others.
fn form_of(more: &[&str]) -> Option<&'static str> {
    match more {
        [] => Some("text"),
        ["json"] => Some("json"),
        _ => None,
    }
}

/// The boxes of the file of these bytes, by the words after `boxes`; `None` where they are no question.
fn boxes_by_words(
    alloc: Global,
    bytes: &[u8],
    more: &[&str],
) -> Option<Result<String, AllocError>> {
    match more {
        ["all"] => Some(boxes(alloc, bytes, None, true, "text")),
        ["to", depth] => Some(boxes(alloc, bytes, Some(number(depth)), false, "text")),
        _ => Some(boxes(alloc, bytes, None, false, form_of(more)?)),
    }
}

/// The samples from a time on, as many as are asked for.
fn samples_at(
    alloc: Global,
    movie: &Mp4File<&[u8]>,
    track_id: u32,
    seconds: &str,
    count: u32,
) -> Result<String, AllocError> {
    let Some(time) = DecimalTime::parse(seconds) else {
        return String::from_str(alloc, "no time");
    };
    let request = SamplesRequest {
        track_id,
        first: First::Time(time),
        count,
    };
    samples(alloc, movie, request, "text")
}

/// The samples of a track, by the words after its id; `None` where they are no question.
fn samples_by_words(
    alloc: Global,
    movie: &Mp4File<&[u8]>,
    track_id: u32,
    more: &[&str],
) -> Option<Result<String, AllocError>> {
    let (from, count, form) = match more {
        ["from", from, "count", count] => (number(from), number(count), "text"),
        ["at", seconds, "count", count] => {
            return Some(samples_at(alloc, movie, track_id, seconds, number(count)));
        }
        _ => (1, u32::MAX, form_of(more)?),
    };
    let request = SamplesRequest {
        track_id,
        first: First::Number(from),
        count,
    };
    Some(samples(alloc, movie, request, form))
}

/// What is extracted of a track, by the words after its id; `None` where they are no question.
fn extracted_by_words(
    alloc: Global,
    movie: &mut Mp4File<&[u8]>,
    format: SampleFormat,
    track: u32,
    more: &[&str],
) -> Option<Result<String, AllocError>> {
    let (from, count) = match more {
        [] => (1, u32::MAX),
        ["from", from, "count", count] => (number(from), number(count)),
        ["into", room, "bytes"] => {
            let room = number(room) as usize;
            return Some(extracted_into(alloc, movie, track, format, room));
        }
        _ => return None,
    };
    let asked = Asked { track, from, count };
    Some(extracted(alloc, movie, asked, format))
}

/// The texts of a track, by the words after its id; `None` where they are no question.
fn texts_by_words(
    alloc: Global,
    movie: &mut Mp4File<&[u8]>,
    track: u32,
    more: &[&str],
) -> Option<Result<String, AllocError>> {
    let (srt, times) = match more {
        [] => (false, SubtitleTimes::Shown),
        ["srt"] => (true, SubtitleTimes::Shown),
        ["decoded"] => (false, SubtitleTimes::Decoded),
        _ => return None,
    };
    Some(texts(alloc, movie, track, srt, times))
}

/// What an opened movie answers to the words of a question; `None` where they are no question.
fn answer_of_movie(
    alloc: Global,
    movie: &mut Mp4File<&[u8]>,
    name: &str,
    more: &[&str],
) -> Option<Result<String, AllocError>> {
    match (name, more) {
        ("tracks", _) => Some(tracks(alloc, movie, form_of(more)?)),
        ("samples", [track, more @ ..]) => samples_by_words(alloc, movie, number(track), more),
        ("subtitles", [track, more @ ..]) => texts_by_words(alloc, movie, number(track), more),
        ("extract", [format, track, more @ ..]) => {
            extracted_by_words(alloc, movie, format_of(format), number(track), more)
        }
        ("past", ["the", "end"]) => Some(past_end(alloc, movie)),
        _ => None,
    }
}

/// The same of the movie of these bytes, or why it isn't opened.
fn answer_of_opened(
    alloc: Global,
    bytes: &[u8],
    name: &str,
    more: &[&str],
) -> Option<Result<String, AllocError>> {
    match opened(alloc, bytes) {
        Ok(mut movie) => answer_of_movie(alloc, &mut movie, name, more),
        Err(error) => Some(file_refusal(alloc, &error)),
    }
}

/// What the file of these bytes answers to the words of a question; `None` where they are no question. The first word
/// says which it is: a pattern of several words for each would be proved at every one of them.
fn answer_of_words(
    alloc: Global,
    bytes: &[u8],
    words: &[&str],
) -> Option<Result<String, AllocError>> {
    let (name, more) = words.split_first()?;
    match (*name, more) {
        ("boxes", _) => boxes_by_words(alloc, bytes, more),
        ("metadata", _) => Some(metadata(alloc, bytes, form_of(more)?)),
        ("why", []) => Some(why(alloc, bytes)),
        ("grouped", [number]) => Some(grouped(alloc, number)),
        ("clock", [ticks, "of", timescale]) => Some(clock(alloc, ticks, timescale)),
        ("ticks", ["of", time, "of", timescale]) => Some(ticks(alloc, time, timescale)),
        (name, _) => answer_of_opened(alloc, bytes, name, more),
    }
}

/// What the reports of the file of these bytes answer to a question, or why it is refused; `None` where that is no
/// question.
pub fn answer_of_report(alloc: Global, bytes: &[u8], question: &str) -> Answer {
    let words: Vec<&str> = question.split(' ').collect(alloc)?;
    match answer_of_words(alloc, bytes, words.as_slice()) {
        Some(answer) => answer.map(Some),
        None => Ok(None),
    }
}
