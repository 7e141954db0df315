//! The command line.

use crate::commands::{Kind, command};
use crate::extract::TextLayout;
use crate::files::USUAL_LIMIT;
use crate::question::{ExtractRequest, MovieQuestion, Question, Request, SubtitlesRequest, Target};
use clap::{ArgMatches, Error};
use mp4_box_report::BoxesRequest;
use mp4_extract::{SampleFormat, SubtitleTimes};
use mp4_readable::DecimalTime;
use mp4_report::{First, SamplesRequest};
use std::alloc::{AllocError, Global};
use std::fmt;
use std::fmt::Write;

/// Why words are no request.
#[derive(Drop)]
pub enum Unclear {
    /// clap's message, which is that of `--help` too.
    Message(Error),
    /// `--at` has no time.
    Time,
    /// What a command requires isn't there.
    Lacking(&'static str),
}

impl From<AllocError> for Unclear {
    fn from(error: AllocError) -> Unclear {
        Unclear::Message(Error::from(error))
    }
}

impl From<Error> for Unclear {
    fn from(error: Error) -> Unclear {
        Unclear::Message(error)
    }
}

impl fmt::Display for Unclear {
    fn fmt<W: fmt::Write>(&self, f: &mut fmt::Formatter<W>) -> fmt::Result {
        match self {
            Unclear::Message(error) => write!(f, "{error}"),
            Unclear::Time => {
                f.write_str(
                    "error: --at takes seconds, as 12.5, or a time as it is shown, as 0:00:12.5\n",
                )
            }
            Unclear::Lacking(what) => write!(f, "error: {what} is required\n"),
        }
    }
}

impl Unclear {
    /// Whether it is a mistake; it is none where help was asked for.
    pub fn is_mistake(&self) -> bool {
        match self {
            Unclear::Message(error) => error.use_stderr(),
            Unclear::Time | Unclear::Lacking(_) => true,
        }
    }
}

/// What a command requires; clap refuses words without it.
fn required<T>(value: Option<T>, what: &'static str) -> Result<T, Unclear> {
    match value {
        Some(value) => Ok(value),
        None => Err(Unclear::Lacking(what)),
    }
}

/// The track that is asked for.
fn track_in(arguments: &ArgMatches<'_>) -> Result<u32, Unclear> {
    required(arguments.get_one::<u32>("track"), "a track")
}

/// Where the samples that are asked for begin.
fn first_in<'a>(arguments: &ArgMatches<'a>) -> Result<First<'a>, Unclear> {
    match arguments.get_str("at") {
        Some(time) => match DecimalTime::parse(time) {
            Some(time) => Ok(First::Time(time)),
            None => Err(Unclear::Time),
        },
        None => Ok(First::Number(arguments.get_one::<u32>("from").unwrap_or(1))),
    }
}

/// The samples that are asked for.
fn samples_in<'a>(arguments: &ArgMatches<'a>) -> Result<SamplesRequest<'a>, Unclear> {
    Ok(SamplesRequest {
        track_id: track_in(arguments)?,
        first: first_in(arguments)?,
        count: arguments.get_one::<u32>("count").unwrap_or(u32::MAX),
    })
}

/// How many bytes are read of a file that is no regular one.
fn limit_in(arguments: &ArgMatches<'_>) -> u64 {
    arguments.get_one::<u64>("limit").unwrap_or(USUAL_LIMIT)
}

/// The format that samples are written in.
fn format_in(arguments: &ArgMatches<'_>) -> SampleFormat {
    if arguments.get_flag("annexb") {
        return SampleFormat::AnnexB;
    }
    if arguments.get_flag("adts") {
        return SampleFormat::Adts;
    }
    SampleFormat::AsStored
}

/// The samples that are written. Where there is no folder, a file was given.
fn extract_in<'a>(arguments: &ArgMatches<'a>) -> Result<ExtractRequest<'a>, Unclear> {
    let target = match arguments.get_str("each") {
        Some(folder) => Target::Folder(folder),
        None => Target::File(required(arguments.get_str("out"), "a file to write")?),
    };
    Ok(ExtractRequest {
        track_id: track_in(arguments)?,
        target,
        from: arguments.get_one::<u32>("from").unwrap_or(1),
        count: arguments.get_one::<u32>("count").unwrap_or(u32::MAX),
        format: format_in(arguments),
    })
}

/// How texts are printed.
fn layout_in(arguments: &ArgMatches<'_>) -> TextLayout {
    TextLayout {
        srt: arguments.get_flag("srt"),
        times: if arguments.get_flag("decode-times") {
            SubtitleTimes::Decoded
        } else {
            SubtitleTimes::Shown
        },
    }
}

/// What a command of this kind asks.
fn question_in<'a>(kind: Kind, arguments: &ArgMatches<'a>) -> Result<Question<'a>, Unclear> {
    let json = arguments.get_flag("json");
    let question = match kind {
        Kind::Boxes => Question::Boxes {
            boxes: BoxesRequest {
                depth: arguments.get_one::<u32>("depth"),
                all: arguments.get_flag("all"),
            },
            json,
        },
        Kind::Tracks => Question::Tracks { json },
        Kind::Why => Question::Why,
        Kind::Samples => Question::Movie(MovieQuestion::Samples {
            samples: samples_in(arguments)?,
            json,
        }),
        Kind::Extract => Question::Movie(MovieQuestion::Extract(extract_in(arguments)?)),
        Kind::Subtitles => Question::Movie(MovieQuestion::Subtitles(SubtitlesRequest {
            track: track_in(arguments)?,
            layout: layout_in(arguments),
        })),
        Kind::Metadata => Question::Metadata {
            cover: arguments.get_str("cover"),
            json,
        },
    };
    Ok(question)
}

/// The request of these words, of which the first is the program's name; or clap's message, which is that of
/// `--help` too.
pub fn request_in<'a>(alloc: Global, words: &'a [String]) -> Result<Request<'a>, Unclear> {
    let matches = command(alloc)?.try_get_matches_from(words)?;
    let Some((name, arguments)) = matches.subcommand() else {
        return Err(Unclear::Lacking("a command"));
    };
    let kind = required(Kind::named(name), "a command")?;
    Ok(Request {
        file: required(arguments.get_str("file"), "a file")?,
        limit: limit_in(arguments),
        question: question_in(kind, arguments)?,
    })
}
