//! The command line.

use crate::commands::{Kind, command};
use crate::files::STANDARD_STREAM;
use crate::request::{Request, Task};
use clap::{ArgMatches, Error};
use std::alloc::{AllocError, Global};
use std::fmt;
use std::fmt::Write;

/// Why words are no request.
#[derive(Drop)]
pub enum Unclear {
    /// clap's message, which is that of `--help` too.
    Message(Error),
    /// `--keep` has something that is no id of a track.
    NoId,
    /// `--keep` has this id twice.
    SameIds(u32),
    /// Standard output is to be checked.
    CheckOfOutput,
    /// There is no command.
    NoCommand,
}

impl From<AllocError> for Unclear {
    fn from(error: AllocError) -> Unclear {
        Unclear::Message(Error::from(error))
    }
}

impl From<Error> for Unclear {
    fn from(error: Error) -> Unclear {
        Unclear::Message(error)
    }
}

impl fmt::Display for Unclear {
    fn fmt<W: fmt::Write>(&self, f: &mut fmt::Formatter<W>) -> fmt::Result {
        match self {
            Unclear::Message(error) => write!(f, "{error}"),
            Unclear::NoId => {
                f.write_str(
                    "error: --keep takes ids of tracks, as 1,3: numbers from 1 to 4294967295\n",
                )
            }
            Unclear::SameIds(id) => writeln!(f, "error: --keep has {id} twice"),
            Unclear::CheckOfOutput => {
                f.write_str("error: --check reads OUT again, and standard output can't be\n")
            }
            Unclear::NoCommand => f.write_str("error: a command is required\n"),
        }
    }
}

impl Unclear {
    /// Whether it is a mistake; it is none where help was asked for.
    pub fn is_mistake(&self) -> bool {
        match self {
            Unclear::Message(error) => error.use_stderr(),
            Unclear::NoId | Unclear::SameIds(_) | Unclear::CheckOfOutput | Unclear::NoCommand =>
                true,
        }
    }
}

/// The id of a track in a word of digits.
fn id_in(word: &str) -> Result<u32, Unclear> {
    if !word.bytes().all(|byte| byte.is_ascii_digit()) {
        return Err(Unclear::NoId);
    }
    match word.parse::<u32>() {
        Ok(id) if id > 0 => Ok(id),
        _ => Err(Unclear::NoId),
    }
}

/// The ids of tracks in a text, with commas between them; none twice.
fn ids_in(alloc: Global, text: &str) -> Result<Vec<u32>, Unclear> {
    let mut ids = Vec::new(alloc);
    for word in text.split(',') {
        let id = id_in(word)?;
        if ids.contains(&id) {
            return Err(Unclear::SameIds(id));
        }
        if ids.push(id).is_err() {
            return Err(Unclear::from(AllocError));
        }
    }
    Ok(ids)
}

/// What a command of this kind makes of a file. Each argument that is required was given.
fn task_in(alloc: Global, kind: Kind, arguments: &ArgMatches<'_>) -> Result<Task, Unclear> {
    match kind {
        Kind::Faststart => Ok(Task::Front),
        Kind::Gather => Ok(Task::Gather),
        Kind::Tracks => {
            let ids = ids_in(alloc, arguments.get_str("keep").unwrap_or(""))?;
            Ok(Task::Tracks(ids))
        }
    }
}

/// The request of a command of this kind with these arguments.
fn request_of<'a>(
    alloc: Global,
    kind: Kind,
    arguments: &ArgMatches<'a>,
) -> Result<Request<'a>, Unclear> {
    let written = arguments.get_str("out").unwrap_or("");
    let check = arguments.get_flag("check");
    if check && written == STANDARD_STREAM {
        return Err(Unclear::CheckOfOutput);
    }
    let task = task_in(alloc, kind, arguments)?;
    Ok(Request {
        task,
        read: arguments.get_str("in").unwrap_or(""),
        written,
        check,
    })
}

/// The request of these words, of which the first is the program's name; or clap's message, which is that of
/// `--help` too.
pub fn request_in<'a>(alloc: Global, words: &'a [String]) -> Result<Request<'a>, Unclear> {
    let matches = command(alloc)?.try_get_matches_from(words)?;
    // A subcommand is required, so one of these is there.
    let Some((name, arguments)) = matches.subcommand() else {
        return Err(Unclear::NoCommand);
    };
    match Kind::named(name) {
        Some(kind) => request_of(alloc, kind, arguments),
        None => Err(Unclear::NoCommand),
    }
}
