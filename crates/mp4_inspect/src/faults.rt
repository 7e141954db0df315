//! Why a command gives no report.

use mp4_box_report::{BoxesError, WhyReport};
use mp4_extract::ExtractError;
use mp4_media::{Error, FileError, Movie};
use mp4_readable::{Grouped, Reason};
use mp4_report::PrintError;
use std::alloc::{AllocError, Global};
use std::fmt::Write;
use std::io;
use std::io::ErrorKind;
use thiserror::Error as ThisError;

/// Why a command gives no report.
#[derive(Debug, Drop, ThisError)]
pub enum Fault {
    /// The file can't be opened, or isn't read to its end.
    #[error("cannot read it: {0}")]
    CannotRead(io::Error),
    /// What isn't a regular file has more bytes than are read of it.
    #[error("it is no regular file and has more than {} bytes; --limit N reads more", Grouped(*.0))]
    PastLimit(u64),
    /// A file that the command makes can't be written whole.
    #[error("cannot write: {0}")]
    CannotWrite(io::Error),
    /// The file that is to be written is the one that is read.
    #[error("it is the file that is read, and isn't written over")]
    SameFile,
    /// Standard output can't be written.
    #[error("cannot write: {0}")]
    CannotPrint(io::Error),
    /// Samples aren't extracted.
    #[error("{0}")]
    Extract(#[from] ExtractError),
    /// A track that is asked for isn't there, or memory ran out.
    #[error("{}", Reason(.0))]
    Movie(#[from] Error),
    /// The file has no track with this id, but those of these words.
    #[error("there is no track {0}: {1}")]
    NoTrack(u32, String),
    /// The file doesn't open.
    #[error("{0}")]
    Broken(WhyReport),
    /// The file has no picture.
    #[error("no picture to write")]
    NoCover,
}

/// What the fault is about.
#[derive(Clone, Copy, Debug, PartialEq, Eq)]
pub enum Subject {
    /// The file that is read.
    Read,
    /// The file or the folder that is written.
    Written,
    StandardOutput,
}

impl From<BoxesError> for Fault {
    fn from(error: BoxesError) -> Fault {
        match error {
            BoxesError::Read(error) => Fault::from(error),
            BoxesError::Write(error) => Fault::of_printing(error),
        }
    }
}

impl From<PrintError> for Fault {
    fn from(error: PrintError) -> Fault {
        match error {
            PrintError::Movie(error) => Fault::Movie(error),
            PrintError::Write(error) => Fault::of_printing(error),
        }
    }
}

impl From<FileError> for Fault {
    fn from(error: FileError) -> Fault {
        match error {
            FileError::Mp4(error) => Fault::Movie(error),
            FileError::Io(error) => Fault::CannotRead(error),
        }
    }
}

impl Fault {
    /// Why something can't be printed: where it had no memory, that is why.
    pub fn of_printing(error: io::Error) -> Fault {
        if error.kind() == ErrorKind::OutOfMemory {
            return Fault::Movie(Error::OutOfMemory);
        }
        Fault::CannotPrint(error)
    }

    /// Why something can't be written, if it can't.
    fn write_error(&self) -> Option<&io::Error> {
        match self {
            Fault::CannotWrite(error) | Fault::CannotPrint(error) => Some(error),
            Fault::Extract(ExtractError::Write(_, error)) => Some(error),
            _ => None,
        }
    }

    /// What the fault is about.
    pub fn subject(&self) -> Subject {
        match self {
            Fault::CannotPrint(_) => Subject::StandardOutput,
            Fault::SameFile => Subject::Written,
            _ if self.write_error().is_some() => Subject::Written,
            _ => Subject::Read,
        }
    }

    /// Whether the arguments ask for what can't be.
    pub fn is_of_arguments(&self) -> bool {
        matches!(
            self,
            Fault::SameFile | Fault::Extract(ExtractError::NoSuchSample(_, _, _))
        )
    }

    /// Whether what reads the output has closed it, which is no error.
    pub fn is_closed_pipe(&self) -> bool {
        match self.write_error() {
            Some(error) => error.kind() == ErrorKind::BrokenPipe,
            None => false,
        }
    }
}

/// How many tracks are named at most where one is asked for that isn't there.
const MOST_NAMED: usize = 20;

/// Which tracks a movie has, in words.
fn track_words(alloc: Global, movie: &Movie) -> Result<String, AllocError> {
    let mut ids = Vec::new(alloc);
    for id in movie.tracks().keys() {
        ids.push(*id)?;
    }
    ids.sort()?;
    let mut words = String::new(alloc);
    for (index, id) in ids.iter().take(MOST_NAMED).enumerate() {
        let before = if index == 0 { "the tracks are " } else { ", " };
        write!(words, "{before}{id}")?;
    }
    if ids.is_empty() {
        words.push_str("there are no tracks")?;
    }
    if ids.len() > MOST_NAMED {
        words.push_str(", ..")?;
    }
    Ok(words)
}

/// The id of the track that a fault says isn't there.
fn missing_track(fault: &Fault) -> Option<u32> {
    match fault {
        Fault::Movie(Error::TrakNotFound(id)) => Some(*id),
        Fault::Extract(ExtractError::Track(Error::TrakNotFound(id))) => Some(*id),
        _ => None,
    }
}

/// A fault of a movie that opened: where a track isn't there, with the words that say which are.
pub fn with_tracks(alloc: Global, movie: &Movie, fault: Fault) -> Fault {
    let Some(id) = missing_track(&fault) else {
        return fault;
    };
    match track_words(alloc, movie) {
        Ok(words) => Fault::NoTrack(id, words),
        Err(AllocError) => Fault::Movie(Error::OutOfMemory),
    }
}
