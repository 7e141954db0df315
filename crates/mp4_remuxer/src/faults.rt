//! Why a file isn't rewritten.

use mp4_box_report::WhyReport;
use mp4_media::{Error, FileError, SourceError};
use mp4_readable::Reason;
use mp4_remux::RemuxError;
use std::alloc::{AllocError, Global};
use std::fmt::Write;
use std::io;
use std::io::ErrorKind;
use thiserror::Error as ThisError;

/// Why a file isn't rewritten.
#[derive(Debug, Drop, ThisError)]
pub enum Fault {
    /// The file can't be opened, or isn't read to its end.
    #[error("cannot read it: {0}")]
    CannotRead(io::Error),
    /// The file is one of which bytes can't be read at any place, as a pipe.
    #[error("cannot read it: it is no regular file")]
    NotRegular,
    /// The file can't be written whole.
    #[error("cannot write: {0}")]
    CannotWrite(io::Error),
    /// The file that is to be written is the one that is read.
    #[error("it is the file that is read, and isn't written over")]
    SameFile,
    /// The file that is to be written can't be read again, as a pipe.
    #[error("it is no regular file, and --check can't read it again")]
    NotChecked,
    /// Standard output can't be written.
    #[error("cannot write: {0}")]
    CannotPrint(io::Error),
    /// A sample or the file itself is refused, or memory ran out.
    #[error("{}", Reason(.0))]
    Movie(#[from] Error),
    /// The file has no track with this id, but those of these words.
    #[error("there is no track {0}: {1}")]
    NoTrack(u32, String),
    /// The file doesn't open.
    #[error("{0}")]
    Broken(WhyReport),
    /// The box of this path, which begins at this byte, says places of the file.
    #[error("a box {0} at byte {1} says places of the file, which would be wrong")]
    SaysPlaces(String, u64),
    /// The box of this path, which begins at this byte, says of samples what tables don't.
    #[error("a box {0} at byte {1} says of samples what tables do not")]
    SaysOfSamples(String, u64),
    /// The file can't be rewritten.
    #[error("{0}")]
    Remux(RemuxError),
    /// What was written isn't read as the file that it was made of.
    #[error("it was written wrong, and is removed: {0}")]
    Differs(RemuxError),
}

/// What the fault is about.
#[derive(Clone, Copy, Debug, PartialEq, Eq)]
pub enum Subject {
    /// The file that is read.
    Read,
    /// The file that is written.
    Written,
    StandardOutput,
}

impl From<RemuxError> for Fault {
    fn from(error: RemuxError) -> Fault {
        match error {
            RemuxError::Mp4(error) => Fault::Movie(error),
            RemuxError::Read(error) => Fault::CannotRead(error),
            RemuxError::Write(error) => Fault::CannotWrite(error),
            error => Fault::Remux(error),
        }
    }
}

impl From<FileError> for Fault {
    fn from(error: FileError) -> Fault {
        match error {
            FileError::Mp4(error) => Fault::Movie(error),
            FileError::Io(error) => Fault::CannotRead(error),
        }
    }
}

impl From<SourceError> for Fault {
    fn from(error: SourceError) -> Fault {
        match error {
            SourceError::OutOfMemory => Fault::Movie(Error::OutOfMemory),
            SourceError::Io(error) => Fault::CannotRead(error),
        }
    }
}

impl From<AllocError> for Fault {
    fn from(_refused: AllocError) -> Fault {
        Fault::Movie(Error::OutOfMemory)
    }
}

impl Fault {
    /// Why the file that was written can't be read again.
    pub fn of_written(error: SourceError) -> Fault {
        match error {
            SourceError::OutOfMemory => Fault::Movie(Error::OutOfMemory),
            SourceError::Io(error) => Fault::CannotWrite(error),
        }
    }

    /// Why a file can't be written: where it had no memory, that is why.
    pub fn of_writing(error: io::Error) -> Fault {
        if error.kind() == ErrorKind::OutOfMemory {
            return Fault::Movie(Error::OutOfMemory);
        }
        Fault::CannotWrite(error)
    }

    /// Why something can't be printed: where it had no memory, that is why.
    pub fn of_printing(error: io::Error) -> Fault {
        if error.kind() == ErrorKind::OutOfMemory {
            return Fault::Movie(Error::OutOfMemory);
        }
        Fault::CannotPrint(error)
    }

    /// What a check of the file that was written finds.
    pub fn of_check(error: RemuxError) -> Fault {
        match error {
            RemuxError::Differs(_, _) | RemuxError::OtherTracks => Fault::Differs(error),
            error => Fault::from(error),
        }
    }

    /// Why something can't be written, if it can't.
    fn write_error(&self) -> Option<&io::Error> {
        match self {
            Fault::CannotWrite(error) | Fault::CannotPrint(error) => Some(error),
            _ => None,
        }
    }

    /// What the fault is about.
    pub fn subject(&self) -> Subject {
        match self {
            Fault::CannotPrint(_) => Subject::StandardOutput,
            Fault::CannotWrite(_) | Fault::SameFile | Fault::NotChecked | Fault::Differs(_) => {
                Subject::Written
            }
            _ => Subject::Read,
        }
    }

    /// Whether the arguments ask for what can't be.
    pub fn is_of_arguments(&self) -> bool {
        matches!(self, Fault::SameFile | Fault::NotChecked)
    }

    /// Whether what reads the output has closed it, which is no error.
    pub fn is_closed_pipe(&self) -> bool {
        match self.write_error() {
            Some(error) => error.kind() == ErrorKind::BrokenPipe,
            None => false,
        }
    }
}

/// How many tracks are named at most where one is asked for that isn't there.
const MOST_NAMED: usize = 20;

/// Which tracks a file has, in words.
fn track_words(alloc: Global, ids: Vec<u32>) -> Result<String, AllocError> {
    let mut ids = ids;
    ids.sort()?;
    let mut words = String::new(alloc);
    for (index, id) in ids.iter().take(MOST_NAMED).enumerate() {
        let before = if index == 0 { "the tracks are " } else { ", " };
        write!(words, "{before}{id}")?;
    }
    if ids.is_empty() {
        words.push_str("there are no tracks")?;
    }
    if ids.len() > MOST_NAMED {
        words.push_str(", ..")?;
    }
    Ok(words)
}

/// The fault of a file that has no track with an id, but those with others, which aren't named where memory runs out.
pub fn no_track(alloc: Global, id: u32, ids: Vec<u32>) -> Fault {
    match track_words(alloc, ids) {
        Ok(words) => Fault::NoTrack(id, words),
        Err(AllocError) => Fault::Movie(Error::TrakNotFound(id)),
    }
}
