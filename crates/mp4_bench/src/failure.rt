//! Why a job isn't done.

use mp4_media::{Error, WriteError};
use mp4_script::ScriptFault;
use std::alloc::AllocError;
use std::io::ErrorKind;
use std::{fmt, io};

/// Why a job isn't done.
#[derive(Clone, Copy, Debug)]
pub enum Failure {
    OutOfMemory,
    /// The library refuses a call of the job.
    Refused,
    /// Samples in order are others than by their numbers.
    Different,
    /// A file can't be written, or the digest can't be printed.
    Unwritten,
}

impl fmt::Display for Failure {
    fn fmt<W: fmt::Write>(&self, f: &mut fmt::Formatter<W>) -> fmt::Result {
        f.write_str(match self {
            Failure::OutOfMemory => "out of memory",
            Failure::Refused => "a job was refused",
            Failure::Different => "samples in order are others than by their numbers",
            Failure::Unwritten => "the file or the digest can't be written",
        })
    }
}

impl From<AllocError> for Failure {
    fn from(_refused: AllocError) -> Failure {
        Failure::OutOfMemory
    }
}

impl From<Error> for Failure {
    fn from(error: Error) -> Failure {
        match error {
            Error::OutOfMemory => Failure::OutOfMemory,
            _ => Failure::Refused,
        }
    }
}

impl From<ScriptFault> for Failure {
    fn from(fault: ScriptFault) -> Failure {
        match fault {
            ScriptFault::NotACommand(_) => Failure::Refused,
            ScriptFault::Refused(_, error) | ScriptFault::End(error) => Failure::from(error),
        }
    }
}

impl From<io::Error> for Failure {
    fn from(error: io::Error) -> Failure {
        match error.kind() {
            ErrorKind::OutOfMemory => Failure::OutOfMemory,
            _ => Failure::Unwritten,
        }
    }
}

impl From<WriteError> for Failure {
    fn from(error: WriteError) -> Failure {
        match error {
            WriteError::Mp4(error) => Failure::from(error),
            WriteError::Io(_) | WriteError::Failed => Failure::Unwritten,
        }
    }
}
