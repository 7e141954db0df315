//! Why a file isn't read.

ghost use Rattle.std.specs.Prelude.{◌≡◌};
ghost use Rattle.mp4_codec.specs.declared.error.Error.TheVariants.{OutOfMemory};
ghost use Rattle.mp4_source.specs.Answers.{told_as};
ghost use Rattle.mp4_source.specs.declared.file_error.FileError.TheVariants.{Mp4};

use crate::error::SourceError;
use mp4_codec::Error;
use std::alloc::{AllocError, AllocFailed};
use std::io;
use thiserror::Error as ThisError;

/// Why a file that is read from a source isn't opened, or a sample of it isn't read.
#[derive(Debug, Drop, ThisError)]
pub enum FileError {
    /// What the bytes are refused for, or a refused request for memory.
    #[error("{0}")]
    Mp4(Error),
    /// The source refused to read.
    #[error("{0}")]
    Io(io::Error),
}

impl From<Error> for FileError {
    ghost from_gives = { λ e f. f ≡ Mp4 e };

    fn from(error: Error) -> FileError {
        FileError::Mp4(error)
    }
}

impl From<AllocError> for FileError {
    ghost from_gives = { λ _ f. f ≡ Mp4 OutOfMemory };

    fn from(_refused: AllocError) -> FileError {
        FileError::Mp4(Error::OutOfMemory)
    }
}

impl<T: Drop> From<AllocFailed<T>> for FileError {
    ghost from_gives = { λ _ f. f ≡ Mp4 OutOfMemory };

    fn from(_refused: AllocFailed<T>) -> FileError {
        FileError::Mp4(Error::OutOfMemory)
    }
}

impl From<io::Error> for FileError {
    ghost use Rattle.mp4_source.specs.declared.file_error.FileError.TheVariants.{Io};

    ghost from_gives = { λ e f. f ≡ Io e };

    fn from(error: io::Error) -> FileError {
        FileError::Io(error)
    }
}

impl From<SourceError> for FileError {
    ghost from_gives = { λ e f. f ≡ told_as e };

    fn from(error: SourceError) -> FileError {
        match error {
            SourceError::OutOfMemory => FileError::Mp4(Error::OutOfMemory),
            SourceError::Io(refused) => FileError::Io(refused),
        }
    }
}
