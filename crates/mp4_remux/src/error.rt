//! Why a movie isn't rewritten.

ghost use Rattle.std.specs.Prelude.{◌≡◌};
ghost use Rattle.mp4_codec.specs.declared.error.Error.TheVariants.{OutOfMemory};
ghost use Rattle.mp4_remux.specs.declared.error.RemuxError.TheVariants.{Mp4, Write};
ghost use Rattle.mp4_remux.specs.Errors.{of_file, of_source, of_sink};

use mp4_codec::{BoxType, Error};
use mp4_source::{FileError, SinkError, SourceError};
use std::alloc::{AllocError, AllocFailed};
use std::io;
use thiserror::Error as ThisError;

/// Why a movie isn't rewritten.
#[derive(Debug, Drop, ThisError)]
pub enum RemuxError {
    /// What the file or one of its samples is refused for, or a refused request for memory.
    #[error("{0}")]
    Mp4(Error),
    /// The source refused to read.
    #[error("{0}")]
    Read(io::Error),
    /// The sink refused to write.
    #[error("{0}")]
    Write(io::Error),
    /// The file has two boxes of this type, of which a movie has one.
    #[error("two boxes {0}")]
    Twice(BoxType),
    /// A box of this type, which begins at this byte, says places of the file that would be wrong afterwards.
    #[error("a box {0} at byte {1} says places of the file, which would be wrong")]
    SaysPlaces(BoxType, u64),
    /// The track with this id has more samples than are compared: with those of the tracks before it, more than the
    /// file has bytes, or more than 4,294,967,294.
    #[error("track {0} has more samples than the file has bytes")]
    TooManySamples(u32),
    /// A box of this type, which begins at this byte, says something of samples that the tables which are made of
    /// fragments don't say.
    #[error("a box {0} at byte {1} says of samples what tables do not")]
    SaysOfSamples(BoxType, u64),
    /// This sample of the track with this id doesn't begin when the one before it ends, or the first at 0, and tables
    /// can't say so.
    #[error("sample {1} of track {0} does not begin when the one before it ends")]
    StartsElsewhere(u32, u32),
    /// Two tracks have one id.
    #[error("two tracks have the same id")]
    SameIds,
    /// The tracks would be others.
    #[error("the tracks would be others")]
    OtherTracks,
    /// This sample of the track with this id wouldn't be read as before: a table or a fragment says its place in a way
    /// that isn't rewritten.
    #[error("sample {1} of track {0} would not be read as before")]
    Differs(u32, u32),
}

impl From<Error> for RemuxError {
    ghost from_gives = { λ e f. f ≡ Mp4 e };

    fn from(error: Error) -> RemuxError {
        RemuxError::Mp4(error)
    }
}

impl From<AllocError> for RemuxError {
    ghost from_gives = { λ _ f. f ≡ Mp4 OutOfMemory };

    fn from(_refused: AllocError) -> RemuxError {
        RemuxError::Mp4(Error::OutOfMemory)
    }
}

impl<T: Drop> From<AllocFailed<T>> for RemuxError {
    ghost from_gives = { λ _ f. f ≡ Mp4 OutOfMemory };

    fn from(_refused: AllocFailed<T>) -> RemuxError {
        RemuxError::Mp4(Error::OutOfMemory)
    }
}

impl From<FileError> for RemuxError {
    ghost from_gives = { λ e f. f ≡ of_file e };

    fn from(error: FileError) -> RemuxError {
        match error {
            FileError::Mp4(error) => RemuxError::Mp4(error),
            FileError::Io(refused) => RemuxError::Read(refused),
        }
    }
}

impl From<SourceError> for RemuxError {
    ghost from_gives = { λ e f. f ≡ of_source e };

    fn from(error: SourceError) -> RemuxError {
        match error {
            SourceError::OutOfMemory => RemuxError::Mp4(Error::OutOfMemory),
            SourceError::Io(refused) => RemuxError::Read(refused),
        }
    }
}

impl From<SinkError> for RemuxError {
    ghost from_gives = { λ e f. f ≡ of_sink e };

    fn from(error: SinkError) -> RemuxError {
        match error {
            SinkError::OutOfMemory => RemuxError::Mp4(Error::OutOfMemory),
            SinkError::Io(refused) => RemuxError::Write(refused),
        }
    }
}
