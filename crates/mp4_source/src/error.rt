//! Why a part of a source is not had.

ghost use Rattle.std.specs.Prelude.{◌≡◌};
ghost use Rattle.mp4_source.specs.declared.error.SourceError.TheVariants.{OutOfMemory, Io};

use std::alloc::{AllocError, AllocFailed};
use std::io;
use thiserror::Error as ThisError;

/// Why a part of a source is not had.
#[derive(Debug, Drop, ThisError)]
pub enum SourceError {
    /// A request for memory was refused.
    #[error("out of memory")]
    OutOfMemory,
    /// The source refused to read, or the part passes the end, which is of the kind `UnexpectedEof`.
    #[error("{0}")]
    Io(io::Error),
}

impl From<io::Error> for SourceError {
    ghost from_gives = { λ refused e. e ≡ Io refused };

    fn from(refused: io::Error) -> SourceError {
        SourceError::Io(refused)
    }
}

impl From<AllocError> for SourceError {
    ghost from_gives = { λ _ e. e ≡ OutOfMemory };

    fn from(_refused: AllocError) -> SourceError {
        SourceError::OutOfMemory
    }
}

impl<T: Drop> From<AllocFailed<T>> for SourceError {
    ghost from_gives = { λ _ e. e ≡ OutOfMemory };

    fn from(_refused: AllocFailed<T>) -> SourceError {
        SourceError::OutOfMemory
    }
}
