//! Why a sink doesn't take bytes.

ghost use Rattle.std.specs.Prelude.{◌≡◌};
ghost use Rattle.mp4_source.specs.declared.sink_error.SinkError.TheVariants.{OutOfMemory, Io};

use std::alloc::{AllocError, AllocFailed};
use std::io;
use thiserror::Error as ThisError;

/// Why a sink doesn't take bytes.
#[derive(Debug, Drop, ThisError)]
pub enum SinkError {
    /// A request for memory was refused.
    #[error("out of memory")]
    OutOfMemory,
    /// The sink refused to write.
    #[error("{0}")]
    Io(io::Error),
}

impl From<io::Error> for SinkError {
    ghost from_gives = { λ refused e. e ≡ Io refused };

    fn from(refused: io::Error) -> SinkError {
        SinkError::Io(refused)
    }
}

impl From<AllocError> for SinkError {
    ghost from_gives = { λ _ e. e ≡ OutOfMemory };

    fn from(_refused: AllocError) -> SinkError {
        SinkError::OutOfMemory
    }
}

impl<T: Drop> From<AllocFailed<T>> for SinkError {
    ghost from_gives = { λ _ e. e ≡ OutOfMemory };

    fn from(_refused: AllocFailed<T>) -> SinkError {
        SinkError::OutOfMemory
    }
}
