//! Why a movie isn't written.

ghost use Rattle.std.specs.Prelude.{◌≡◌};
ghost use Rattle.mp4_codec.specs.declared.error.Error.TheVariants.{OutOfMemory};
ghost use Rattle.mp4_media.specs.WriterAnswers.{told_as};
ghost use Rattle.mp4_media.specs.declared.write_error.WriteError.TheVariants.{Mp4};

use mp4_codec::Error;
use mp4_source::SinkError;
use std::alloc::AllocError;
use std::io;
use thiserror::Error as ThisError;

/// Why a call of a writer that writes to a sink is refused.
#[derive(Debug, Drop, ThisError)]
pub enum WriteError {
    /// What the call is refused for, or a refused request for memory. The writer is as it was, and goes on.
    #[error("{0}")]
    Mp4(Error),
    /// The sink refused to write: no later call is made.
    #[error("{0}")]
    Io(io::Error),
    /// The sink refused an earlier call.
    #[error("the sink refused an earlier call")]
    Failed,
}

impl From<Error> for WriteError {
    ghost from_gives = { λ e w. w ≡ Mp4 e };

    fn from(error: Error) -> WriteError {
        WriteError::Mp4(error)
    }
}

impl From<AllocError> for WriteError {
    ghost from_gives = { λ _ w. w ≡ Mp4 OutOfMemory };

    fn from(_refused: AllocError) -> WriteError {
        WriteError::Mp4(Error::OutOfMemory)
    }
}

impl From<SinkError> for WriteError {
    ghost from_gives = { λ e w. w ≡ told_as e };

    fn from(error: SinkError) -> WriteError {
        match error {
            SinkError::OutOfMemory => WriteError::Mp4(Error::OutOfMemory),
            SinkError::Io(refused) => WriteError::Io(refused),
        }
    }
}
