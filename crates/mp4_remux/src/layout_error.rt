//! Why no layout is made of a movie.

ghost use Rattle.std.specs.Prelude.{◌≡◌};
ghost use Rattle.mp4_codec.specs.declared.error.Error.TheVariants.{OutOfMemory};
ghost use Rattle.mp4_remux.specs.declared.layout_error.LayoutError.TheVariants.{Mp4};
ghost use Rattle.mp4_remux.specs.Errors.{of_layout};

use crate::error::RemuxError;
use mp4_codec::Error;
use std::alloc::{AllocError, AllocFailed};

/// Why no layout is made of a movie, or one that was made isn't written. Each is the [`RemuxError`] of its name.
#[derive(Drop)]
pub(crate) enum LayoutError {
    Mp4(Error),
    TooManySamples(u32),
    StartsElsewhere(u32, u32),
    SameIds,
    OtherTracks,
    Differs(u32, u32),
}

impl From<Error> for LayoutError {
    ghost from_gives = { λ e f. f ≡ Mp4 e };

    fn from(error: Error) -> LayoutError {
        LayoutError::Mp4(error)
    }
}

impl From<AllocError> for LayoutError {
    ghost from_gives = { λ _ f. f ≡ Mp4 OutOfMemory };

    fn from(_refused: AllocError) -> LayoutError {
        LayoutError::Mp4(Error::OutOfMemory)
    }
}

impl<T: Drop> From<AllocFailed<T>> for LayoutError {
    ghost from_gives = { λ _ f. f ≡ Mp4 OutOfMemory };

    fn from(_refused: AllocFailed<T>) -> LayoutError {
        LayoutError::Mp4(Error::OutOfMemory)
    }
}

impl From<LayoutError> for RemuxError {
    ghost from_gives = { λ e f. f ≡ of_layout e };

    fn from(error: LayoutError) -> RemuxError {
        match error {
            LayoutError::Mp4(error) => RemuxError::Mp4(error),
            LayoutError::TooManySamples(id) => RemuxError::TooManySamples(id),
            LayoutError::StartsElsewhere(id, k) => RemuxError::StartsElsewhere(id, k),
            LayoutError::SameIds => RemuxError::SameIds,
            LayoutError::OtherTracks => RemuxError::OtherTracks,
            LayoutError::Differs(id, k) => RemuxError::Differs(id, k),
        }
    }
}
