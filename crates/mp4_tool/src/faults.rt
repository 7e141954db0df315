//! Why a run gives no text.

use mp4_media::Error;
use mp4_script::ScriptFault;
use thiserror::Error as ThisError;

/// Why a run gives no text.
#[derive(Debug, Drop, ThisError)]
pub enum Fault<'a> {
    /// The file or input of this name can't be read to its end.
    #[error("cannot read {0}")]
    CannotRead(&'a str),
    /// The file of this name can't be written whole.
    #[error("cannot write {0}")]
    CannotWrite(&'a str),
    /// A file doesn't open, or memory ran out.
    #[error("{0}")]
    Movie(#[from] Error),
    /// A script makes no movie.
    #[error("{0}")]
    Script(#[from] ScriptFault),
}
