//! Messages of errors.

use mp4_media::{Error, Result};
use std::alloc::Global;

/// The message of an error.
pub fn fault_text(alloc: Global, error: &Error) -> Result<Vec<u8>> {
    Ok(format!(in alloc; "{error}")?.into_bytes())
}
