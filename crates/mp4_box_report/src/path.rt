//! Where a box is among others.

use crate::walk::{Step, Walk};
use mp4_source::{ByteSource, FileError};
use std::alloc::Global;

/// The path of the box that begins at this byte of a source, as `moov/trak[2]/mdia`: the types of the boxes that it is
/// in, and its own. None where no box is found that begins there.
///
/// `Io` where the source refuses a read; else refused by `OutOfMemory` alone.
pub fn path_at<S: ByteSource + Drop>(
    alloc: Global,
    source: S,
    place: u64,
) -> Result<Option<String>, FileError> {
    let mut walk = Walk::new(alloc, source, u32::MAX)?;
    for _ in 0..u64::MAX {
        match walk.next_step()? {
            Some(Step::Box(found)) if found.place == place => return Ok(Some(found.path)),
            Some(_) => {}
            None => return Ok(None),
        }
    }
    Ok(None)
}
