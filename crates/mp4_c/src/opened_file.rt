//! Files that are opened.

ghost use Rattle.mp4_media.specs.Opening.{IsOpening};

use mp4_media::{Mp4Reader, Result, read_mp4};
use std::alloc::Global;

/// Opens the file of these bytes, as [`read_mp4`] does.
pub fn opened(alloc: Global, file: &[u8]) -> Result<Mp4Reader<'_>>
    ensures { IsOpening file.now result }
{
    read_mp4(alloc, file)
}
