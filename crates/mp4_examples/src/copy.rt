//! The bytes of a track, written to a file or to any other writer.

use mp4_media::Mp4Reader;
use std::io::Write;

/// Writes the bytes of all samples of a track, one after the other, and answers how many there are.
pub fn copy_track<W: Write>(movie: &Mp4Reader, track_id: u32, out: &mut W) -> anyhow::Result<u64> {
    let mut copied = 0u64;
    for sample in movie.samples(track_id)? {
        let sample = sample?;
        out.write_all(sample.bytes)?;
        copied = copied.saturating_add(sample.bytes.len() as u64);
    }
    Ok(copied)
}
