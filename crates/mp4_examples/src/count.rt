//! How many samples the tracks of a movie have.

use mp4_media::{Mp4Reader, Result};
use std::alloc::Global;

/// The ids of the tracks, rising, each with the number of its samples.
pub fn sample_counts(alloc: Global, movie: &Mp4Reader) -> Result<Vec<(u32, u32)>> {
    let mut counts = Vec::new(alloc);
    for (id, track) in movie.tracks() {
        counts.push((*id, track.sample_count()?))?;
    }
    counts.sort_unstable();
    Ok(counts)
}
