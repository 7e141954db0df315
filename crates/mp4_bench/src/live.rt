//! A player of live streams or a packager: files of movie fragments are opened, and their samples read in order and at
//! random.

use crate::digest::Digest;
use crate::failure::Failure;
use crate::files::pattern;
use crate::fragments::{Shape, fragmented_file};
use crate::parts::Parts;
use crate::seek::{add_at_random, add_in_order};
use mp4_media::{Mp4Reader, read_mp4};
use mp4_plain_movies::random::Random;
use std::alloc::Global;

const TRACKS: u32 = 2;

/// Files for each thousandth of the job that is done: fragments of some seconds, of one sample a track, and few
/// fragments of many samples.
fn shapes(parts: u32) -> [Shape; 3] {
    [
        Shape {
            fragments: parts.wrapping_mul(15),
            fewest: 50,
            more: 50,
            least: 0,
            lists_all: false,
        },
        Shape {
            fragments: parts.wrapping_mul(75),
            fewest: 1,
            more: 1,
            least: 0,
            lists_all: false,
        },
        Shape {
            fragments: 3,
            fewest: parts.wrapping_mul(90),
            more: 100,
            least: 0,
            lists_all: true,
        },
    ]
}

/// Adds the samples of a movie of fragments: those of the first track in order, those of the second at random.
fn add_movie(movie: &Mp4Reader, seed: u32, digest: &mut Digest) -> Result<(), Failure> {
    digest.add(movie.size());
    digest.add(u64::from(movie.sample_count(1)?));
    add_in_order(movie, 1, digest)?;
    add_at_random(movie, TRACKS, seed, digest)
}

/// Reads files of fragments.
pub fn live(alloc: Global, seed: u32, parts: u32, digest: &mut Digest) -> Result<(), Failure> {
    let mut random = Random::new(u64::from(seed));
    let boxes = Parts::new(alloc)?;
    let pattern = pattern(alloc, &mut random)?;
    for shape in shapes(parts) {
        let file = fragmented_file(alloc, &mut random, &boxes, &pattern, &shape)?;
        add_movie(&read_mp4(alloc, &file)?, random.next(), digest)?;
    }
    Ok(())
}
