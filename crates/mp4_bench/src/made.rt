//! Files that other programs are measured on too.

use crate::files::pattern;
use crate::fragments::{Shape, fragmented_file};
use crate::parts::Parts;
use crate::text_files::{even_file, turning_file};
use mp4_plain_movies::random::Random;
use std::alloc::{AllocError, Global};

/// How many samples the track of a file has for each thousandth of it.
const SAMPLES: u32 = 1000;

/// How many samples a track has in a fragment.
const IN_A_FRAGMENT: u32 = 100;

/// A file of fragments.
fn file_of_fragments(
    alloc: Global,
    random: &mut Random,
    boxes: &Parts,
    count: u32,
) -> Result<Vec<u8>, AllocError> {
    let pattern = pattern(alloc, random)?;
    let shape = Shape {
        fragments: count / IN_A_FRAGMENT,
        fewest: IN_A_FRAGMENT,
        more: 1,
        // ffmpeg refuses a sample without bytes.
        least: 1,
        lists_all: false,
    };
    fragmented_file(alloc, random, boxes, &pattern, &shape)
}

/// The file of this kind, as large as so many thousandths of it: `even`, a track of one entry in each table, `turning`,
/// one whose tables change at each sample, or `fragments`. None where there is no such kind.
pub fn made(
    alloc: Global,
    kind: &str,
    seed: u32,
    parts: u32,
) -> Result<Option<Vec<u8>>, AllocError> {
    let mut random = Random::new(u64::from(seed));
    let boxes = Parts::new(alloc)?;
    let count = parts.wrapping_mul(SAMPLES);
    let file = match kind {
        "even" => even_file(alloc, &mut random, &boxes, count),
        "turning" => turning_file(alloc, &mut random, &boxes, count),
        "fragments" => file_of_fragments(alloc, &mut random, &boxes, count),
        _ => return Ok(None),
    };
    file.map(Some)
}
