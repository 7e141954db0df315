//! An inspector: the listing of all samples of tracks, whose tables are awkward: some change at each sample, one has
//! chunks of one sample, and one has sync samples whose numbers don't rise.

use crate::digest::Digest;
use crate::failure::Failure;
use crate::parts::Parts;
use crate::text_files::{even_file, falling_file, turning_file};
use mp4_plain_movies::random::Random;
use mp4_script::samples_text;
use std::alloc::Global;

/// How many samples the tracks have for each thousandth of the job that is done.
const TURNING: u32 = 700;

const EVEN: u32 = 600;

const FALLING: u32 = 80;

/// Adds the listing of the samples of a file.
fn add_listing(alloc: Global, file: &[u8], digest: &mut Digest) -> Result<(), Failure> {
    digest.add_bytes(&samples_text(alloc, file, 1)?);
    Ok(())
}

/// Lists the samples of three files.
pub fn list(alloc: Global, seed: u32, parts: u32, digest: &mut Digest) -> Result<(), Failure> {
    let mut random = Random::new(u64::from(seed));
    let boxes = Parts::new(alloc)?;
    let file = turning_file(alloc, &mut random, &boxes, parts.wrapping_mul(TURNING))?;
    add_listing(alloc, &file, digest)?;
    let file = even_file(alloc, &mut random, &boxes, parts.wrapping_mul(EVEN))?;
    add_listing(alloc, &file, digest)?;
    let file = falling_file(alloc, &mut random, &boxes, parts.wrapping_mul(FALLING))?;
    add_listing(alloc, &file, digest)
}
