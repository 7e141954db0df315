//! Files of one track of text, whose tables are plain or awkward.

use crate::files::{DATA, pattern, put_data, put_file_type, put_movie_header, put_text};
use crate::parts::Parts;
use crate::tables::{
    Lists, even_tables, falling_tables, list_chunks, list_sync_samples, turning_tables,
};
use mp4_plain_movies::plain_bytes::{begin_box, end_box};
use mp4_plain_movies::random::Random;
use std::alloc::{AllocError, Global};

/// A file of one track of these tables.
fn text_file(
    alloc: Global,
    random: &mut Random,
    parts: &Parts,
    lists: &Lists,
    bytes_of_data: u64,
) -> Result<Vec<u8>, AllocError> {
    let pattern = pattern(alloc, random)?;
    let mut bytes = Vec::new(alloc);
    put_file_type(&mut bytes)?;
    put_data(&mut bytes, &pattern, bytes_of_data)?;
    let movie = begin_box(&mut bytes, b"moov")?;
    put_movie_header(&mut bytes)?;
    put_text(&mut bytes, parts, 1, lists)?;
    end_box(&mut bytes, movie);
    Ok(bytes)
}

/// A file of a track of one entry in each table.
pub fn even_file(
    alloc: Global,
    random: &mut Random,
    parts: &Parts,
    count: u32,
) -> Result<Vec<u8>, AllocError> {
    let size = random.below(16).wrapping_add(1);
    let mut lists = even_tables(alloc, count, size)?;
    let bytes = list_chunks(&mut lists, 48, DATA, 0)?;
    text_file(alloc, random, parts, &lists, bytes)
}

/// A file of a track whose tables change at each sample, with chunks of one sample.
pub fn turning_file(
    alloc: Global,
    random: &mut Random,
    parts: &Parts,
    count: u32,
) -> Result<Vec<u8>, AllocError> {
    let mut lists = turning_tables(alloc, random, count)?;
    list_sync_samples(&mut lists, count, 1)?;
    let bytes = list_chunks(&mut lists, 1, DATA, 0)?;
    text_file(alloc, random, parts, &lists, bytes)
}

/// A file of a track with sync samples whose numbers don't rise.
pub fn falling_file(
    alloc: Global,
    random: &mut Random,
    parts: &Parts,
    count: u32,
) -> Result<Vec<u8>, AllocError> {
    let mut lists = falling_tables(alloc, random, count)?;
    let bytes = list_chunks(&mut lists, 25, DATA, 0)?;
    text_file(alloc, random, parts, &lists, bytes)
}
