//! Files of movie fragments.

use crate::files::{
    put_box, put_file_type, put_movie_header, put_numbers, put_pieces, put_sound, put_video,
};
use crate::parts::Parts;
use crate::tables::Lists;
use mp4_plain_movies::plain_bytes::{begin_box, end_box, put};
use mp4_plain_movies::random::Random;
use std::alloc::{AllocError, Global};

/// What the fragments of a file are like.
#[derive(Clone, Copy)]
pub struct Shape {
    /// How many there are.
    pub fragments: u32,
    /// The fewest samples of a track in each, and how many more it may have, at least 1.
    pub fewest: u32,
    pub more: u32,
    /// How many bytes a sample has at least; it may have up to 23 more.
    pub least: u32,
    /// Whether durations, sample flags and composition offsets are listed beside the sizes.
    pub lists_all: bool,
}

/// The defaults of the fragments of two tracks.
fn put_defaults(bytes: &mut Vec<u8>) -> Result<(), AllocError> {
    let extends = begin_box(bytes, b"mvex")?;
    for id in 1..=2 {
        bytes.extend_from_slice(b"\0\0\0\x20trex\0\0\0\0")?;
        put_numbers(bytes, &[id, 1, 40, 16, 0x10000])?;
    }
    end_box(bytes, extends);
    Ok(())
}

/// The movie box of a file of fragments: two tracks without samples, and their defaults.
fn put_movie(alloc: Global, bytes: &mut Vec<u8>, parts: &Parts) -> Result<(), AllocError> {
    let none = Lists::new(alloc);
    let movie = begin_box(bytes, b"moov")?;
    put_movie_header(bytes)?;
    put_video(bytes, parts, &none)?;
    put_sound(bytes, parts, &none)?;
    put_defaults(bytes)?;
    end_box(bytes, movie);
    Ok(())
}

/// A sample of a run; the answer is how many bytes it has.
fn put_sample(bytes: &mut Vec<u8>, random: &mut Random, shape: &Shape) -> Result<u32, AllocError> {
    let size = random.below(24).wrapping_add(shape.least);
    if shape.lists_all {
        let duration = random.below(80);
        let flags = random.below(2).wrapping_mul(0x10000);
        put_numbers(bytes, &[duration, size, flags, random.below(160)])?;
    } else {
        put(bytes, size)?;
    }
    Ok(size)
}

/// A run of so many samples; the answer is how many bytes they have.
fn put_run(
    bytes: &mut Vec<u8>,
    random: &mut Random,
    count: u32,
    offset: u32,
    shape: &Shape,
) -> Result<u32, AllocError> {
    let start = begin_box(bytes, b"trun")?;
    if shape.lists_all {
        put_numbers(bytes, &[0xf01, count, offset])?;
    } else {
        put_numbers(bytes, &[0x205, count, offset, 0x2000000])?;
    }
    let mut sum = 0u32;
    for _ in 0..count {
        sum = sum.wrapping_add(put_sample(bytes, random, shape)?);
    }
    end_box(bytes, start);
    Ok(sum)
}

/// A track fragment, whose first sample is decoded then.
fn put_part(
    bytes: &mut Vec<u8>,
    random: &mut Random,
    id: u32,
    time: u64,
    count: u32,
    offset: u32,
    shape: &Shape,
) -> Result<u32, AllocError> {
    let start = begin_box(bytes, b"traf")?;
    let headers: [&[u8]; 4] = [
        b"\0\0\0\x10tfhd\0\x02\0\0",
        &id.to_be_bytes(),
        b"\0\0\0\x14tfdt\x01\0\0\0",
        &time.to_be_bytes(),
    ];
    put_pieces(bytes, &headers)?;
    let sum = put_run(bytes, random, count, offset, shape)?;
    end_box(bytes, start);
    Ok(sum)
}

/// A fragment, and its data.
fn put_fragment(
    bytes: &mut Vec<u8>,
    random: &mut Random,
    pattern: &[u8],
    number: u32,
    shape: &Shape,
) -> Result<(), AllocError> {
    let time = u64::from(number).wrapping_mul(4000);
    let start = begin_box(bytes, b"moof")?;
    put_pieces(bytes, &[b"\0\0\0\x10mfhd\0\0\0\0", &number.to_be_bytes()])?;
    let count = shape.fewest.wrapping_add(random.below(shape.more));
    let first = put_part(bytes, random, 1, time, count, 1000, shape)?;
    let count = shape.fewest.wrapping_add(random.below(shape.more));
    let second = put_part(bytes, random, 2, time, count, 2000, shape)?;
    end_box(bytes, start);
    let length = first.wrapping_add(second) as usize;
    put_box(bytes, b"mdat", pattern.get(..length).unwrap_or(pattern))
}

/// A file of fragments of this shape.
pub fn fragmented_file(
    alloc: Global,
    random: &mut Random,
    parts: &Parts,
    pattern: &[u8],
    shape: &Shape,
) -> Result<Vec<u8>, AllocError> {
    let mut bytes = Vec::new(alloc);
    put_file_type(&mut bytes)?;
    put_movie(alloc, &mut bytes, parts)?;
    for number in 1..=shape.fragments {
        put_fragment(&mut bytes, random, pattern, number, shape)?;
    }
    put_pieces(&mut bytes, &[b"\0\x01\0\x08free", pattern])?;
    Ok(bytes)
}
