//! The files of the tests, as plain bytes.

use mp4_plain_movies::movie_bytes::{EMPTY_MOVIE, FULL_MOVIE};
use std::alloc::Global;
use std::process::Abort;

/// How many bytes the file type has.
pub const FILE_TYPE: usize = 32;

/// The samples "abc", "def" and "gh", from place 48 of a file on.
pub const DATA: [u8; 24] = *b"\0\0\0\x18mdat\0\0\0\x08wideabcdefgh";

/// A box that no reader knows.
pub const UNKNOWN: [u8; 12] = *b"\0\0\0\x0cabcd\x01\x02\x03\x04";

/// A file type.
pub fn file_type() -> &'static [u8] {
    &EMPTY_MOVIE[..FILE_TYPE]
}

/// The parts, one after the other.
pub fn joined(rt: &impl Abort, alloc: Global, parts: &[&[u8]]) -> Vec<u8> {
    let mut bytes = Vec::new(alloc);
    for part in parts {
        bytes.extend_from_slice(part).expect(rt, "memory");
    }
    bytes
}

/// A file of one track of three samples whose movie box comes after its data.
pub fn data_first(rt: &impl Abort, alloc: Global) -> Vec<u8> {
    joined(rt, alloc, &[file_type(), &DATA, &FULL_MOVIE])
}

/// Where the two chunk offsets of the movie box are in it, of 4 bytes each.
const OFFSETS: usize = 635;

/// The movie box of that track, whose chunks begin at these places.
pub fn movie_with(rt: &impl Abort, alloc: Global, first: u32, second: u32) -> Vec<u8> {
    joined(
        rt,
        alloc,
        &[
            &FULL_MOVIE[..OFFSETS],
            &first.to_be_bytes(),
            &second.to_be_bytes(),
            &FULL_MOVIE[OFFSETS + 8..],
        ],
    )
}

/// The movie box of that track without what it says of fragments, whose chunks begin at these places.
pub fn movie_of_tables(rt: &impl Abort, alloc: Global, first: u32, second: u32) -> Vec<u8> {
    joined(
        rt,
        alloc,
        &[
            b"\0\0\x03\x2f",
            &FULL_MOVIE[4..OFFSETS],
            &first.to_be_bytes(),
            &second.to_be_bytes(),
            &FULL_MOVIE[OFFSETS + 48..],
        ],
    )
}

/// The same file with its movie box in front.
pub fn front(rt: &impl Abort, alloc: Global) -> Vec<u8> {
    let before_samples = 32 + 855 + 16;
    let movie = movie_with(rt, alloc, before_samples, before_samples + 6);
    joined(rt, alloc, &[file_type(), &movie, &DATA])
}

/// Whether a file has these bytes somewhere.
pub fn has(file: &[u8], part: &[u8]) -> bool {
    for i in 0..file.len() {
        if file[i..].starts_with(part) {
            return true;
        }
    }
    false
}
