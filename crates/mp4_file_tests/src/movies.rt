//! The files that the tests read.

use mp4_plain_movies::movie_bytes::{EMPTY_MOVIE, FRAGMENT, FULL_MOVIE};
use std::alloc::Global;
use std::process::Abort;

/// The samples "abc", "def" and "gh", from place 48 of a file on.
const DATA: [u8; 24] = *b"\0\0\0\x18mdat\0\0\0\x08wideabcdefgh";

/// An event message.
const EVENT: [u8; 32] = *b"\0\0\0\x20emsg\0\0\0\0a\0b\0\0\0\x03\xe8\0\0\0\x01\0\0\0\x02\0\0\0\x07";

/// Puts these bytes after the others.
pub fn put(rt: &impl Abort, bytes: &mut Vec<u8>, more: &[u8]) {
    bytes.extend_from_slice(more).expect(rt, "memory");
}

/// A file of one track, whose id is 1, of three samples: 911 bytes, of which the movie begins at 56.
pub fn movie_file(rt: &impl Abort, alloc: Global) -> Vec<u8> {
    let mut bytes = (&EMPTY_MOVIE[..32]).to_vec(alloc).expect(rt, "memory");
    put(rt, &mut bytes, &DATA);
    put(rt, &mut bytes, &FULL_MOVIE);
    bytes
}

/// That file with an event message, a fragment of four samples at 943, and a free box at 1095: 1105 bytes. The samples
/// of the fragment are its own first 14 bytes.
pub fn fragmented_file(rt: &impl Abort, alloc: Global) -> Vec<u8> {
    let mut bytes = movie_file(rt, alloc);
    put(rt, &mut bytes, &EVENT);
    put(rt, &mut bytes, &FRAGMENT);
    put(rt, &mut bytes, b"\0\0\0\x0afreexy");
    bytes
}

/// The first field of a box of so many bytes.
fn field_of(size: usize) -> [u8; 4] {
    u32::try_from(size).unwrap_or(u32::MAX).to_be_bytes()
}

/// A free box of so many bytes, 8 at least.
fn free_box(rt: &impl Abort, alloc: Global, size: usize) -> Vec<u8> {
    let mut bytes = field_of(size).to_vec(alloc).expect(rt, "memory");
    put(rt, &mut bytes, b"free");
    bytes.resize(size.max(8), 7).expect(rt, "memory");
    bytes
}

/// The fragmented file with a free box before its movie, whose fragment begins that much later, and another at the end
/// of its movie. Each has 8 bytes at least.
pub fn padded_file(rt: &impl Abort, alloc: Global, before: usize, inside: usize) -> Vec<u8> {
    let mut bytes = (&EMPTY_MOVIE[..32]).to_vec(alloc).expect(rt, "memory");
    put(rt, &mut bytes, &DATA);
    put(rt, &mut bytes, &free_box(rt, alloc, before));
    let size = FULL_MOVIE.len().saturating_add(inside);
    put(rt, &mut bytes, &field_of(size));
    put(rt, &mut bytes, &FULL_MOVIE[4..]);
    put(rt, &mut bytes, &free_box(rt, alloc, inside));
    put(rt, &mut bytes, &EVENT);
    put(rt, &mut bytes, &FRAGMENT);
    bytes
}

/// A file of one track, with so many boxes of 8 bytes before its movie.
pub fn many_boxes(rt: &impl Abort, alloc: Global, count: usize) -> Vec<u8> {
    let mut bytes = (&EMPTY_MOVIE[..32]).to_vec(alloc).expect(rt, "memory");
    put(rt, &mut bytes, &DATA);
    for _ in 0..count {
        put(rt, &mut bytes, b"\0\0\0\x08free");
    }
    put(rt, &mut bytes, &FULL_MOVIE);
    bytes
}

/// The first bytes of a file of one track: all but the last 2^41, which are data.
pub fn two_terabytes(rt: &impl Abort, alloc: Global) -> Vec<u8> {
    let mut bytes = (&EMPTY_MOVIE[..32]).to_vec(alloc).expect(rt, "memory");
    put(rt, &mut bytes, &FULL_MOVIE);
    put(rt, &mut bytes, b"\0\0\0\x01mdat");
    put(rt, &mut bytes, &((1u64 << 41) + 16).to_be_bytes());
    bytes
}

/// Where a name of four bytes was last found.
fn last_place(bytes: &[u8], name: &[u8]) -> usize {
    let mut place = 0usize;
    for start in 0..bytes.len() {
        if bytes.get(start..start.saturating_add(4)) == Some(name) {
            place = start;
        }
    }
    place
}

/// These bytes with another number in the last box of this name, so many bytes after the name's first byte.
pub fn with_number(
    rt: &impl Abort,
    alloc: Global,
    bytes: &[u8],
    name: &[u8],
    distance: usize,
    number: u32,
) -> Vec<u8> {
    let place = last_place(bytes, name).saturating_add(distance);
    let before = bytes.get(..place).unwrap_or(&[]);
    let mut changed = before.to_vec(alloc).expect(rt, "memory");
    put(rt, &mut changed, &number.to_be_bytes());
    let rest = bytes.get(place.saturating_add(4)..).unwrap_or(&[]);
    put(rt, &mut changed, rest);
    changed
}

/// The place of the second chunk, after the name of stco.
pub const SECOND_CHUNK: usize = 16;
