//! What the plain files are put together with: a test ends where memory runs out.

use mp4_plain_movies::plain_bytes;
use std::process::Abort;

/// Some bytes.
pub fn put_bytes(rt: &impl Abort, bytes: &mut Vec<u8>, more: &[u8]) {
    bytes.extend_from_slice(more).expect(rt, "memory");
}

/// A number of 32 bits.
pub fn put(rt: &impl Abort, bytes: &mut Vec<u8>, number: u32) {
    plain_bytes::put(bytes, number).expect(rt, "memory");
}

/// Two numbers of 32 bits.
pub fn put_pair(rt: &impl Abort, bytes: &mut Vec<u8>, first: u32, second: u32) {
    plain_bytes::put_pair(bytes, first, second).expect(rt, "memory");
}

/// A box whose size isn't known yet. The answer is its place, for `end_box`.
pub fn begin_box(rt: &impl Abort, bytes: &mut Vec<u8>, kind: &[u8]) -> usize {
    plain_bytes::begin_box(bytes, kind).expect(rt, "memory")
}
