//! Tables of a million entries.

use crate::asserts::assert_that;
use mp4_plain_movies::encoded::{read_bytes, written};
use mp4_table::{StscBox, SttsBox};
use std::alloc::Global;
use std::process::Abort;

/// Adds bytes to a buffer.
fn add(rt: &impl Abort, bytes: &mut Vec<u8>, more: &[u8]) {
    bytes.extend_from_slice(more).expect(rt, "memory");
}

/// The bytes of a table of a million entries, which each begin with their place, before these bytes.
fn million(rt: &impl Abort, alloc: Global, head: &[u8], after: &[u8]) -> Vec<u8> {
    let mut bytes = Vec::new(alloc);
    add(rt, &mut bytes, head);
    for place in 1..=1_000_000u32 {
        add(rt, &mut bytes, &place.to_be_bytes());
        add(rt, &mut bytes, after);
    }
    bytes
}

/// Whether a million runs are read and written as they are.
fn are_kept(rt: &impl Abort, alloc: Global) -> bool {
    let head = b"\x00\x7a\x12\x10stts\0\0\0\0\x00\x0f\x42\x40";
    let bytes = million(rt, alloc, head, b"\0\0\0\x01");
    let table: SttsBox = read_bytes(alloc, &bytes).expect(rt, "the table is read");
    let again = written(alloc, &table).expect(rt, "the table is written");
    table.entries.len() == 1_000_000 && again == bytes
}

#[test]
fn a_million_runs_are_kept(rt: HostRuntime) {
    assert_that(&rt, 1, are_kept(&rt, rt.alloc()));
}

/// Whether a million runs of chunks are so, and the first sample of the last is found.
fn have_first_samples(rt: &impl Abort, alloc: Global) -> bool {
    let head = b"\x00\xb7\x1b\x10stsc\0\0\0\0\x00\x0f\x42\x40";
    let bytes = million(rt, alloc, head, b"\0\0\0\x02\0\0\0\x01");
    let table: StscBox = read_bytes(alloc, &bytes).expect(rt, "the table is read");
    let again = written(alloc, &table).expect(rt, "the table is written");
    let is_found = match table.entries.as_slice().last() {
        None => false,
        Some(entry) => entry.first_sample == 1_999_999,
    };
    is_found && again == bytes
}

#[test]
fn a_million_runs_of_chunks_have_first_samples(rt: HostRuntime) {
    assert_that(&rt, 1, have_first_samples(&rt, rt.alloc()));
}
