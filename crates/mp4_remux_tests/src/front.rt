//! Movies that are rewritten with their movie box in front.

use crate::asserts::assert_that;
use crate::files::{DATA, UNKNOWN, data_first, file_type, joined, movie_with};
use crate::sinks::FirstBytes;
use crate::sources::Zeros;
use mp4_remux::{RemuxError, move_to_front};
use std::alloc::Global;
use std::process::Abort;

/// What a file is with its movie box in front.
fn front_of(rt: &impl Abort, alloc: Global, file: &[u8]) -> Vec<u8> {
    let mut out = Vec::new(alloc);
    move_to_front(alloc, file, &mut out).expect(rt, "the movie is rewritten");
    out
}

/// Whether the data comes after the movie box, whose chunk offsets are as much larger as that box is long.
fn moves_the_movie_box(rt: &impl Abort, alloc: Global) -> bool {
    let front = front_of(rt, alloc, &data_first(rt, alloc));
    let movie = movie_with(rt, alloc, 48 + 855, 54 + 855);
    front == joined(rt, alloc, &[file_type(), &movie, &DATA])
}

#[test]
fn the_data_comes_after_the_movie_box(rt: HostRuntime) {
    assert_that(&rt, moves_the_movie_box(&rt, rt.alloc()));
}

/// Whether boxes that no reader knows stay, in their order, also where the file type isn't the first box.
fn keeps_other_boxes(rt: &impl Abort, alloc: Global) -> bool {
    let movie = movie_with(rt, alloc, 48 + 12, 54 + 12);
    let file = joined(rt, alloc, &[&UNKNOWN, file_type(), &DATA, &movie, &UNKNOWN]);
    let moved = movie_with(rt, alloc, 48 + 12 + 855, 54 + 12 + 855);
    let expected = joined(rt, alloc, &[file_type(), &moved, &UNKNOWN, &DATA, &UNKNOWN]);
    front_of(rt, alloc, &file) == expected
}

#[test]
fn unknown_boxes_stay_in_their_order(rt: HostRuntime) {
    assert_that(&rt, keeps_other_boxes(&rt, rt.alloc()));
}

/// Whether a file stays as it is whose movie box is before its data.
fn keeps_a_front(rt: &impl Abort, alloc: Global) -> bool {
    let movie = movie_with(rt, alloc, 903, 909);
    let file = joined(rt, alloc, &[file_type(), &movie, &DATA, &UNKNOWN]);
    front_of(rt, alloc, &file) == file && front_of(rt, alloc, &data_first(rt, alloc)) != file
}

#[test]
fn a_movie_box_in_front_stays(rt: HostRuntime) {
    assert_that(&rt, keeps_a_front(&rt, rt.alloc()));
}

/// Whether a file in front stays as it is whatever its samples are, and also with two file types.
fn keeps_any_front(rt: &impl Abort, alloc: Global) -> bool {
    let cut = movie_with(rt, alloc, 903, 100_000);
    let cut = joined(rt, alloc, &[file_type(), &cut, &DATA, file_type()]);
    front_of(rt, alloc, &cut) == cut
}

#[test]
fn a_cut_movie_in_front_stays(rt: HostRuntime) {
    assert_that(&rt, keeps_any_front(&rt, rt.alloc()));
}

/// Whether a front is its own front.
fn is_stable(rt: &impl Abort, alloc: Global) -> bool {
    let front = front_of(rt, alloc, &data_first(rt, alloc));
    front_of(rt, alloc, &front) == front
}

#[test]
fn what_is_in_front_is_moved_once(rt: HostRuntime) {
    assert_that(&rt, is_stable(&rt, rt.alloc()));
}

/// The bytes from a place on; none where there are fewer.
fn rest_from(bytes: &[u8], place: usize) -> &[u8] {
    if place <= bytes.len() {
        return &bytes[place..];
    }
    &[]
}

/// Whether these bytes are there from a place on.
fn starts_with(bytes: &[u8], place: usize, part: &[u8]) -> bool {
    rest_from(bytes, place).starts_with(part)
}

/// Whether a table of chunk offsets has 64 bits where one of them passes 32 when the movie box is before the data: its
/// box is 8 bytes longer then, as are all around it, and the data begins that much later.
fn widens_offsets(rt: &impl Abort, alloc: Global) -> bool {
    // A free box of 4 GiB less 200 bytes is between the file type and the data.
    let hole: u64 = (1 << 32) - 200;
    let data = 32 + hole;
    let first = (data + 16) as u32;
    let movie = movie_with(rt, alloc, first, first + 6);
    let head = joined(
        rt,
        alloc,
        &[file_type(), b"\0\0\0\x01free", &hole.to_be_bytes()],
    );
    let tail = joined(rt, alloc, &[&DATA, &movie]);
    let file = Zeros::new(&head, &tail, data);
    let mut out = FirstBytes::new(alloc, 1 << 20);
    let answer = move_to_front(alloc, file, &mut out);
    let wide = (data + 16 + 863).to_be_bytes();
    let next = (data + 22 + 863).to_be_bytes();
    let mut box_of_offsets = joined(
        rt,
        alloc,
        &[b"\0\0\0\x20co64\0\0\0\0\0\0\0\x02", &wide, &next],
    );
    box_of_offsets
        .extend_from_slice(rest_from(&movie, 643))
        .expect(rt, "memory");
    let is_full = matches!(answer, Err(RemuxError::Write(_)));
    let written = out.bytes.as_slice();
    is_full
        && starts_with(written, 32, b"\0\0\x03\x5fmoov")
        && starts_with(written, 32 + 619, &box_of_offsets)
        && starts_with(written, 32 + 863, rest_from(&head, 32))
}

#[test]
fn offsets_past_32_bits_have_64(rt: HostRuntime) {
    assert_that(&rt, widens_offsets(&rt, rt.alloc()));
}
