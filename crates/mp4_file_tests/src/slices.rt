//! Bytes in memory as a source.

use crate::asserts::assert_that;
use crate::caller::two_bytes;
use crate::parts::{agrees_at, kind_of};
use mp4_source::ByteSource;
use std::alloc::Global;
use std::io::ErrorKind;
use std::process::Abort;

fn lends_without_memory(rt: &impl Abort, alloc: Global) -> bool {
    let mut source: &[u8] = b"ftypmoov";
    let mut room = Vec::new(alloc);
    let part = source.part(4, 4, &mut room).expect(rt, "a part");
    let is_part = part == b"moov".as_slice();
    is_part && room.capacity() == 0
}

fn ends(alloc: Global, source: &mut &[u8], place: u64, n: usize) -> bool {
    let mut room = Vec::new(alloc);
    kind_of(source.part(place, n, &mut room)) == Some(ErrorKind::UnexpectedEof)
}

fn gives_two_bytes(rt: &impl Abort, alloc: Global) -> bool {
    let mut source: &[u8] = b"ftypmoov";
    let mut room = Vec::new(alloc);
    let bytes = two_bytes(&mut source, 1, 7, &mut room).expect(rt, "two bytes");
    bytes == (b't', b'v')
}

#[test]
fn a_slice_lends_its_parts(rt: HostRuntime) {
    assert_that(&rt, "lends", lends_without_memory(&rt, rt.alloc()));
    assert_that(&rt, "two bytes", gives_two_bytes(&rt, rt.alloc()));
    let mut source: &[u8] = b"ftypmoov";
    assert_that(&rt, "length", matches!(ByteSource::len(&mut source), Ok(8)));
    assert_that(&rt, "one past the end", ends(rt.alloc(), &mut source, 5, 4));
    assert_that(
        &rt,
        "far past the end",
        ends(rt.alloc(), &mut source, u64::MAX, 1),
    );
    assert_that(
        &rt,
        "more than there is",
        ends(rt.alloc(), &mut source, 0, usize::MAX),
    );
    let mut room = Vec::new(rt.alloc());
    let is_empty = agrees_at(&rt, &mut source, b"ftypmoov", &[(8, 0)], &mut room);
    assert_that(&rt, "none at the end", is_empty);
}
