//! Files as sources: how often they are asked, and files that give less than is asked or change their length.

use crate::asserts::assert_that;
use crate::disk::Disk;
use crate::parts::{agrees_at, kind_of, many_bytes};
use mp4_source::{ByteSource, SeekSource, Window};
use std::alloc::Global;
use std::io::ErrorKind;
use std::process::Abort;

/// The calls of `seek` and of `read` for parts that are read one after the other.
fn calls(rt: &impl Abort, alloc: Global, parts: &[(u64, usize)]) -> (u64, u64) {
    let bytes = many_bytes(rt, alloc, 1000);
    let mut source = SeekSource::new(Disk::new(bytes.as_slice()));
    let mut room = Vec::with_capacity(alloc, 1000).expect(rt, "memory");
    for (place, n) in parts {
        source.part(*place, *n, &mut room).expect(rt, "a part");
    }
    let disk = source.into_inner();
    (disk.seeks, disk.calls.saturating_sub(disk.seeks))
}

#[test]
fn a_part_is_a_seek_and_a_read(rt: HostRuntime) {
    assert_that(&rt, "one", calls(&rt, rt.alloc(), &[(7, 9)]) == (1, 1));
    assert_that(
        &rt,
        "in a row",
        calls(&rt, rt.alloc(), &[(7, 9), (16, 4), (20, 1)]) == (1, 3),
    );
    assert_that(
        &rt,
        "apart",
        calls(&rt, rt.alloc(), &[(7, 9), (17, 4), (7, 9)]) == (3, 3),
    );
}

/// Whether a file whose reads give this share of what is asked for answers as the bytes in memory do, without a window
/// and with one.
fn agrees_by(rt: &impl Abort, alloc: Global, share: usize) -> bool {
    let bytes = many_bytes(rt, alloc, 1000);
    let mut disk = Disk::new(bytes.as_slice());
    disk.share = share;
    let mut source = SeekSource::new(disk);
    let mut room = Vec::new(alloc);
    let parts = [
        (0, 1000),
        (7, 9),
        (16, 4),
        (999, 1),
        (999, 2),
        (1000, 0),
        (3, 8),
    ];
    let is_right = agrees_at(rt, &mut source, bytes.as_slice(), &parts, &mut room);
    let mut window = Window::new(alloc, &mut source).expect(rt, "a window");
    let parts = [(7, 9), (16, 4), (999, 2), (0, 1000), (1000, 0), (1001, 0)];
    agrees_at(rt, &mut window, bytes.as_slice(), &parts, &mut room) && is_right
}

#[test]
fn a_file_may_give_less_than_is_asked(rt: HostRuntime) {
    for share in [1, 2, 7, 1000] {
        assert_that(&rt, share, agrees_by(&rt, rt.alloc(), share));
    }
}

/// The error's kind of two parts, of a file whose length changes once it was asked for: the last bytes of those that
/// there were, and those after them.
fn kinds(rt: &impl Abort, alloc: Global, len: usize, later_len: usize) -> [Option<ErrorKind>; 2] {
    let bytes = many_bytes(rt, alloc, 100_000);
    let mut disk = Disk::new(bytes.as_slice());
    disk.len = len;
    disk.later_len = later_len;
    disk.changes_after = 1;
    let mut window = Window::new(alloc, SeekSource::new(disk)).expect(rt, "a window");
    let mut room = Vec::new(alloc);
    let last = kind_of(window.part(len.saturating_sub(8) as u64, 8, &mut room));
    let after = kind_of(window.part(len as u64, 8, &mut room));
    [last, after]
}

#[test]
fn a_window_sees_the_bytes_that_there_were(rt: HostRuntime) {
    let end = Some(ErrorKind::UnexpectedEof);
    assert_that(
        &rt,
        "grows",
        kinds(&rt, rt.alloc(), 50_000, 90_000) == [None, end],
    );
    assert_that(
        &rt,
        "shrinks",
        kinds(&rt, rt.alloc(), 50_000, 40_000) == [end, end],
    );
    assert_that(
        &rt,
        "stays",
        kinds(&rt, rt.alloc(), 50_000, 50_000) == [None, end],
    );
}

/// Whether a part that passes the end is refused before memory is taken for it.
fn takes_no_memory(rt: &impl Abort, alloc: Global) -> bool {
    let bytes = many_bytes(rt, alloc, 1000);
    let mut source = SeekSource::new(Disk::new(bytes.as_slice()));
    let mut room = Vec::new(alloc);
    let kind = kind_of(source.part(4, usize::MAX, &mut room));
    kind == Some(ErrorKind::UnexpectedEof) && room.capacity() == 0
}

#[test]
fn bytes_past_the_end_take_no_memory(rt: HostRuntime) {
    assert_that(&rt, "no memory", takes_no_memory(&rt, rt.alloc()));
}
