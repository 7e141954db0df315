//! A window: its answers are those of its source, which is asked seldom.

use crate::asserts::assert_that;
use crate::parts::{Numbers, Refusing, agrees, agrees_at, many_bytes};
use mp4_source::{BLOCK_SIZE, ByteSource, Window};
use std::alloc::Global;
use std::process::Abort;

/// How many random parts of so many bytes differ from those of the bytes in memory.
fn differing(rt: &impl Abort, alloc: Global, n: usize) -> u32 {
    let bytes = many_bytes(rt, alloc, n);
    let mut window = Window::new(alloc, bytes.as_slice()).expect(rt, "a window");
    let mut room = Vec::new(alloc);
    let mut numbers = Numbers::new();
    let mut differing = 0u32;
    for turn in 0..2000 {
        let longest = if turn % 10 == 0 { 3 * BLOCK_SIZE } else { 40 };
        let place = numbers.up_to((n as u64).saturating_add(5));
        let length = numbers.up_to(longest as u64) as usize;
        let parts = [(place, length)];
        if !agrees_at(rt, &mut window, bytes.as_slice(), &parts, &mut room) {
            differing = differing.saturating_add(1);
        }
    }
    differing
}

#[test]
fn a_window_gives_what_its_source_has(rt: HostRuntime) {
    for n in [0, 1, 8, BLOCK_SIZE - 1, BLOCK_SIZE, BLOCK_SIZE + 1, 200_000] {
        assert_that(&rt, n, differing(&rt, rt.alloc(), n) == 0);
    }
}

/// Calls of the source, and how far it was asked, where so many headers of 8 bytes are read, a step apart.
fn walk(rt: &impl Abort, alloc: Global, bytes: &[u8], headers: u64, step: usize) -> (u64, u64) {
    let mut window = Window::new(alloc, Refusing::new(bytes, 0)).expect(rt, "a window");
    let mut room = Vec::new(alloc);
    for header in 0..headers {
        let place = header.saturating_mul(step as u64);
        window.part(place, 8, &mut room).expect(rt, "a header");
    }
    let source = window.into_inner();
    (source.calls, source.furthest)
}

#[test]
fn a_walk_asks_its_source_seldom(rt: HostRuntime) {
    let bytes = many_bytes(&rt, rt.alloc(), 4 * BLOCK_SIZE + 12);
    let all = bytes.as_slice();
    let dense = walk(&rt, rt.alloc(), all, 4 * BLOCK_SIZE as u64 / 8 + 1, 8);
    assert_that(&rt, "dense", dense == (6, 131_084));
    let wide = walk(&rt, rt.alloc(), all, 3, 2 * BLOCK_SIZE);
    assert_that(&rt, "wide", wide == (4, 131_084));
}

/// Whether a window over a source that refuses one call gives the bytes in all others.
fn recovers(rt: &impl Abort, alloc: Global, bytes: &[u8], refused: u64) -> bool {
    let Ok(mut window) = Window::new(alloc, Refusing::new(bytes, refused)) else {
        return refused == 1;
    };
    let mut room = Vec::new(alloc);
    let mut all = true;
    let mut refusals = 0u32;
    for (place, n) in [
        (3, 8),
        (4, 8),
        (70_000, 8),
        (0, 50_000),
        (99_990, 10),
        (8, 9),
    ] {
        for _ in 0..2 {
            match agrees(rt, &mut window, bytes, place, n, &mut room) {
                Ok(is_right) => all = is_right && all,
                Err(_) => refusals = refusals.saturating_add(1),
            }
        }
    }
    all && refusals == 1
}

#[test]
fn a_refused_call_leaves_the_window_right(rt: HostRuntime) {
    let bytes = many_bytes(&rt, rt.alloc(), 100_000);
    for refused in 1..9 {
        let is_right = recovers(&rt, rt.alloc(), bytes.as_slice(), refused);
        assert_that(&rt, refused, is_right);
    }
}
