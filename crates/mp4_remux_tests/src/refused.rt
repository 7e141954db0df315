//! Files that aren't rewritten, and sources and sinks that refuse a call.

use crate::asserts::assert_that;
use crate::files::{DATA, data_first, file_type, joined, movie_with};
use crate::sinks::FirstBytes;
use crate::sources::Refusing;
use mp4_media::{BoxType, Error};
use mp4_remux::{RemuxError, choose, move_to_front};
use std::alloc::Global;
use std::process::Abort;

/// Why a file isn't rewritten, and how many bytes were written.
fn refusal_of(alloc: Global, file: &[u8]) -> (Option<RemuxError>, usize) {
    let mut out = Vec::new(alloc);
    let answer = move_to_front(alloc, file, &mut out);
    (answer.err(), out.len())
}

/// The file of one track with another box after its movie.
fn with_box(rt: &impl Abort, alloc: Global, one: &[u8]) -> Vec<u8> {
    let movie = movie_with(rt, alloc, 48, 54);
    let mut bytes = joined(rt, alloc, &[file_type(), &DATA, &movie]);
    bytes.extend_from_slice(one).expect(rt, "memory");
    bytes
}

/// Whether boxes that say places of the file are refused, before a byte is written.
fn refuses_places(rt: &impl Abort, alloc: Global) -> bool {
    let mfra = refusal_of(alloc, &with_box(rt, alloc, b"\0\0\0\x08mfra"));
    let sidx = refusal_of(alloc, &with_box(rt, alloc, b"\0\0\0\x08sidx"));
    let iloc = refusal_of(
        alloc,
        &with_box(rt, alloc, b"\0\0\0\x14meta\0\0\0\0\0\0\0\x08iloc"),
    );
    let free = refusal_of(
        alloc,
        &with_box(rt, alloc, b"\0\0\0\x14meta\0\0\0\0\0\0\0\x08abcd"),
    );
    matches!(mfra, (Some(RemuxError::SaysPlaces(_, 911)), 0))
        && matches!(sidx, (Some(RemuxError::SaysPlaces(_, 911)), 0))
        && matches!(iloc, (Some(RemuxError::SaysPlaces(_, 923)), 0))
        && matches!(free, (None, 931))
}

#[test]
fn boxes_that_say_places_are_refused(rt: HostRuntime) {
    assert_that(&rt, refuses_places(&rt, rt.alloc()));
}

/// Whether two boxes are refused of which a movie has one.
fn refuses_two(rt: &impl Abort, alloc: Global) -> bool {
    let movie = movie_with(rt, alloc, 48, 54);
    let movies = refusal_of(
        alloc,
        &joined(rt, alloc, &[file_type(), &DATA, &movie, &movie]),
    );
    let types = refusal_of(
        alloc,
        &joined(rt, alloc, &[file_type(), &DATA, &movie, file_type()]),
    );
    matches!(movies, (Some(RemuxError::Twice(BoxType::MoovBox)), 0))
        && matches!(types, (Some(RemuxError::Twice(BoxType::FtypBox)), 0))
}

#[test]
fn two_movie_boxes_are_refused(rt: HostRuntime) {
    assert_that(&rt, refuses_two(&rt, rt.alloc()));
}

/// Whether a sample that passes the file's end, or lies in the movie box itself, isn't lost silently.
fn refuses_lost_samples(rt: &impl Abort, alloc: Global) -> bool {
    let past = movie_with(rt, alloc, 48, 100_000);
    let past = refusal_of(alloc, &joined(rt, alloc, &[file_type(), &DATA, &past]));
    let inside = movie_with(rt, alloc, 48, 100);
    let inside = refusal_of(alloc, &joined(rt, alloc, &[file_type(), &DATA, &inside]));
    let none = refusal_of(alloc, b"\0\0\0\x08free");
    matches!(past, (Some(RemuxError::Differs(1, 3)), 0))
        && matches!(inside, (Some(RemuxError::Differs(1, 3)), 0))
        && matches!(
            none,
            (
                Some(RemuxError::Mp4(Error::BoxNotFound(BoxType::FtypBox))),
                0
            )
        )
}

#[test]
fn samples_that_would_be_lost_are_refused(rt: HostRuntime) {
    assert_that(&rt, refuses_lost_samples(&rt, rt.alloc()));
}

/// Whether a sample past the end of the file is named where its track is chosen.
fn names_a_sample_past_the_end(rt: &impl Abort, alloc: Global) -> bool {
    let movie = movie_with(rt, alloc, 48, 100_000);
    let file = joined(rt, alloc, &[file_type(), &DATA, &movie]);
    let mut out = Vec::new(alloc);
    let chosen = choose(alloc, file.as_slice(), &mut out, &[1]);
    matches!(chosen, Err(RemuxError::Differs(1, 3))) && out.is_empty()
}

#[test]
fn a_sample_past_the_end_is_named(rt: HostRuntime) {
    assert_that(&rt, names_a_sample_past_the_end(&rt, rt.alloc()));
}

/// Whether a movie is refused whose data reference says that its samples are in another file.
fn refuses_samples_elsewhere(rt: &impl Abort, alloc: Global) -> bool {
    let mut movie = movie_with(rt, alloc, 48, 54);
    *movie.get_mut(424).expect(rt, "its flags") = 0;
    let elsewhere = refusal_of(alloc, &joined(rt, alloc, &[file_type(), &DATA, &movie]));
    matches!(
        elsewhere,
        (Some(RemuxError::SaysPlaces(BoxType::DrefBox, 453)), 0)
    )
}

#[test]
fn samples_of_another_file_are_refused(rt: HostRuntime) {
    assert_that(&rt, refuses_samples_elsewhere(&rt, rt.alloc()));
}

/// Whether each read of a source is refused in turn, and the answer is that it can't be read.
fn refuses_each_read(rt: &impl Abort, alloc: Global) -> bool {
    let file = data_first(rt, alloc);
    let mut refused: u32 = 0;
    for n in 1..1000 {
        let mut out = Vec::new(alloc);
        match move_to_front(alloc, Refusing::new(&file, n), &mut out) {
            Ok(()) => return refused > 3 && out.len() == file.len(),
            Err(RemuxError::Read(_)) => refused = refused.saturating_add(1),
            Err(_) => return false,
        }
    }
    false
}

#[test]
fn a_source_that_refuses_a_read_is_named(rt: HostRuntime) {
    assert_that(&rt, refuses_each_read(&rt, rt.alloc()));
}

/// Whether a sink that is full is named, whatever it has room for.
fn refuses_a_full_sink(rt: &impl Abort, alloc: Global) -> bool {
    let file = data_first(rt, alloc);
    for room in 0..file.len() {
        let mut out = FirstBytes::new(alloc, room);
        let answer = move_to_front(alloc, file.as_slice(), &mut out);
        if !matches!(answer, Err(RemuxError::Write(_))) || out.bytes.len() != room {
            return false;
        }
    }
    true
}

#[test]
fn a_full_sink_is_named(rt: HostRuntime) {
    assert_that(&rt, refuses_a_full_sink(&rt, rt.alloc()));
}
