//! References of tracks that are kept to tracks that aren't.

use crate::asserts::assert_that;
use crate::files::{DATA, file_type, has, joined};
use mp4_media::BoxType;
use mp4_plain_movies::movie_bytes::FULL_MOVIE;
use mp4_remux::{Reference, RemuxError, choose};
use std::alloc::Global;
use std::process::Abort;

/// Two types of references.
const CHAPTERS: BoxType = BoxType::UnknownBox(0x6368_6170);

const HINTS: BoxType = BoxType::UnknownBox(0x6869_6e74);

/// To the tracks 3 and 2 as chapters, and to track 2 by a type that has no other.
const OF_FIRST: [u8; 36] =
    *b"\0\0\0\x24tref\0\0\0\x10chap\0\0\0\x03\0\0\0\x02\0\0\0\x0csync\0\0\0\x02";

/// To track 9, which isn't there, and to track 1.
const OF_SECOND: [u8; 32] = *b"\0\0\0\x20tref\0\0\0\x0chint\0\0\0\x09\0\0\0\x0ccdsc\0\0\0\x01";

/// What is left of these where track 3 isn't there.
const LEFT_OF_FIRST: [u8; 32] = *b"\0\0\0\x20tref\0\0\0\x0cchap\0\0\0\x02\0\0\0\x0csync\0\0\0\x02";

const LEFT_OF_SECOND: [u8; 20] = *b"\0\0\0\x14tref\0\0\0\x0ccdsc\0\0\0\x01";

/// A file of three tracks with the same three samples, of which the first two have references.
fn three_tracks(rt: &impl Abort, alloc: Global) -> Vec<u8> {
    let header = &FULL_MOVIE[4..116];
    // Before and after the last byte of the track's id.
    let begin = &FULL_MOVIE[120..147];
    let end = &FULL_MOVIE[148..643];
    let first = joined(rt, alloc, &[b"\0\0\x02\x33", begin, &[1], end, &OF_FIRST]);
    let second = joined(rt, alloc, &[b"\0\0\x02\x2f", begin, &[2], end, &OF_SECOND]);
    let third = joined(rt, alloc, &[b"\0\0\x02\x0f", begin, &[3], end]);
    joined(
        rt,
        alloc,
        &[
            file_type(),
            &DATA,
            b"\0\0\x06\xe5",
            header,
            &first,
            &second,
            &third,
        ],
    )
}

/// Whether those to a track that isn't kept, or isn't there, are left out and said, in the order of the file.
fn says_what_is_left_out(rt: &impl Abort, alloc: Global) -> bool {
    let file = three_tracks(rt, alloc);
    let mut out = Vec::new(alloc);
    let left_out = choose(alloc, file.as_slice(), &mut out, &[2, 1]).expect(rt, "they are kept");
    let expected = [
        Reference {
            track_id: 1,
            kind: CHAPTERS,
            to: 3,
        },
        Reference {
            track_id: 2,
            kind: HINTS,
            to: 9,
        },
    ];
    left_out.as_slice() == expected.as_slice()
        && has(&out, &LEFT_OF_FIRST)
        && has(&out, &LEFT_OF_SECOND)
}

#[test]
fn references_to_other_tracks_are_left_out_and_said(rt: HostRuntime) {
    assert_that(&rt, says_what_is_left_out(&rt, rt.alloc()));
}

/// Whether all of a track's stay where all tracks are kept, and those of a track that isn't kept aren't said.
fn says_nothing_else(rt: &impl Abort, alloc: Global) -> bool {
    let file = three_tracks(rt, alloc);
    let mut all = Vec::new(alloc);
    let of_all = choose(alloc, file.as_slice(), &mut all, &[1, 2, 3]).expect(rt, "they are kept");
    let mut last = Vec::new(alloc);
    let of_last = choose(alloc, file.as_slice(), &mut last, &[3]).expect(rt, "they are kept");
    of_all.is_empty()
        && has(&all, &OF_FIRST)
        && has(&all, &OF_SECOND)
        && of_last.is_empty()
        && !has(&last, b"tref")
}

#[test]
fn references_of_all_tracks_stay(rt: HostRuntime) {
    assert_that(&rt, says_nothing_else(&rt, rt.alloc()));
}
