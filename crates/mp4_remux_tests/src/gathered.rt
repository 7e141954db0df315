//! Movies whose fragments are gathered, and movies of some of their tracks.

use crate::asserts::assert_that;
use crate::files::{
    DATA, UNKNOWN, data_first, file_type, has, joined, movie_of_tables, movie_with,
};
use mp4_media::{Error, read_mp4};
use mp4_plain_movies::movie_bytes::FULL_MOVIE;
use mp4_remux::{RemuxError, check_samples, choose, gather};
use std::alloc::Global;
use std::process::Abort;

/// The samples "ijkl", of 500 ticks, and "m", of 600, in a fragment of track 1.
const FRAGMENT: [u8; 113] = *b"\0\0\0\x64moof\0\0\0\x10mfhd\0\0\0\0\0\0\0\x01\0\0\0\x4ctraf\
    \0\0\0\x10tfhd\0\x02\0\0\0\0\0\x01\0\0\0\x10tfdt\0\0\0\0\0\0\x05\xdc\
    \0\0\0\x24trun\0\0\x03\x01\0\0\0\x02\0\0\0\x6c\0\0\x01\xf4\0\0\0\x04\0\0\x02\x58\0\0\0\x01\
    \0\0\0\x0dmdatijklm";

/// The movie box of one track without samples, which fragments may bring.
const EMPTY_MOVIE: [u8; 529] =
    *b"\0\0\x02\x11moov\0\0\0lmvhd\0\0\0\0\0\0\0\0\0\0\0\0\0\0\x03\xe8\0\0\0\0\0\x01\0\0\x01\0\0\0\0\0\0\0\0\0\
    \0\0\0\x01\0\0\0\0\0\0\0\0\0\0\0\0\0\0\0\x01\0\0\0\0\0\0\0\0\0\0\0\0\0\0@\0\0\0\0\0\0\0\0\0\0\0\0\0\0\0\
    \0\0\0\0\0\0\0\0\0\0\0\0\0\0\0\x02\0\0\x01utrak\0\0\0`tkhd\0\0\0\x07\0\0\0\0\0\0\0\0\0\0\0\x01\0\0\0\0\0\
    \0\0\0\0\0\0\0\0\0\0\0\0\0\0\0\0\0\0\0\0\0\0\0\0\x01\0\0\0\0\0\0\0\0\0\0\0\0\0\0\0\x01\0\0\0\0\0\0\0\0\0\
    \0\0\0\0\0@\0\0\0\0\0\0\0\0\0\0\0\0\0\x01\x0dmdia\0\0\0\x20mdhd\0\0\0\0\0\0\0\0\0\0\0\0\0\0\x03\xe8\0\0\
    \0\0U\xc4\0\0\0\0\0!hdlr\0\0\0\0\0\0\0\0text\0\0\0\0\0\0\0\0\0\0\0\0\0\0\0\0\xc4minf\0\0\0\x0cnmhd\0\0\0\
    \0\0\0\0$dinf\0\0\0\x1cdref\0\0\0\0\0\0\0\x01\0\0\0\x0curl\x20\0\0\0\x01\0\0\0\x8cstbl\0\0\0@stsd\0\0\0\
    \0\0\0\0\x01\0\0\00tx3g\0\0\0\0\0\0\0\x01\0\0\0\0\0\0\0\0\0\0\0\0\0\0\0\0\0\0\0\0\0\0\0\0\0\0\0\0\0\0\0\
    \x01\0\0\0\x10stts\0\0\0\0\0\0\0\0\0\0\0\x10stsc\0\0\0\0\0\0\0\0\0\0\0\x14stsz\0\0\0\0\0\0\0\0\0\0\0\0\0\
    \0\0\x10stco\0\0\0\0\0\0\0\0\0\0\0(mvex\0\0\0\x20trex\0\0\0\0\0\0\0\x01\0\0\0\x01\0\0\0\x01\0\0\0\x01\0\
    \0\0\0";

/// A fragment that brings none.
const EMPTY_FRAGMENT: [u8; 48] =
    *b"\0\0\00moof\0\0\0\x10mfhd\0\0\0\0\0\0\0\x01\0\0\0\x18traf\0\0\0\x10tfhd\0\x02\0\0\0\0\0\x01";

/// The place of the last byte of the fragment's time.
const TIME: usize = 63;

/// The place of the name of the box with that time.
const TIME_BOX: usize = 52;

/// A file of one track with three samples in its tables, whose movie box says that fragments may follow, then these
/// boxes.
fn fragmented(rt: &impl Abort, alloc: Global, rest: &[&[u8]]) -> Vec<u8> {
    let samples = 32 + 855 + 16;
    let movie = movie_with(rt, alloc, samples, samples + 6);
    let mut file = joined(rt, alloc, &[file_type(), &movie, &DATA]);
    for part in rest {
        file.extend_from_slice(part).expect(rt, "memory");
    }
    file
}

/// A file of that movie box, after its data.
fn file_of_tables(rt: &impl Abort, alloc: Global) -> Vec<u8> {
    let movie = movie_of_tables(rt, alloc, 48, 54);
    joined(rt, alloc, &[file_type(), &DATA, &movie])
}

/// What a file is with its fragments gathered.
fn gathered(rt: &impl Abort, alloc: Global, file: &[u8]) -> Vec<u8> {
    let mut out = Vec::new(alloc);
    gather(alloc, file, &mut out).expect(rt, "the fragments are gathered");
    out
}

/// Whether a track without samples is gathered, of which a fragment has a box without runs (8.8.7).
fn gathers_none(rt: &impl Abort, alloc: Global) -> bool {
    let file = joined(rt, alloc, &[file_type(), &EMPTY_MOVIE, &EMPTY_FRAGMENT]);
    let out = gathered(rt, alloc, &file);
    let movie = read_mp4(alloc, &out).expect(rt, "the movie opens");
    movie.sample_count(1).expect(rt, "the track is there") == 0
        && !has(&out, b"moof")
        && !has(&out, b"mvex")
}

#[test]
fn a_fragment_without_samples_is_gathered(rt: HostRuntime) {
    assert_that(&rt, gathers_none(&rt, rt.alloc()));
}

/// Whether the samples of the tables and of a fragment are in one chunk and in tables with the fewest entries.
fn makes_tables(rt: &impl Abort, alloc: Global) -> bool {
    let file = gathered(rt, alloc, &fragmented(rt, alloc, &[&UNKNOWN, &FRAGMENT]));
    has(
        &file,
        b"\0\0\0\x20stts\0\0\0\0\0\0\0\x02\0\0\0\x04\0\0\x01\xf4\0\0\0\x01\0\0\x02\x58",
    ) && has(
        &file,
        b"\0\0\0\x1cstsc\0\0\0\0\0\0\0\x01\0\0\0\x01\0\0\0\x05\0\0\0\x01",
    ) && has(&file, b"\0\0\0\x14stco\0\0\0\0\0\0\0\x01")
        && file.ends_with(b"\0\0\0\x0cabcd\x01\x02\x03\x04\0\0\0\x15mdatabcdefghijklm")
        && !has(&file, b"moof")
        && !has(&file, b"mvex")
        && !has(&file, b"ctts")
}

#[test]
fn fragments_become_tables(rt: HostRuntime) {
    assert_that(&rt, makes_tables(&rt, rt.alloc()));
}

/// Whether the samples of a gathered file are those of its fragments.
fn keeps_samples(rt: &impl Abort, alloc: Global) -> bool {
    let file = fragmented(rt, alloc, &[&FRAGMENT]);
    let out = gathered(rt, alloc, &file);
    check_samples(alloc, file.as_slice(), out.as_slice(), &[1]).expect(rt, "they are the same");
    let mut reader = read_mp4(alloc, &out).expect(rt, "the movie opens");
    let last = reader.read_sample(1, 5).expect(rt, "it is read");
    let last = last.expect(rt, "there is a fifth sample");
    let none = reader.read_sample(1, 6).expect(rt, "it is asked for");
    last.start_time == 2000
        && last.duration == 600
        && last.bytes.as_slice() == b"m".as_slice()
        && matches!(none, None)
}

#[test]
fn gathered_samples_are_those_of_the_fragments(rt: HostRuntime) {
    assert_that(&rt, keeps_samples(&rt, rt.alloc()));
}

/// Whether a file without fragments stays as it is, and a gathered one too.
fn gathers_once(rt: &impl Abort, alloc: Global) -> bool {
    let plain = file_of_tables(rt, alloc);
    let out = gathered(rt, alloc, &fragmented(rt, alloc, &[&FRAGMENT]));
    gathered(rt, alloc, &plain) == plain && gathered(rt, alloc, &out) == out
}

#[test]
fn a_file_without_fragments_stays(rt: HostRuntime) {
    assert_that(&rt, gathers_once(&rt, rt.alloc()));
}

/// Why a file isn't gathered in which one byte of the fragment is another.
fn refusal_with(rt: &impl Abort, alloc: Global, place: usize, byte: u8) -> Option<RemuxError> {
    let mut fragment = FRAGMENT;
    if let Some(old) = fragment.get_mut(place) {
        *old = byte;
    }
    let file = fragmented(rt, alloc, &[&fragment]);
    let mut out = Vec::new(alloc);
    let refused = gather(alloc, file.as_slice(), &mut out).err();
    if out.is_empty() { refused } else { None }
}

/// Whether a gap between samples, and a box that says more of samples than tables do, are refused.
fn refuses_what_tables_lack(rt: &impl Abort, alloc: Global) -> bool {
    let gap = refusal_with(rt, alloc, TIME, 0xdd);
    let other = refusal_with(rt, alloc, TIME_BOX, b's');
    matches!(gap, Some(RemuxError::StartsElsewhere(1, 4)))
        && matches!(other, Some(RemuxError::SaysOfSamples(_, 959)))
}

#[test]
fn what_tables_cannot_say_is_refused(rt: HostRuntime) {
    assert_that(&rt, refuses_what_tables_lack(&rt, rt.alloc()));
}

/// Whether a movie of its only track has its data after it, without what is between; and a track that isn't there is
/// refused.
fn keeps_a_track(rt: &impl Abort, alloc: Global) -> bool {
    let file = file_of_tables(rt, alloc);
    let mut out = Vec::new(alloc);
    choose(alloc, file.as_slice(), &mut out, &[1]).expect(rt, "the tracks are chosen");
    let movie = movie_of_tables(rt, alloc, 32 + 815 + 8, 32 + 815 + 14);
    let expected = joined(rt, alloc, &[file_type(), &movie, b"\0\0\0\x10mdatabcdefgh"]);
    let mut none = Vec::new(alloc);
    let other = choose(alloc, file.as_slice(), &mut none, &[7]);
    out == expected
        && none.is_empty()
        && matches!(other, Err(RemuxError::Mp4(Error::TrakNotFound(7))))
}

#[test]
fn a_chosen_track_has_its_data_alone(rt: HostRuntime) {
    assert_that(&rt, keeps_a_track(&rt, rt.alloc()));
}

/// Whether a movie without its only track has a movie box without one, and no data.
fn drops_a_track(rt: &impl Abort, alloc: Global) -> bool {
    let file = data_first(rt, alloc);
    let mut out = Vec::new(alloc);
    choose(alloc, file.as_slice(), &mut out, &[]).expect(rt, "the tracks are chosen");
    !has(&out, b"trak") && !has(&out, b"mdat") && has(&FULL_MOVIE, b"trak")
}

#[test]
fn a_track_that_is_not_chosen_is_left_out(rt: HostRuntime) {
    assert_that(&rt, drops_a_track(&rt, rt.alloc()));
}
