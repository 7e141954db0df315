//! What a writer writes is read back: of each track the samples that were accepted, as the plain model lists them.

use crate::asserts::assert_that;
use crate::random_movies::{random_bytes, random_movie};
use crate::read_back::is_read_back;
use crate::writer_calls::{config_of, writer_call};
use crate::written::{movie_of, written};
use mp4_codec::{BoxType, Error};
use mp4_media::{RoundTrip, SampleQuery, WriterCall, write_and_read};
use mp4_plain_movies::calls::{Call, ISOM, add_text, write_sync};
use mp4_plain_movies::listed_calls::{five_calls, text_calls};
use std::alloc::Global;
use std::process::Abort;

/// Whether what a writer makes of calls and an end is read back.
fn calls_are_read_back(rt: &impl Abort, alloc: Global, calls: &[Call]) -> bool {
    let bytes = written(rt, alloc, &[], &ISOM, calls);
    let movie = movie_of(rt, alloc, &[], &ISOM, calls);
    is_read_back(rt, alloc, &bytes, &movie)
}

#[test]
fn written_movies_are_read_back(rt: HostRuntime) {
    let text = calls_are_read_back(&rt, rt.alloc(), &text_calls());
    assert_that(&rt, "three texts", text);
    let five = calls_are_read_back(&rt, rt.alloc(), &five_calls());
    assert_that(&rt, "five tracks", five);
}

/// Whether what a writer makes of the random list of a seed is read back.
fn list_is_read_back(rt: &impl Abort, alloc: Global, pool: &[u8], seed: u64) -> bool {
    let (bytes, movie) = random_movie(rt, alloc, pool, seed);
    is_read_back(rt, alloc, &bytes, &movie)
}

#[test]
fn three_hundred_lists_of_calls_are_read_back(rt: HostRuntime) {
    let pool = random_bytes(&rt, rt.alloc());
    for seed in 0..300 {
        assert_that(&rt, seed, list_is_read_back(&rt, rt.alloc(), &pool, seed));
    }
}

/// The calls that add a track of text and write a sample of it, without an end.
fn unended_calls(rt: &impl Abort, alloc: Global) -> Vec<WriterCall> {
    let add = writer_call(rt, alloc, &add_text(1000));
    let write = writer_call(rt, alloc, &write_sync(1, 500, b"abc"));
    vec![in alloc; add, write].expect(rt, "memory")
}

/// Whether both calls were Ok, and what was written has no movie: the file type and an empty mdat.
fn has_no_movie(trip: &RoundTrip) -> bool {
    trip.replies.len() == 2
        && trip.replies.iter().all(|reply| reply.is_ok())
        && trip.bytes.len() == 48
        && matches!(&trip.movie, Err(Error::BoxNotFound(BoxType::MoovBox)))
}

/// Whether calls without an end are answered, and what they wrote isn't opened.
fn unended_movie_is_refused(rt: &impl Abort, alloc: Global) -> bool {
    let query = SampleQuery {
        bytes: &[],
        start: 0,
        size: 0,
        track_id: 1,
        number: 1,
    };
    let config = config_of(rt, alloc, &ISOM);
    let calls = unended_calls(rt, alloc);
    let mut buffer = Vec::new(alloc);
    let trip = write_and_read(alloc, &config, &calls, &mut buffer, &query);
    has_no_movie(&trip.expect(rt, "the calls are made"))
}

#[test]
fn a_list_of_calls_without_an_end_makes_no_movie(rt: HostRuntime) {
    assert_that(&rt, 1, unended_movie_is_refused(&rt, rt.alloc()));
}
