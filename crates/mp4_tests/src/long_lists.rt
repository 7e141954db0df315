//! Long lists of calls, refused ones among them, by the one call that makes them all, opens what was written and looks
//! for a sample in another file: replies, bytes and samples are those of the plain model.

use crate::asserts::assert_that;
use crate::random_movies::{Habits, random_bytes, random_call};
use crate::read_back::tracks_are_read;
use crate::writer_calls::{config_of, writer_call};
use crate::written::is_expected;
use mp4_codec::{Error, Result};
use mp4_media::{FoundSample, RoundTrip, SampleQuery, WriterCall, write_and_read};
use mp4_plain_movies::calls::{Call, ISOM};
use mp4_plain_movies::encoded::hex;
use mp4_plain_movies::movie_bytes::TEXT_MOVIE;
use mp4_plain_movies::plain_movie::PlainMovie;
use mp4_plain_movies::random::Random;
use std::alloc::Global;
use std::process::Abort;

/// Calls as data, and what the model answers them.
#[derive(Drop)]
struct Listed {
    calls: Vec<WriterCall>,
    answers: Vec<Option<Error>>,
}

/// One call more, of the list and of the model.
fn put_call<'a>(
    rt: &impl Abort,
    alloc: Global,
    listed: &mut Listed,
    movie: &mut PlainMovie<'a>,
    call: &Call<'a>,
) {
    let answer = movie.make(call).expect(rt, "memory");
    listed.answers.push(answer).expect(rt, "memory");
    let call = writer_call(rt, alloc, call);
    listed.calls.push(call).expect(rt, "memory");
}

/// So many random calls, none of them an end, then an end, and three calls more, which are refused.
fn put_calls<'a>(
    rt: &impl Abort,
    alloc: Global,
    listed: &mut Listed,
    movie: &mut PlainMovie<'a>,
    pool: &'a [u8],
    count: u32,
) {
    let mut random = Random::new(count.into());
    let habits = Habits::new(pool, &mut random);
    for _ in 0..count {
        let tracks = u32::try_from(movie.tracks.len()).unwrap_or(0);
        let call = random_call(&habits, &mut random, tracks);
        if !matches!(call, Call::WriteEnd) {
            put_call(rt, alloc, listed, movie, &call);
        }
    }
    for _ in 0..4 {
        put_call(rt, alloc, listed, movie, &Call::WriteEnd);
    }
}

/// Whether each reply is the one that the model gives.
fn replies_are_expected(replies: &[Result<()>], answers: &[Option<Error>]) -> bool {
    let mut all = replies.len() == answers.len();
    for (reply, answer) in replies.iter().zip(answers) {
        all = all && is_expected(reply, answer);
    }
    all
}

/// How many of the model's answers are refusals.
fn refused(answers: &[Option<Error>]) -> usize {
    answers.iter().filter(|answer| answer.is_some()).count()
}

/// Whether the second sample of the text movie was found: "def", of three bytes at 51, decoded at 500.
fn second_text_is_found(found: &Result<FoundSample>) -> bool {
    let Ok(found) = found else {
        return false;
    };
    let (Ok(Some(place)), Ok(Some(sample))) = (&found.place, &found.sample) else {
        return false;
    };
    place.offset == 51
        && place.size == 3
        && place.start_time == 500
        && sample.bytes.as_slice() == b"def".as_slice()
}

/// Whether what was written and read is the model's movie, with its replies.
fn is_as_modelled(trip: &mut RoundTrip, listed: &Listed, movie: &PlainMovie) -> bool {
    let alike = replies_are_expected(&trip.replies, &listed.answers)
        && trip.bytes == movie.bytes.as_slice()
        && second_text_is_found(&trip.found);
    match &mut trip.movie {
        Ok(reader) => alike && tracks_are_read(reader, &movie.tracks),
        Err(_) => false,
    }
}

/// Whether the calls of a list are answered and written as the model says, and the second sample of the text movie is
/// found.
fn trip_is_as_modelled(
    rt: &impl Abort,
    alloc: Global,
    listed: &Listed,
    movie: &PlainMovie,
) -> bool {
    let config = config_of(rt, alloc, &ISOM);
    let file = hex(alloc, TEXT_MOVIE).expect(rt, "memory");
    let query = SampleQuery {
        bytes: &file,
        start: 0,
        size: 607,
        track_id: 1,
        number: 2,
    };
    let mut buffer = Vec::new(alloc);
    let trip = write_and_read(alloc, &config, &listed.calls, &mut buffer, &query);
    is_as_modelled(&mut trip.expect(rt, "the calls are made"), listed, movie)
}

/// Makes the calls of a list, and looks for the second sample of the text movie.
fn list_is_read_back(rt: &impl Abort, alloc: Global, count: u32) -> bool {
    let pool = random_bytes(rt, alloc);
    let mut movie = PlainMovie::begin(alloc, &[], &ISOM).expect(rt, "memory");
    let mut listed = Listed {
        calls: Vec::new(alloc),
        answers: Vec::new(alloc),
    };
    put_calls(rt, alloc, &mut listed, &mut movie, &pool, count);
    refused(&listed.answers) > 300 && trip_is_as_modelled(rt, alloc, &listed, &movie)
}

#[test]
fn a_list_of_ten_thousand_calls_is_read_back(rt: HostRuntime) {
    assert_that(&rt, 10_000, list_is_read_back(&rt, rt.alloc(), 10_000));
}
