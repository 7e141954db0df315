//! Cursors over random tracks, from fixed seeds: whatever numbers a cursor is asked for, in no order and in order, it
//! answers each as the lookup does.

use crate::asserts::{assert_that, at_least};
use crate::queries::are_same_refusal;
use crate::random_fragments::random_file;
use crate::tracks::holds_of;
use mp4_codec::Result;
use mp4_lookup::{Mp4Track, SampleCursor};
use mp4_media::{Mp4Reader, read_mp4};
use mp4_plain_movies::random::Random;
use mp4_plain_movies::random_tables::{RandomTables, break_one, put_all};
use mp4_samples::{Place, SamplePlace};
use std::alloc::Global;
use std::process::Abort;

/// How many numbers a cursor is asked for.
const QUERIES: u32 = 100;

/// A number to ask for after another: mostly the one that follows it, else one a little above it, any up past the last
/// of so many samples, or one of the largest.
fn query_after(random: &mut Random, number: u32, count: u32) -> u32 {
    match random.below(32) {
        0 => u32::MAX.wrapping_sub(random.few()),
        1..=4 => random.below(count.saturating_add(4)),
        5..=8 => number.saturating_add(random.few()),
        _ => number.wrapping_add(1),
    }
}

/// The numbers that a cursor over so many samples is asked for.
fn queries(rt: &impl Abort, alloc: Global, random: &mut Random, count: u32) -> Vec<u32> {
    let mut numbers = Vec::new(alloc);
    let mut number = 0u32;
    for _ in 0..QUERIES {
        number = query_after(random, number, count);
        numbers.push(number).expect(rt, "memory");
    }
    numbers
}

/// Whether a number follows another.
fn follows(number: u32, before: u32) -> bool {
    before.checked_add(1) == Some(number)
}

/// How many of these numbers follow the one before.
fn followed(numbers: &[u32]) -> u32 {
    let mut count = 0u32;
    for (before, number) in numbers.iter().zip(numbers.iter().skip(1)) {
        count = count.wrapping_add(u32::from(follows(*number, *before)));
    }
    count
}

/// What the lookup answers.
fn located(track: &Mp4Track, k: u32) -> Result<Option<SamplePlace>> {
    track.locate(k)
}

/// What a cursor answers at number `k`: each other number that follows the one before is asked for as the next.
fn answered(cursor: &mut SampleCursor, k: u32, before: u32) -> Result<Option<Place>> {
    if follows(k, before) && k % 2 == 0 {
        cursor.next()
    } else {
        cursor.seek(k)
    }
}

/// Whether a cursor and the lookup answer the same, the texts of refusals left out.
fn is_located(answer: &Result<Option<Place>>, located: &Result<Option<SamplePlace>>) -> bool {
    match (answer, located) {
        (Ok(None), Ok(None)) => true,
        (Ok(Some(place)), Ok(Some(located))) => *place == located.place(),
        (Err(one), Err(other)) => are_same_refusal(one, other),
        _ => false,
    }
}

/// Whether a cursor answers as the lookup does at each of these numbers.
fn agrees(track: &Mp4Track, numbers: &[u32]) -> bool {
    let mut cursor = track.sample_cursor();
    let mut before = 0u32;
    let mut all = true;
    for k in numbers {
        let answer = answered(&mut cursor, *k, before);
        all = all && is_located(&answer, &located(track, *k));
        before = *k;
    }
    all
}

/// Whether a cursor over a track of random tables, of which so many changes were made, answers as the lookup does; how
/// many numbers followed the one before is added to a count.
fn tables_agree(rt: &impl Abort, alloc: Global, seed: u64, changes: u32, count: &mut u32) -> bool {
    let mut random = Random::new(seed);
    let mut tables = RandomTables::new(alloc);
    let samples = put_all(&mut tables, &mut random).expect(rt, "memory");
    for _ in 0..changes {
        break_one(&mut tables, &mut random, samples).expect(rt, "memory");
    }
    let numbers = queries(rt, alloc, &mut random, samples);
    let numbers = numbers.as_slice();
    *count = count.wrapping_add(followed(numbers));
    holds_of(
        rt,
        alloc,
        &tables.with(&mut random, samples),
        move |track| { agrees(track, numbers) },
    )
}

/// Whether a cursor over the track of an id answers as the lookup does.
fn track_agrees(
    rt: &impl Abort,
    alloc: Global,
    reader: &Mp4Reader,
    id: u32,
    random: &mut Random,
    count: &mut u32,
) -> bool {
    let track = reader.track(id).expect(rt, "a track");
    let samples = track.sample_count().expect(rt, "a number of samples");
    let numbers = queries(rt, alloc, random, samples);
    *count = count.wrapping_add(followed(&numbers));
    agrees(track, &numbers)
}

/// Whether cursors over the tracks of a random file of fragments answer as the lookup does.
fn file_agrees(rt: &impl Abort, alloc: Global, seed: u64, count: &mut u32) -> bool {
    let mut random = Random::new(seed);
    let file = random_file(rt, alloc, &mut random);
    let reader = read_mp4(alloc, &file.bytes).expect(rt, "the movie opens");
    let mut all = true;
    for trak in reader.moov.traks.as_slice() {
        let id = trak.tkhd.track_id;
        all = all && track_agrees(rt, alloc, &reader, id, &mut random, count);
    }
    all
}

/// What is counted, in the words of a failed test.
const FOLLOWED: &str = "numbers that follow the one before";

#[test]
fn cursors_over_five_hundred_tracks_answer_as_look_ups_do(rt: HostRuntime) {
    let mut count = 0u32;
    for seed in 0..500 {
        let answer = tables_agree(&rt, rt.alloc(), seed, (seed % 4) as u32, &mut count);
        assert_that(&rt, seed, answer);
    }
    at_least(&rt, FOLLOWED, count, 30_000);
}

#[test]
fn cursors_over_two_hundred_files_of_fragments_answer_as_look_ups_do(rt: HostRuntime) {
    let mut count = 0u32;
    for seed in 0..200 {
        let answer = file_agrees(&rt, rt.alloc(), seed, &mut count);
        assert_that(&rt, seed, answer);
    }
    at_least(&rt, FOLLOWED, count, 18_000);
}
