//! Tracks of random tables, from fixed seeds: at each number both lookups answer as a walk over the tables
//! does, and say how many numbers they compared.

use crate::asserts::assert_that;
use crate::queries::are_same_refusal;
use crate::tracks::holds_of;
use crate::walked_lookup::{WalkedPlace, walk};
use mp4_boxes::StblBox;
use mp4_codec::{Error, Result};
use mp4_lookup::Mp4Track;
use mp4_plain_movies::random::Random;
use mp4_plain_movies::random_tables::{RandomTables, break_one, put_all};
use mp4_samples::{Comparisons, SamplePlace};
use std::alloc::Global;
use std::process::Abort;

/// How many binary digits a number has.
fn digits(number: usize) -> u32 {
    usize::BITS.wrapping_sub(number.leading_zeros())
}

/// Whether a search by a guess among so many numbers may compare so many of them: one at least, if there is
/// one.
pub fn are_few(comparisons: u32, numbers: usize) -> bool {
    (comparisons == 0) == (numbers == 0) && comparisons <= digits(numbers).wrapping_add(4)
}

/// The same of the numbers of stss. Numbers that don't strictly rise need not be compared.
fn are_few_of_stss(comparisons: u32, stbl: &StblBox) -> bool {
    match &stbl.stss {
        None => comparisons == 0,
        Some(stss) => {
            let numbers = stss.entries.as_slice();
            let rises = numbers.is_sorted_by(|number, next| number < next);
            are_few(comparisons, numbers.len()) || !rises && comparisons == 0
        }
    }
}

/// Whether a lookup by a guess may compare so many numbers in each table of a track without fragments.
fn all_are_few(comparisons: &Comparisons, stbl: &StblBox) -> bool {
    let rendering_offsets = stbl.ctts.as_ref().map_or(0, |ctts| ctts.entries.len());
    are_few(comparisons.stsc, stbl.stsc.entries.len())
        && are_few(comparisons.stts, stbl.stts.entries.len())
        && are_few(comparisons.ctts, rendering_offsets)
        && are_few_of_stss(comparisons.stss, stbl)
        && comparisons.runs == 0
}

/// Whether a lookup by a guess found the same place as the other, and read as many sums of sizes.
fn is_same_place(guessed: &SamplePlace, place: &SamplePlace) -> bool {
    *guessed
        == SamplePlace {
            comparisons: guessed.comparisons,
            ..*place
        }
}

/// Whether both refusals are equal, and their messages.
fn are_equal_refusals(rt: &impl Abort, alloc: Global, one: &Error, other: &Error) -> bool {
    let message = format!(in alloc; "{one}").expect(rt, "memory");
    message == format!(in alloc; "{other}").expect(rt, "memory") && one == other
}

/// Whether both lookups answer the same.
fn both_are_same(
    rt: &impl Abort,
    alloc: Global,
    stbl: &StblBox,
    guessed: &Result<Option<SamplePlace>>,
    answer: &Result<Option<SamplePlace>>,
) -> bool {
    match (guessed, answer) {
        (Ok(None), Ok(None)) => true,
        (Ok(Some(guessed)), Ok(Some(place))) => {
            is_same_place(guessed, place) && all_are_few(&guessed.comparisons, stbl)
        }
        (Err(one), Err(other)) => are_equal_refusals(rt, alloc, one, other),
        _ => false,
    }
}

/// Whether the lookup and the walk answer the same.
fn is_as_walked(
    answer: &Result<Option<SamplePlace>>,
    walked: &Result<Option<WalkedPlace>>,
) -> bool {
    match (answer, walked) {
        (Ok(None), Ok(None)) => true,
        (Ok(Some(place)), Ok(Some(walked))) => walked.is_same(place),
        (Err(one), Err(other)) => are_same_refusal(one, other),
        _ => false,
    }
}

/// Whether both lookups and the walk answer the same at a number.
fn agrees_at(rt: &impl Abort, alloc: Global, track: &Mp4Track, k: u32) -> bool {
    let stbl = &track.trak.mdia.minf.stbl;
    let answer = track.locate(k);
    is_as_walked(&answer, &walk(stbl, 1, k))
        && both_are_same(rt, alloc, stbl, &track.locate_by_guess(k), &answer)
}

/// Whether both lookups and the walk answer the same at each number up past the last.
fn agrees(rt: &impl Abort, alloc: Global, track: &Mp4Track, count: u32) -> bool {
    let mut all = true;
    for k in 0..=count.wrapping_add(3) {
        all = all && agrees_at(rt, alloc, track, k);
    }
    all && agrees_at(rt, alloc, track, u32::MAX)
}

/// Whether both lookups answer as the walk does in tables that agree with each other.
fn consistent_tables_agree(rt: &impl Abort, alloc: Global, seed: u64) -> bool {
    let mut random = Random::new(seed);
    let mut tables = RandomTables::new(alloc);
    let count = put_all(&mut tables, &mut random).expect(rt, "memory");
    holds_of(rt, alloc, &tables.with(&mut random, count), move |track| {
        agrees(rt, alloc, track, count)
    })
}

/// Whether both lookups answer as the walk does in tables of which three changes were made.
fn broken_tables_agree(rt: &impl Abort, alloc: Global, seed: u64) -> bool {
    let mut random = Random::new(seed);
    let mut tables = RandomTables::new(alloc);
    let count = put_all(&mut tables, &mut random).expect(rt, "memory");
    for _ in 0..3 {
        break_one(&mut tables, &mut random, count).expect(rt, "memory");
    }
    holds_of(rt, alloc, &tables.with(&mut random, count), move |track| {
        agrees(rt, alloc, track, count)
    })
}

#[test]
fn fifteen_hundred_consistent_tracks_are_found_as_by_a_walk(rt: HostRuntime) {
    for seed in 0..1500 {
        assert_that(&rt, seed, consistent_tables_agree(&rt, rt.alloc(), seed));
    }
}

#[test]
fn fifteen_hundred_broken_tracks_are_found_as_by_a_walk(rt: HostRuntime) {
    for seed in 0..1500 {
        assert_that(&rt, seed, broken_tables_agree(&rt, rt.alloc(), seed));
    }
}
