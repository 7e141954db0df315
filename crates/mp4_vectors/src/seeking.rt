//! What a file answers to a seeker.

use crate::files::number;
use mp4_cases::refusals::{Answer, refusal, refused, unless};
use mp4_media::{FoundNumber, Mp4Reader, Mp4Track, Place};
use std::alloc::{AllocError, Global};

/// How many samples after the one that was found are looked at, at most.
const MOST_LATER: u32 = 100;

/// What is sought of a sample.
#[derive(Clone, Copy)]
enum Sought {
    DecodedBy(u64),
    Sync,
}

impl Sought {
    /// Whether a sample has it.
    fn is_had_by(self, place: &Place) -> bool {
        match self {
            Sought::DecodedBy(time) => place.start_time <= time,
            Sought::Sync => place.is_sync,
        }
    }
}

/// Whether no sample after a number, up to another one, has what is sought, as far as they are located.
fn is_last(track: &Mp4Track, number: Option<u32>, end: u32, sought: Sought) -> bool {
    let passed = number.unwrap_or(0);
    let Some(next) = passed.checked_add(1) else {
        return true;
    };
    let mut samples = track.samples_from(next);
    for _ in 0..end.saturating_sub(passed).min(MOST_LATER) {
        if let Some(Ok(place)) = samples.next() {
            if sought.is_had_by(&place) {
                return false;
            }
        }
    }
    true
}

/// Whether the sample that was found has what is sought, if it is located.
fn is_one(track: &Mp4Track, number: Option<u32>, sought: Sought) -> bool {
    let Some(number) = number else {
        return true;
    };
    let mut samples = track.samples_from(number);
    match samples.next() {
        Some(Ok(place)) => sought.is_had_by(&place),
        _ => true,
    }
}

/// A number that was found, and whether it is what samples in their order say.
fn found(
    alloc: Global,
    number: Option<u32>,
    counted: FoundNumber,
    is_right: bool,
) -> Result<String, AllocError> {
    let counted = unless(counted.number == number, ", counted as another");
    let located = unless(is_right, ", located as another");
    match number {
        None => format!(in alloc; "none{counted}{located}"),
        Some(number) => format!(in alloc; "{number}{counted}{located}"),
    }
}

/// The last sample that is decoded at or before a time.
fn sample_at(alloc: Global, track: &Mp4Track, time: u64) -> Result<String, AllocError> {
    let number = track.sample_at(time);
    let sought = Sought::DecodedBy(time);
    let is_right = is_one(track, number, sought) && is_last(track, number, u32::MAX, sought);
    found(alloc, number, track.find_sample_at(time), is_right)
}

/// The last sync sample up to a number.
fn sync_sample(alloc: Global, track: &Mp4Track, k: u32) -> Result<String, AllocError> {
    let number = track.sync_sample_at_or_before(k);
    let is_right = is_one(track, number, Sought::Sync) && is_last(track, number, k, Sought::Sync);
    let counted = track.find_sync_sample_at_or_before(k);
    found(alloc, number, counted, is_right)
}

/// What a track answers to a seeker who asks for a number or a time; None where that is no question.
fn answer(alloc: Global, track: &Mp4Track, question: &str, word: &str) -> Answer {
    let k = number(word);
    let time = word.parse::<u64>().unwrap_or(0);
    let answer = match question {
        "sample_at" => sample_at(alloc, track, time),
        "sync_sample" => sync_sample(alloc, track, k),
        // How many times, and how many numbers, are compared for the same.
        "comparisons_by_time" => { format!(in alloc; "{}", track.find_sample_at(time).comparisons) }
        "comparisons_by_sync" => {
            format!(in alloc; "{}", track.find_sync_sample_at_or_before(k).comparisons)
        }
        _ => return Ok(None),
    };
    answer.map(Some)
}

/// What the track of an id answers to a seeker who asks for a number or a time; None where that is no question.
pub fn answer_of_seeker(
    alloc: Global,
    movie: &Mp4Reader,
    id: u32,
    question: &str,
    word: &str,
) -> Answer {
    match movie.track(id) {
        Ok(track) => answer(alloc, track, question, word),
        Err(error) => refused(alloc, &error),
    }
}

/// When a track begins and ends.
pub fn time_range(alloc: Global, movie: &Mp4Reader, id: u32) -> Result<String, AllocError> {
    match movie.track(id) {
        Ok(track) => match track.time_range() {
            None => String::from_str(alloc, "none"),
            Some(range) => format!(in alloc; "{} to {}", range.start, range.end),
        },
        Err(error) => refusal(alloc, &error),
    }
}
