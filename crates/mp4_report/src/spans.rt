//! The samples of a track in spans of equal ones, so that a walk over them takes as many steps as the file
//! has bytes for, however many samples it says.

ghost use Rattle.std.specs.Prelude.{◌≡◌, ◌+◌, ◌-◌, ◌^◌, min};
ghost use Rattle.mp4_report.specs.PastEnd.{last_time, place_after};

use crate::equal_samples::EqualSamples;
use mp4_codec::Result;
use mp4_media::{Mp4Track, Samples};
use mp4_samples::Place;

/// Samples that follow each other in a track. All are as the first, but that each begins where the one before
/// it ends, and when that one has lasted. When they are shown is that of the first alone.
#[derive(Clone, Copy, Debug)]
pub(crate) struct Span {
    /// The number of the first, from 1.
    pub number: u32,
    pub first: Place,
    /// How many samples they are.
    pub count: u32,
}

impl Span {
    /// The number of the last.
    pub(crate) fn last_number(&self) -> u32
        ensures { result ≡ min (self.now.number + (self.now.count - 1)) (2 ^ 32 - 1) }
    {
        self.number.saturating_add(self.count.saturating_sub(1))
    }

    /// Where the sample begins that has so many of them before it.
    pub(crate) fn place_after(&self, count: u32) -> u64
        ensures { result ≡ place_after self.now count }
    {
        let bytes = u64::from(count) * u64::from(self.first.size);
        self.first.offset.saturating_add(bytes)
    }

    /// When the last is decoded.
    pub(crate) fn last_time(&self) -> u64
        ensures { result ≡ last_time self.now }
    {
        let ticks = u64::from(self.count.saturating_sub(1)) * u64::from(self.first.duration);
        self.first.start_time.saturating_add(ticks)
    }
}

/// How often a number can be added before the sum passes 64 bits; at least once less than always.
fn steps_within(from: u64, step: u32) -> u64 {
    if step == 0 {
        return u64::MAX;
    }
    (u64::MAX - from) / u64::from(step)
}

/// How many of so many equal samples have a place and a time of 64 bits: those after them are refused.
fn count_placed(first: Place, count: u32) -> u32 {
    let steps = steps_within(first.offset, first.size).min(steps_within(
        first.start_time,
        first.duration,
    ));
    let placed = steps.saturating_add(1);
    u32::try_from(placed).unwrap_or(u32::MAX).min(count)
}

/// A walk over the samples of a track, from one on up to the last, or to the first that is refused.
#[derive(Drop)]
pub(crate) struct Spans<'t> {
    track: &'t Mp4Track,
    /// The number of the next sample; `None` after the last.
    number: Option<u32>,
    samples: Samples<'t>,
    equal: EqualSamples<'t>,
}

impl<'t> Spans<'t> {
    /// Before the sample of a number, from 1. Where the samples of the movie box have one size, those with
    /// these numbers, which rise, are kept apart from others.
    pub(crate) fn new(track: &'t Mp4Track, number: u32, sync_numbers: &'t [u32]) -> Self {
        Spans {
            track,
            number: Some(number),
            samples: track.samples_from(number),
            equal: EqualSamples::new(track, sync_numbers),
        }
    }

    /// Goes on after so many samples from this one on, of which the first was taken.
    fn pass(&mut self, number: u32, count: u32) {
        self.number = number.checked_add(count);
        if count > 1
            && let Some(next) = self.number
        {
            self.samples = self.track.samples_from(next);
        }
    }

    /// The next span; `None` after the last sample, and after a refusal. A span has a sample, so a track has
    /// no more of them than 32 bits number.
    pub(crate) fn next_span(&mut self) -> Option<Result<Span>> {
        let number = self.number?;
        self.number = None;
        let first = match self.samples.next()? {
            Ok(first) => first,
            Err(error) => return Some(Err(error)),
        };
        let count = count_placed(first, self.equal.left(number));
        self.pass(number, count);
        Some(Ok(Span {
            number,
            first,
            count,
        }))
    }
}
