//! The samples of a track by the time at which they are decoded, and the sync samples at or before a sample: what a
//! player asks that goes to a time (ISO/IEC 14496-12, 8.6.1.2, 8.6.2, 8.8.3.1 and 8.8.12).

ghost use Rattle.mp4_codec.specs.ExactTest.{by_test, field_tests};
ghost use Rattle.std.specs.Prelude.{◌≡◌, ℕ, ◌+◌, ◌-◌, ◌^◌, ◌<◌, ◌≤◌, true, false, get_or, length, option_map};
ghost use Rattle.std.specs.Prelude.{IfNone, IfSome};
ghost use Rattle.mp4_boxes.specs.Stbl.{sample_count};
ghost use Rattle.mp4_fragments.specs.ByTime.{IsCountByTime, run_sample_by};
ghost use Rattle.mp4_fragments.specs.RunSamples.{all_run_samples};
ghost use Rattle.mp4_fragments.specs.Sync.{sync_at};
ghost use Rattle.mp4_lookup.specs.ByTime.{decode_time, duration_of, is_sync_sample, last_number, sample_by};
ghost use Rattle.mp4_lookup.specs.ByTime.{end_time, time_in, time_range};
ghost use Rattle.mp4_lookup.specs.Costs.{IsCountBySync, IsCountByTrackTime, comparisons_in_spans};
ghost use Rattle.mp4_lookup.specs.TrackRuns.{track_runs};
ghost use Rattle.mp4_samples.specs.Tables.{sync_numbers, tables_of};
ghost use Rattle.mp4_search.specs.Digits.{digits};
ghost use Rattle.mp4_search.specs.Partition.{AnswersLast, IsLastWith};
ghost use Rattle.mp4_table.specs.Runs.{durations};

use crate::seek::{last_by_time, last_sync_upto};
use crate::timing::time_at;
use crate::track::Mp4Track;
use mp4_codec::ExactEq;
use mp4_fragments::RunSample;
use mp4_search::{ByGuess, Readings};

/// The number of a sample that was searched by a time, or among the sync samples, and what it cost.
#[derive(Clone, Copy, Debug, PartialEq, Eq)]
pub struct FoundNumber {
    /// Samples are numbered from 1. None where no sample is so early.
    pub number: Option<u32>,
    /// How many times or numbers were read to be compared.
    pub comparisons: u32,
}

impl ExactEq for FoundNumber {
    ghost exact = { by_test (Prim.hlevel field_tests) };
}

/// When a track begins and ends, in ticks of its timescale.
#[derive(Clone, Copy, Debug, PartialEq, Eq)]
pub struct TimeRange {
    /// When the first sample is decoded.
    pub start: u64,
    /// When the last sample has lasted.
    pub end: u64,
}

impl ExactEq for TimeRange {
    ghost exact = { by_test (Prim.hlevel field_tests) };
}

/// When a sample of a fragment is decoded, if that is known, and how long it lasts.
fn timing_of_run_sample(run_sample: &RunSample) -> Option<(u64, u32)>
    ensures begin { option_map (λ x. x.0) result ≡ run_sample.now.at.time }
    ensures duration { IfSome result (λ x. x.1 ≡ run_sample.now.duration) }
{
    match run_sample.at.time {
        None => None,
        Some(begin) => Some((begin, run_sample.duration)),
    }
}

impl Mp4Track {
    /// The number of the last sample that is decoded at or before a time, in ticks of the track's timescale. Samples
    /// are numbered from 1, first those of the movie box, then those that fragments add. `None` before the first.
    ///
    /// Where a fragment begins before the end of the one in front of it, as its tfdt may say (ISO/IEC 14496-12,
    /// 8.8.12), several samples are decoded at a time. The last of them is the answer: all samples after it are
    /// decoded later. A sample without a known time counts as decoded at none: one past the end of stts, or one of a
    /// fragment whose time passes 64 bits or follows from one that does.
    pub fn sample_at(&self, time: u64) -> Option<u32>
        ensures { AnswersLast (sample_by (tables_of self.now.trak) (track_runs self.now) time) (2 ^ 32) result }
    {
        self.find_sample_at(time).number
    }

    /// What [`sample_at`](Mp4Track::sample_at) answers, and how many times were read to be compared: at most so many as
    /// the numbers of the runs of its fragments and of the entries of stts have binary digits, and 34 more.
    pub fn find_sample_at(&self, time: u64) -> FoundNumber
        ensures number { AnswersLast (sample_by (tables_of self.now.trak) (track_runs self.now) time)
            (2 ^ 32) result.number }
        ensures counted { IsCountByTrackTime self.now time result.comparisons }
        ensures comparisons { result.comparisons ≤ digits (length (track_runs self.now))
            + digits (length (tables_of self.now.trak).stts.entries) + 34 }
    {
        let mut added = Readings::of(self);
        if let Some(number) = self.added_by_time(time, &mut added) {
            return FoundNumber {
                number: Some(number),
                comparisons: added.count(),
            };
        }
        let mut tables = Readings::of(self);
        let stbl = &self.trak.mdia.minf.stbl;
        let runs = stbl.stts.entries.as_slice();
        let number = last_by_time(runs, &self.index, stbl.sample_count(), time, &mut tables);
        FoundNumber {
            number,
            comparisons: added.count().saturating_add(tables.count()),
        }
    }

    /// The number of the last of the samples of fragments that is decoded at or before a time.
    fn added_by_time(&self, time: u64, readings: &mut Readings) -> Option<u32>
        requires fresh { readings.old ≡ 0 }
        ensures some { IfSome result
            (IsLastWith (sample_by (tables_of self.now.trak) (track_runs self.now) time) (2 ^ 32)) }
        ensures none { IfNone result ((n : ℕ) → n < 2 ^ 32 - 1 - sample_count (tables_of self.now.trak)
            → run_sample_by (track_runs self.now) time n ≡ false) }
        ensures early { IfSome result (λ _. (j : ℕ) × (j < 2 ^ 32 - 1 - sample_count (tables_of self.now.trak))
            × (run_sample_by (track_runs self.now) time j ≡ true)) }
        ensures counted { IsCountByTime (track_runs self.now) self.now.seek.times.latest_first.items
            (2 ^ 32 - 1 - sample_count (tables_of self.now.trak)) time readings.new }
    {
        let count = self.trak.mdia.minf.stbl.sample_count();
        let trafs = self.trafs.as_slice();
        let end = u32::MAX - count;
        let times = &self.seek.times;
        match self
            .runs
            .last_decoded(trafs, self.defaults, times, end, time, readings)
        {
            None => None,
            Some(number) => Some(count + 1 + number),
        }
    }

    /// The number of the last sync sample up to sample `k`: `k` itself, if it is one. `None` where none comes so
    /// early. Past the last sample of the track it is the last sync sample of all. Without stss each sample of the
    /// movie box is a sync sample (ISO/IEC 14496-12, 8.6.2); in fragments the flags of a sample say it (8.8.3.1).
    pub fn sync_sample_at_or_before(&self, k: u32) -> Option<u32>
        ensures { AnswersLast (is_sync_sample (tables_of self.now.trak) (track_runs self.now)) (k + 1) result }
    {
        self.find_sync_sample_at_or_before(k).number
    }

    /// What [`sync_sample_at_or_before`](Mp4Track::sync_sample_at_or_before) answers, and how many numbers were
    /// compared: at most so many as the numbers of the samples of its fragments and of the entries of stss have binary
    /// digits. Where the numbers of stss don't strictly rise, all of them are looked at; that isn't counted.
    pub fn find_sync_sample_at_or_before(&self, k: u32) -> FoundNumber
        ensures number { AnswersLast (is_sync_sample (tables_of self.now.trak) (track_runs self.now))
            (k + 1) result.number }
        ensures counted { IsCountBySync self.now k result.comparisons }
        ensures comparisons { result.comparisons ≤ digits (length (all_run_samples (track_runs self.now)))
            + digits (length (sync_numbers (tables_of self.now.trak).stss)) }
    {
        let mut added = Readings::of(self);
        if let Some(number) = self.added_sync_upto(k, &mut added) {
            return FoundNumber {
                number: Some(number),
                comparisons: added.count(),
            };
        }
        let mut tables = Readings::of(self);
        let stbl = &self.trak.mdia.minf.stbl;
        let last = k.min(stbl.sample_count());
        let number = last_sync_upto(&stbl.stss, &self.index, last, &mut tables);
        FoundNumber {
            number,
            comparisons: added.count().saturating_add(tables.count()),
        }
    }

    /// The number of the last sync sample up to sample `k` among the samples of fragments.
    fn added_sync_upto(&self, k: u32, readings: &mut Readings) -> Option<u32>
        requires fresh { readings.old ≡ 0 }
        ensures some { IfSome result
            (IsLastWith (is_sync_sample (tables_of self.now.trak) (track_runs self.now)) (k + 1)) }
        ensures none { IfNone result ((n : ℕ) → sample_count (tables_of self.now.trak) + 1 + n ≤ k
            → sync_at (track_runs self.now) n ≡ false) }
        ensures sync { IfSome result (λ _. (j : ℕ) × (sample_count (tables_of self.now.trak) + 1 + j ≤ k)
            × (sync_at (track_runs self.now) j ≡ true)) }
        ensures counted { readings.new ≡ comparisons_in_spans self.now k }
        ensures few { readings.new ≤ digits (length (all_run_samples (track_runs self.now))) }
    {
        let count = self.trak.mdia.minf.stbl.sample_count();
        if k <= count {
            return None;
        }
        match self.seek.sync.last_upto(k - count - 1, readings) {
            None => None,
            Some(number) => Some(count + 1 + number),
        }
    }

    /// When the first sample is decoded, and when the last has lasted, in ticks of the track's timescale. `None`
    /// without a sample, and where one of the two times isn't known or passes 64 bits.
    ///
    /// The last sample is that with the largest number; where fragments begin before those in front of them, others may
    /// last longer.
    pub fn time_range(&self) -> Option<TimeRange>
        ensures { result ≡ time_range (tables_of self.now.trak) (track_runs self.now) }
    {
        let Some((start, _)) = self.timing_of(1) else {
            return None;
        };
        let Some(end) = self.end_time(self.last_number()) else {
            return None;
        };
        Some(TimeRange { start, end })
    }

    /// When sample `k` has lasted, if that is known and fits into 64 bits.
    fn end_time(&self, k: u32) -> Option<u64>
        ensures { result ≡ end_time (tables_of self.now.trak) (track_runs self.now) k }
    {
        let Some((begin, duration)) = self.timing_of(k) else {
            return None;
        };
        begin.checked_add(u64::from(duration))
    }

    /// When sample `k` is decoded and how long it lasts, if that is known.
    fn timing_of(&self, k: u32) -> Option<(u64, u32)>
        ensures begin { option_map (λ x. x.0) result ≡ decode_time (tables_of self.now.trak) (track_runs self.now) k }
        ensures duration { IfSome result (λ x. x.1 ≡ duration_of (tables_of self.now.trak) (track_runs self.now) k) }
    {
        let count = self.trak.mdia.minf.stbl.sample_count();
        if k <= count {
            return self.timing_in_tables(k);
        }
        let trafs = self.trafs.as_slice();
        let number = k - count - 1;
        let mut readings = Readings::of(self);
        let Some(run_sample) = self
            .runs
            .find::<ByGuess>(trafs, self.defaults, number, &mut readings)
        else {
            return None;
        };
        timing_of_run_sample(&run_sample)
    }

    /// The same of a sample of the movie box, as stts says it.
    fn timing_in_tables(&self, k: u32) -> Option<(u64, u32)>
        ensures begin { option_map (λ x. x.0) result ≡ time_in (durations (tables_of self.now.trak).stts.entries) k }
        ensures duration { IfSome result
            (λ x. x.1 ≡ get_or (durations (tables_of self.now.trak).stts.entries) (k - 1) 0) }
    {
        if k == 0 {
            return None;
        }
        let runs = self.trak.mdia.minf.stbl.stts.entries.as_slice();
        let counts = &self.index.stts_counts;
        let times = self.index.stts_times.as_slice();
        let mut readings = Readings::of(self);
        match time_at::<ByGuess>(
            runs,
            counts,
            times,
            self.trak.tkhd.track_id,
            k,
            &mut readings,
        ) {
            Ok((duration, begin)) => Some((begin, duration)),
            Err(_) => None,
        }
    }

    /// The number of the last sample of the track that has a number of 32 bits; 0 without a sample.
    fn last_number(&self) -> u32
        ensures { result ≡ last_number (tables_of self.now.trak) (track_runs self.now) }
    {
        let count = self.trak.mdia.minf.stbl.sample_count();
        let left = u32::MAX - count;
        count + self.added_samples().min(u64::from(left)) as u32
    }
}
