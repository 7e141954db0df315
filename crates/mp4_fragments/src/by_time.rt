//! A sample of a track's fragments by the time at which it is decoded.

ghost use Rattle.std.proofs.Props.{props};
ghost use Rattle.std.specs.Prelude.{◌≡◌, ℕ, ◌+◌, ◌-◌, ◌^◌, ◌<◌, ◌≤◌, Some, length, min};
ghost use Rattle.mp4_fragments.specs.ByTime.{AreEarliest, IsCountByTime, begin_of, decoded_by, in_run_by};
ghost use Rattle.mp4_fragments.specs.ByTime.{run_sample_by, runs_by};
ghost use Rattle.mp4_fragments.specs.Checkpoints.{AreCheckpoints};
ghost use Rattle.mp4_fragments.specs.Index.{Indexes, IsRight, placed_at, run_at, runs_of};
ghost use Rattle.mp4_fragments.specs.RunSamples.{PlacedRun, at_run_sample, run_count};
ghost use Rattle.mp4_search.specs.Partition.{AnswersLast, ArePartedAt, asked_in};

use crate::defaults::SampleDefaults;
use crate::entry::RunEntry;
use crate::index::RunIndex;
use crate::lookup::run_of;
use crate::run_samples::RunStart;
use crate::run_starts::at_by_checkpoints;
use crate::times::RunTimes;
use mp4_moof::{TrafBox, TrunBox};
use mp4_search::{Parted, Readings, partition_point};

/// The times that are kept of runs, from the first run on: those of the first runs are at or before a time.
#[derive(Drop)]
struct RunsBy<'t> {
    latest_first: &'t [u64],
    time: u64,
}

impl<'t> Parted for RunsBy<'t> {
    ghost len = { λ r. length r.latest_first.now };

    ghost has = { λ r i. runs_by r.latest_first.now r.time i };

    fn has(&self, index: usize) -> bool {
        self.latest_first[self.latest_first.len() - 1 - index] <= self.time
    }
}

/// The samples of a run: the first of them are decoded at or before a time.
#[derive(Drop)]
struct RunSamplesBy<'t> {
    run: &'t TrunBox,
    defaults: SampleDefaults,
    first: RunStart,
    checks: &'t [RunStart],
    time: u64,
    ghost right: { AreCheckpoints run.now defaults first checks.now } by { Prim.hlevel props },
    ghost counted: { run.now.sample_count < 2 ^ 32 } by { Prim.hlevel props },
}

impl<'t> Parted for RunSamplesBy<'t> {
    ghost len = { λ m. m.run.now.sample_count };

    ghost has = { λ m j. decoded_by m.time (at_run_sample m.run.now m.defaults m.first j).time };

    fn has(&self, index: usize) -> bool {
        let j = index as u32;
        match at_by_checkpoints(self.run, self.defaults, self.first, self.checks, j).time {
            None => false,
            Some(time) => time <= self.time,
        }
    }
}

/// How many of the first `n` samples of an entry's run are decoded at or before a time.
fn run_samples_by(
    trafs: &[TrafBox],
    track: SampleDefaults,
    entry: &RunEntry,
    n: u32,
    time: u64,
    readings: &mut Readings,
) -> u32
    requires right { IsRight (run_at trafs.now track) entry.now }
    requires room { readings.old < 2 ^ 31 }
    ensures point { (p : PlacedRun) → placed_at (run_at trafs.now track) entry.now ≡ Some p
        → ArePartedAt (in_run_by p time) (min n (run_count p)) result }
    ensures counted { (p : PlacedRun) → placed_at (run_at trafs.now track) entry.now ≡ Some p
        → readings.new ≡ readings.old + asked_in (in_run_by p time) (min n (run_count p)) }
    ensures few { readings.new ≤ readings.old + 32 }
{
    let Some((run, defaults)) = run_of(trafs, track, entry) else {
        return 0;
    };
    let run_samples = RunSamplesBy {
        run,
        defaults,
        first: entry.at(),
        checks: entry.checks(),
        time,
    };
    let n = n.min(run.sample_count);
    partition_point(&run_samples, n as usize, readings) as u32
}

impl RunIndex {
    /// The number of the last sample that is decoded at or before a time, of those whose numbers are below `end`; they
    /// count from 0 over all fragments of the track. None where none is decoded so early. Each time that is compared is
    /// counted, and one reading more.
    pub fn last_decoded(
        &self,
        trafs: &[TrafBox],
        track: SampleDefaults,
        times: &RunTimes,
        end: u32,
        time: u64,
        readings: &mut Readings,
    ) -> Option<u32>
        requires indexed { Indexes (run_at trafs.now track) (runs_of trafs.now track self.now) self.now }
        requires times { AreEarliest (begin_of (runs_of trafs.now track self.now) end) 0 times.now.latest_first.items }
        requires fresh { readings.old ≡ 0 }
        ensures number { AnswersLast (run_sample_by (runs_of trafs.now track self.now) time) end result }
        ensures counted { IsCountByTime (runs_of trafs.now track self.now) times.now.latest_first.items end time
            readings.new }
    {
        let runs = RunsBy {
            latest_first: times.latest_first.as_slice(),
            time,
        };
        let count = partition_point(&runs, runs.latest_first.len(), readings);
        let Some(index) = count.checked_sub(1) else {
            return None;
        };
        let before = self.counts.read(index, readings);
        let entry = &self.entries.as_slice()[index];
        let run_samples = run_samples_by(trafs, track, entry, end - before, time, readings);
        Some(before + run_samples - 1)
    }
}
