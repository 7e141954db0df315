//! A walk over the samples of a track's runs.

// The steps of a lookup are kept inline: docs/PERF.md, "Why these are calls".

ghost use Rattle.std.specs.Prelude.{◌≡◌, ◌-◌, ◌^◌, ◌<◌, ◌≤◌, List, Some, slice_get, IfSome, IsTrue, IsFalse};
ghost use Rattle.mp4_fragments.specs.RunSamples.{PlacedRun, all_run_samples};
ghost use Rattle.mp4_fragments.specs.Cursor.{IsAmongRuns, IsInRuns, IsRunEnd};

use crate::defaults::SampleDefaults;
use crate::run_samples::{RunSample, RunStart, run_sample_run_start};
use crate::run_starts::add;
use mp4_moof::TrunBox;

/// Where a walk over the samples of a track's runs is: in a run, before one of its samples or after the last.
#[derive(Clone, Copy, Debug)]
pub struct RunCursor<'t> {
    pub(crate) run: &'t TrunBox,
    /// What the samples of the run have where it says nothing.
    pub(crate) defaults: SampleDefaults,
    /// The index of the run's entry.
    pub(crate) entry: usize,
    /// How many samples of the run come before the next.
    pub(crate) passed: u32,
    /// The number of the next sample, which counts from 0 over all runs.
    pub(crate) number: u32,
    /// Where the next sample begins.
    pub(crate) at: RunStart,
}

/// That a walk is after all samples of a run.
#[derive(Clone, Copy, Debug)]
pub struct RunEnd {
    /// The index of the run's entry.
    pub(crate) entry: usize,
    /// The number of the next sample, which counts from 0 over all runs.
    pub(crate) number: u32,
}

/// Where a walk over the samples of a track's runs is.
#[derive(Clone, Copy, Debug)]
pub enum RunPosition<'t> {
    /// In a run: before one of its samples, or after the last.
    InRun(RunCursor<'t>),
    /// After a run of one sample, which was taken from the run's entry.
    AfterRun(RunEnd),
}

impl<'t> RunPosition<'t> {
    /// The end of a run, if it is there and the next sample has this number.
    #[inline(always)]
    pub(crate) fn end_before(&self, number: u32) -> Option<RunEnd>
        ensures { (runs : List PlacedRun) → IsAmongRuns runs self.now
            → IfSome result (λ e. IsRunEnd runs e × (e.number ≡ number)) }
    {
        match self {
            RunPosition::InRun(cursor) => {
                if cursor.number != number || cursor.is_before_run_sample() {
                    return None;
                }
                Some(RunEnd {
                    entry: cursor.entry,
                    number,
                })
            }
            RunPosition::AfterRun(end) => {
                if end.number != number {
                    return None;
                }
                Some(*end)
            }
        }
    }
}

impl<'t> RunCursor<'t> {
    /// Whether a sample of the run comes next.
    #[inline(always)]
    pub(crate) fn is_before_run_sample(&self) -> bool
        ensures before { IsTrue result
            → (self.now.passed < self.now.run.now.sample_count) × (self.now.passed < 2 ^ 32 - 1) }
        ensures after { IsFalse result → self.now.run.now.sample_count ≤ self.now.passed }
    {
        self.passed < self.run.sample_count
    }

    /// The next sample.
    #[inline(always)]
    pub(crate) fn run_sample(&self) -> RunSample
        requires { self.now.passed < self.now.run.now.sample_count }
        ensures { (runs : List PlacedRun) → IsInRuns runs self.now
            → slice_get (all_run_samples runs) self.now.number ≡ Some result }
    {
        run_sample_run_start(self.run, self.defaults, self.at, self.passed)
    }

    /// The next sample, which is passed over.
    #[inline(always)]
    pub(crate) fn step(&mut self) -> RunSample
        requires inside { self.old.passed < self.old.run.now.sample_count }
        requires small { self.old.passed < 2 ^ 32 - 1 }
        requires number { self.old.number < 2 ^ 32 - 1 }
        ensures run_sample { (runs : List PlacedRun) → IsInRuns runs self.old
            → slice_get (all_run_samples runs) self.old.number ≡ Some result }
        ensures passed { (runs : List PlacedRun) → IsInRuns runs self.old → IsInRuns runs self.new }
    {
        let run_sample = self.run_sample();
        self.at = RunStart {
            place: add(self.at.place, u64::from(run_sample.size)),
            time: add(self.at.time, u64::from(run_sample.duration)),
        };
        self.passed += 1;
        self.number += 1;
        run_sample
    }
}
