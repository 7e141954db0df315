//! When the runs of a track begin, kept so that samples are found by their times.

ghost use Rattle.std.specs.Prelude.{◌≡◌, ℕ, ◌+◌, ◌<◌, ◌≤◌, Option, length, take, IfOk};
ghost use Rattle.std.specs.List.{sum_by};
ghost use Rattle.mp4_fragments.specs.ByTime.{AreEarliest, AreKept, begin_of, earlier, first_decoded};
ghost use Rattle.mp4_fragments.specs.Index.{Indexes, placed_at, run_at, runs_of};
ghost use Rattle.mp4_fragments.specs.RunSamples.{PlacedRun, run_count};

use crate::defaults::SampleDefaults;
use crate::entry::RunEntry;
use crate::index::RunIndex;
use crate::lookup::run_of;
use mp4_moof::TrafBox;
use std::alloc::{AllocError, Global};

/// For each run of a track, when the earliest of it and of those after it begins, in ticks of the track's timescale.
/// These times rise with the runs, however often a fragment begins before the one before it, so that they are searched
/// by halves.
#[derive(Debug, Drop)]
pub struct RunTimes {
    /// The last run comes first. Runs after the last that begins at a known time have none.
    pub(crate) latest_first: Vec<u64>,
}

/// When a run begins, if it has a sample.
fn begin_of(trafs: &[TrafBox], track: SampleDefaults, entry: &RunEntry) -> Option<u64>
    ensures { (p : PlacedRun) → placed_at (run_at trafs.now track) entry.now ≡ Some p → result ≡ first_decoded p }
{
    let Some((run, _)) = run_of(trafs, track, entry) else {
        return None;
    };
    if run.sample_count == 0 {
        return None;
    }
    entry.at().time
}

/// The earlier of two times, of which either may be unknown.
fn earlier(one: Option<u64>, other: Option<u64>) -> Option<u64>
    ensures { result ≡ earlier one other }
{
    match (one, other) {
        (Some(one), Some(other)) => Some(one.min(other)),
        (None, time) => time,
        (time, None) => time,
    }
}

/// Keeps when one run more begins, before those that are kept; `earliest` is what was kept last. The answer is what is
/// kept last then.
fn keep_begin(
    times: &mut Vec<u64>,
    earliest: Option<u64>,
    begin: Option<u64>,
) -> Result<Option<u64>, AllocError>
    ensures { IfOk result (λ e. (begins : ℕ → Option ℕ) (from : ℕ) → AreKept begins (from + 1) times.old.items earliest
        → begins from ≡ begin → AreKept begins from times.new.items e) }
{
    let earliest = earlier(earliest, begin);
    if let Some(time) = earliest {
        times.push(time)?;
    }
    Ok(earliest)
}

/// How many runs begin with a sample whose number is below `end`, or have none and are before such a run.
fn runs_below(trafs: &[TrafBox], track: SampleDefaults, index: &mut RunIndex, end: u32) -> usize
    requires { Indexes (run_at trafs.now track) (runs_of trafs.now track index.old) index.old }
    ensures within { result ≤ length index.old.entries }
    ensures below { (r : ℕ) → r < result → sum_by run_count (take r (runs_of trafs.now track index.old)) < end }
    ensures past { (r : ℕ) → result ≤ r → r < length index.old.entries
        → end ≤ sum_by run_count (take r (runs_of trafs.now track index.old)) }
    ensures kept { index.new ≡ index.old }
{
    match end.checked_sub(1) {
        None => 0,
        Some(last) => index.counts.count_at_most(last),
    }
}

/// When the runs of an index begin, as far as their samples have numbers below `end`, which count from 0 over all
/// fragments of the track.
pub(crate) fn times_of(
    alloc: Global,
    trafs: &[TrafBox],
    track: SampleDefaults,
    index: &mut RunIndex,
    end: u32,
) -> Result<RunTimes, AllocError>
    requires { Indexes (run_at trafs.now track) (runs_of trafs.now track index.old) index.old }
    ensures earliest { IfOk result (λ times.
        AreEarliest (begin_of (runs_of trafs.now track index.old) end) 0 times.latest_first.items) }
    ensures kept { index.new ≡ index.old }
{
    let runs = runs_below(trafs, track, index, end);
    let entries = index.entries.as_slice();
    let mut latest_first = Vec::with_capacity(alloc, runs)?;
    let mut earliest = None;
    for from_last in 0..runs {
        let begin = begin_of(trafs, track, &entries[runs - 1 - from_last]);
        earliest = keep_begin(&mut latest_first, earliest, begin)?;
    }
    Ok(RunTimes { latest_first })
}
