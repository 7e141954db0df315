//! A sample of a track's fragments by its number.

// The steps of a lookup are kept inline: docs/PERF.md, "Why these are calls".

ghost use Rattle.std.specs.Prelude.{◌≡◌, ◌-◌, ◌^◌, ◌<◌, ◌≤◌, List, Some, None, length, min, slice_get, IfNone, IfSome};
ghost use Rattle.std.specs.Option.{option_map};
ghost use Rattle.mp4_fragments.specs.Cursor.{IsAmongRuns, IsIn, IsInRuns, IsRunEnd};
ghost use Rattle.mp4_fragments.specs.RunSamples.{PlacedRun, all_run_samples, at_run_sample};
ghost use Rattle.mp4_search.specs.Search.{IsCountByGuess};
ghost use Rattle.mp4_fragments.specs.Index.{Find, Indexes, IsRight, placed_at, run_at, run_sample_in, runs_of};

use crate::cursor::{RunCursor, RunEnd, RunPosition};
use crate::defaults::SampleDefaults;
use crate::entry::RunEntry;
use crate::index::RunIndex;
use crate::run_samples::{RunSample, RunStart, run_sample_run_start};
use crate::run_starts::{add, at_by_checkpoints};
use mp4_moof::{TrafBox, TrunBox};
use mp4_search::{ByGuess, Readings, Search};

/// Run `i` of fragment `t` of a track, and what its samples have where it says nothing.
#[tactic(auto, unfolding(crate::specs::Index::run_at, crate::specs::Index::run_of_traf))]
fn run_numbered(
    trafs: &[TrafBox],
    track: SampleDefaults,
    t: usize,
    i: usize,
) -> Option<(&TrunBox, SampleDefaults)>
    ensures { option_map (λ x. (x.0.now, x.1)) result ≡ run_at trafs.now track t i }
{
    match trafs.get(t) {
        None => None,
        Some(traf) => match traf.truns.as_slice().get(i) {
            None => None,
            Some(run) => Some((run, track.in_traf(traf))),
        },
    }
}

/// The run of an entry, and what its samples have where it says nothing.
#[inline(always)]
pub(crate) fn run_of<'t>(
    trafs: &'t [TrafBox],
    track: SampleDefaults,
    entry: &RunEntry,
) -> Option<(&'t TrunBox, SampleDefaults)>
    ensures { option_map (λ x. (x.0.now, x.1)) result ≡ run_at trafs.now track entry.now.traf entry.now.run }
{
    run_numbered(trafs, track, entry.traf(), entry.run())
}

/// A walk before sample `j` of the run of the entry with this index, if it has so many; the number of that sample over
/// all runs is `number`.
#[inline(always)]
fn cursor_in<'t>(
    trafs: &'t [TrafBox],
    track: SampleDefaults,
    entry: &RunEntry,
    index: usize,
    j: u32,
    number: u32,
) -> Option<RunCursor<'t>>
    requires { IsRight (run_at trafs.now track) entry.now }
    ensures some { IfSome result (λ c. (c.entry ≡ index) × (c.passed ≡ j) × (c.number ≡ number)
        × (j < c.run.now.sample_count) × (j < 2 ^ 32 - 1)
        × ((p : PlacedRun) → placed_at (run_at trafs.now track) entry.now ≡ Some p → IsIn p c)) }
    ensures none { IfNone result ((p : PlacedRun) → placed_at (run_at trafs.now track) entry.now ≡ Some p
        → p.run.sample_count ≤ j) }
{
    let Some((run, defaults)) = run_of(trafs, track, entry) else {
        return None;
    };
    if j >= run.sample_count {
        return None;
    }
    Some(RunCursor {
        run,
        defaults,
        entry: index,
        passed: j,
        number,
        at: at_by_checkpoints(run, defaults, entry.at(), entry.checks(), j),
    })
}

/// Where the first sample of a run begins that begins there.
#[inline(always)]
fn first_start(at: RunStart) -> RunStart
    ensures { (run : TrunBox) (defaults : SampleDefaults) → result ≡ at_run_sample run defaults at 0 }
{
    RunStart {
        place: add(at.place, 0),
        time: add(at.time, 0),
    }
}

/// Sample `j` of the run of an entry, if it has so many.
///
/// Where it is the only one it is in the entry: neither its fragment nor its run is looked at, which are three loads,
/// each after the one before.
#[inline(always)]
fn run_sample_at(
    trafs: &[TrafBox],
    track: SampleDefaults,
    entry: &RunEntry,
    j: u32,
) -> Option<RunSample>
    requires { IsRight (run_at trafs.now track) entry.now }
    ensures { (p : PlacedRun) → placed_at (run_at trafs.now track) entry.now ≡ Some p → result ≡ run_sample_in j p }
{
    if let Some(values) = entry.only() {
        return if j == 0 {
            Some(values.begin_at(first_start(entry.at())))
        } else {
            None
        };
    }
    let Some((run, defaults)) = run_of(trafs, track, entry) else {
        return None;
    };
    if j >= run.sample_count {
        return None;
    }
    let at = at_by_checkpoints(run, defaults, entry.at(), entry.checks(), j);
    Some(run_sample_run_start(run, defaults, at, j))
}

/// The end of the run where a walk is, if the next sample has this number.
#[inline(always)]
fn end_before(position: &Option<RunPosition>, number: u32) -> Option<RunEnd>
    ensures { (runs : List PlacedRun) → IfSome position.now (IsAmongRuns runs)
        → IfSome result (λ e. IsRunEnd runs e × (e.number ≡ number)) }
{
    match position {
        None => None,
        Some(position) => position.end_before(number),
    }
}

impl RunIndex {
    /// A walk before the sample with this number, if there is one; its run is searched.
    #[inline(always)]
    fn cursor_at<'t>(
        &self,
        trafs: &'t [TrafBox],
        track: SampleDefaults,
        number: u32,
        readings: &mut Readings,
    ) -> Option<RunCursor<'t>>
        requires number { number < 2 ^ 32 - 1 }
        requires indexed { Indexes (run_at trafs.now track) (runs_of trafs.now track self.now) self.now }
        requires fresh { readings.old ≡ 0 }
        ensures some { IfSome result (λ c. IsInRuns (runs_of trafs.now track self.now) c × (c.number ≡ number)
            × (c.passed < c.run.now.sample_count) × (c.passed < 2 ^ 32 - 1)) }
        ensures none { IfNone result (slice_get (all_run_samples (runs_of trafs.now track self.now)) number ≡ None) }
        ensures counted { IsCountByGuess self.now.counts number readings.new }
    {
        let Some(found) = ByGuess::last_at_most(&self.counts, number, readings) else {
            return None;
        };
        let entry = &self.entries.as_slice()[found.index];
        cursor_in(
            trafs,
            track,
            entry,
            found.index,
            number - found.number,
            number,
        )
    }

    /// The first sample of the run after that which the walk is at the end of, and the walk after it; None where that
    /// run has no sample, and then the walk stays.
    #[inline(always)]
    fn next_run_sample<'t>(
        &self,
        trafs: &'t [TrafBox],
        track: SampleDefaults,
        end: RunEnd,
        position: &mut Option<RunPosition<'t>>,
    ) -> Option<RunSample>
        requires number { end.number < 2 ^ 32 - 1 }
        requires indexed { Indexes (run_at trafs.now track) (runs_of trafs.now track self.now) self.now }
        requires end { IsRunEnd (runs_of trafs.now track self.now) end }
        requires position { IfSome position.old (IsAmongRuns (runs_of trafs.now track self.now)) }
        ensures run_sample { IfSome result (λ m.
            slice_get (all_run_samples (runs_of trafs.now track self.now)) end.number ≡ Some m) }
        ensures position { IfSome position.new (IsAmongRuns (runs_of trafs.now track self.now)) }
    {
        let entries = self.entries.as_slice();
        let index = end.entry + 1;
        let Some(entry) = entries.get(index) else {
            return None;
        };
        if let Some(values) = entry.only() {
            *position = Some(RunPosition::AfterRun(RunEnd {
                entry: index,
                number: end.number + 1,
            }));
            return Some(values.begin_at(first_start(entry.at())));
        }
        let Some(mut cursor) = cursor_in(trafs, track, entry, index, 0, end.number) else {
            return None;
        };
        let run_sample = cursor.step();
        *position = Some(RunPosition::InRun(cursor));
        Some(run_sample)
    }

    /// The sample with this number, which counts from 0 over all fragments of the track; its run is searched. They are
    /// those that the index was made of, and `track` is what the movie says of their samples.
    #[inline(always)]
    pub fn find<S: Search>(
        &self,
        trafs: &[TrafBox],
        track: SampleDefaults,
        number: u32,
        readings: &mut Readings,
    ) -> Option<RunSample>
        requires number { number < 2 ^ 32 - 1 }
        requires indexed { Indexes (run_at trafs.now track) (runs_of trafs.now track self.now) self.now }
        requires fresh { readings.old ≡ 0 }
        ensures run_sample { result ≡ slice_get (all_run_samples (runs_of trafs.now track self.now)) number }
        ensures counted { S.Counts self.now.counts number readings.new }
    {
        let Some(found) = S::last_at_most(&self.counts, number, readings) else {
            return None;
        };
        let entry = &self.entries.as_slice()[found.index];
        run_sample_at(trafs, track, entry, number - found.number)
    }

    /// What [`find`](RunIndex::find) answers at numbers that come in order: the walk goes on from the sample before, so
    /// that a step costs a constant, and searches only where it comes from elsewhere or passes a run without samples.
    #[inline(always)]
    pub fn find_next<'t>(
        &self,
        trafs: &'t [TrafBox],
        track: SampleDefaults,
        number: u32,
        readings: &mut Readings,
        position: &mut Option<RunPosition<'t>>,
    ) -> Option<RunSample>
        requires number { number < 2 ^ 32 - 1 }
        requires indexed { Indexes (run_at trafs.now track) (runs_of trafs.now track self.now) self.now }
        requires fresh { readings.old ≡ 0 }
        requires position { IfSome position.old (IsAmongRuns (runs_of trafs.now track self.now)) }
        ensures run_sample { result ≡ slice_get (all_run_samples (runs_of trafs.now track self.now)) number }
        ensures position { IfSome position.new (IsAmongRuns (runs_of trafs.now track self.now)) }
    {
        if let Some(RunPosition::InRun(cursor)) = position {
            if cursor.number == number && cursor.is_before_run_sample() {
                return Some(cursor.step());
            }
        }
        if let Some(end) = end_before(position, number) {
            if let Some(run_sample) = self.next_run_sample(trafs, track, end, position) {
                return Some(run_sample);
            }
        }
        let Some(mut found) = self.cursor_at(trafs, track, number, readings) else {
            return None;
        };
        let run_sample = found.step();
        *position = Some(RunPosition::InRun(found));
        Some(run_sample)
    }

    /// How many samples there are; it stops at 2^64 - 1.
    pub fn count(&self) -> u64
        ensures { (find : Find) (runs : List PlacedRun) → Indexes find runs self.now
            → result ≡ min (2 ^ 64 - 1) (length (all_run_samples runs)) }
    {
        self.total
    }
}
