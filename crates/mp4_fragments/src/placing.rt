//! One pass over the fragments of a track, which places its runs.

ghost use Rattle.std.specs.Prelude.{◌≡◌, ℕ, ◌-◌, ◌^◌, ◌<◌, List, length, min, IfOk, Some, fold, zip};
ghost use Rattle.std.specs.List.{sum_by};
ghost use Rattle.mp4_fragments.specs.BaseDataOffsets.{data_begins};
ghost use Rattle.mp4_fragments.specs.Defaults.{defaults_in};
ghost use Rattle.mp4_fragments.specs.Fragments.{begins, first_time, has_run_samples, with_run, with_traf, placed_runs};
ghost use Rattle.mp4_fragments.specs.Index.{Indexes, Walks, KnowsRuns, KnowsTrafs, run_at};

use crate::defaults::SampleDefaults;
use crate::entry::RunEntry;
use crate::index::{RunIndex, RunIndexBuilder};
use crate::run_samples::RunStart;
use crate::run_starts::{at_by_checkpoints, data_begin};
use mp4_moof::{TfdtBox, TrafBox, TrunBox};
use std::alloc::{AllocError, Global};

/// Where and when a run begins, if the sample before it ends at `at`.
fn run_begin(base_data_offset: Option<u64>, run: &TrunBox, at: RunStart) -> RunStart
    ensures { result ≡ begins base_data_offset run.now at }
{
    RunStart {
        place: data_begin(base_data_offset, run.data_offset, at.place),
        time: at.time,
    }
}

/// When the first sample of a fragment begins: when it says so itself, else when the track's samples before it have
/// lasted.
fn traf_time(tfdt: &Option<TfdtBox>, end: Option<u64>) -> Option<u64>
    ensures { result ≡ first_time tfdt.now end }
{
    match tfdt {
        Some(tfdt) => Some(tfdt.base_media_decode_time),
        None => end,
    }
}

/// Whether a fragment has samples.
fn any_run_samples(traf: &TrafBox) -> bool
    ensures { result ≡ has_run_samples traf.now }
{
    traf.truns.as_slice().iter().any(|run| 0 < run.sample_count)
}

/// Places run `i` of fragment `t` after `end`, and adds it to the index. The answer is its end.
fn add_run(
    alloc: Global,
    index: &mut RunIndexBuilder,
    t: usize,
    i: usize,
    run: &TrunBox,
    base_data_offset: Option<u64>,
    defaults: SampleDefaults,
    end: RunStart,
) -> Result<RunStart, AllocError>
    ensures { IfOk result (λ after.
        Walks (λ find. find t i ≡ Some (run.now, defaults))
        (λ walk. with_run base_data_offset defaults walk run.now) end after index.old index.new) }
{
    let at = run_begin(base_data_offset, run, end);
    let entry = RunEntry::of(alloc, t, i, run, defaults, at)?;
    let after = at_by_checkpoints(run, defaults, at, entry.checks(), run.sample_count);
    index.push(entry, run.sample_count)?;
    Ok(after)
}

/// Places the runs of fragment `t` one after the other, and adds them to the index. The answer is their end.
fn add_runs(
    alloc: Global,
    index: &mut RunIndexBuilder,
    t: usize,
    runs: &[TrunBox],
    base_data_offset: Option<u64>,
    defaults: SampleDefaults,
    first: RunStart,
) -> Result<RunStart, AllocError>
    ensures { IfOk result (λ after.
        Walks (KnowsRuns t runs.now defaults)
        (λ walk. fold (with_run base_data_offset defaults) walk runs.now) first after index.old index.new) }
{
    let mut at = first;
    for (i, run) in runs.iter().enumerate() {
        at = add_run(alloc, index, t, i, run, base_data_offset, defaults, at)?;
    }
    Ok(at)
}

/// Places the runs of fragment `t`, and adds them to the index. The answer is their end; the time is as it was where
/// they have no samples.
fn add_traf(
    alloc: Global,
    index: &mut RunIndexBuilder,
    track: SampleDefaults,
    t: usize,
    traf: &TrafBox,
    base_data_offset: Option<u64>,
    at: RunStart,
) -> Result<RunStart, AllocError>
    ensures { IfOk result (λ after.
        Walks (KnowsRuns t traf.now.truns (defaults_in traf.now track))
        (λ walk. with_traf track walk (traf.now, base_data_offset)) at after index.old index.new) }
{
    let defaults = track.in_traf(traf);
    let first = RunStart {
        place: base_data_offset,
        time: traf_time(&traf.tfdt, at.time),
    };
    let runs = traf.truns.as_slice();
    let last = add_runs(alloc, index, t, runs, base_data_offset, defaults, first)?;
    if any_run_samples(traf) {
        Ok(last)
    } else {
        Ok(RunStart {
            place: last.place,
            time: at.time,
        })
    }
}

/// Places the runs of all fragments of a track, and adds them to the index.
fn add_trafs(
    alloc: Global,
    index: &mut RunIndexBuilder,
    track: SampleDefaults,
    trafs: &[TrafBox],
    base_data_offsets: &[Option<u64>],
    first: RunStart,
) -> Result<RunStart, AllocError>
    requires { length base_data_offsets.now ≡ length trafs.now }
    ensures { IfOk result (λ after.
        Walks (KnowsTrafs track trafs.now)
        (λ walk. fold (with_traf track) walk (zip trafs.now base_data_offsets.now)) first after index.old index.new) }
{
    let mut at = first;
    for (t, traf) in trafs.iter().enumerate() {
        let base_data_offset = base_data_offsets[t];
        at = add_traf(alloc, index, track, t, traf, base_data_offset, at)?;
    }
    Ok(at)
}

/// How many runs these fragments have; it stops at 2^64 - 1.
fn count_runs(trafs: &[TrafBox]) -> usize
    ensures { result ≡ min (sum_by (λ t. length t.truns) trafs.now) (2 ^ 64 - 1) }
{
    let mut count: usize = 0;
    for traf in trafs {
        count = count.saturating_add(traf.truns.len());
    }
    count
}

/// The index of a track's runs: those of its fragments, which have these base data offsets. Its samples before the
/// fragments end at `end`, in ticks of its timescale. No sample is written out, and the lists of runs grow
/// once. Refused only where memory runs out.
#[tactic(auto, unfolding(crate::specs::Fragments::placed_runs))]
pub fn index_of(
    alloc: Global,
    trafs: &[TrafBox],
    base_data_offsets: &[Option<u64>],
    track: SampleDefaults,
    end: u64,
) -> Result<RunIndex, AllocError>
    requires { length base_data_offsets.now ≡ length trafs.now }
    ensures { IfOk result (λ index.
        Indexes (run_at trafs.now track) (placed_runs track end trafs.now base_data_offsets.now) index) }
{
    let mut index = RunIndexBuilder::with_capacity(alloc, count_runs(trafs))?;
    let first = RunStart {
        place: None,
        time: Some(end),
    };
    add_trafs(alloc, &mut index, track, trafs, base_data_offsets, first)?;
    Ok(index.build())
}
