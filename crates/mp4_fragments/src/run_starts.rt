//! Where and when samples of a run begin.

ghost use Rattle.std.specs.Prelude.{◌≡◌, ℕ, ℤ, ◌+◌, ◌-◌, ◌*◌, ◌/◌, ◌<◌, ◌≤◌, length, IfOk};
ghost use Rattle.mp4_fragments.specs.Numbers.{plus, moved};
ghost use Rattle.mp4_fragments.specs.BaseDataOffsets.{data_begins};
ghost use Rattle.mp4_fragments.specs.RunSamples.{at_run_sample};
ghost use Rattle.mp4_fragments.specs.Checkpoints.{AreCheckpoints};

use crate::defaults::SampleDefaults;
use crate::run_samples::RunStart;
use crate::values::{sum_between, sum_of};
use mp4_codec::Items;
use mp4_moof::TrunBox;
use std::alloc::{AllocError, Global};

/// How many samples lie between two checkpoints of a run.
const BETWEEN_CHECKPOINTS: u32 = 64;

/// So far on.
pub(crate) fn add(from: Option<u64>, n: u64) -> Option<u64>
    ensures { result ≡ plus from n }
{
    from?.checked_add(n)
}

/// So far on or back.
fn shift(from: Option<u64>, offset: i32) -> Option<u64>
    ensures { result ≡ moved from offset }
{
    from?.checked_add_signed(i64::from(offset))
}

/// Where the data of a run begins: so far from the base data offset as it says, else where the data before it ended.
pub(crate) fn data_begin(
    base_data_offset: Option<u64>,
    offset: Option<i32>,
    before: Option<u64>,
) -> Option<u64>
    ensures { result ≡ data_begins base_data_offset offset before }
{
    match offset {
        None => before,
        Some(offset) => shift(base_data_offset, offset),
    }
}

/// Where sample `j` of a run begins, by its index, which counts from 0, if the first begins at `first`.
#[tactic(auto, unfolding(crate::specs::RunSamples::at_run_sample))]
pub(crate) fn at_run_sample(
    run: &TrunBox,
    defaults: SampleDefaults,
    first: RunStart,
    j: u32,
) -> RunStart
    ensures { result ≡ at_run_sample run.now defaults first j }
{
    let durations = run.sample_durations.as_slice();
    RunStart {
        place: add(
            first.place,
            sum_of(run.sample_sizes.as_slice(), defaults.size, j),
        ),
        time: add(first.time, sum_of(durations, defaults.duration, j)),
    }
}

/// Where sample `to` of a run begins, from where sample `from` does.
pub(crate) fn at_later_run_sample(
    run: &TrunBox,
    defaults: SampleDefaults,
    at: RunStart,
    from: u32,
    to: u32,
) -> RunStart
    requires { from ≤ to }
    ensures { (first : RunStart) → at ≡ at_run_sample run.now defaults first from
        → result ≡ at_run_sample run.now defaults first to }
{
    let sizes = run.sample_sizes.as_slice();
    let durations = run.sample_durations.as_slice();
    RunStart {
        place: add(at.place, sum_between(sizes, defaults.size, from, to)),
        time: add(at.time, sum_between(durations, defaults.duration, from, to)),
    }
}

/// Where every 64th sample of a run with listed sizes or durations begins, from the 64th on, in a list that
/// grows once.
pub(crate) fn checkpoints(
    alloc: Global,
    run: &TrunBox,
    defaults: SampleDefaults,
    first: RunStart,
) -> Result<Items<RunStart>, AllocError>
    ensures right { IfOk result (λ checks. AreCheckpoints run.now defaults first checks) }
    ensures every { IfOk result
        (λ checks. 0 < length run.now.sample_sizes + length run.now.sample_durations
        → length checks ≡ run.now.sample_count / 64) }
{
    if run.sample_sizes.is_empty() && run.sample_durations.is_empty() {
        return Ok(Items::new(alloc));
    }
    let count = run.sample_count / BETWEEN_CHECKPOINTS;
    if count == 0 {
        return Ok(Items::new(alloc));
    }
    let mut checks = Items::with_capacity(alloc, count as usize)?;
    let mut at = at_run_sample(run, defaults, first, BETWEEN_CHECKPOINTS);
    checks.push(at)?;
    for q in 1..count {
        let from = BETWEEN_CHECKPOINTS * q;
        at = at_later_run_sample(run, defaults, at, from, from + BETWEEN_CHECKPOINTS);
        checks.push(at)?;
    }
    Ok(checks)
}

/// Where sample `j` of a run begins, from the last checkpoint that isn't after it; the first begins at `first`.
// Kept inline: docs/PERF.md, "Why these are calls".
#[inline(always)]
pub(crate) fn at_by_checkpoints(
    run: &TrunBox,
    defaults: SampleDefaults,
    first: RunStart,
    checks: &[RunStart],
    j: u32,
) -> RunStart
    requires { AreCheckpoints run.now defaults first checks.now }
    ensures { result ≡ at_run_sample run.now defaults first j }
{
    let q = j / BETWEEN_CHECKPOINTS;
    if 0 < q && q as usize <= checks.len() {
        let at = checks[q as usize - 1];
        at_later_run_sample(run, defaults, at, BETWEEN_CHECKPOINTS * q, j)
    } else {
        at_run_sample(run, defaults, first, j)
    }
}
