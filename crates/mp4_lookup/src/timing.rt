//! When a sample is decoded and shown, and whether it is a sync sample (ISO/IEC 14496-12, 8.6.1 and 8.6.2).

// The steps of a lookup are kept inline: docs/PERF.md, "Why these are calls".

ghost use Rattle.std.specs.Prelude.{◌≡◌, ℕ, ◌+◌, ◌-◌, ◌*◌, ◌^◌, ◌<◌, ◌≤◌, List, length, pos, get_or, slice_index};
ghost use Rattle.std.specs.Prelude.{IfErr, IfNone, IfSome, IsTrue, OnOk};
ghost use Rattle.std.specs.Prelude.{Ok, Err, ◌==◌, ◌↔◌, false};
ghost use Rattle.std.specs.List.{All, list_any, sum_by};
ghost use Rattle.std.specs.List.Sorted.{IsNonDecreasing, IsStrictlyIncreasing};
ghost use Rattle.mp4_codec.specs.Cause.{Gives, cause_of, entry_in_stbl_not_found};
ghost use Rattle.mp4_codec.specs.declared.box_type.BoxType.TheVariants.{SttsBox as stts};
ghost use Rattle.mp4_table.specs.Runs.{durations, rendering_offsets};
ghost use Rattle.mp4_table.specs.Starts.{start_of};
ghost use Rattle.mp4_search.specs.BitSet.{AreBitsOf};
ghost use Rattle.mp4_search.specs.Sums.{CountsBefore};
ghost use Rattle.mp4_lookup.specs.Sums.{TimesBefore};
ghost use Rattle.mp4_lookup.specs.Tables.{AreTables, walked};
ghost use Rattle.mp4_samples.specs.Tables.{ctts_runs, is_sync_at, sync_numbers, tables_of};
ghost use Rattle.mp4_lookup.specs.Rule.{time_at};
ghost use Rattle.mp4_lookup.specs.Walk.{IsOffsetRun, IsSyncGap, IsTimeRun};

use crate::index::{TrackIndex, runs_of_ctts};
use crate::tables::Tables;
use crate::track::Mp4Track;
use mp4_codec::{BoxType, Error, Result};
use mp4_search::{ByGuess, Readings, Search, SearchedNumbers};
use mp4_table::{CttsEntry, StssBox, SttsEntry};

/// When so many samples of these runs have lasted, or all, where there are fewer.
pub fn end_after(runs: &[SttsEntry], count: u32) -> u64
    ensures { result ≡ start_of (durations runs.now) (count + 1) }
{
    let mut left = count;
    let mut end: u64 = 0;
    for run in runs {
        if left <= run.sample_count {
            return end + u64::from(left) * u64::from(run.sample_delta);
        }
        left -= run.sample_count;
        end += u64::from(run.sample_count) * u64::from(run.sample_delta);
    }
    end
}

/// What is left of a run of stts, from a sample on.
#[derive(Clone, Copy, Debug)]
pub struct TimeRun {
    /// How many ticks all samples before it last.
    pub start: u64,
    /// How many samples are left.
    pub left: u32,
    /// How many ticks each of them lasts.
    pub delta: u32,
    /// The index of the run after it.
    pub next: usize,
}

impl TimeRun {
    /// Of no run, before sample `k`: the run of the first sample comes next, and that of another is searched.
    pub fn before(runs: &[SttsEntry], k: u32) -> Self
        ensures { IsTimeRun runs.now k result }
    {
        TimeRun {
            start: 0,
            left: 0,
            delta: 0,
            next: if k == 1 { 0 } else { runs.len() },
        }
    }

    /// Duration and start of the first sample that is left, which is one fewer then.
    #[inline(always)]
    fn take(&mut self, k: u32) -> (u32, u64)
        requires first { 1 ≤ k }
        requires some { 0 < self.old.left }
        requires fits { self.old.start ≤ (k - 1) * (2 ^ 32 - 1) }
        requires short { self.old.delta < 2 ^ 32 }
        ensures taken { (runs : List SttsEntry) (track : ℕ) → IsTimeRun runs k self.old
            → time_at runs track k ≡ Ok result }
        ensures rest { (runs : List SttsEntry) → IsTimeRun runs k self.old → IsTimeRun runs (k + 1) self.new }
    {
        let start = self.start;
        self.start += u64::from(self.delta);
        self.left -= 1;
        (self.delta, start)
    }

    /// The run after it, of which sample `k` is the first, where none is left of this one and that one has any.
    #[inline(always)]
    fn next_run(&self, runs: &[SttsEntry], k: u32) -> Option<TimeRun>
        requires first { 1 ≤ k }
        requires none { self.now.left ≡ 0 }
        requires run { IsTimeRun runs.now k self.now }
        requires small { All (λ r. r.sample_delta < 2 ^ 32) runs.now }
        ensures { IfSome result (λ r. IsTimeRun runs.now k r × (0 < r.left)) }
    {
        if self.next >= runs.len() {
            return None;
        }
        let run = runs[self.next];
        if run.sample_count == 0 {
            return None;
        }
        Some(TimeRun {
            start: self.start,
            left: run.sample_count,
            delta: run.sample_delta,
            next: self.next + 1,
        })
    }

    /// What is left of the run of sample `k`, which is searched.
    // Kept a call: docs/PERF.md, "Why these are calls".
    #[inline(never)]
    fn search(track: &Mp4Track, k: u32) -> Option<TimeRun>
        requires first { 1 ≤ k }
        ensures run { IfSome result (λ r. IsTimeRun (tables_of track.now.trak).stts.entries k r × (0 < r.left)) }
        ensures none { IfNone result ((id : ℕ) → time_at (tables_of track.now.trak).stts.entries id k
            ≡ Err (entry_in_stbl_not_found id stts k)) }
    {
        let runs = track.trak.mdia.minf.stbl.stts.entries.as_slice();
        let index = &track.index;
        let mut readings = Readings::of(track);
        time_run_at::<ByGuess>(
            runs,
            &index.stts_counts,
            &index.stts_times,
            k,
            &mut readings,
        )
    }

    /// Becomes what is left of the run of sample `k`, none of this one being left: of the run after it, else of one
    /// that is searched.
    #[inline(always)]
    fn move_to(&mut self, tables: &Tables, k: u32) -> Result<()>
        requires tables { AreTables tables.now }
        requires first { 1 ≤ k }
        requires none { self.old.left ≡ 0 }
        requires run { IsTimeRun (walked tables.now).stts.entries k self.old }
        ensures run { OnOk result (IsTimeRun (walked tables.now).stts.entries k self.new) }
        ensures some { OnOk result (0 < self.new.left) }
        ensures refused { IfErr result
            (λ e. time_at (walked tables.now).stts.entries tables.now.track.now.trak.tkhd.track_id k
            ≡ Err (cause_of e)) }
    {
        if let Some(next) = self.next_run(tables.durations, k) {
            *self = next;
            return Ok(());
        }
        match TimeRun::search(tables.track, k) {
            Some(found) => {
                *self = found;
                Ok(())
            }
            None => Err(Error::EntryInStblNotFound(
                tables.track.trak.tkhd.track_id,
                BoxType::SttsBox,
                k,
            )),
        }
    }
}

/// What is left of the run of sample `k` from it on: the run is searched.
#[inline(always)]
fn time_run_at<S: Search>(
    runs: &[SttsEntry],
    counts: &SearchedNumbers,
    times: &[u64],
    k: u32,
    readings: &mut Readings,
) -> Option<TimeRun>
    requires first { 1 ≤ k }
    requires sums { TimesBefore runs.now counts.now times.now }
    requires fresh { readings.old ≡ 0 }
    ensures run { IfSome result (λ r. IsTimeRun runs.now k r × (0 < r.left)) }
    ensures none { IfNone result ((id : ℕ) → time_at runs.now id k ≡ Err (entry_in_stbl_not_found id stts k)) }
    ensures counted { S.Counts counts.now (k - 1) readings.new }
{
    let Some(found) = S::last_at_most(counts, k - 1, readings) else {
        return None;
    };
    let run = runs[found.index];
    let earlier = k - 1 - found.number;
    if earlier >= run.sample_count {
        return None;
    }
    Some(TimeRun {
        start: times[found.index] + u64::from(earlier) * u64::from(run.sample_delta),
        left: run.sample_count - earlier,
        delta: run.sample_delta,
        next: found.index + 1,
    })
}

/// Duration and start of sample `k`.
#[inline(always)]
pub fn time_at<S: Search>(
    runs: &[SttsEntry],
    counts: &SearchedNumbers,
    times: &[u64],
    track_id: u32,
    k: u32,
    readings: &mut Readings,
) -> Result<(u32, u64)>
    requires first { 1 ≤ k }
    requires sums { TimesBefore runs.now counts.now times.now }
    requires fresh { readings.old ≡ 0 }
    ensures time { Gives (λ t. t) result (time_at runs.now track_id k) }
    ensures counted { S.Counts counts.now (k - 1) readings.new }
{
    match time_run_at::<S>(runs, counts, times, k, readings) {
        Some(run) => Ok((run.delta, run.start)),
        None => Err(Error::EntryInStblNotFound(track_id, BoxType::SttsBox, k)),
    }
}

/// Duration and start of sample `k`, the next of a walk that is in this run, or else moves to the run after it, or to
/// one that it searches.
#[inline(always)]
pub fn time_in_order(tables: &Tables, k: u32, run: &mut TimeRun) -> Result<(u32, u64)>
    requires tables { AreTables tables.now }
    requires first { 1 ≤ k }
    requires run { IsTimeRun (walked tables.now).stts.entries k run.old }
    ensures run { OnOk result (IsTimeRun (walked tables.now).stts.entries (k + 1) run.new) }
    ensures time { Gives (λ t. t) result
        (time_at (walked tables.now).stts.entries tables.now.track.now.trak.tkhd.track_id k) }
{
    if run.left == 0 {
        run.move_to(tables, k)?;
    }
    Ok(run.take(k))
}

/// What is left of a run of ctts, or of the samples past all runs, from a sample on.
#[derive(Clone, Copy, Debug)]
pub struct OffsetRun {
    /// How many samples are left.
    pub left: u32,
    /// How much later than they are decoded they are shown.
    pub offset: i32,
    /// The index of the run after it.
    pub next: usize,
}

impl OffsetRun {
    /// Of no run, before sample `k`: the run of the first sample comes next, and that of another is searched.
    pub fn before(runs: &[CttsEntry], k: u32) -> Self
        ensures { IsOffsetRun runs.now k result }
    {
        OffsetRun {
            left: 0,
            offset: 0,
            next: if k == 1 { 0 } else { runs.len() },
        }
    }

    /// The samples from `k` on, which are past these runs.
    fn past(runs: &[CttsEntry], k: u32) -> Self
        requires first { 1 ≤ k }
        requires past { sum_by (λ r. r.sample_count) runs.now ≤ k - 1 }
        ensures run { IsOffsetRun runs.now k result }
        ensures some { 0 < result.left }
        ensures zero { result.offset ≡ pos 0 }
    {
        OffsetRun {
            left: u32::MAX - (k - 1),
            offset: 0,
            next: runs.len(),
        }
    }

    /// How much later than it is decoded the first sample that is left is shown; one fewer is left then.
    #[inline(always)]
    fn take(&mut self) -> i32
        requires some { 0 < self.old.left }
        ensures taken { (runs : List CttsEntry) (k : ℕ) → IsOffsetRun runs k self.old
            → result ≡ get_or (rendering_offsets runs) (k - 1) (pos 0) }
        ensures rest { (runs : List CttsEntry) (k : ℕ) → 1 ≤ k → IsOffsetRun runs k self.old
            → IsOffsetRun runs (k + 1) self.new }
    {
        self.left -= 1;
        self.offset
    }

    /// The run after it, of which sample `k` is the first, where none is left of this one and that one has any.
    #[inline(always)]
    fn next_run(&self, runs: &[CttsEntry], k: u32) -> Option<OffsetRun>
        requires first { 1 ≤ k }
        requires none { self.now.left ≡ 0 }
        requires run { IsOffsetRun runs.now k self.now }
        ensures { IfSome result (λ r. IsOffsetRun runs.now k r × (0 < r.left)) }
    {
        if self.next >= runs.len() {
            return None;
        }
        let run = runs[self.next];
        if run.sample_count == 0 {
            return None;
        }
        Some(OffsetRun {
            left: run.sample_count,
            offset: run.sample_offset,
            next: self.next + 1,
        })
    }

    /// What is left of the run of sample `k`, which is searched.
    // Kept a call: docs/PERF.md, "Why these are calls".
    #[inline(never)]
    fn search(track: &Mp4Track, k: u32) -> OffsetRun
        requires first { 1 ≤ k }
        ensures run { IsOffsetRun (ctts_runs (tables_of track.now.trak).ctts) k result }
        ensures some { 0 < result.left }
    {
        let runs = runs_of_ctts(&track.trak.mdia.minf.stbl.ctts);
        let mut readings = Readings::of(track);
        offset_run_at::<ByGuess>(runs, &track.index.ctts_counts, k, &mut readings)
    }

    /// Becomes what is left of the run of sample `k`, none of this one being left: of the run after it, else of one
    /// that is searched.
    #[inline(always)]
    fn move_to(&mut self, tables: &Tables, k: u32)
        requires tables { AreTables tables.now }
        requires first { 1 ≤ k }
        requires none { self.old.left ≡ 0 }
        requires run { IsOffsetRun (ctts_runs (walked tables.now).ctts) k self.old }
        ensures run { IsOffsetRun (ctts_runs (walked tables.now).ctts) k self.new }
        ensures some { 0 < self.new.left }
    {
        *self = match self.next_run(tables.rendering_offsets, k) {
            Some(next) => next,
            None => OffsetRun::search(tables.track, k),
        };
    }
}

/// What is left of the run of sample `k` from it on: the run is searched.
#[inline(always)]
fn offset_run_at<S: Search>(
    runs: &[CttsEntry],
    counts: &SearchedNumbers,
    k: u32,
    readings: &mut Readings,
) -> OffsetRun
    requires first { 1 ≤ k }
    requires sums { CountsBefore (λ r. r.sample_count) runs.now counts.now }
    requires fresh { readings.old ≡ 0 }
    ensures run { IsOffsetRun runs.now k result }
    ensures some { 0 < result.left }
    ensures counted { S.Counts counts.now (k - 1) readings.new }
{
    let Some(found) = S::last_at_most(counts, k - 1, readings) else {
        return OffsetRun::past(runs, k);
    };
    let run = runs[found.index];
    let earlier = k - 1 - found.number;
    if earlier >= run.sample_count {
        return OffsetRun::past(runs, k);
    }
    OffsetRun {
        left: run.sample_count - earlier,
        offset: run.sample_offset,
        next: found.index + 1,
    }
}

/// How much later than it is decoded sample `k` is shown: 0 past the runs.
#[inline(always)]
pub fn rendering_offset_at<S: Search>(
    runs: &[CttsEntry],
    counts: &SearchedNumbers,
    k: u32,
    readings: &mut Readings,
) -> i32
    requires first { 1 ≤ k }
    requires sums { CountsBefore (λ r. r.sample_count) runs.now counts.now }
    requires fresh { readings.old ≡ 0 }
    ensures value { result ≡ get_or (rendering_offsets runs.now) (k - 1) (pos 0) }
    ensures counted { S.Counts counts.now (k - 1) readings.new }
{
    offset_run_at::<S>(runs, counts, k, readings).offset
}

/// The same of the next sample of a walk that is in this run, or else moves to the run after it, or to one that it
/// searches.
#[inline(always)]
pub fn rendering_offset_in_order(tables: &Tables, k: u32, run: &mut OffsetRun) -> i32
    requires tables { AreTables tables.now }
    requires first { 1 ≤ k }
    requires run { IsOffsetRun (ctts_runs (walked tables.now).ctts) k run.old }
    ensures run { IsOffsetRun (ctts_runs (walked tables.now).ctts) (k + 1) run.new }
    ensures value { result ≡ get_or (rendering_offsets (ctts_runs (walked tables.now).ctts)) (k - 1) (pos 0) }
{
    if run.left == 0 {
        run.move_to(tables, k);
    }
    run.take()
}

/// Whether the numbers, which rise, contain `k`.
#[inline(always)]
fn contains<S: Search>(numbers: &SearchedNumbers, k: u32, readings: &mut Readings) -> bool
    requires rises { IsNonDecreasing numbers.now }
    requires fresh { readings.old ≡ 0 }
    ensures value { result ≡ list_any (λ n. n == k) numbers.now }
    ensures counted { S.Counts numbers.now k readings.new }
{
    match S::last_at_most(numbers, k, readings) {
        None => false,
        Some(found) => found.number == k,
    }
}

/// Whether sample `k` is a sync sample. Where the numbers of stss don't strictly rise, they aren't searched.
#[inline(always)]
pub fn is_sync<S: Search>(
    stss: &Option<StssBox>,
    index: &TrackIndex,
    k: u32,
    readings: &mut Readings,
) -> bool
    requires rises { IsTrue index.now.sync_rises ↔ IsStrictlyIncreasing (sync_numbers stss.now) }
    requires sync { index.now.sync_numbers ≡ sync_numbers stss.now }
    requires bits { AreBitsOf (sync_numbers stss.now) index.now.sync_bits }
    requires fresh { readings.old ≡ 0 }
    ensures value { result ≡ is_sync_at stss.now k }
    ensures counted { IsTrue index.now.sync_rises → S.Counts index.now.sync_numbers k readings.new }
    ensures unsorted { index.now.sync_rises ≡ false → readings.new ≡ S.looks index.now.sync_bits k }
{
    let Some(stss) = stss else {
        return true;
    };
    if index.sync_rises {
        contains::<S>(&index.sync_numbers, k, readings)
    } else {
        S::is_among(stss.entries.as_slice(), &index.sync_bits, k, readings)
    }
}

/// Samples from one on, of which the last alone may be a sync sample.
#[derive(Clone, Copy, Debug)]
pub struct SyncGap {
    /// The sync sample that ends them; 2^32 where none comes any more.
    pub end: u64,
    /// The index of the number after that one.
    pub next: usize,
}

impl SyncGap {
    /// Before the first number, with no sample.
    pub fn none() -> Self
        ensures { (numbers : List ℕ) (k : ℕ) → IsSyncGap numbers k result }
    {
        SyncGap { end: 0, next: 0 }
    }

    /// The samples from `from` on up to the number with this index: those before it are below `from`, and it isn't.
    fn up_to(numbers: &[u32], index: usize, from: u32) -> Self
        requires rises { IsNonDecreasing numbers.now }
        requires within { index ≤ length numbers.now }
        requires earlier { (i : ℕ) → i < index → slice_index numbers.now i < from }
        requires later { index < length numbers.now → from ≤ slice_index numbers.now index }
        ensures gap { IsSyncGap numbers.now from result }
        ensures has { from ≤ result.end }
    {
        let end = match numbers.get(index) {
            Some(number) => u64::from(*number),
            None => 1 << 32,
        };
        SyncGap {
            end,
            next: index + 1,
        }
    }

    /// The gap after it, if it has sample `k`.
    #[inline(always)]
    fn next_gap(&self, numbers: &[u32], k: u32) -> Option<SyncGap>
        requires rises { IsNonDecreasing numbers.now }
        requires gap { IsSyncGap numbers.now k self.now }
        requires after { self.now.end < k }
        ensures { IfSome result (λ g. IsSyncGap numbers.now k g × (k ≤ g.end)) }
    {
        if self.next > numbers.len() || (self.next < numbers.len() && numbers[self.next] < k) {
            return None;
        }
        Some(SyncGap::up_to(numbers, self.next, k))
    }

    /// The gap from sample `k` on, which is searched.
    // Kept a call: docs/PERF.md, "Why these are calls".
    #[inline(never)]
    fn search(numbers: &[u32], track: &Mp4Track, k: u32) -> Self
        requires rises { IsStrictlyIncreasing numbers.now }
        requires same { track.now.index.sync_numbers ≡ numbers.now }
        ensures gap { IsSyncGap numbers.now k result }
        ensures has { k ≤ result.end }
    {
        let mut readings = Readings::of(track);
        match ByGuess::last_at_most(&track.index.sync_numbers, k, &mut readings) {
            None => SyncGap::up_to(numbers, 0, k),
            Some(found) => {
                if found.number == k {
                    SyncGap::up_to(numbers, found.index, k)
                } else {
                    SyncGap::up_to(numbers, found.index + 1, k)
                }
            }
        }
    }

    /// Becomes the gap of sample `k`, which is after this one: the gap after it, else one that is searched.
    #[inline(always)]
    fn move_to(&mut self, numbers: &[u32], track: &Mp4Track, k: u32)
        requires rises { IsStrictlyIncreasing numbers.now }
        requires same { track.now.index.sync_numbers ≡ numbers.now }
        requires gap { IsSyncGap numbers.now k self.old }
        requires after { self.old.end < k }
        ensures gap { IsSyncGap numbers.now k self.new }
        ensures has { k ≤ self.new.end }
    {
        *self = match self.next_gap(numbers, k) {
            Some(next) => next,
            None => SyncGap::search(numbers, track, k),
        };
    }

    /// Whether sample `k`, the next of a walk, is one of the numbers: the walk is in this gap, or else moves to the gap
    /// after it, or to one that it searches.
    #[inline(always)]
    fn is_among(&mut self, numbers: &[u32], track: &Mp4Track, k: u32) -> bool
        requires rises { IsStrictlyIncreasing numbers.now }
        requires same { track.now.index.sync_numbers ≡ numbers.now }
        requires first { 1 ≤ k }
        requires gap { IsSyncGap numbers.now k self.old }
        ensures gap { IsSyncGap numbers.now (k + 1) self.new }
        ensures value { result ≡ list_any (λ n. n == k) numbers.now }
    {
        if u64::from(k) > self.end {
            self.move_to(numbers, track, k);
        }
        u64::from(k) == self.end
    }
}

/// Whether sample `k`, the next of a walk that is in this gap between sync samples, is a sync sample. Where the numbers
/// of stss don't strictly rise, they aren't searched.
#[inline(always)]
pub fn is_sync_in_order(tables: &Tables, k: u32, gap: &mut SyncGap) -> bool
    requires tables { AreTables tables.now }
    requires first { 1 ≤ k }
    requires gap { IsSyncGap (sync_numbers (walked tables.now).stss) k gap.old }
    ensures gap { IsSyncGap (sync_numbers (walked tables.now).stss) (k + 1) gap.new }
    ensures value { result ≡ is_sync_at (walked tables.now).stss k }
{
    if !tables.has_sync_numbers {
        return true;
    }
    let track = tables.track;
    if track.index.sync_rises {
        return gap.is_among(tables.sync_numbers, track, k);
    }
    let mut readings = Readings::of(track);
    ByGuess::is_among(
        tables.sync_numbers,
        &track.index.sync_bits,
        k,
        &mut readings,
    )
}
