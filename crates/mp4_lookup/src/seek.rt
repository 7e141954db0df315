//! What a seeker asks of the tables of a track: a sample by its time, and the sync sample at or before one
//! (ISO/IEC 14496-12, 8.6.1.2 and 8.6.2).

ghost use Rattle.std.specs.Prelude.{◌≡◌, ◌+◌, ◌-◌, ◌*◌, ◌<◌, ◌≤◌, ◌↔◌, length, IsTrue};
ghost use Rattle.std.specs.List.Sorted.{IsStrictlyIncreasing};
ghost use Rattle.mp4_fragments.specs.ByTime.{decoded_by};
ghost use Rattle.mp4_lookup.specs.ByTime.{is_number_of, is_sync_in_table, larger_upto, time_in};
ghost use Rattle.mp4_lookup.specs.Costs.{IsCountInTable, sync_comparisons, times_by};
ghost use Rattle.mp4_lookup.specs.Sums.{TimesBefore};
ghost use Rattle.mp4_samples.specs.Tables.{sync_numbers};
ghost use Rattle.mp4_search.specs.Digits.{digits};
ghost use Rattle.mp4_search.specs.Partition.{AnswersLast};
ghost use Rattle.mp4_search.specs.Search.{IsCountByHalves};
ghost use Rattle.mp4_table.specs.Runs.{durations};

use crate::index::TrackIndex;
use mp4_search::{ByHalves, Parted, Readings, Search, SearchedNumbers, partition_point};
use mp4_table::{StssBox, SttsEntry};

/// The ticks before each run of stts: those before the first runs are at most a time.
#[derive(Drop)]
struct TimesBy<'t> {
    times: &'t [u64],
    time: u64,
}

impl<'t> Parted for TimesBy<'t> {
    ghost len = { λ t. length t.times.now };

    ghost has = { λ t i. times_by t.times.now t.time i };

    fn has(&self, index: usize) -> bool {
        self.times[index] <= self.time
    }
}

/// How many samples of a run are decoded at or before a time that is so many ticks after the begin of the run.
fn samples_within(run: SttsEntry, ticks: u64) -> u32
    ensures most { result ≤ run.sample_count }
    ensures early { 0 < result → (result - 1) * run.sample_delta ≤ ticks }
    ensures late { result < run.sample_count → ticks < result * run.sample_delta }
{
    if run.sample_delta == 0 {
        return run.sample_count;
    }
    let whole = ticks / u64::from(run.sample_delta);
    if whole >= u64::from(run.sample_count) {
        return run.sample_count;
    }
    whole as u32 + 1
}

/// The number of the last of the first `count` samples that is decoded at or before a time. Each time that is compared
/// is counted, and one reading more.
pub fn last_by_time(
    runs: &[SttsEntry],
    index: &TrackIndex,
    count: u32,
    time: u64,
    readings: &mut Readings,
) -> Option<u32>
    requires sums { TimesBefore runs.now index.now.stts_counts index.now.stts_times.items }
    requires fresh { readings.old ≡ 0 }
    ensures number { AnswersLast (λ k. decoded_by time (time_in (durations runs.now) k)) (count + 1) result }
    ensures counted { IsCountInTable index.now.stts_times.items time readings.new }
{
    let times = TimesBy {
        times: index.stts_times.as_slice(),
        time,
    };
    let begun = partition_point(&times, times.times.len(), readings);
    let Some(run) = begun.checked_sub(1) else {
        return None;
    };
    let before = index.stts_counts.read(run, readings);
    let within = samples_within(runs[run], time - times.times[run]);
    let number = before.saturating_add(within).min(count);
    if number == 0 {
        return None;
    }
    Some(number)
}

/// The larger of two numbers, of which the other counts if it is not 0 and at most `k`.
fn larger_upto(k: u32, one: Option<u32>, other: u32) -> Option<u32>
    ensures { result ≡ larger_upto k one other }
{
    if other == 0 || other > k {
        return one;
    }
    match one {
        None => Some(other),
        Some(one) => Some(one.max(other)),
    }
}

/// The largest of some numbers in no order that is not 0 and at most `k`.
fn largest_upto(numbers: &[u32], k: u32) -> Option<u32>
    ensures { AnswersLast (is_number_of numbers.now) (k + 1) result }
{
    let mut largest = None;
    for number in numbers {
        largest = larger_upto(k, largest, *number);
    }
    largest
}

/// The same of numbers that rise, which are searched.
fn last_upto(numbers: &SearchedNumbers, k: u32, readings: &mut Readings) -> Option<u32>
    requires rises { IsStrictlyIncreasing numbers.now }
    requires fresh { readings.old ≡ 0 }
    ensures number { AnswersLast (is_number_of numbers.now) (k + 1) result }
    ensures counted { IsCountByHalves numbers.now k readings.new }
{
    let Some(found) = ByHalves::last_at_most(numbers, k, readings) else {
        return None;
    };
    if found.number == 0 {
        return None;
    }
    Some(found.number)
}

/// The number of the last sync sample up to sample `k`. Where the numbers of stss don't strictly rise, all are looked
/// at, which isn't counted.
pub fn last_sync_upto(
    stss: &Option<StssBox>,
    index: &TrackIndex,
    k: u32,
    readings: &mut Readings,
) -> Option<u32>
    requires rises { IsTrue index.now.sync_rises ↔ IsStrictlyIncreasing (sync_numbers stss.now) }
    requires sync { index.now.sync_numbers ≡ sync_numbers stss.now }
    requires fresh { readings.old ≡ 0 }
    ensures number { AnswersLast (is_sync_in_table stss.now) (k + 1) result }
    ensures counted { readings.new ≡ sync_comparisons index.now k }
    ensures few { readings.new ≤ digits (length (sync_numbers stss.now)) }
{
    match stss {
        None => { if k == 0 { None } else { Some(k) } }
        Some(stss) => {
            if index.sync_rises {
                last_upto(&index.sync_numbers, k, readings)
            } else {
                largest_upto(stss.entries.as_slice(), k)
            }
        }
    }
}
