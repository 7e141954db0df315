//! What is kept beside the tables of a track, so that its samples are found fast.

ghost use Rattle.std.specs.Prelude.{◌≡◌, ◌-◌, ◌*◌, ◌^◌, ◌<◌, ◌↔◌, false, min, IfOk, OnOk, IsTrue};
ghost use Rattle.mp4_lookup.specs.Sums.{SizesBefore};
ghost use Rattle.std.specs.List.{All};
ghost use Rattle.std.specs.List.Sorted.{IsStrictlyIncreasing};
ghost use Rattle.mp4_samples.specs.Tables.{ctts_runs, sync_numbers};
ghost use Rattle.mp4_search.specs.BitSet.{AreBitsOf, KnowsUpTo};
ghost use Rattle.mp4_search.specs.Sums.{SumsBefore64};
ghost use Rattle.mp4_lookup.specs.Index.{IsIndexOf};

use crate::runs::counts_before;
use mp4_boxes::StblBox;
use mp4_search::{BitSet, CappedSums, SearchedNumbers};
use mp4_table::{CttsBox, CttsEntry, StssBox, SttsEntry};
use std::alloc::{AllocError, Global};

/// Beside the tables of a track: running sums, one for each entry of a table, and what else is searched.
///
/// Counts of samples stop at 2^32 - 1, which no number of a sample passes; and so times and bytes stop at 2^64 - 1,
/// which fewer than 2^32 durations or sizes of 32 bits don't reach.
#[derive(Debug, Drop)]
pub struct TrackIndex {
    /// The first sample of each entry of stsc.
    pub first_samples: SearchedNumbers,
    /// How many samples come before each run of stts.
    pub stts_counts: SearchedNumbers,
    /// How many ticks come before each run of stts.
    pub stts_times: Vec<u64>,
    /// How many samples come before each run of ctts.
    pub ctts_counts: SearchedNumbers,
    /// Whether the numbers of stss strictly rise.
    pub sync_rises: bool,
    /// The numbers of stss.
    pub sync_numbers: SearchedNumbers,
    /// A bit for each number of stss, where they don't strictly rise; else nothing, and no memory.
    pub sync_bits: BitSet,
    /// How many bytes come before each sample, where sizes are listed.
    pub size_sums: CappedSums,
    /// How many bytes all samples have together, where sizes are listed.
    pub size_total: u128,
}

/// Makes the index of the tables.
pub fn index_of(alloc: Global, stbl: &StblBox) -> Result<TrackIndex, AllocError>
    ensures { IfOk result (IsIndexOf stbl.now) }
{
    let first_samples = stbl
        .stsc
        .entries
        .iter()
        .map(|entry| entry.first_sample)
        .collect(alloc)?;
    let stts_counts = counts_before(alloc, stbl.stts.entries.as_slice())?;
    let stts_times = times_before(alloc, stbl.stts.entries.as_slice())?;
    let ctts_counts = counts_before(alloc, runs_of_ctts(&stbl.ctts))?;
    let numbers = numbers_of_stss(&stbl.stss);
    let sync_rises = rises(numbers);
    let sync_numbers = Vec::from_slice(alloc, numbers)?;
    let sync_bits = bits_unless(sync_rises, alloc, numbers, stbl.stsz.sample_sizes.len())?;
    let (size_sums, size_total) = sizes_before(alloc, stbl.stsz.sample_sizes.as_slice())?;
    Ok(TrackIndex {
        first_samples: SearchedNumbers::new(first_samples),
        stts_counts: SearchedNumbers::new(stts_counts),
        stts_times,
        ctts_counts: SearchedNumbers::new(ctts_counts),
        sync_rises,
        sync_numbers: SearchedNumbers::new(sync_numbers),
        sync_bits,
        size_sums: CappedSums::new(size_sums),
        size_total,
    })
}

/// The runs of ctts, and none without it.
pub fn runs_of_ctts(ctts: &Option<CttsBox>) -> &[CttsEntry]
    ensures { result.now ≡ ctts_runs ctts.now }
{
    match ctts {
        None => &[],
        Some(ctts) => ctts.entries.as_slice(),
    }
}

/// The numbers of stss, and none without it.
pub fn numbers_of_stss(stss: &Option<StssBox>) -> &[u32]
    ensures { result.now ≡ sync_numbers stss.now }
{
    match stss {
        None => &[],
        Some(stss) => stss.entries.as_slice(),
    }
}

/// How many ticks come before each run of stts. A count of them stops at 2^64 - 1.
fn times_before(alloc: Global, runs: &[SttsEntry]) -> Result<Vec<u64>, AllocError>
    ensures sums { IfOk result (λ times. SumsBefore64 (λ r. r.sample_count * r.sample_delta) runs.now times.items) }
    ensures small { OnOk result (All (λ r. r.sample_delta < 2 ^ 32) runs.now) }
{
    let mut times = Vec::with_capacity(alloc, runs.len())?;
    let mut time: u64 = 0;
    for run in runs {
        times.push(time)?;
        time = time.saturating_add(u64::from(run.sample_count) * u64::from(run.sample_delta));
    }
    Ok(times)
}

/// How many bytes come before each sample of these sizes, and how many all have together. A count before a sample stops
/// at 2^64 - 1.
///
/// So many bytes as 32 bits number samples never reach that: then the counts are added up in 64 bits, and each is put
/// into room that is there.
fn sizes_before(alloc: Global, sizes: &[u32]) -> Result<(Vec<u64>, u128), AllocError>
    ensures { IfOk result (λ x. SizesBefore sizes.now x.0.items x.1) }
{
    if sizes.len() > u32::MAX as usize {
        return many_sizes_before(alloc, sizes);
    }
    let mut sums = Vec::with_capacity(alloc, sizes.len())?;
    let mut total: u64 = 0;
    for size in sizes {
        sums.push_reserved(total);
        total += u64::from(*size);
    }
    Ok((sums, u128::from(total)))
}

/// The same of any number of sizes.
fn many_sizes_before(alloc: Global, sizes: &[u32]) -> Result<(Vec<u64>, u128), AllocError>
    ensures { IfOk result (λ x. SizesBefore sizes.now x.0.items x.1) }
{
    let mut sums = Vec::with_capacity(alloc, sizes.len())?;
    let mut total: u128 = 0;
    for size in sizes {
        sums.push(within_64_bits(total))?;
        total += u128::from(*size);
    }
    Ok((sums, total))
}

/// A number as far as 64 bits go, and the largest of them past that.
fn within_64_bits(number: u128) -> u64
    ensures { result ≡ min (2 ^ 64 - 1) number }
{
    if number > u128::from(u64::MAX) {
        u64::MAX
    } else {
        number as u64
    }
}

/// Whether each number is above the one before.
fn rises(numbers: &[u32]) -> bool
    ensures { IsTrue result ↔ IsStrictlyIncreasing numbers.now }
{
    for i in 1..numbers.len() {
        if numbers[i] <= numbers[i - 1] {
            return false;
        }
    }
    true
}

/// How many bits a set of numbers has at most for each of them: so many that it takes no more memory than they do.
const BITS_A_NUMBER: usize = 32;

/// The numbers of stss by a bit for each, in a track that lists the sizes of so many samples, unless the numbers rise:
/// then nothing, and no memory is taken.
///
/// It is known of each sample with a listed size whether it is one of them, and of each number up to 32 times as many
/// as stss has. So the bits take at most as much memory as stss, or a bit for each size, and two passes over stss make
/// them.
fn bits_unless(
    rises: bool,
    alloc: Global,
    numbers: &[u32],
    sizes: usize,
) -> Result<BitSet, AllocError>
    ensures bits { IfOk result (AreBitsOf numbers.now) }
    ensures known { rises ≡ false → IfOk result (KnowsUpTo sizes) }
{
    if rises {
        return Ok(BitSet::new(alloc));
    }
    let limit = numbers.len().saturating_mul(BITS_A_NUMBER).max(sizes);
    BitSet::of(alloc, numbers, limit)
}
