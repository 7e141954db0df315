//! Where a sample lies: its entry of stsc, its chunk, and the sizes before it in the chunk (ISO/IEC 14496-12,
//! 8.7.3 to 8.7.5).

// The steps of a lookup are kept inline: docs/PERF.md, "Why these are calls".

ghost use Rattle.mp4_codec.specs.ExactTest.{by_test, field_tests};
ghost use Rattle.std.specs.Prelude.{◌≡◌, ℕ, ◌+◌, ◌-◌, ◌^◌, ◌<◌, ◌≤◌, map, length, sum, slice_get, slice_range};
ghost use Rattle.std.specs.Prelude.{option_map, IfErr, IfOk, IfNone, IfSome, OnOk, Ok, Err, None};
ghost use Rattle.mp4_codec.specs.Cause.{Gives, cause_of, invalid_data};
ghost use Rattle.mp4_table.specs.Stsc.{HasFirstSamples};
ghost use Rattle.mp4_search.specs.Search.{IsLastAtMost};
ghost use Rattle.mp4_search.specs.Sums.{SumsBefore64};
ghost use Rattle.std.specs.List.{All};
ghost use Rattle.mp4_samples.specs.Tables.{chunk_offsets, sizes};
ghost use Rattle.mp4_lookup.specs.Index.{IsIndexOf};
ghost use Rattle.mp4_lookup.specs.Costs.{AreFewSizeReads};
ghost use Rattle.mp4_lookup.specs.Rule.{chunk_for, entry_for, located_at, located_by, located_in_chunk, within_64_bits};
ghost use Rattle.mp4_lookup.specs.Walk.{BeginsChunk};

use crate::index::TrackIndex;
use mp4_boxes::StblBox;
use mp4_codec::{Error, ExactEq, Result};
use mp4_search::{CappedSums, Readings, Search, SearchedNumbers};
use mp4_table::{StscEntry, StszBox};

/// Where a sample lies.
#[derive(Clone, Copy, Debug, PartialEq, Eq)]
pub struct LocatedBytes {
    pub offset: u64,
    pub size: u32,
}

impl ExactEq for LocatedBytes {
    ghost exact = { by_test (Prim.hlevel field_tests) };
}

/// The index of the last entry whose first sample is at most `k`.
#[inline(always)]
#[tactic(auto, unfolding(crate::specs::Rule::entry_for))]
pub fn entry_index<S: Search>(
    entries: &[StscEntry],
    first_samples: &SearchedNumbers,
    k: u32,
    readings: &mut Readings,
) -> Result<usize>
    requires firsts { HasFirstSamples entries.now }
    requires index { first_samples.now ≡ map (λ e. e.first_sample) entries.now }
    requires fresh { readings.old ≡ 0 }
    ensures found { IfOk result (IsLastAtMost first_samples.now k) }
    ensures refused { IfErr result (λ e. entry_for entries.now k ≡ Err (cause_of e)) }
    ensures counts { OnOk result (1 ≤ k) }
    ensures counted { OnOk result (S.Counts first_samples.now k readings.new) }
{
    if k == 0 {
        return Err(Error::InvalidData("samples are numbered from 1"));
    }
    let Some(found) = S::last_at_most(first_samples, k, readings) else {
        return Err(Error::InvalidData("stsc has no entry for the sample"));
    };
    Ok(found.index)
}

/// An entry whose chunks have no samples is refused.
#[inline(always)]
pub fn check_usable(entry: &StscEntry) -> Result<()>
    ensures some { OnOk result (1 ≤ entry.now.samples_per_chunk) }
    ensures refused { IfErr result (λ e. (entry.now.samples_per_chunk ≡ 0) × (cause_of e ≡ invalid_data)) }
{
    if entry.samples_per_chunk == 0 {
        return Err(Error::InvalidData("stsc has a chunk of no samples"));
    }
    Ok(())
}

/// The last entry whose first sample is at most `k`.
#[inline(always)]
fn entry_at<S: Search>(
    entries: &[StscEntry],
    first_samples: &SearchedNumbers,
    k: u32,
    readings: &mut Readings,
) -> Result<StscEntry>
    requires firsts { HasFirstSamples entries.now }
    requires index { first_samples.now ≡ map (λ e. e.first_sample) entries.now }
    requires fresh { readings.old ≡ 0 }
    ensures entry { Gives (λ entry. entry) result (entry_for entries.now k) }
    ensures same { IfOk result (λ e. (n : ℕ) → e.first_sample ≤ n → n ≤ k → entry_for entries.now n ≡ Ok e) }
    ensures usable { IfOk result (λ e. (1 ≤ e.first_sample) × (e.first_sample ≤ k) × (1 ≤ e.samples_per_chunk)) }
    ensures counted { OnOk result (S.Counts first_samples.now k readings.new) }
{
    let index = entry_index::<S>(entries, first_samples, k, readings)?;
    let entry = entries[index];
    check_usable(&entry)?;
    Ok(entry)
}

/// The chunk of sample `k`, which counts from 1.
#[tactic(auto, unfolding(crate::specs::Rule::chunk_for))]
fn chunk_of(entry: &StscEntry, k: u32) -> Result<u32>
    requires from { entry.now.first_sample ≤ k }
    requires some { 1 ≤ entry.now.samples_per_chunk }
    ensures chunk { Gives (λ c. c) result (chunk_for entry.now k) }
    ensures counts { IfOk result (λ c. 1 ≤ c) }
{
    let chunk = u64::from(entry.first_chunk)
        + u64::from((k - entry.first_sample) / entry.samples_per_chunk);
    if chunk == 0 {
        return Err(Error::InvalidData("chunks are numbered from 1"));
    }
    if chunk > u64::from(u32::MAX) {
        return Err(Error::InvalidData("a chunk's number passes 32 bits"));
    }
    Ok(chunk as u32)
}

/// Where a chunk begins, as stco says where it is there, else co64.
fn chunk_offset_at(stbl: &StblBox, chunk: u32) -> Option<u64>
    requires { 1 ≤ chunk }
    ensures { result ≡ slice_get (chunk_offsets stbl.now) (chunk - 1) }
{
    let index = chunk as usize - 1;
    match (&stbl.stco, &stbl.co64) {
        (Some(stco), _) => stco.entries.get(index).map(|offset| u64::from(*offset)),
        (None, Some(co64)) => co64.entries.get(index).copied(),
        (None, None) => None,
    }
}

/// The size of sample `k`.
#[tactic(auto, unfolding(mp4_samples::specs::Tables::sizes))]
fn size_at(stsz: &StszBox, k: u32) -> Option<u32>
    requires { 1 ≤ k }
    ensures { result ≡ slice_get (sizes stsz.now k) (k - 1) }
{
    if stsz.sample_size > 0 {
        Some(stsz.sample_size)
    } else {
        stsz.sample_sizes.get(k as usize - 1).copied()
    }
}

/// The sum of the sizes of the samples from `first` up to `k`.
#[tactic(auto, unfolding(mp4_samples::specs::Tables::sizes))]
fn size_between(
    stsz: &StszBox,
    sums: &CappedSums,
    first: u32,
    k: u32,
    readings: &mut Readings,
) -> u64
    requires from { 1 ≤ first }
    requires to { first ≤ k }
    requires there { k ≤ length (sizes stsz.now k) }
    requires sums { SumsBefore64 (λ s. s) stsz.now.sample_sizes sums.now }
    requires small { All (λ s. s < 2 ^ 32) stsz.now.sample_sizes }
    requires fresh { readings.old ≡ 0 }
    ensures sum { result ≡ sum (slice_range (sizes stsz.now k) (first - 1) (k - 1)) }
    ensures one_size { 0 < stsz.now.sample_size → readings.new ≡ 0 }
    ensures listed { stsz.now.sample_size ≡ 0 → readings.new ≡ 2 }
{
    if stsz.sample_size > 0 {
        return u64::from(k - first) * u64::from(stsz.sample_size);
    }
    sums.between(first as usize - 1, k as usize - 1, readings)
}

/// A place, if it is within 64 bits: so many bytes after the beginning of a chunk.
fn place_within(chunk_offset: u64, earlier: u64) -> Result<u64>
    ensures { Gives (λ place. place) result (within_64_bits (chunk_offset + earlier)) }
{
    match chunk_offset.checked_add(earlier) {
        Some(place) => Ok(place),
        None => Err(Error::InvalidData("a place passes 64 bits")),
    }
}

/// The samples of a chunk, as one entry of stsc places them.
#[derive(Clone, Copy, Debug)]
pub struct Chunk {
    /// Its number, which counts from 1.
    pub number: u32,
    /// Its first sample.
    pub first: u32,
    /// The number after its last sample, or after the last that the entry is for.
    pub end: u64,
    /// Where it begins.
    pub offset: u64,
}

/// The chunk of sample `k`, by its entry of stsc, which is for the samples before `end`.
#[inline(always)]
#[tactic(auto, unfolding(crate::specs::Rule::chunk_for))]
pub fn chunk_by(stbl: &StblBox, entry: &StscEntry, end: u64, k: u32) -> Result<Option<Chunk>>
    requires from { 1 ≤ entry.now.first_sample }
    requires to { entry.now.first_sample ≤ k }
    requires some { 1 ≤ entry.now.samples_per_chunk }
    requires end { k < end }
    ensures samples { IfOk result (λ c. IfSome c (λ c. (n : ℕ) → c.first ≤ n → n < c.end
        → (entry.now.first_sample ≤ n) × (n < end)
        × (located_by stbl.now entry.now n ≡ located_in_chunk stbl.now c.offset c.first n))) }
    ensures inside { IfOk result (λ c. IfSome c (λ c. (1 ≤ c.first) × (c.first ≤ k) × (k < c.end))) }
    ensures few { IfOk result (λ c. IfSome c (λ c. c.end ≤ k + entry.now.samples_per_chunk)) }
    ensures after { IfOk result (λ c. IfSome c (λ c. c.end < end → BeginsChunk entry.now c.end (c.number + 1))) }
    ensures none { IfOk result (λ c. IfNone c (located_by stbl.now entry.now k ≡ Ok None)) }
    ensures refused { IfErr result (λ e. located_by stbl.now entry.now k ≡ Err (cause_of e)) }
{
    let number = chunk_of(entry, k)?;
    let Some(offset) = chunk_offset_at(stbl, number) else {
        return Ok(None);
    };
    let first = k - (k - entry.first_sample) % entry.samples_per_chunk;
    let end = end.min(u64::from(first) + u64::from(entry.samples_per_chunk));
    Ok(Some(Chunk {
        number,
        first,
        end,
        offset,
    }))
}

impl Chunk {
    /// Where sample `k` of the chunk lies, and its size.
    #[inline(always)]
    pub fn located(
        &self,
        stbl: &StblBox,
        sums: &CappedSums,
        k: u32,
        readings: &mut Readings,
    ) -> Result<Option<LocatedBytes>>
        requires sums { SumsBefore64 (λ s. s) stbl.now.stsz.sample_sizes sums.now }
        requires small { All (λ s. s < 2 ^ 32) stbl.now.stsz.sample_sizes }
        requires from { 1 ≤ self.now.first }
        requires to { self.now.first ≤ k }
        requires fresh { readings.old ≡ 0 }
        ensures located { Gives (λ s. option_map (λ s. (s.offset, s.size)) s) result
            (located_in_chunk stbl.now self.now.offset self.now.first k) }
        ensures size_reads { IfOk result (λ s. IfSome s (λ s. AreFewSizeReads stbl.now readings.new)) }
    {
        let Some(size) = size_at(&stbl.stsz, k) else {
            return Ok(None);
        };
        let earlier = size_between(&stbl.stsz, sums, self.first, k, readings);
        let offset = place_within(self.offset, earlier)?;
        Ok(Some(LocatedBytes { offset, size }))
    }
}

/// The chunk of sample `k`, if it is there.
#[inline(always)]
fn chunk_at<S: Search>(
    stbl: &StblBox,
    index: &TrackIndex,
    k: u32,
    entries: &mut Readings,
) -> Result<Option<Chunk>>
    requires firsts { HasFirstSamples stbl.now.stsc.entries }
    requires index { IsIndexOf stbl.now index.now }
    requires fresh { entries.old ≡ 0 }
    ensures sample { IfOk result (λ c. IfSome c (λ c. (1 ≤ c.first) × (c.first ≤ k)
        × (located_at stbl.now k ≡ located_in_chunk stbl.now c.offset c.first k))) }
    ensures none { IfOk result (λ c. IfNone c (located_at stbl.now k ≡ Ok None)) }
    ensures refused { IfErr result (λ e. located_at stbl.now k ≡ Err (cause_of e)) }
    ensures counts { OnOk result (1 ≤ k) }
    ensures counted { OnOk result (S.Counts index.now.first_samples k entries.new) }
{
    let entry = entry_at::<S>(
        stbl.stsc.entries.as_slice(),
        &index.first_samples,
        k,
        entries,
    )?;
    chunk_by(stbl, &entry, u64::from(k) + 1, k)
}

/// Where sample `k` lies, and its size.
#[inline(always)]
pub fn located_at<S: Search>(
    stbl: &StblBox,
    index: &TrackIndex,
    k: u32,
    entries: &mut Readings,
    sizes: &mut Readings,
) -> Result<Option<LocatedBytes>>
    requires firsts { HasFirstSamples stbl.now.stsc.entries }
    requires index { IsIndexOf stbl.now index.now }
    requires fresh_entries { entries.old ≡ 0 }
    requires fresh_sizes { sizes.old ≡ 0 }
    ensures located { Gives (λ s. option_map (λ s. (s.offset, s.size)) s) result (located_at stbl.now k) }
    ensures counts { OnOk result (1 ≤ k) }
    ensures counted { OnOk result (S.Counts index.now.first_samples k entries.new) }
    ensures size_reads { IfOk result (λ s. IfSome s (λ s. AreFewSizeReads stbl.now sizes.new)) }
{
    let Some(chunk) = chunk_at::<S>(stbl, index, k, entries)? else {
        return Ok(None);
    };
    chunk.located(stbl, &index.size_sums, k, sizes)
}
