//! The tables of a track, made from what is known of its samples and of its chunks.

ghost use Rattle.std.specs.Prelude.{◌≡◌, ◌^◌, ◌<◌, ◌≤◌, false, length, Ok, IfOk};
ghost use Rattle.std.specs.List.{sum_by, All};
ghost use Rattle.mp4_codec.specs.Cause.{Answers};
ghost use Rattle.mp4_mux.specs.SampleTables.{are_in_order, sync_numbers_from, one_size, listed_sizes};
ghost use Rattle.mp4_mux.specs.SampleTables.{chunk_entries_from, are_far, stts_for, ctts_for, stss_for, stsz_for};
ghost use Rattle.mp4_mux.specs.SampleTables.{stsc_for, stco_for, co64_for, runs_of, same_duration, stts_run};
ghost use Rattle.mp4_mux.specs.SampleTables.{same_offset, ctts_run};
ghost use Rattle.mp4_mux.specs.ChunkLists.{sample_counts, offsets};

use crate::chunk_place::ChunkPlace;
use crate::column_tables::{all_equal, same_size, true_numbers, values};
use crate::runs::runs;
use crate::sample_infos::SampleInfos;
use mp4_codec::{Result, SharedItems};
use mp4_table::{
    Co64Box, CttsBox, CttsEntry, StcoBox, StscBox, StscEntry, StssBox, StszBox, SttsBox, SttsEntry,
};
use std::alloc::{AllocError, Global};

/// How long the samples last, in runs.
fn stts_entries(
    alloc: Global,
    samples: &SampleInfos,
) -> std::result::Result<Vec<SttsEntry>, AllocError>
    ensures { IfOk result (λ entries. entries.items ≡ runs_of same_duration stts_run samples.now) }
{
    runs(alloc, samples.durations())
}

/// The time-to-sample table of the samples.
#[tactic(auto, unfolding(crate::specs::SampleTables::stts_for))]
pub fn stts(alloc: Global, samples: &SampleInfos) -> Result<SttsBox>
    ensures { Answers (λ b. b) result (Ok (stts_for samples.now)) }
{
    let entries = stts_entries(alloc, samples)?;
    Ok(SttsBox {
        version: 0,
        flags: 0,
        entries: SharedItems::from_items(entries.into())?,
    })
}

/// Whether each sample is shown when it is decoded.
pub fn are_in_order(samples: &SampleInfos) -> bool
    ensures { result ≡ are_in_order samples.now }
{
    all_equal(samples.rendering_offsets(), 0)
}

/// How much later than they are decoded the samples are shown, in runs.
fn ctts_entries(
    alloc: Global,
    samples: &SampleInfos,
) -> std::result::Result<Vec<CttsEntry>, AllocError>
    ensures { IfOk result (λ entries. entries.items ≡ runs_of same_offset ctts_run samples.now) }
{
    runs(alloc, samples.rendering_offsets())
}

/// The table of the samples' rendering offsets, where one isn't 0.
#[tactic(auto, unfolding(crate::specs::SampleTables::ctts_for))]
pub fn ctts(alloc: Global, samples: &SampleInfos) -> Result<Option<CttsBox>>
    ensures { Answers (λ b. b) result (Ok (ctts_for samples.now)) }
{
    if are_in_order(samples) {
        return Ok(None);
    }
    let entries = ctts_entries(alloc, samples)?;
    Ok(Some(CttsBox {
        version: 0,
        flags: 0,
        entries: SharedItems::from_items(entries.into())?,
    }))
}

/// The numbers of the sync samples, counted from 1.
fn sync_numbers(alloc: Global, samples: &SampleInfos) -> std::result::Result<Vec<u32>, AllocError>
    ensures { IfOk result (λ numbers. numbers.items ≡ sync_numbers_from 1 samples.now) }
{
    true_numbers(alloc, samples.syncs())
}

/// The table of the sync samples, where there is a sample.
#[tactic(auto, unfolding(crate::specs::SampleTables::stss_for))]
pub fn stss(alloc: Global, samples: &SampleInfos) -> Result<Option<StssBox>>
    ensures { Answers (λ b. b) result (Ok (stss_for samples.now)) }
{
    if samples.is_empty() {
        return Ok(None);
    }
    let entries = sync_numbers(alloc, samples)?;
    Ok(Some(StssBox {
        version: 0,
        flags: 0,
        entries: SharedItems::from_items(entries.into())?,
    }))
}

/// The size that all samples have, and 0 where they differ.
pub fn one_size(samples: &SampleInfos) -> u32
    ensures { result ≡ one_size samples.now }
{
    same_size(samples.sizes())
}

/// The size of each sample, where no one size stands for all.
#[tactic(auto, unfolding(crate::specs::SampleTables::listed_sizes))]
fn listed_sizes(alloc: Global, samples: &SampleInfos) -> std::result::Result<Vec<u32>, AllocError>
    ensures { IfOk result (λ sizes. sizes.items ≡ listed_sizes samples.now) }
{
    if one_size(samples) != 0 {
        return Ok(Vec::new(alloc));
    }
    values(alloc, samples.sizes())
}

/// The sample size table of the samples.
#[tactic(auto, unfolding(crate::specs::SampleTables::stsz_for))]
pub fn stsz(alloc: Global, samples: &SampleInfos) -> Result<StszBox>
    ensures { Answers (λ b. b) result (Ok (stsz_for samples.now)) }
{
    let sample_sizes = listed_sizes(alloc, samples)?;
    Ok(StszBox {
        version: 0,
        flags: 0,
        sample_size: one_size(samples),
        sample_count: samples.len(),
        sample_sizes: SharedItems::from_items(sample_sizes.into())?,
    })
}

/// An entry for each chunk that has another number of samples than the one before it.
fn chunk_entries(
    alloc: Global,
    chunks: &[ChunkPlace],
) -> std::result::Result<Vec<StscEntry>, AllocError>
    requires chunks { length chunks.now < 2 ^ 32 }
    requires samples { sum_by (λ c. c.count) chunks.now < 2 ^ 32 }
    requires some_per_chunk { All (λ c. 1 ≤ c.count) chunks.now }
    ensures { IfOk result (λ entries. entries.items ≡ chunk_entries_from 0 1 1 (sample_counts chunks.now)) }
{
    let mut entries = Vec::new(alloc);
    let mut count: u32 = 0;
    let mut samples: u32 = 0;
    for i in 0..chunks.len() {
        let next = chunks[i].count;
        let first_sample = samples + 1;
        samples += next;
        if next == count {
            continue;
        }
        entries.push(StscEntry {
            first_chunk: i as u32 + 1,
            samples_per_chunk: next,
            sample_description_index: 1,
            first_sample,
        })?;
        count = next;
    }
    Ok(entries)
}

/// The sample-to-chunk table of the chunks.
#[tactic(auto, unfolding(crate::specs::SampleTables::stsc_for))]
pub fn stsc(alloc: Global, chunks: &[ChunkPlace]) -> Result<StscBox>
    requires chunks { length chunks.now < 2 ^ 32 }
    requires samples { sum_by (λ c. c.count) chunks.now < 2 ^ 32 }
    requires some_per_chunk { All (λ c. 1 ≤ c.count) chunks.now }
    ensures { Answers (λ b. b) result (Ok (stsc_for (sample_counts chunks.now))) }
{
    let entries = chunk_entries(alloc, chunks)?;
    Ok(StscBox {
        version: 0,
        flags: 0,
        entries: SharedItems::from_items(entries.into())?,
    })
}

/// Whether a chunk's offset passes 2^32 - 1.
pub fn are_far(chunks: &[ChunkPlace]) -> bool
    ensures { result ≡ are_far (offsets chunks.now) }
{
    chunks
        .iter()
        .map(|chunk| chunk.offset)
        .any(|offset| offset > u64::from(u32::MAX))
}

/// The offsets of the chunks, which have room in 32 bits.
fn near_offsets(alloc: Global, chunks: &[ChunkPlace]) -> std::result::Result<Vec<u32>, AllocError>
    requires { are_far (offsets chunks.now) ≡ false }
    ensures { IfOk result (λ near. near.items ≡ offsets chunks.now) }
{
    let mut offsets = Vec::with_capacity(alloc, chunks.len())?;
    for chunk in chunks {
        offsets.push(chunk.offset as u32)?;
    }
    Ok(offsets)
}

/// The chunk offset table of the chunks in 32 bits, where all offsets have room.
#[tactic(auto, unfolding(crate::specs::SampleTables::stco_for))]
pub fn stco(alloc: Global, chunks: &[ChunkPlace]) -> Result<Option<StcoBox>>
    ensures { Answers (λ b. b) result (Ok (stco_for (offsets chunks.now))) }
{
    if are_far(chunks) {
        return Ok(None);
    }
    let entries = near_offsets(alloc, chunks)?;
    Ok(Some(StcoBox {
        version: 0,
        flags: 0,
        entries: SharedItems::from_items(entries.into())?,
    }))
}

/// The chunk offset table of the chunks in 64 bits, where an offset has no room in 32.
#[tactic(auto, unfolding(crate::specs::SampleTables::co64_for))]
pub fn co64(alloc: Global, chunks: &[ChunkPlace]) -> Result<Option<Co64Box>>
    ensures { Answers (λ b. b) result (Ok (co64_for (offsets chunks.now))) }
{
    if !are_far(chunks) {
        return Ok(None);
    }
    let entries: Vec<u64> = chunks.iter().map(|chunk| chunk.offset).collect(alloc)?;
    Ok(Some(Co64Box {
        version: 0,
        flags: 0,
        entries: SharedItems::from_items(entries.into())?,
    }))
}
