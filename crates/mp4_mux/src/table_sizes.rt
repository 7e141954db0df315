//! How long the tables of a track will be, known without any memory.
//!
//! Where chunks are asked for, one more may be after them.

ghost use Rattle.std.specs.Prelude.{◌≡◌, ◌+◌, ◌^◌, ◌<◌, length, nat_eq};
ghost use Rattle.std.specs.List.{count_by};
ghost use Rattle.mp4_codec.specs.Boxes.{optional};
ghost use Rattle.mp4_codec.specs.declared.box_type.BoxType.TheVariants.{CttsBox as ctts, StssBox as stss};
ghost use Rattle.mp4_table.specs.Runs.{changes_after};
ghost use Rattle.mp4_table.specs.Stts.{stts_payload};
ghost use Rattle.mp4_table.specs.Ctts.{ctts_payload};
ghost use Rattle.mp4_table.specs.Stss.{stss_payload};
ghost use Rattle.mp4_table.specs.Stsz.{stsz_payload};
ghost use Rattle.mp4_table.specs.Stsc.{stsc_payload};
ghost use Rattle.mp4_mux.specs.SampleTables.{are_far, stts_for, ctts_for, stss_for, stsz_for, stsc_for};
ghost use Rattle.mp4_mux.specs.SampleTables.{runs_of, same_duration, stts_run, same_offset, ctts_run};
ghost use Rattle.mp4_mux.specs.ChunkLists.{sample_counts, offsets, and_last, places_length};

use crate::chunk_place::ChunkPlace;
use crate::column_tables::true_count;
use crate::runs::run_count;
use crate::sample_infos::SampleInfos;
use crate::tables::{are_far, are_in_order, one_size};

/// How many entries the time-to-sample table has.
fn stts_count(samples: &SampleInfos) -> u32
    ensures { result ≡ length (runs_of same_duration stts_run samples.now) }
{
    run_count(samples.durations())
}

/// How many entries the table of rendering offsets has.
fn ctts_count(samples: &SampleInfos) -> u32
    ensures { result ≡ length (runs_of same_offset ctts_run samples.now) }
{
    run_count(samples.rendering_offsets())
}

/// The bytes of the time-to-sample table.
#[tactic(auto, using(crate::proofs::TableSizes::sizes))]
pub fn stts_size(samples: &SampleInfos) -> u64
    ensures value { result ≡ 8 + length (stts_payload (stts_for samples.now)) }
    ensures small { result < 2 ^ 38 }
{
    16 + 8 * u64::from(stts_count(samples))
}

/// The bytes of the table of rendering offsets, and 0 where there is none.
#[tactic(auto, using(crate::proofs::TableSizes::sizes))]
pub fn ctts_size(samples: &SampleInfos) -> u64
    ensures value { result ≡ length (optional ctts ctts_payload (ctts_for samples.now)) }
    ensures small { result < 2 ^ 38 }
{
    if are_in_order(samples) {
        return 0;
    }
    16 + 8 * u64::from(ctts_count(samples))
}

/// How many sync samples there are.
fn sync_count(samples: &SampleInfos) -> u32
    ensures { result ≡ count_by (λ s. s.is_sync) samples.now }
{
    true_count(samples.syncs())
}

/// The bytes of the table of sync samples, and 0 where there is none.
#[tactic(auto, using(crate::proofs::TableSizes::sizes))]
pub fn stss_size(samples: &SampleInfos) -> u64
    ensures value { result ≡ length (optional stss stss_payload (stss_for samples.now)) }
    ensures small { result < 2 ^ 38 }
{
    if samples.is_empty() {
        return 0;
    }
    16 + 4 * u64::from(sync_count(samples))
}

/// The bytes of the sample size table.
#[tactic(auto, using(crate::proofs::TableSizes::sizes))]
pub fn stsz_size(samples: &SampleInfos) -> u64
    ensures value { result ≡ 8 + length (stsz_payload (stsz_for samples.now)) }
    ensures small { result < 2 ^ 38 }
{
    if one_size(samples) != 0 {
        return 20;
    }
    20 + 4 * u64::from(samples.len())
}

/// How many entries the sample-to-chunk table has: one for each chunk that has another number of samples
/// than the one before.
fn chunk_entry_count(chunks: &[ChunkPlace], last: &Option<ChunkPlace>) -> u64
    requires { length chunks.now < 2 ^ 32 }
    ensures value { result ≡ changes_after nat_eq 0 (sample_counts (and_last chunks.now last.now)) }
    ensures small { result < 2 ^ 33 }
{
    let mut before: u32 = 0;
    let mut count: u64 = 0;
    for chunk in chunks {
        if chunk.count == before {
            continue;
        }
        before = chunk.count;
        count += 1;
    }
    let Some(last) = last else {
        return count;
    };
    if last.count == before {
        return count;
    }
    count + 1
}

/// The bytes of the sample-to-chunk table.
#[tactic(auto, using(crate::proofs::TableSizes::sizes))]
pub fn stsc_size(chunks: &[ChunkPlace], last: &Option<ChunkPlace>) -> u64
    requires { length chunks.now < 2 ^ 32 }
    ensures value { result ≡ 8 + length (stsc_payload (stsc_for (sample_counts (and_last chunks.now last.now)))) }
    ensures small { result < 2 ^ 38 }
{
    16 + 12 * chunk_entry_count(chunks, last)
}

/// Whether the offset of one of the chunks passes 2^32 - 1.
fn any_is_far(chunks: &[ChunkPlace], last: &Option<ChunkPlace>) -> bool
    ensures { result ≡ are_far (offsets (and_last chunks.now last.now)) }
{
    if are_far(chunks) {
        return true;
    }
    match last {
        None => false,
        Some(last) => last.offset > u64::from(u32::MAX),
    }
}

/// How many chunks there are.
fn chunk_count(chunks: &[ChunkPlace], last: &Option<ChunkPlace>) -> u64
    requires { length chunks.now < 2 ^ 32 }
    ensures { result ≡ length (and_last chunks.now last.now) }
{
    match last {
        None => chunks.len() as u64,
        Some(_) => chunks.len() as u64 + 1,
    }
}

/// The bytes of the chunk offset table, in 32 bits or in 64.
pub fn places_size(chunks: &[ChunkPlace], last: &Option<ChunkPlace>) -> u64
    requires { length chunks.now < 2 ^ 32 }
    ensures value { result ≡ places_length (offsets (and_last chunks.now last.now)) }
    ensures small { result < 2 ^ 38 }
{
    let count = chunk_count(chunks, last);
    if any_is_far(chunks, last) {
        return 16 + 8 * count;
    }
    16 + 4 * count
}
