//! The tables of a track as the bytes of their boxes (ISO/IEC 14496-12, 8.6 and 8.7).

ghost use Rattle.std.specs.Prelude.{◌≡◌, ◌<◌, ◌^◌, ◌++◌, length, pos, int_lt, if◌then◌else◌, false, IfErr, IfOk};
ghost use Rattle.std.specs.Prelude.{IfSome, None, Ok, OnOk};
ghost use Rattle.std.specs.List.{list_any};
ghost use Rattle.mp4_codec.specs.Boxes.{box_bytes, optional};
ghost use Rattle.mp4_codec.specs.Cause.{Answers};
ghost use Rattle.mp4_mux.specs.SampleTables.{are_far};
ghost use Rattle.mp4_remux.specs.ChunkTable.{offsets_box};
ghost use Rattle.mp4_remux.specs.TrackTables.{AllFit, AreTooLarge, HasNoRoom, ctts_bytes, signed_ctts_for};
ghost use Rattle.mp4_remux.specs.TrackTables.{some_stss_for};
ghost use Rattle.mp4_remux.specs.TrackTables.{stsc_bytes, stss_bytes, stsz_bytes, stts_bytes, tables, tables_bytes};

use crate::chunks::{Chunk, stsc};
use mp4_codec::{Result, SharedItems, WriteBox};
use mp4_mux::{SampleInfos, ctts, stss, stsz, stts};
use mp4_table::{Co64Box, CttsBox, CttsEntry, StcoBox, StssBox};
use std::alloc::{AllocError, Global};

/// Adds a table.
fn put_table<B: WriteBox>(table: &B, out: &mut Vec<u8>) -> Result<()>
    requires { B.refusal table.now ≡ None }
    ensures added { OnOk result (out.new.items ≡ out.old.items ++ box_bytes B.KIND (B.payload table.now)) }
    ensures fits { OnOk result (length (box_bytes B.KIND (B.payload table.now)) < 2 ^ 32) }
    ensures refused { IfErr result (HasNoRoom (box_bytes B.KIND (B.payload table.now))) }
{
    table.write_box(out)?;
    Ok(())
}

/// Adds a table that may not be there.
fn put_optional_table<B: WriteBox>(table: &Option<B>, out: &mut Vec<u8>) -> Result<()>
    requires { IfSome table.now (λ b. B.refusal b ≡ None) }
    ensures added { OnOk result (out.new.items ≡ out.old.items ++ optional B.KIND B.payload table.now) }
    ensures fits { OnOk result (length (optional B.KIND B.payload table.now) < 2 ^ 32) }
    ensures refused { IfErr result (HasNoRoom (optional B.KIND B.payload table.now)) }
{
    match table {
        Some(table) => put_table(table, out),
        None => Ok(()),
    }
}

/// Whether a sample is shown before it is decoded.
fn is_signed(entries: &[CttsEntry]) -> bool
    ensures { result ≡ list_any (λ e. int_lt e.sample_offset (pos 0)) entries.now }
{
    entries.iter().any(|entry| entry.sample_offset < 0)
}

/// The version of a `ctts` with these entries (8.6.1.3).
fn ctts_version(entries: &[CttsEntry]) -> u8
    ensures { result ≡ (if list_any (λ e. int_lt e.sample_offset (pos 0)) entries.now then 1 else 0) }
{
    if is_signed(entries) {
        return 1;
    }
    0
}

/// The table of the samples' rendering offsets, where one isn't 0 (8.6.1.3).
fn signed_ctts(alloc: Global, samples: &SampleInfos) -> Result<Option<CttsBox>>
    ensures { Answers (λ b. b) result (Ok (signed_ctts_for samples.now)) }
{
    let Some(table) = ctts(alloc, samples)? else {
        return Ok(None);
    };
    let CttsBox {
        version: _,
        flags,
        entries,
    } = table;
    let version = ctts_version(entries.as_slice());
    Ok(Some(CttsBox {
        version,
        flags,
        entries,
    }))
}

/// The table of the sync samples, where not all are (8.6.2).
fn some_stss(alloc: Global, samples: &SampleInfos) -> Result<Option<StssBox>>
    ensures { Answers (λ b. b) result (Ok (some_stss_for samples.now)) }
{
    let Some(table) = stss(alloc, samples)? else {
        return Ok(None);
    };
    if table.entries.len() < samples.len() as usize {
        return Ok(Some(table));
    }
    Ok(None)
}

/// Adds an `stts` (8.6.1.2).
#[tactic(auto, unfolding(crate::specs::TrackTables::stts_bytes))]
fn put_stts(alloc: Global, samples: &SampleInfos, out: &mut Vec<u8>) -> Result<()>
    ensures added { OnOk result (out.new.items ≡ out.old.items ++ stts_bytes samples.now) }
    ensures fits { OnOk result (length (stts_bytes samples.now) < 2 ^ 32) }
    ensures refused { IfErr result (HasNoRoom (stts_bytes samples.now)) }
{
    let table = stts(alloc, samples)?;
    put_table(&table, out)
}

/// Adds a `ctts`, where a sample is shown later or earlier than it is decoded (8.6.1.3).
#[tactic(auto, unfolding(crate::specs::TrackTables::ctts_bytes))]
fn put_ctts(alloc: Global, samples: &SampleInfos, out: &mut Vec<u8>) -> Result<()>
    ensures added { OnOk result (out.new.items ≡ out.old.items ++ ctts_bytes samples.now) }
    ensures fits { OnOk result (length (ctts_bytes samples.now) < 2 ^ 32) }
    ensures refused { IfErr result (HasNoRoom (ctts_bytes samples.now)) }
{
    let table = signed_ctts(alloc, samples)?;
    put_optional_table(&table, out)
}

/// Adds an `stss`, where not all samples are sync samples (8.6.2).
#[tactic(auto, unfolding(crate::specs::TrackTables::stss_bytes))]
fn put_stss(alloc: Global, samples: &SampleInfos, out: &mut Vec<u8>) -> Result<()>
    ensures added { OnOk result (out.new.items ≡ out.old.items ++ stss_bytes samples.now) }
    ensures fits { OnOk result (length (stss_bytes samples.now) < 2 ^ 32) }
    ensures refused { IfErr result (HasNoRoom (stss_bytes samples.now)) }
{
    let table = some_stss(alloc, samples)?;
    put_optional_table(&table, out)
}

/// Adds an `stsc` (8.7.4).
#[tactic(auto, unfolding(crate::specs::TrackTables::stsc_bytes))]
fn put_stsc(alloc: Global, chunks: &[Chunk], out: &mut Vec<u8>) -> Result<()>
    ensures added { OnOk result (out.new.items ≡ out.old.items ++ stsc_bytes chunks.now) }
    ensures fits { OnOk result (length (stsc_bytes chunks.now) < 2 ^ 32) }
    ensures refused { IfErr result (HasNoRoom (stsc_bytes chunks.now)) }
{
    let table = stsc(alloc, chunks)?;
    put_table(&table, out)
}

/// Adds an `stsz` (8.7.3.2).
#[tactic(auto, unfolding(crate::specs::TrackTables::stsz_bytes))]
fn put_stsz(alloc: Global, samples: &SampleInfos, out: &mut Vec<u8>) -> Result<()>
    ensures added { OnOk result (out.new.items ≡ out.old.items ++ stsz_bytes samples.now) }
    ensures fits { OnOk result (length (stsz_bytes samples.now) < 2 ^ 32) }
    ensures refused { IfErr result (HasNoRoom (stsz_bytes samples.now)) }
{
    let table = stsz(alloc, samples)?;
    put_table(&table, out)
}

/// Adds the tables of samples that are in these chunks: `stts`, `ctts`, `stss`, `stsc` and `stsz`.
pub(crate) fn put_tables(
    alloc: Global,
    samples: &SampleInfos,
    chunks: &[Chunk],
    out: &mut Vec<u8>,
) -> Result<()>
    ensures added { OnOk result (out.new.items ≡ out.old.items ++ tables_bytes samples.now chunks.now) }
    ensures fit { OnOk result (AllFit (tables samples.now chunks.now)) }
    ensures refused { IfErr result (AreTooLarge (tables samples.now chunks.now)) }
{
    put_stts(alloc, samples, out)?;
    put_ctts(alloc, samples, out)?;
    put_stss(alloc, samples, out)?;
    put_stsc(alloc, chunks, out)?;
    put_stsz(alloc, samples, out)
}

/// Whether an offset passes 32 bits.
fn are_far(offsets: &[u64]) -> bool
    ensures { result ≡ are_far offsets.now }
{
    offsets.iter().any(|offset| *offset > u64::from(u32::MAX))
}

/// The offsets in 32 bits, which none passes.
fn narrowed(alloc: Global, offsets: &[u64]) -> std::result::Result<Vec<u32>, AllocError>
    requires { are_far offsets.now ≡ false }
    ensures { IfOk result (λ near. near.items ≡ offsets.now) }
{
    let mut near = Vec::with_capacity(alloc, offsets.len())?;
    for offset in offsets {
        near.push(*offset as u32)?;
    }
    Ok(near)
}

/// Adds the table of these chunk offsets: `stco`, or `co64` where one passes 32 bits (8.7.5).
pub(crate) fn put_chunk_offsets(alloc: Global, offsets: Vec<u64>, out: &mut Vec<u8>) -> Result<()>
    ensures added { OnOk result (out.new.items ≡ out.old.items ++ offsets_box offsets.items) }
    ensures fits { OnOk result (length (offsets_box offsets.items) < 2 ^ 32) }
    ensures refused { IfErr result (HasNoRoom (offsets_box offsets.items)) }
{
    if are_far(&offsets) {
        let table = Co64Box {
            version: 0,
            flags: 0,
            entries: SharedItems::from_items(offsets.into())?,
        };
        return put_table(&table, out);
    }
    let near = narrowed(alloc, &offsets)?;
    let table = StcoBox {
        version: 0,
        flags: 0,
        entries: SharedItems::from_items(near.into())?,
    };
    put_table(&table, out)
}
