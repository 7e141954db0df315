//! What is left of a chunk in a walk over samples, and where its samples lie (ISO/IEC 14496-12, 8.7.4 and 8.7.5).

// The steps of a walk are kept inline: docs/PERF.md, "Why these are calls".

ghost use Rattle.std.specs.Prelude.{◌≡◌, ℕ, ◌+◌, ◌-◌, ◌^◌, ◌<◌, ◌≤◌, map, length, slice_get};
ghost use Rattle.std.specs.Prelude.{option_map, List, get_or, IfErr, IfOk, IfNone, IfSome, IsTrue, OnOk};
ghost use Rattle.std.specs.Prelude.{false, Ok, Err, None, Some};
ghost use Rattle.mp4_codec.specs.Cause.{Gives, cause_of};
ghost use Rattle.mp4_table.specs.Stsc.{HasFirstSamples};
ghost use Rattle.mp4_search.specs.Search.{IsLastAtMost};
ghost use Rattle.mp4_samples.specs.Tables.{sizes, tables_of};
ghost use Rattle.mp4_lookup.specs.Rule.{entry_for, located_at};
ghost use Rattle.mp4_lookup.specs.Tables.{AreTables, walked};
ghost use Rattle.mp4_lookup.specs.Walk.{BeginsChunk, IsChunkRun, IsForSamples};
ghost use Rattle.mp4_boxes.specs.declared.stbl.StblBox.{StblBox};

use crate::located::{LocatedBytes, check_usable, chunk_by, entry_index};
use crate::tables::Tables;
use crate::track::Mp4Track;
use mp4_codec::{Error, Result};
use mp4_search::{ByGuess, Readings};
use mp4_table::StscEntry;

/// An entry of stsc, and the samples that it is for.
#[derive(Clone, Copy, Debug)]
pub struct EntryRun {
    pub entry: StscEntry,
    /// The first sample of the entry after it, and 2^32 for the last entry.
    pub end: u64,
    /// The index of the entry after it.
    pub next: usize,
}

impl EntryRun {
    /// Before the first entry, for no sample.
    pub fn none() -> Self
        ensures samples { (entries : List StscEntry) → IsForSamples entries result }
        ensures end { result.end ≡ 0 }
    {
        EntryRun {
            entry: StscEntry {
                first_chunk: 0,
                samples_per_chunk: 0,
                sample_description_index: 0,
                first_sample: 0,
            },
            end: 0,
            next: 0,
        }
    }

    /// The entry at an index.
    #[inline(always)]
    fn of(entries: &[StscEntry], index: usize) -> Self
        requires firsts { HasFirstSamples entries.now }
        requires within { index < length entries.now }
        ensures samples { IsForSamples entries.now result }
        ensures entry { result.entry ≡ get_or entries.now index result.entry }
        ensures has { (k : ℕ) → k < 2 ^ 32 → IsLastAtMost (map (λ e. e.first_sample) entries.now) k index
            → (result.entry.first_sample ≤ k) × (k < result.end) }
    {
        let end = match entries.get(index + 1) {
            Some(next) => u64::from(next.first_sample),
            None => 1 << 32,
        };
        EntryRun {
            entry: entries[index],
            end,
            next: index + 1,
        }
    }

    /// The entry after it, if sample `k` is the first of that one.
    #[inline(always)]
    fn next_entry(&self, entries: &[StscEntry], k: u32) -> Option<EntryRun>
        requires firsts { HasFirstSamples entries.now }
        ensures samples { IfSome result (IsForSamples entries.now) }
        ensures has { IfSome result (λ r. (r.entry.first_sample ≡ k) × (k < r.end)) }
    {
        if self.next >= entries.len() {
            return None;
        }
        let after = EntryRun::of(entries, self.next);
        if after.entry.first_sample == k && u64::from(k) < after.end {
            Some(after)
        } else {
            None
        }
    }
}

/// The entry of stsc of sample `k`, which is searched: its chunks have samples.
#[inline(always)]
fn entry_run_at(track: &Mp4Track, k: u32) -> Result<EntryRun>
    ensures samples { IfOk result (IsForSamples (tables_of track.now.trak).stsc.entries) }
    ensures has { IfOk result (λ r. (r.entry.first_sample ≤ k) × (k < r.end) × (1 ≤ r.entry.samples_per_chunk)) }
    ensures counts { OnOk result (1 ≤ k) }
    ensures refused { IfErr result (λ e. entry_for (tables_of track.now.trak).stsc.entries k ≡ Err (cause_of e)) }
{
    let entries = track.trak.mdia.minf.stbl.stsc.entries.as_slice();
    let mut readings = Readings::of(track);
    let index = entry_index::<ByGuess>(entries, &track.index.first_samples, k, &mut readings)?;
    let run = EntryRun::of(entries, index);
    check_usable(&run.entry)?;
    Ok(run)
}

/// What is left of a chunk, from a sample on, and the entry of stsc that it is by.
#[derive(Clone, Copy, Debug)]
pub struct ChunkRun {
    pub run: EntryRun,
    /// Its number, which counts from 1.
    pub number: u32,
    /// How many samples are left.
    pub left: u32,
    /// Where the first of them begins.
    pub offset: u64,
}

impl ChunkRun {
    /// Before the first chunk: no sample is left.
    pub fn none() -> Self
        ensures chunk { (t : StblBox) (k : ℕ) → IsChunkRun t k result }
        ensures none { result.left ≡ 0 }
    {
        ChunkRun {
            run: EntryRun::none(),
            number: 0,
            left: 0,
            offset: 0,
        }
    }

    /// Where the first sample that is left lies, which has this size; one fewer is left then. No place passes 64 bits:
    /// where one would, no sample is left, and the walk looks for the next.
    #[inline(always)]
    fn take(&mut self, size: u32) -> u64
        requires some { 0 < self.old.left }
        ensures taken { result ≡ self.old.offset }
        ensures rest { (t : StblBox) (k : ℕ) → 1 ≤ k → IsChunkRun t k self.old
            → slice_get (sizes t.stsz k) (k - 1) ≡ Some size → IsChunkRun t (k + 1) self.new }
    {
        let offset = self.offset;
        match offset.checked_add(u64::from(size)) {
            Some(next) => {
                self.offset = next;
                self.left -= 1;
            }
            None => {
                self.left = 0;
                self.run.end = 0;
            }
        }
        offset
    }

    /// Where sample `k` lies, the first that is left, and its size; one fewer is left then. None where stsz has no such
    /// sample.
    #[inline(always)]
    fn take_sample(&mut self, tables: &Tables, k: u32) -> Option<LocatedBytes>
        requires tables { AreTables tables.now }
        requires chunk { IsChunkRun (walked tables.now) k self.old × (0 < self.old.left) }
        ensures chunk { IfSome result (λ s. IsChunkRun (walked tables.now) (k + 1) self.new) }
        ensures located { located_at (walked tables.now) k ≡ Ok (option_map (λ s. (s.offset, s.size)) result) }
        ensures counts { IfSome result (λ s. 1 ≤ k) }
    {
        let size = tables.size_of(k)?;
        let offset = self.take(size);
        Some(LocatedBytes { offset, size })
    }

    /// The chunk of a number, whose first sample is `k`, by this entry of stsc. None where there is no such chunk.
    #[inline(always)]
    fn of(tables: &Tables, run: EntryRun, number: u32, k: u32) -> Option<ChunkRun>
        requires tables { AreTables tables.now }
        requires samples { IsForSamples (walked tables.now).stsc.entries run }
        requires has { k < run.end }
        requires counts { 1 ≤ number }
        requires begins { BeginsChunk run.entry k number }
        ensures chunk { IfSome result (λ c. IsChunkRun (walked tables.now) k c × (0 < c.left)) }
        ensures none { IfNone result (located_at (walked tables.now) k ≡ Ok None) }
    {
        let Some(offset) = tables.chunk_offset(number) else {
            return None;
        };
        let left = u64::from(run.entry.samples_per_chunk).min(run.end - u64::from(k));
        Some(ChunkRun {
            run,
            number,
            left: left as u32,
            offset,
        })
    }

    /// The chunk after it, whose first sample is `k`, by the same entry of stsc.
    #[inline(always)]
    fn next_chunk(&self, tables: &Tables, k: u32) -> Result<Option<ChunkRun>>
        requires tables { AreTables tables.now }
        requires chunk { IsChunkRun (walked tables.now) k self.now }
        requires none { self.now.left ≡ 0 }
        requires has { k < self.now.run.end }
        ensures chunk { IfOk result (λ c. IfSome c (λ c. IsChunkRun (walked tables.now) k c × (0 < c.left))) }
        ensures none { IfOk result (λ c. IfNone c (located_at (walked tables.now) k ≡ Ok None)) }
        ensures refused { IfErr result (λ e. located_at (walked tables.now) k ≡ Err (cause_of e)) }
    {
        let Some(number) = self.number.checked_add(1) else {
            return Err(Error::InvalidData("a chunk's number passes 32 bits"));
        };
        Ok(ChunkRun::of(tables, self.run, number, k))
    }

    /// The first chunk by an entry of stsc, whose first sample is `k`.
    #[inline(always)]
    fn first_chunk(tables: &Tables, run: EntryRun, k: u32) -> Result<Option<ChunkRun>>
        requires tables { AreTables tables.now }
        requires samples { IsForSamples (walked tables.now).stsc.entries run }
        requires first { run.entry.first_sample ≡ k }
        requires has { k < run.end }
        ensures chunk { IfOk result (λ c. IfSome c (λ c. IsChunkRun (walked tables.now) k c × (0 < c.left))) }
        ensures none { IfOk result (λ c. IfNone c (located_at (walked tables.now) k ≡ Ok None)) }
        ensures refused { IfErr result (λ e. located_at (walked tables.now) k ≡ Err (cause_of e)) }
    {
        check_usable(&run.entry)?;
        let number = run.entry.first_chunk;
        if number == 0 {
            return Err(Error::InvalidData("chunks are numbered from 1"));
        }
        Ok(ChunkRun::of(tables, run, number, k))
    }

    /// What is left of the chunk of sample `k` from it on, by its entry of stsc, which is searched. None where there is
    /// no such sample.
    // Kept a call: docs/PERF.md, "Why these are calls".
    #[inline(never)]
    fn search(track: &Mp4Track, k: u32) -> Result<Option<ChunkRun>>
        ensures chunk { IfOk result (λ c. IfSome c (λ c. IsChunkRun (tables_of track.now.trak) k c × (0 < c.left))) }
        ensures none { IfOk result (λ c. IfNone c (located_at (tables_of track.now.trak) k ≡ Ok None)) }
        ensures refused { IfErr result (λ e. located_at (tables_of track.now.trak) k ≡ Err (cause_of e)) }
        ensures counts { OnOk result (1 ≤ k) }
    {
        let run = entry_run_at(track, k)?;
        let stbl = &track.trak.mdia.minf.stbl;
        let Some(chunk) = chunk_by(stbl, &run.entry, run.end, k)? else {
            return Ok(None);
        };
        let mut readings = Readings::of(track);
        let Some(sample) = chunk.located(stbl, &track.index.size_sums, k, &mut readings)? else {
            return Ok(None);
        };
        Ok(Some(ChunkRun {
            run,
            number: chunk.number,
            left: (chunk.end - u64::from(k)) as u32,
            offset: sample.offset,
        }))
    }

    /// What is left of the chunk of sample `k`, none of this one being left: the chunk after it, or the first chunk by
    /// the entry of stsc after this one's, else the entry is searched. None where there is no such sample.
    #[inline(always)]
    fn after(&self, tables: &Tables, k: u32) -> Result<Option<ChunkRun>>
        requires tables { AreTables tables.now }
        requires chunk { IsChunkRun (walked tables.now) k self.now }
        requires none { self.now.left ≡ 0 }
        ensures chunk { IfOk result (λ c. IfSome c (λ c. IsChunkRun (walked tables.now) k c × (0 < c.left))) }
        ensures none { IfOk result (λ c. IfNone c (located_at (walked tables.now) k ≡ Ok None)) }
        ensures refused { IfErr result (λ e. located_at (walked tables.now) k ≡ Err (cause_of e)) }
    {
        if u64::from(k) < self.run.end {
            return self.next_chunk(tables, k);
        }
        match self.run.next_entry(tables.entries, k) {
            Some(run) => ChunkRun::first_chunk(tables, run, k),
            None => ChunkRun::search(tables.track, k),
        }
    }

    /// Becomes what is left of the chunk of sample `k`, none of this one being left, and answers whether there is such
    /// a sample.
    #[inline(always)]
    fn move_to(&mut self, tables: &Tables, k: u32) -> Result<bool>
        requires tables { AreTables tables.now }
        requires chunk { IsChunkRun (walked tables.now) k self.old }
        requires none { self.old.left ≡ 0 }
        ensures chunk { IfOk result (λ there. IsTrue there → IsChunkRun (walked tables.now) k self.new) }
        ensures some { IfOk result (λ there. IsTrue there → 0 < self.new.left) }
        ensures none { IfOk result (λ there. there ≡ false → located_at (walked tables.now) k ≡ Ok None) }
        ensures refused { IfErr result (λ e. located_at (walked tables.now) k ≡ Err (cause_of e)) }
    {
        match self.after(tables, k)? {
            None => Ok(false),
            Some(next) => {
                *self = next;
                Ok(true)
            }
        }
    }
}

/// Where sample `k` lies, and its size: the next sample of a walk that is in this chunk, or else moves to the sample's.
#[inline(always)]
pub fn located_in_order(
    tables: &Tables,
    k: u32,
    chunk: &mut ChunkRun,
) -> Result<Option<LocatedBytes>>
    requires tables { AreTables tables.now }
    requires chunk { IsChunkRun (walked tables.now) k chunk.old }
    ensures chunk { IfOk result (λ s. IfSome s (λ s. IsChunkRun (walked tables.now) (k + 1) chunk.new)) }
    ensures located { Gives (λ s. option_map (λ s. (s.offset, s.size)) s) result (located_at (walked tables.now) k) }
    ensures counts { IfOk result (λ s. IfSome s (λ s. 1 ≤ k)) }
{
    if chunk.left == 0 && !chunk.move_to(tables, k)? {
        return Ok(None);
    }
    Ok(chunk.take_sample(tables, k))
}
