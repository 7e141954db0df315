//! How many samples each chunk has.

ghost use Rattle.mp4_codec.specs.ExactTest.{by_test, field_tests};
ghost use Rattle.std.specs.Prelude.{◌≡◌, None, Ok};
ghost use Rattle.mp4_codec.specs.Cause.{Checks, Gives, fault_of};
ghost use Rattle.mp4_codec.specs.Boxes.{size_around, no_refusal};
ghost use Rattle.mp4_codec.specs.declared.box_type.BoxType.TheVariants.{StscBox as stsc};
ghost use Rattle.mp4_table.specs.Stsc.{stsc_payload, first_sample_after, numbered_after, runs_fault, default_stsc};
ghost use Rattle.mp4_table.specs.Stsc.{stsc_entry_in, stsc_entry_at, stsc_entry, FitsStoredEntry, stsc_of};
ghost use Rattle.mp4_table.specs.Stsc.{IsInRangeStscEntry, IsInRangeStsc, IsWellFormedStsc};
ghost use Rattle.mp4_table.specs.StscLaws.{stsc_entry_again, length-stsc_entry, stsc_again};
ghost use Rattle.mp4_codec.specs.Blocks.{block-is_block};
ghost use Rattle.mp4_codec.specs.Early.{refused_at_once};

use crate::table::{put_table, read_entries, table_size};
use mp4_codec::{
    Block, BoxType, DebugItem, Entry, Error, ExactEq, Fields, InRange, Items, Mp4Box, Plain, Put,
    ReadBox, Result, SharedItem, SharedItems, TryClone, WriteBox, put_u32,
};
use std::alloc::Global;
use std::slice;

/// A run of chunks that have equally many samples of one description.
#[derive(Debug, Clone, Copy, PartialEq, Eq)]
pub struct StscEntry {
    /// The number of the run's first chunk, counted from 1. The run ends before the next one's, or with
    /// the last chunk.
    pub first_chunk: u32,
    /// How many samples each chunk has.
    pub samples_per_chunk: u32,
    /// The number of the sample description of these samples, counted from 1.
    pub sample_description_index: u32,
    /// The number of the run's first sample, counted from 1. It isn't stored: an entry that is read
    /// alone has 0, reading the box finds it, and writing leaves it out.
    pub first_sample: u32,
}

impl ExactEq for StscEntry {
    ghost exact = { by_test (Prim.hlevel field_tests) };
}

impl DebugItem for StscEntry {}

impl Plain for StscEntry {}

impl SharedItem for StscEntry {
    fn as_one(&self) -> &[StscEntry] {
        slice::from_ref(self)
    }
}

impl InRange for StscEntry {
    ghost IsInRange = { IsInRangeStscEntry };

    fn in_range(&self) {
        self.first_chunk.in_range();
        self.samples_per_chunk.in_range();
        self.sample_description_index.in_range();
        self.first_sample.in_range();
    }
}

impl Block for StscEntry {
    ghost SIZE = { 12 };

    const SIZE: usize = 12;

    ghost in_block = { stsc_entry_in };

    ghost at = { stsc_entry_at };

    ghost encoded = { stsc_entry };

    ghost Fits = { FitsStoredEntry };

    ghost is_block = { block-is_block 12 stsc_entry_in };

    ghost again = { stsc_entry_again };

    ghost length_encoded = { length-stsc_entry };

    fn from_block(block: &[u8]) -> Self {
        StscEntry {
            first_chunk: u32::from_block(&block[..4]),
            samples_per_chunk: u32::from_block(&block[4..8]),
            sample_description_index: u32::from_block(&block[8..]),
            first_sample: 0,
        }
    }

    fn put_block(self, out: &mut Vec<u8>) -> Put {
        put_u32(out, self.first_chunk)?;
        put_u32(out, self.samples_per_chunk)?;
        put_u32(out, self.sample_description_index)?;
        Ok(())
    }
}

/// The number of the first sample of a run that begins at this chunk, after the run before it.
#[tactic(auto, unfolding(crate::specs::Stsc::first_sample_after))]
fn first_sample_after(before: Option<StscEntry>, first_chunk: u32) -> Result<u32>
    ensures { Gives (λ n. n) result (first_sample_after before first_chunk) }
{
    let Some(before) = before else {
        return Ok(1);
    };
    if first_chunk < before.first_chunk {
        return Err(Error::InvalidData("a first chunk below the one before"));
    }
    let chunks = u64::from(first_chunk - before.first_chunk);
    let samples = chunks * u64::from(before.samples_per_chunk);
    let first_sample = u64::from(before.first_sample) + samples;
    if first_sample > u64::from(u32::MAX) {
        return Err(Error::InvalidData("a first sample past 32 bits"));
    }
    Ok(first_sample as u32)
}

/// Sets the first sample of each entry.
fn number_samples(entries: &mut [StscEntry]) -> Result<()>
    ensures { Gives (λ _. entries.new) result (numbered_after None entries.old) }
{
    let mut before: Option<StscEntry> = None;
    for entry in entries.iter_mut() {
        entry.first_sample = first_sample_after(before, entry.first_chunk)?;
        before = Some(*entry);
    }
    Ok(())
}

/// The entries with their first samples.
fn numbered(stored: Items<StscEntry>) -> Result<Items<StscEntry>>
    ensures { Gives (λ entries. entries) result (numbered_after None stored) }
{
    let mut entries = Vec::from(stored);
    number_samples(entries.as_mut_slice())?;
    Ok(Items::from(entries))
}

/// Whether so many runs are there and can be numbered.
fn check_runs(fields: &mut Fields, count: u32) -> Result<()>
    ensures { Checks result (runs_fault None count fields.old) }
{
    let mut before: Option<StscEntry> = None;
    for _ in 0..count {
        let Ok(entry) = StscEntry::read(fields, 0) else {
            return Err(Error::InvalidData("a list passes the end"));
        };
        let first_sample = first_sample_after(before, entry.first_chunk)?;
        before = Some(StscEntry {
            first_sample,
            ..entry
        });
    }
    Ok(())
}

/// Whether a payload holds a table: what refuses it, without a request for memory.
#[tactic(auto, unfolding(crate::specs::Stsc::stsc_of, crate::specs::Table::table_of))]
fn check_payload(payload: &[u8]) -> Result<()>
    ensures { Checks result (fault_of (stsc_of payload.now)) }
{
    let mut fields = Fields::new(payload);
    fields.u8()?;
    fields.u24()?;
    let count = fields.u32()?;
    check_runs(&mut fields, count)?;
    Ok(())
}

/// The sample-to-chunk table, `stsc`: how many samples each chunk of a track has (ISO/IEC 14496-12,
/// 8.7.4).
///
/// What is read has its first samples: 1 for the first entry, and for each next one that of the entry
/// before and all samples of the chunks between. `InvalidData` where a first chunk is below the one
/// before, or a first sample passes 2^32 - 1.
#[derive(Debug, PartialEq, Eq, Drop)]
pub struct StscBox {
    /// Any version is read and written.
    pub version: u8,
    /// The low 24 bits are written.
    pub flags: u32,
    /// The chunks in runs that have equally many samples.
    pub entries: SharedItems<StscEntry>,
}

impl ExactEq for StscBox {
    ghost exact = { by_test (Prim.hlevel field_tests) };
}

impl StscBox {
    /// No entries.
    pub fn default(alloc: Global) -> Result<Self>
        ensures { Gives (λ b. b) result (Ok default_stsc) }
    {
        Ok(StscBox {
            version: 0,
            flags: 0,
            entries: SharedItems::new(alloc),
        })
    }

    /// `stsc`.
    pub fn get_type(&self) -> BoxType
        ensures { result ≡ stsc }
    {
        BoxType::StscBox
    }

    /// The bytes of the box, its header included: 16, and 12 for each entry.
    #[tactic(auto, unfolding(crate::specs::Stsc::stsc_payload))]
    pub fn get_size(&self) -> u64
        ensures { result ≡ size_around (stsc_payload self.now) }
    {
        table_size(self.version, self.flags, self.entries.as_slice())
    }
}

impl TryClone for StscBox {
    fn try_clone(&self) -> Result<Self> {
        Ok(StscBox {
            version: self.version,
            flags: self.flags,
            entries: self.entries.try_clone()?,
        })
    }
}

impl InRange for StscBox {
    ghost IsInRange = { IsInRangeStsc };

    fn in_range(&self) {
        self.version.in_range();
        self.entries.in_range();
    }
}

impl Mp4Box for StscBox {
    ghost KIND = { stsc };

    const KIND: BoxType = BoxType::StscBox;

    ghost payload = { stsc_payload };

    fn box_size(&self) -> u64 {
        self.get_size()
    }
}

impl ReadBox for StscBox {
    ghost value = { stsc_of };

    ghost early = { λ payload. refused_at_once (stsc_of payload) };

    #[tactic(auto, using(crate::proofs::Runs::checked), unfolding(crate::specs::Stsc::stsc_of))]
    fn read_payload(alloc: Global, payload: &[u8]) -> Result<Self> {
        check_payload(payload)?;
        let (version, flags, stored) = read_entries(alloc, payload)?;
        let entries = SharedItems::from_items(numbered(stored)?)?;
        Ok(StscBox {
            version,
            flags,
            entries,
        })
    }
}

impl WriteBox for StscBox {
    ghost refusal = { no_refusal };

    ghost IsWellFormed = { IsWellFormedStsc };

    ghost reads_back = { stsc_again };

    fn check(&self) -> Result<()> {
        Ok(())
    }

    #[tactic(auto, using(crate::proofs::Sizes::sizes), unfolding(crate::specs::Stsc::stsc_payload))]
    fn put_payload(&self, out: &mut Vec<u8>) -> Put {
        put_table(out, self.version, self.flags, self.entries.as_slice())?;
        Ok(())
    }
}
