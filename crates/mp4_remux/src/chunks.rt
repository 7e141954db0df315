//! The samples of a track in chunks (ISO/IEC 14496-12, 8.7.4).

ghost use Rattle.std.specs.Prelude.{◌≡◌, ◌∷◌, ℕ, List, IfOk, None, Ok, OnOk};
ghost use Rattle.mp4_codec.specs.Cause.{Answers};
ghost use Rattle.mp4_remux.specs.Chunks.{and_one, belongs_to, chunk_entries, chunk_with, chunks_after, end_of_sample};
ghost use Rattle.mp4_remux.specs.Chunks.{is_alike, stsc_of_chunks};
ghost use Rattle.mp4_remux.specs.declared.chunks.PlacedSample.{PlacedSample};

use mp4_codec::{Put, SharedItems};
use mp4_mux::SampleInfo;
use mp4_table::{StscBox, StscEntry};
use std::alloc::{AllocError, Global};

/// Samples of a track that follow each other in the data, and have one description.
#[derive(Debug, Clone, Copy)]
pub(crate) struct Chunk {
    /// Where the first of them is, counted from the first byte of the data.
    pub place: u64,
    pub count: u32,
    /// The number of their description, from 1.
    pub description: u32,
}

/// A sample of a track in the data.
#[derive(Debug, Clone, Copy)]
pub(crate) struct PlacedSample {
    /// Where it begins, counted from the first byte of the data.
    pub place: u64,
    /// The number of its description, from 1.
    pub description: u32,
    /// What else the tables say of it.
    pub info: SampleInfo,
}

impl PlacedSample {
    /// Where it ends in the data.
    pub fn end(&self) -> u64
        ensures { result ≡ end_of_sample self.now }
    {
        self.place.saturating_add(u64::from(self.info.size))
    }
}

impl Chunk {
    /// The chunk that begins with a sample.
    fn of(sample: &PlacedSample) -> Self
        ensures { result ≡ chunk_with sample.now }
    {
        Chunk {
            place: sample.place,
            count: 1,
            description: sample.description,
        }
    }

    /// Whether a sample belongs to the chunk, which ends at this place.
    fn has_next(&self, end: u64, sample: &PlacedSample) -> bool
        ensures { result ≡ belongs_to self.now end sample.now }
    {
        sample.place == end && sample.description == self.description && self.count < u32::MAX
    }

    /// Whether the chunk is like the one before it in what `stsc` says.
    fn is_alike(&self, before: &Option<Chunk>) -> bool
        ensures { result ≡ is_alike before.now self.now }
    {
        match before {
            None => false,
            Some(before) => { before.count == self.count && before.description == self.description }
        }
    }
}

/// Counts a sample in the last chunk, which ends at this place, or in one of its own.
pub(crate) fn push_sample(chunks: &mut Vec<Chunk>, end: u64, sample: &PlacedSample) -> Put
    ensures { OnOk result ((next : List PlacedSample) → chunks_after chunks.new.items (end_of_sample sample.now) next
        ≡ chunks_after chunks.old.items end (sample.now ∷ next)) }
{
    let Some(last) = chunks.pop() else {
        chunks.push(Chunk::of(sample))?;
        return Ok(());
    };
    if last.has_next(end, sample) {
        chunks.push(Chunk {
            count: last.count + 1,
            ..last
        })?;
        return Ok(());
    }
    chunks.push(last)?;
    chunks.push(Chunk::of(sample))?;
    Ok(())
}

/// An entry for each chunk that isn't like the one before it.
fn chunk_entries(alloc: Global, chunks: &[Chunk]) -> Result<Vec<StscEntry>, AllocError>
    ensures { IfOk result (λ entries. entries.items ≡ chunk_entries None 1 chunks.now) }
{
    let mut entries = Vec::new(alloc);
    let mut before = None;
    let mut number: u32 = 1;
    for chunk in chunks {
        let is_alike = chunk.is_alike(&before);
        let first_chunk = number;
        before = Some(*chunk);
        number = number.saturating_add(1);
        if is_alike {
            continue;
        }
        entries.push(StscEntry {
            first_chunk,
            samples_per_chunk: chunk.count,
            sample_description_index: chunk.description,
            first_sample: 0,
        })?;
    }
    Ok(entries)
}

/// The sample-to-chunk table of the chunks.
#[tactic(auto, unfolding(crate::specs::Chunks::stsc_of_chunks))]
pub(crate) fn stsc(alloc: Global, chunks: &[Chunk]) -> mp4_codec::Result<StscBox>
    ensures { Answers (λ b. b) result (Ok (stsc_of_chunks chunks.now)) }
{
    let entries = chunk_entries(alloc, chunks)?;
    Ok(StscBox {
        version: 0,
        flags: 0,
        entries: SharedItems::from_items(entries.into())?,
    })
}
