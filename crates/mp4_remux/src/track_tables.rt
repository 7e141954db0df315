//! The tables of a track, made of its samples with the fewest entries (ISO/IEC 14496-12, 8.6 and 8.7).

ghost use Rattle.std.specs.Prelude.{◌≡◌, ◌⊎◌, ◌+◌, ◌-◌, ◌^◌, ◌<◌, ◌≤◌, ◌++◌, ◌∷◌, ℕ, [], List, length, max, min, IfErr};
ghost use Rattle.std.specs.Prelude.{IfOk, OnOk};
ghost use Rattle.mp4_codec.specs.declared.error.Error.TheVariants.{OutOfMemory, TooLarge};
ghost use Rattle.mp4_codec.specs.declared.error.Limit.TheVariants.{BoxSize};
ghost use Rattle.mp4_samples.specs.Places.{place_of};
ghost use Rattle.mp4_media.specs.FileBoxes.{opened_movie};
ghost use Rattle.mp4_media.specs.MovieTracks.{AreTracks};
ghost use Rattle.mp4_remux.specs.ChunkTable.{chunk_places, offsets_box};
ghost use Rattle.mp4_remux.specs.Errors.{of_layout};
ghost use Rattle.mp4_remux.specs.Headers.{shown_end};
ghost use Rattle.mp4_remux.specs.Moved.{IsBy};
ghost use Rattle.mp4_remux.specs.Named.{IsWhy};
ghost use Rattle.mp4_remux.specs.Refused.{SaysNoneDiffers, SaysWhy};
ghost use Rattle.mp4_remux.specs.TrackTables.{AllFit, AreTablesOf, AreTooLarge, HasNoRoom, HoldsSamples, IsWhyNoTables};
ghost use Rattle.mp4_remux.specs.TrackTables.{chunk_begins, info_of, placed_at, tables, tables_bytes};
ghost use Rattle.mp4_remux.specs.declared.chunks.PlacedSample.{PlacedSample};

use crate::chunks::{Chunk, PlacedSample, push_sample};
use crate::descriptions::Descriptions;
use crate::layout_error::LayoutError;
use crate::moves::Moves;
use crate::same::place_of_any;
use crate::shown::shown_ticks;
use crate::table_boxes::{put_chunk_offsets, put_tables};
use mp4_codec::{Error, Put};
use mp4_media::{Movie, SamplePlace};
use mp4_mux::{SampleInfo, SampleInfos};
use std::alloc::{AllocError, Global};

/// What the tables of a track say of its samples so far. Places count from the first byte of the data.
#[derive(Drop)]
struct SampleTables {
    samples: SampleInfos,
    chunks: Vec<Chunk>,
    /// Where the last chunk ends.
    end: u64,
    /// How long the samples last, in ticks of the track.
    duration: u64,
    /// When the last of them that is shown has been shown.
    shown: u64,
}

/// The tables of a track as the bytes of their boxes, but for the chunk offsets.
#[derive(Drop)]
pub(crate) struct MadeTables {
    pub bytes: Vec<u8>,
    /// Where each chunk begins, counted from the first byte of the data.
    pub chunks: Vec<u64>,
    /// How long the track is, in ticks of it: until the last sample that is shown has been shown (8.4.2.3).
    pub duration: u64,
}

/// What the tables say of a sample, but for where it is.
fn info_of(sample: &SamplePlace) -> SampleInfo
    ensures { result ≡ info_of (place_of sample.now) }
{
    SampleInfo {
        size: sample.size,
        duration: sample.duration,
        rendering_offset: sample.rendering_offset,
        is_sync: sample.is_sync,
    }
}

/// Where each chunk begins.
fn chunk_begins(alloc: Global, chunks: &[Chunk]) -> Result<Vec<u64>, AllocError>
    ensures { IfOk result (λ begins. begins.items ≡ chunk_begins chunks.now) }
{
    chunks.iter().map(|chunk| chunk.place).collect(alloc)
}

/// Where a chunk begins in a file whose data begins at this place; the largest number where that passes 64 bits.
fn chunk_place(base: u64, chunk: u64) -> u64
    ensures { result ≡ min (2 ^ 64 - 1) (base + chunk) }
{
    base.saturating_add(chunk)
}

impl SampleTables {
    fn new(alloc: Global) -> Self
        ensures duration { result.duration ≡ 0 }
        ensures shown { result.shown ≡ 0 }
        ensures held { HoldsSamples result [] }
    {
        SampleTables {
            samples: SampleInfos::new(alloc),
            chunks: Vec::new(alloc),
            end: 0,
            duration: 0,
            shown: 0,
        }
    }

    /// Adds the sample after those that are there, whose data begins at this place.
    fn push(&mut self, sample: &SamplePlace, place: u64, description: u32) -> Put
        requires { length self.old.samples < 2 ^ 32 - 1 }
        ensures count { OnOk result (length self.new.samples ≡ length self.old.samples + 1) }
        ensures duration { OnOk result
            (self.new.duration ≡ min (self.old.duration + sample.now.duration) 18446744073709551615) }
        ensures shown { OnOk result
            (self.new.shown ≡ max self.old.shown (min (2 ^ 64 - 1) (shown_end (place_of sample.now)))) }
        ensures held { OnOk result ((samples : List PlacedSample) → HoldsSamples self.old samples
            → HoldsSamples self.new (samples ++ placed_at place description (place_of sample.now) ∷ [])) }
    {
        let next = PlacedSample {
            place,
            description,
            info: info_of(sample),
        };
        self.samples.push(next.info)?;
        push_sample(&mut self.chunks, self.end, &next)?;
        self.end = next.end();
        self.duration = self.duration.saturating_add(u64::from(sample.duration));
        self.shown = self.shown.max(shown_ticks(sample));
        Ok(())
    }

    /// The tables.
    fn into_tables(self, alloc: Global) -> Result<MadeTables, Error>
        ensures bytes { IfOk result (λ t. t.bytes.items ≡ tables_bytes self.samples self.chunks.items) }
        ensures chunks { IfOk result (λ t. t.chunks.items ≡ chunk_begins self.chunks.items) }
        ensures duration { IfOk result (λ t. t.duration ≡ self.shown) }
        ensures fit { OnOk result (AllFit (tables self.samples self.chunks.items)) }
        ensures refused { IfErr result (AreTooLarge (tables self.samples self.chunks.items)) }
    {
        let SampleTables {
            samples,
            chunks,
            end: _,
            duration: _,
            shown,
        } = self;
        let mut bytes = Vec::new(alloc);
        put_tables(alloc, &samples, &chunks, &mut bytes)?;
        Ok(MadeTables {
            bytes,
            chunks: chunk_begins(alloc, &chunks)?,
            duration: shown,
        })
    }
}

impl MadeTables {
    /// Adds an `stco` of the chunks, or a `co64` where one begins past 32 bits, where the data begins at this place
    /// (8.7.5).
    pub fn put_offsets(&self, alloc: Global, base: u64, out: &mut Vec<u8>) -> Result<(), Error>
        ensures added { OnOk result
            (out.new.items ≡ out.old.items ++ offsets_box (chunk_places base self.now.chunks.items)) }
        ensures fits { OnOk result (length (offsets_box (chunk_places base self.now.chunks.items)) < 2 ^ 32) }
        ensures refused { IfErr result (λ e. (e ≡ OutOfMemory) ⊎ ((e ≡ TooLarge BoxSize)
            × (2 ^ 32 ≤ length (offsets_box (chunk_places base self.now.chunks.items))))) }
    {
        let offsets = self
            .chunks
            .iter()
            .map(|chunk| chunk_place(base, *chunk))
            .collect(alloc)?;
        put_chunk_offsets(alloc, offsets, out)
    }
}

/// The tables of a track whose data is moved so, of at most `most` samples. `StartsElsewhere` where a sample doesn't
/// begin when the one before it ends, which tables can't say.
pub(crate) fn tables_of(
    alloc: Global,
    movie: &Movie,
    track_id: u32,
    moves: &Moves,
    most: u32,
) -> Result<MadeTables, LayoutError>
    requires most { most < 2 ^ 32 - 1 }
    requires tracks { AreTracks movie.now.moov movie.now.moofs movie.now.moof_places movie.now.tracks }
    ensures tables { (to : ℕ → ℕ) → IsBy moves.now to
        → IfOk result (λ t. AreTablesOf (opened_movie movie.now) track_id to t) }
    ensures unmade { (to : ℕ → ℕ) → IsBy moves.now to → IfErr result (λ e.
        SaysWhy (IsWhyNoTables (opened_movie movie.now) track_id to) ⊥ (λ id k. ⊥) (of_layout e)) }
    ensures why { IfErr result (IsWhy (track_id ∷ []) most (opened_movie movie.now)) }
    ensures differs { IfErr result SaysNoneDiffers }
{
    let mut descriptions = Descriptions::of(alloc, movie.track(track_id)?, &movie.moov.mvex)?;
    let mut tables = SampleTables::new(alloc);
    let mut k = 0;
    while k <= most {
        let Some(sample) = place_of_any(movie, track_id, k + 1)? else {
            return Ok(tables.into_tables(alloc)?);
        };
        k += 1;
        if sample.start_time != tables.duration {
            return Err(LayoutError::StartsElsewhere(track_id, k));
        }
        let place = moves.moved(sample.offset);
        tables.push(&sample, place, descriptions.next(k))?;
    }
    Err(LayoutError::TooManySamples(track_id))
}
