//! A track whose samples are found by their numbers.

ghost use Rattle.std.specs.Prelude.{◌≡◌, ◌-◌, ◌^◌, ◌<◌, length, ◌==◌, if◌then◌else◌, IfOk, OnOk};
ghost use Rattle.std.proofs.Props.{props};
ghost use Rattle.mp4_table.specs.Stsc.{HasFirstSamples};
ghost use Rattle.mp4_boxes.specs.Stbl.{sample_count};
ghost use Rattle.mp4_fragments.specs.Fragments.{placed_runs};
ghost use Rattle.mp4_fragments.specs.Index.{Indexes, run_at, runs_of};
ghost use Rattle.mp4_fragments.specs.Seek.{IsSeekIndex};
ghost use Rattle.mp4_lookup.specs.Index.{IsIndexOf};
ghost use Rattle.mp4_samples.specs.Tables.{tables_of};
ghost use Rattle.mp4_lookup.specs.Tracks.{movie_end};

use crate::index::{TrackIndex, index_of};
use crate::timing::end_after;
use mp4_boxes::TrakBox;
use mp4_codec::Items;
use mp4_fragments::{
    RunIndex, SampleDefaults, SeekIndex, index_of as index_of_runs, seek_index_of,
};
use mp4_moof::TrafBox;
use std::alloc::{AllocError, Global};

/// A track of a movie that was opened (ISO/IEC 14496-12, 8.3.1).
#[derive(Debug)]
pub struct Mp4Track {
    /// What the movie box says of the track.
    pub trak: TrakBox,
    /// The fragments of the track, in file order.
    pub trafs: Items<TrafBox>,
    /// How long a fragment's sample lasts where neither its run nor its fragment says so, in ticks of the track's
    /// timescale; 0 for a track without fragments.
    pub default_sample_duration: u32,
    pub(crate) index: TrackIndex,
    pub(crate) defaults: SampleDefaults,
    pub(crate) runs: RunIndex,
    pub(crate) seek: SeekIndex,
    ghost numbered: { HasFirstSamples trak.mdia.minf.stbl.stsc.entries } by { Prim.hlevel props },
    ghost indexed: { IsIndexOf trak.mdia.minf.stbl index } by { Prim.hlevel props },
    ghost placed: { Indexes (run_at trafs defaults) (runs_of trafs defaults runs) runs } by { Prim.hlevel props },
    ghost sought: { IsSeekIndex (runs_of trafs defaults runs)
        (2 ^ 32 - 1 - sample_count trak.mdia.minf.stbl) seek } by { Prim.hlevel props },
    ghost counted: { sample_count trak.mdia.minf.stbl < 2 ^ 32 } by { Prim.hlevel props },
}

/// Taken apart here, and not at each end of each function that owns a track.
impl Drop for Mp4Track {
    fn drop(self) {
        let Mp4Track {
            trak,
            trafs,
            default_sample_duration: _,
            index,
            defaults: _,
            runs,
            seek,
        } = self;
        drop(trak);
        drop(trafs);
        drop(index);
        drop(runs);
        drop(seek);
    }
}

/// What is kept beside the boxes of a track.
#[derive(Drop)]
struct TrackIndexes {
    index: TrackIndex,
    runs: RunIndex,
    seek: SeekIndex,
}

/// The index of a track's tables, and those of the runs of its fragments.
fn indexes_of(
    alloc: Global,
    trak: &TrakBox,
    trafs: &[TrafBox],
    base_data_offsets: &[Option<u64>],
    defaults: SampleDefaults,
) -> std::result::Result<TrackIndexes, AllocError>
    requires { length base_data_offsets.now ≡ length trafs.now }
    ensures tables { IfOk result (λ x. IsIndexOf (tables_of trak.now) x.index) }
    ensures runs { IfOk result
        (λ x. Indexes (run_at trafs.now defaults)
        (placed_runs defaults (movie_end trak.now) trafs.now base_data_offsets.now) x.runs) }
    ensures seek { IfOk result (λ x. IsSeekIndex
        (placed_runs defaults (movie_end trak.now) trafs.now base_data_offsets.now)
        (2 ^ 32 - 1 - sample_count (tables_of trak.now)) x.seek) }
    ensures counted { OnOk result (sample_count (tables_of trak.now) < 2 ^ 32) }
{
    let stbl = &trak.mdia.minf.stbl;
    let count = stbl.sample_count();
    let index = index_of(alloc, stbl)?;
    let end = end_after(stbl.stts.entries.as_slice(), count);
    let mut runs = index_of_runs(alloc, trafs, base_data_offsets, defaults, end)?;
    let seek = seek_index_of(alloc, trafs, defaults, &mut runs, u32::MAX - count)?;
    Ok(TrackIndexes { index, runs, seek })
}

/// How long a sample of a fragment lasts where nothing else is said of it; 0 without fragments.
fn duration_in_fragments(trafs: &Items<TrafBox>, defaults: SampleDefaults) -> u32
    ensures { result ≡ (if length trafs.now == 0 then 0 else defaults.duration) }
{
    if trafs.is_empty() {
        0
    } else {
        defaults.duration
    }
}

impl Mp4Track {
    /// Makes the indexes of a track, once, so that its samples are found fast: one of its tables, and one of the runs
    /// of its fragments, whose places count from these base data offsets, one for each. `defaults` is what the movie
    /// says of the samples of its fragments. Every box that was read has the first samples that are asked for.
    pub fn new(
        alloc: Global,
        trak: TrakBox,
        trafs: Items<TrafBox>,
        base_data_offsets: &[Option<u64>],
        defaults: SampleDefaults,
    ) -> std::result::Result<Self, AllocError>
        requires first_samples { HasFirstSamples (tables_of trak).stsc.entries }
        requires base_data_offsets { length base_data_offsets.now ≡ length trafs }
        ensures trak { IfOk result (λ t. t.trak ≡ trak) }
        ensures trafs { IfOk result (λ t. t.trafs ≡ trafs) }
        ensures runs { IfOk result
            (λ t. runs_of t.trafs t.defaults t.runs
            ≡ placed_runs defaults (movie_end trak) trafs base_data_offsets.now) }
        ensures duration { IfOk result
            (λ t. t.default_sample_duration ≡ (if length trafs == 0 then 0 else defaults.duration)) }
    {
        match indexes_of(alloc, &trak, trafs.as_slice(), base_data_offsets, defaults) {
            Ok(TrackIndexes { index, runs, seek }) => {
                let default_sample_duration = duration_in_fragments(&trafs, defaults);
                Ok(Mp4Track {
                    trak,
                    trafs,
                    default_sample_duration,
                    index,
                    defaults,
                    runs,
                    seek,
                })
            }
            Err(error) => {
                drop(trak);
                drop(trafs);
                Err(error)
            }
        }
    }
}
