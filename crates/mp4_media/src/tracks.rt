//! The tracks of a movie that is opened, by their ids.

ghost use Rattle.std.specs.Prelude.{◌≡◌, ℕ, length, None, ◌==◌, if◌then◌else◌, IfOk, IfErr};
ghost use Rattle.mp4_codec.specs.Cause.{Checks};
ghost use Rattle.mp4_codec.specs.Boxes.{all_refusal};
ghost use Rattle.mp4_table.specs.Stsc.{HasFirstSamples};
ghost use Rattle.mp4_fragments.specs.Fragments.{placed_runs};
ghost use Rattle.mp4_lookup.specs.TrackRuns.{track_runs};
ghost use Rattle.mp4_samples.specs.Tables.{tables_of};
ghost use Rattle.mp4_lookup.specs.Tracks.{movie_end};
ghost use Rattle.mp4_media.specs.MovieTracks.{AreTracks, HaveFirstSamples, RefusedBy, at_id, base_data_offsets_at};
ghost use Rattle.mp4_media.specs.MovieTracks.{default_duration, defaults_at, fragments_at, has_id, id_fault};
ghost use Rattle.mp4_media.specs.MovieTracks.{movie_defaults, unknown_id, unknown_ids, zero_id};

use crate::fragments::{
    base_data_offsets_by_id, base_data_offsets_with_id, defaults_by_id, fragments_by_id,
    track_defaults, trexs_of,
};
use mp4_boxes::{MoovBox, TrakBox};
use mp4_codec::{Error, Items, Result, TryClone};
use mp4_fragments::SampleDefaults;
use mp4_lookup::Mp4Track;
use mp4_moof::{MoofBox, TrafBox};
use std::alloc::Global;
use std::collections::HashMap;

/// `InvalidData` where the id of a track is 0.
fn check_track_ids(traks: &[TrakBox]) -> Result<()>
    ensures { Checks result (all_refusal zero_id traks.now) }
{
    for trak in traks {
        if trak.tkhd.track_id == 0 {
            return Err(Error::InvalidData("the id of a track is 0"));
        }
    }
    Ok(())
}

/// Whether there is a track with this id.
fn has_track(tracks: &HashMap<u32, Mp4Track>, id: u32) -> bool
    ensures { result ≡ has_id tracks.now id }
{
    tracks.contains_key(&id)
}

/// `TrakNotFound` for the first of these fragments whose track isn't there.
fn check_trafs(tracks: &HashMap<u32, Mp4Track>, trafs: &[TrafBox]) -> Result<()>
    ensures { Checks result (all_refusal (unknown_id (has_id tracks.now)) trafs.now) }
{
    for traf in trafs {
        let id = traf.tfhd.track_id;
        if !has_track(tracks, id) {
            return Err(Error::TrakNotFound(id));
        }
    }
    Ok(())
}

/// `TrakNotFound` for the first fragment in file order whose track isn't there.
fn check_fragments(tracks: &HashMap<u32, Mp4Track>, moofs: &[MoofBox]) -> Result<()>
    ensures { Checks result (unknown_ids (has_id tracks.now) moofs.now) }
{
    for moof in moofs {
        check_trafs(tracks, moof.trafs.as_slice())?;
    }
    Ok(())
}

/// A track with a copy of its box, and its fragments, whose places count from these base data offsets.
fn track_with(
    alloc: Global,
    trak: &TrakBox,
    trafs: Items<TrafBox>,
    base_data_offsets: &[Option<u64>],
    defaults: SampleDefaults,
) -> Result<Mp4Track>
    requires first_samples { HasFirstSamples (tables_of trak.now).stsc.entries }
    requires base_data_offsets { length base_data_offsets.now ≡ length trafs }
    ensures memory { IfErr result (λ e. e ≡ Error.OutOfMemory) }
    ensures trak { IfOk result (λ t. t.trak ≡ trak.now) }
    ensures trafs { IfOk result (λ t. t.trafs ≡ trafs) }
    ensures runs { IfOk result (λ t. track_runs t
        ≡ placed_runs defaults (movie_end trak.now) trafs base_data_offsets.now) }
    ensures duration { IfOk result (λ t. t.default_sample_duration ≡ default_duration trafs defaults) }
{
    let track = Mp4Track::new(alloc, trak.try_clone()?, trafs, base_data_offsets, defaults)?;
    Ok(track)
}

/// The track of this box, with its fragments, which are taken from those that are kept for each track.
fn taken_track(
    alloc: Global,
    trak: &TrakBox,
    fragments: &mut HashMap<u32, Items<TrafBox>>,
    base_data_offsets: &HashMap<u32, Items<Option<u64>>>,
    defaults: &HashMap<u32, SampleDefaults>,
) -> Result<Mp4Track>
    requires first_samples { HasFirstSamples (tables_of trak.now).stsc.entries }
    requires base_data_offsets { length (base_data_offsets_at base_data_offsets.now trak.now.tkhd.track_id)
        ≡ length (fragments_at fragments.old trak.now.tkhd.track_id) }
    ensures memory { IfErr result (λ e. e ≡ Error.OutOfMemory) }
    ensures trak { IfOk result (λ t. t.trak ≡ trak.now) }
    ensures trafs { IfOk result (λ t. t.trafs ≡ fragments_at fragments.old trak.now.tkhd.track_id) }
    ensures runs { IfOk result
        (λ t. track_runs t ≡ placed_runs (defaults_at defaults.now trak.now.tkhd.track_id) (movie_end trak.now)
        (fragments_at fragments.old trak.now.tkhd.track_id)
        (base_data_offsets_at base_data_offsets.now trak.now.tkhd.track_id)) }
    ensures duration { IfOk result
        (λ t. t.default_sample_duration
        ≡ default_duration (fragments_at fragments.old trak.now.tkhd.track_id)
        (defaults_at defaults.now trak.now.tkhd.track_id)) }
    ensures taken { (id : ℕ) → at_id fragments.new id
        ≡ (if trak.now.tkhd.track_id == id then None else at_id fragments.old id) }
{
    let id = trak.tkhd.track_id;
    let trafs = fragments.remove(&id).unwrap_or(Items::new(alloc));
    let of_movie = track_defaults(defaults, id);
    track_with(
        alloc,
        trak,
        trafs,
        base_data_offsets_with_id(base_data_offsets, id),
        of_movie,
    )
}

/// The tracks of a movie as `made_tracks` answers them, where these are the movie's defaults for samples of fragments.
fn tracks_with_defaults(
    alloc: Global,
    moov: &MoovBox,
    moofs: &[MoofBox],
    places: &[u64],
    defaults: &HashMap<u32, SampleDefaults>,
) -> Result<HashMap<u32, Mp4Track>>
    requires first_samples { HaveFirstSamples moov.now.traks }
    requires places { length places.now ≡ length moofs.now }
    requires defaults { (id : ℕ) → defaults_at defaults.now id ≡ movie_defaults moov.now id }
    ensures memory { IfErr result (λ e. e ≡ Error.OutOfMemory) }
    ensures tracks { IfOk result (λ m. AreTracks moov.now moofs.now places.now m) }
{
    let base_data_offsets = base_data_offsets_by_id(alloc, moofs, places, defaults)?;
    let mut fragments = fragments_by_id(alloc, moofs)?;
    let traks = moov.traks.as_slice();
    // A map that grew would leave its smaller ones behind it, each opening anew.
    let mut tracks = HashMap::with_capacity(alloc, traks.len())?;
    for index in (0..traks.len()).rev() {
        let trak = &traks[index];
        let id = trak.tkhd.track_id;
        if !has_track(&tracks, id) {
            let track = taken_track(alloc, trak, &mut fragments, &base_data_offsets, defaults)?;
            tracks.insert(id, track)?;
        }
    }
    Ok(tracks)
}

/// The tracks of a movie by their ids, each with its fragments, which begin at these places; of equal ids the last.
fn made_tracks(
    alloc: Global,
    moov: &MoovBox,
    moofs: &[MoofBox],
    places: &[u64],
) -> Result<HashMap<u32, Mp4Track>>
    requires first_samples { HaveFirstSamples moov.now.traks }
    requires places { length places.now ≡ length moofs.now }
    ensures memory { IfErr result (λ e. e ≡ Error.OutOfMemory) }
    ensures tracks { IfOk result (λ m. AreTracks moov.now moofs.now places.now m) }
{
    let defaults = defaults_by_id(alloc, trexs_of(&moov.mvex))?;
    tracks_with_defaults(alloc, moov, moofs, places, &defaults)
}

/// The tracks of a movie by their ids, each with its fragments, which begin at these places; of equal ids the last. The
/// indexes of each are made, once.
///
/// `InvalidData` where the id of a track is 0, then `TrakNotFound` for the first fragment in file order whose track
/// isn't there.
#[tactic(auto, unfolding(crate::specs::MovieTracks::id_fault))]
pub(crate) fn tracks_of(
    alloc: Global,
    moov: &MoovBox,
    moofs: &[MoofBox],
    places: &[u64],
) -> Result<HashMap<u32, Mp4Track>>
    requires first_samples { HaveFirstSamples moov.now.traks }
    requires places { length places.now ≡ length moofs.now }
    ensures fault { RefusedBy (id_fault moov.now moofs.now) result }
    ensures tracks { IfOk result (λ m. AreTracks moov.now moofs.now places.now m) }
{
    check_track_ids(moov.traks.as_slice())?;
    let tracks = made_tracks(alloc, moov, moofs, places)?;
    check_fragments(&tracks, moofs)?;
    Ok(tracks)
}
