//! What the fragments of a movie add to its tracks: the track fragments of each track, where the places of each count
//! from, and what the movie says of their samples (ISO/IEC 14496-12, 8.8).

ghost use Rattle.std.specs.Prelude.{◌≡◌, ℕ, [], ◌∷◌, ◌++◌, length, ◌==◌, if◌then◌else◌, IfOk, IfErr, OnOk};
ghost use Rattle.mp4_fragments.specs.BaseDataOffsets.{base_data_offsets_from, base_data_offsets_of, traf_ends};
ghost use Rattle.mp4_fragments.specs.declared.defaults.SampleDefaults.{SampleDefaults};
ghost use Rattle.mp4_media.specs.MovieTracks.{at_id, base_data_offsets_at, defaults_at, defaults_with_id, fragments_at};
ghost use Rattle.mp4_media.specs.MovieTracks.{own_base_data_offsets, track_base_data_offsets, trafs_in, trafs_of};
ghost use Rattle.mp4_media.specs.MovieTracks.{trexs_in};

use mp4_codec::{Error, Items, Result, TryClone};
use mp4_fragments::{SampleDefaults, counts_from_data_before, traf_base_data_offset, traf_end};
use mp4_moof::{MoofBox, MvexBox, TrafBox, TrexBox};
use std::alloc::{AllocError, Global};
use std::collections::HashMap;

/// Adds a copy of this fragment to those of its track.
fn add_traf(
    alloc: Global,
    fragments: &mut HashMap<u32, Items<TrafBox>>,
    traf: &TrafBox,
) -> Result<()>
    ensures memory { IfErr result (λ e. e ≡ Error.OutOfMemory) }
    ensures added { OnOk result
        ((id : ℕ) → fragments_at fragments.new id ≡ fragments_at fragments.old id ++ trafs_of (traf.now ∷ []) id) }
{
    let of_track = fragments
        .entry(traf.tfhd.track_id)?
        .or_insert(Items::new(alloc));
    let copy = traf.try_clone()?;
    of_track.push(copy)?;
    Ok(())
}

/// Adds a copy of each of these fragments to those of its track.
fn add_trafs(
    alloc: Global,
    fragments: &mut HashMap<u32, Items<TrafBox>>,
    trafs: &[TrafBox],
) -> Result<()>
    ensures memory { IfErr result (λ e. e ≡ Error.OutOfMemory) }
    ensures added { OnOk result
        ((id : ℕ) → fragments_at fragments.new id ≡ fragments_at fragments.old id ++ trafs_of trafs.now id) }
{
    for traf in trafs {
        add_traf(alloc, fragments, traf)?;
    }
    Ok(())
}

/// Copies of all fragments, for each track in file order.
pub(crate) fn fragments_by_id(
    alloc: Global,
    moofs: &[MoofBox],
) -> Result<HashMap<u32, Items<TrafBox>>>
    ensures memory { IfErr result (λ e. e ≡ Error.OutOfMemory) }
    ensures all { IfOk result (λ m. (id : ℕ) → fragments_at m id ≡ trafs_of (trafs_in moofs.now) id) }
{
    let mut fragments = HashMap::new(alloc);
    for moof in moofs {
        add_trafs(alloc, &mut fragments, moof.trafs.as_slice())?;
    }
    Ok(fragments)
}

/// What the movie says of the fragments of each track.
pub(crate) fn trexs_of(mvex: &Option<MvexBox>) -> &[TrexBox]
    ensures { result.now ≡ trexs_in mvex.now }
{
    match mvex {
        Some(mvex) => mvex.trexs.as_slice(),
        None => &[],
    }
}

/// What the movie says of the samples of fragments: the last defaults of each track.
pub(crate) fn defaults_by_id(
    alloc: Global,
    trexs: &[TrexBox],
) -> std::result::Result<HashMap<u32, SampleDefaults>, AllocError>
    ensures { IfOk result (λ m. (id : ℕ) → at_id m id ≡ defaults_with_id trexs.now id) }
{
    let mut defaults = HashMap::new(alloc);
    for trex in trexs {
        defaults.insert(trex.track_id, SampleDefaults::of_trex(trex))?;
    }
    Ok(defaults)
}

/// What is kept of these for the track with this id: 0 for all where there is nothing.
pub(crate) fn track_defaults(defaults: &HashMap<u32, SampleDefaults>, id: u32) -> SampleDefaults
    ensures { result ≡ defaults_at defaults.now id }
{
    defaults.get(&id).copied().unwrap_or(SampleDefaults::none())
}

/// Adds the base data offset of a track fragment to those of its track.
fn add_base_data_offset(
    alloc: Global,
    base_data_offsets: &mut HashMap<u32, Items<Option<u64>>>,
    id: u32,
    base_data_offset: Option<u64>,
) -> std::result::Result<(), AllocError>
    ensures { OnOk result ((other : ℕ)
        → base_data_offsets_at base_data_offsets.new other
        ≡ (if id == other then base_data_offsets_at base_data_offsets.old id ++ base_data_offset ∷ []
        else base_data_offsets_at base_data_offsets.old other)) }
{
    base_data_offsets
        .entry(id)?
        .or_insert(Items::new(alloc))
        .push(base_data_offset)?;
    Ok(())
}

/// Where the data of a track fragment ends, if the next one of its movie fragment counts from there; else nothing,
/// since the sizes of all its samples would be added up for it.
fn end_for_next(
    next: &[TrafBox],
    traf: &TrafBox,
    track: SampleDefaults,
    base_data_offset: Option<u64>,
) -> Option<u64>
    ensures { (defaults : ℕ → SampleDefaults) (moof : ℕ)
        → base_data_offsets_from defaults moof result next.now
        ≡ base_data_offsets_from defaults moof (traf_ends track base_data_offset traf.now) next.now }
{
    let Some(next) = next.first() else {
        return None;
    };
    if counts_from_data_before(next) {
        traf_end(traf, track, base_data_offset)
    } else {
        None
    }
}

/// Adds the base data offset of each of these track fragments, whose movie fragment begins at `moof`, to those of its
/// track.
fn add_base_data_offsets(
    alloc: Global,
    base_data_offsets: &mut HashMap<u32, Items<Option<u64>>>,
    defaults: &HashMap<u32, SampleDefaults>,
    moof: u64,
    trafs: &[TrafBox],
) -> std::result::Result<(), AllocError>
    ensures { OnOk result ((id : ℕ)
        → base_data_offsets_at base_data_offsets.new id ≡ base_data_offsets_at base_data_offsets.old id
        ++ own_base_data_offsets id trafs.now (base_data_offsets_of (defaults_at defaults.now) moof trafs.now)) }
{
    let mut before = Some(moof);
    for (i, traf) in trafs.iter().enumerate() {
        let id = traf.tfhd.track_id;
        let base_data_offset = traf_base_data_offset(traf, moof, before);
        add_base_data_offset(alloc, base_data_offsets, id, base_data_offset)?;
        before = end_for_next(
            &trafs[i + 1..],
            traf,
            track_defaults(defaults, id),
            base_data_offset,
        );
    }
    Ok(())
}

/// Where the places of all track fragments count from, for each track in file order, by one pass over all
/// fragments. Each fragment begins at its place.
pub(crate) fn base_data_offsets_by_id(
    alloc: Global,
    moofs: &[MoofBox],
    places: &[u64],
    defaults: &HashMap<u32, SampleDefaults>,
) -> std::result::Result<HashMap<u32, Items<Option<u64>>>, AllocError>
    requires { length places.now ≡ length moofs.now }
    ensures { IfOk result (λ m. (id : ℕ)
        → base_data_offsets_at m id ≡ track_base_data_offsets (defaults_at defaults.now) moofs.now places.now id) }
{
    let mut base_data_offsets = HashMap::new(alloc);
    for (i, moof) in moofs.iter().enumerate() {
        let place = places[i];
        add_base_data_offsets(
            alloc,
            &mut base_data_offsets,
            defaults,
            place,
            moof.trafs.as_slice(),
        )?;
    }
    Ok(base_data_offsets)
}

/// The base data offsets of the track with this id.
pub(crate) fn base_data_offsets_with_id(
    base_data_offsets: &HashMap<u32, Items<Option<u64>>>,
    id: u32,
) -> &[Option<u64>]
    ensures { result.now ≡ base_data_offsets_at base_data_offsets.now id }
{
    match base_data_offsets.get(&id) {
        Some(base_data_offsets) => base_data_offsets.as_slice(),
        None => &[],
    }
}
