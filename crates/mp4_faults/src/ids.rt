//! The ids of tracks and of their fragments (ISO/IEC 14496-12, 8.3.2 and 8.8.7).

ghost use Rattle.std.specs.Prelude.{◌≡◌, ◌<◌, ◌^◌, ℕ, IfOk, IfSome};
ghost use Rattle.mp4_faults.specs.Ids.{FindsZero, FindsUnknown, FindsUnknownIn, IsFew, AnswersIds, known_in, has_id};

use mp4_boxes::{MoovBox, TrakBox};
use mp4_codec::Result;
use mp4_moof::{MoofBox, TrafBox};
use std::alloc::{AllocError, Global};
use std::collections::HashSet;

/// A wrong id.
#[derive(Drop)]
pub(crate) enum IdFault {
    /// The track at this index of the movie has the id 0.
    Track(usize),
    /// The track fragment at the second index, of the movie fragment at the first, is of a track that isn't there.
    Fragment(usize, usize, u32),
}

/// The ids of these tracks.
fn ids_of(alloc: Global, traks: &[TrakBox]) -> std::result::Result<HashSet<u32>, AllocError>
    ensures { IfOk result (λ ids. (id : ℕ) → has_id ids id ≡ known_in traks.now id) }
{
    let mut ids = HashSet::new(alloc);
    for trak in traks {
        ids.insert(trak.tkhd.track_id)?;
    }
    Ok(ids)
}

/// Whether this id is one of these.
fn is_known(ids: &HashSet<u32>, id: u32) -> bool
    ensures { result ≡ has_id ids.now id }
{
    ids.contains(&id)
}

/// The index of the first track whose id is 0.
fn zero_id(traks: &[TrakBox]) -> Option<usize>
    ensures first { FindsZero traks.now result }
    ensures few { IfSome result (λ index. index < 2 ^ 63) }
{
    for (index, trak) in traks.iter().enumerate() {
        if trak.tkhd.track_id == 0 {
            return Some(index);
        }
    }
    None
}

/// The index of the first track fragment whose track's id is none of these, and that id.
fn unknown_traf(ids: &HashSet<u32>, trafs: &[TrafBox]) -> Option<(usize, u32)>
    ensures first { FindsUnknown (has_id ids.now) trafs.now result }
    ensures few { IfSome result (λ x. x.0 < 2 ^ 63) }
{
    for (index, traf) in trafs.iter().enumerate() {
        if !is_known(ids, traf.tfhd.track_id) {
            return Some((index, traf.tfhd.track_id));
        }
    }
    None
}

/// The first track fragment, in file order, whose track's id is none of these: the index of its movie fragment, its
/// own index in that, and that id.
fn unknown_id(ids: &HashSet<u32>, moofs: &[MoofBox]) -> Option<(usize, usize, u32)>
    ensures first { FindsUnknownIn (has_id ids.now) moofs.now result }
    ensures few { IfSome result (λ x. (x.0 < 2 ^ 63) × (x.1 < 2 ^ 63)) }
{
    for (index, moof) in moofs.iter().enumerate() {
        if let Some((traf, id)) = unknown_traf(ids, moof.trafs.as_slice()) {
            return Some((index, traf, id));
        }
    }
    None
}

/// The first wrong id of a movie and its fragments: those of the tracks come first. Each track and each track fragment
/// is looked at once.
pub(crate) fn id_fault(alloc: Global, moov: &MoovBox, moofs: &[MoofBox]) -> Result<Option<IdFault>>
    ensures first { AnswersIds moov.now moofs.now result }
    ensures few { IfOk result (λ told. IfSome told IsFew) }
{
    if let Some(index) = zero_id(moov.traks.as_slice()) {
        return Ok(Some(IdFault::Track(index)));
    }
    let ids = ids_of(alloc, moov.traks.as_slice())?;
    match unknown_id(&ids, moofs) {
        Some((moof, traf, id)) => Ok(Some(IdFault::Fragment(moof, traf, id))),
        None => Ok(None),
    }
}
