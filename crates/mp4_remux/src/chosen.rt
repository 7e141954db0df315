//! Tracks of a movie that are kept.

ghost use Rattle.std.specs.Prelude.{◌≡◌, ◌↔◌, List, length, IfErr, IfOk, OnOk, IsTrue};
ghost use Rattle.mp4_media.specs.FileBoxes.{opened_movie};
ghost use Rattle.mp4_media.specs.MovieTracks.{AreTracks};
ghost use Rattle.mp4_remux.specs.Reads.{AreThere, SaysFirst};
ghost use Rattle.mp4_remux.specs.Remuxed.{ids_of, kept_of};

use mp4_media::{Movie, Result};
use std::alloc::{AllocError, Global};

/// The ids of all tracks, in the order of their boxes.
pub(crate) fn all_ids(alloc: Global, movie: &Movie) -> std::result::Result<Vec<u32>, AllocError>
    ensures ids { IfOk result (λ ids. ids.items ≡ ids_of movie.now.moov) }
{
    let traks = movie.moov.traks.as_slice();
    let mut all = Vec::with_capacity(alloc, traks.len())?;
    for i in 0..traks.len() {
        all.push(traks[i].tkhd.track_id)?;
    }
    Ok(all)
}

/// Those of the ids that are among these, in their order.
fn kept_of(alloc: Global, all: &[u32], ids: &[u32]) -> std::result::Result<Vec<u32>, AllocError>
    ensures ids { IfOk result (λ kept. kept.items ≡ kept_of ids.now all.now) }
{
    let mut kept = Vec::new(alloc);
    for i in 0..all.len() {
        let id = all[i];
        if !ids.contains(&id) {
            continue;
        }
        kept.push(id)?;
    }
    Ok(kept)
}

/// Checks that a movie has tracks with these ids. `TrakNotFound` where one isn't there.
fn check_ids(movie: &Movie, ids: &[u32]) -> Result<()>
    requires { AreTracks movie.now.moov movie.now.moofs movie.now.moof_places movie.now.tracks }
    ensures there { OnOk result (AreThere (opened_movie movie.now) ids.now) }
    ensures missing { IfErr result (SaysFirst (opened_movie movie.now) ids.now) }
{
    let mut i = 0;
    while i < ids.len() {
        movie.track(ids[i])?;
        i += 1;
    }
    Ok(())
}

/// Those of all ids of a movie that are to be kept, in their order. `TrakNotFound` where one isn't there.
pub(crate) fn kept_ids(alloc: Global, movie: &Movie, all: &[u32], ids: &[u32]) -> Result<Vec<u32>>
    requires { AreTracks movie.now.moov movie.now.moofs movie.now.moof_places movie.now.tracks }
    ensures there { OnOk result (AreThere (opened_movie movie.now) ids.now) }
    ensures ids { IfOk result (λ kept. kept.items ≡ kept_of ids.now all.now) }
    ensures missing { IfErr result (SaysFirst (opened_movie movie.now) ids.now) }
{
    check_ids(movie, ids)?;
    Ok(kept_of(alloc, all, ids)?)
}
