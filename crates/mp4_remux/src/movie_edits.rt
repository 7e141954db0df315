//! What becomes of the movie box of a movie of some tracks, or whose fragments are gathered.

ghost use Rattle.std.specs.Prelude.{◌≡◌, ◌<◌, ◌+◌, ◌-◌, ◌^◌, ◌∷◌, ℕ, List, [], None};
ghost use Rattle.std.specs.Prelude.{IfSome, IfErr, IfOk, IsTrue, IsFalse, option_map, true, vec_items};
ghost use Rattle.std.specs.List.Sorted.{IsPermutation, IsSorted};
ghost use Rattle.std.specs.Ordering.{nat_cmp};
ghost use Rattle.mp4_media.specs.FileBoxes.{opened_movie};
ghost use Rattle.mp4_media.specs.MovieTracks.{AreTracks};
ghost use Rattle.mp4_remux.specs.Caused.{CausedBy};
ghost use Rattle.mp4_remux.specs.Edited.{HasSortedIds};
ghost use Rattle.mp4_remux.specs.Errors.{of_layout};
ghost use Rattle.mp4_remux.specs.Headers.{has_tables, made_of};
ghost use Rattle.mp4_remux.specs.Moved.{IsBy};
ghost use Rattle.mp4_remux.specs.Named.{IsWhy};
ghost use Rattle.mp4_remux.specs.PlannedRebuilt.{AreIdsLeft, AreTrackEdits};
ghost use Rattle.mp4_remux.specs.PlannedRebuilt.{IsRebuildEdit, IsTrackEdit, IsUnmade};
ghost use Rattle.mp4_remux.specs.PlannedRebuilt.{longest_after, time_after};
ghost use Rattle.mp4_remux.specs.References.{contains_id};
ghost use Rattle.mp4_remux.specs.TrackTables.{IsWhyNoTables};
ghost use Rattle.mp4_remux.specs.declared.made.Made.TheVariants.{Tables};

use crate::edits::shown_time;
use crate::layout_error::LayoutError;
use crate::left_out::contains_id;
use crate::made::Made;
use crate::moves::Moves;
use crate::movie_box::{MadeTrack, MovieEdit, TrackEdit};
use crate::track_tables::tables_of;
use mp4_boxes::TrakBox;
use mp4_media::Movie;
use std::alloc::{AllocError, Global};

/// Whether samples of the movie are or may be in fragments.
pub(crate) fn has_fragments(movie: &Movie) -> bool
    ensures tables { result ≡ has_tables (made_of (opened_movie movie.now)) }
    ensures none { IsFalse result → (movie.now.moofs ≡ []) × (movie.now.moov.mvex ≡ None) }
    ensures some { IsTrue result → made_of (opened_movie movie.now) ≡ Tables }
{
    movie.is_fragmented() || movie.moov.mvex.is_some()
}

/// What is made anew where tracks are chosen.
pub(crate) fn made_of(movie: &Movie) -> Made
    ensures { result ≡ made_of (opened_movie movie.now) }
{
    if has_fragments(movie) {
        return Made::Tables;
    }
    Made::Tracks
}

/// What becomes of a track of a movie of which these are kept, the lowest id first, and their data is moved so: its
/// tables are made where the movie may have fragments.
fn track_edit(
    alloc: Global,
    movie: &Movie,
    trak: &TrakBox,
    sorted: &[u32],
    moves: &Moves,
    most: u32,
) -> Result<TrackEdit, LayoutError>
    requires most { most < 2 ^ 32 - 1 }
    requires tracks { AreTracks movie.now.moov movie.now.moofs movie.now.moof_places movie.now.tracks }
    requires sorted { IsSorted nat_cmp sorted.now }
    ensures edit { (to : ℕ → ℕ) → IsBy moves.now to
        → IfOk result (IsTrackEdit (opened_movie movie.now) to sorted.now trak.now) }
    ensures kept { IfErr result (λ e. contains_id sorted.now trak.now.tkhd.track_id ≡ true) }
    ensures why { IfErr result (IsWhy (trak.now.tkhd.track_id ∷ []) most (opened_movie movie.now)) }
    ensures unmade { (to : ℕ → ℕ) → IsBy moves.now to → IfErr result (λ e. CausedBy
        (IsWhyNoTables (opened_movie movie.now) trak.now.tkhd.track_id to) ⊥ (of_layout e)) }
{
    if !contains_id(sorted, trak.tkhd.track_id) {
        return Ok(TrackEdit::Dropped);
    }
    if !has_fragments(movie) {
        return Ok(TrackEdit::Moved);
    }
    let tables = tables_of(alloc, movie, trak.tkhd.track_id, moves, most)?;
    let shown = shown_time(trak, tables.duration, movie.timescale());
    Ok(TrackEdit::Made(MadeTrack { tables, shown }))
}

/// What becomes of each track so, in the order of their boxes.
fn track_edits(
    alloc: Global,
    movie: &Movie,
    sorted: &[u32],
    moves: &Moves,
    most: u32,
) -> Result<Vec<TrackEdit>, LayoutError>
    requires most { most < 2 ^ 32 - 1 }
    requires tracks { AreTracks movie.now.moov movie.now.moofs movie.now.moof_places movie.now.tracks }
    requires sorted { IsSorted nat_cmp sorted.now }
    ensures edits { (to : ℕ → ℕ) → IsBy moves.now to → (ids : List ℕ) → IsPermutation ids sorted.now
        → IfOk result (λ edits. AreTrackEdits (opened_movie movie.now) to ids movie.now.moov.traks edits.items) }
    ensures why { (ids : List ℕ) → IsPermutation ids sorted.now
        → IfErr result (IsWhy ids most (opened_movie movie.now)) }
    ensures unmade { (to : ℕ → ℕ) → IsBy moves.now to → (ids : List ℕ) → IsPermutation ids sorted.now
        → IfErr result (λ e. CausedBy (IsUnmade (opened_movie movie.now) ids to) ⊥ (of_layout e)) }
{
    let traks = movie.moov.traks.as_slice();
    let mut edits = Vec::new(alloc);
    for i in 0..traks.len() {
        let edit = track_edit(alloc, movie, &traks[i], sorted, moves, most)?;
        edits.push(edit)?;
    }
    Ok(edits)
}

/// How long a track is then, in ticks of the movie.
fn time_after(trak: &TrakBox, edit: &TrackEdit) -> u64
    ensures { result ≡ time_after trak.now edit.now }
{
    match edit {
        TrackEdit::Dropped => 0,
        TrackEdit::Moved => trak.tkhd.duration,
        TrackEdit::Made(made) => made.shown.total,
    }
}

/// How long the longest of these tracks is then, in ticks of the movie.
fn longest_after(traks: &[TrakBox], edits: &[TrackEdit]) -> u64
    ensures { result ≡ longest_after traks.now edits.now }
{
    let mut longest = 0;
    let mut i = 0;
    while i < traks.len() && i < edits.len() {
        longest = time_after(&traks[i], &edits[i]).max(longest);
        i += 1;
    }
    longest
}

/// The tracks to which references stay, the lowest id first, where some don't.
fn ids_left(
    alloc: Global,
    sorted: &[u32],
    leaves_some: bool,
) -> Result<Option<Vec<u32>>, AllocError>
    requires { IsSorted nat_cmp sorted.now }
    ensures left { (ids : List ℕ) → IsPermutation ids sorted.now
        → IfOk result (λ left. AreIdsLeft leaves_some ids (option_map vec_items left)) }
    ensures sorted { IfOk result (λ left. IfSome left (λ ids. IsSorted nat_cmp ids.items)) }
{
    if !leaves_some {
        return Ok(None);
    }
    let mut ids = Vec::with_capacity(alloc, sorted.len())?;
    ids.extend_from_slice(sorted)?;
    Ok(Some(ids))
}

/// What becomes of the movie box of a movie of which these tracks are kept, the lowest id first, and their data is
/// moved so.
pub(crate) fn edit_of(
    alloc: Global,
    movie: &Movie,
    sorted: &[u32],
    moves: &Moves,
    most: u32,
) -> Result<MovieEdit, LayoutError>
    requires most { most < 2 ^ 32 - 1 }
    requires tracks { AreTracks movie.now.moov movie.now.moofs movie.now.moof_places movie.now.tracks }
    requires sorted { IsSorted nat_cmp sorted.now }
    ensures edit { (to : ℕ → ℕ) → IsBy moves.now to → (ids : List ℕ) → IsPermutation ids sorted.now
        → IfOk result (IsRebuildEdit (opened_movie movie.now) to ids) }
    ensures sorted { IfOk result HasSortedIds }
    ensures why { (ids : List ℕ) → IsPermutation ids sorted.now
        → IfErr result (IsWhy ids most (opened_movie movie.now)) }
    ensures unmade { (to : ℕ → ℕ) → IsBy moves.now to → (ids : List ℕ) → IsPermutation ids sorted.now
        → IfErr result (λ e. CausedBy (IsUnmade (opened_movie movie.now) ids to) ⊥ (of_layout e)) }
{
    let traks = movie.moov.traks.as_slice();
    let tracks = track_edits(alloc, movie, sorted, moves, most)?;
    let duration = longest_after(traks, &tracks);
    let ids = ids_left(alloc, sorted, sorted.len() < traks.len())?;
    Ok(MovieEdit {
        tracks,
        duration: Some(duration),
        ids,
        is_gathered: has_fragments(movie),
    })
}
