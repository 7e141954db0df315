//! The layout of a movie of some tracks, or whose fragments are gathered.

ghost use Rattle.std.specs.Prelude.{◌≡◌, ◌≤◌, ◌<◌, ◌+◌, ◌-◌, ◌^◌, ◌++◌, ℕ, List, [], length, map, None};
ghost use Rattle.std.specs.Prelude.{IfErr, IfOk, OnOk};
ghost use Rattle.std.specs.List.{All, filter, sum_by};
ghost use Rattle.std.specs.List.Sorted.{IsPermutation, IsSorted};
ghost use Rattle.std.specs.Ordering.{nat_cmp};
ghost use Rattle.mp4_media.specs.FileBoxes.{opened_movie};
ghost use Rattle.mp4_media.specs.FileGrammar.{between};
ghost use Rattle.mp4_media.specs.MovieTracks.{AreTracks};
ghost use Rattle.mp4_remux.specs.Data.{AreClosedUp, data_header, data_len};
ghost use Rattle.mp4_remux.specs.Edited.{HasSortedIds};
ghost use Rattle.mp4_remux.specs.Errors.{of_layout};
ghost use Rattle.mp4_remux.specs.Frames.{IsFrame};
ghost use Rattle.mp4_remux.specs.Gathered.{BeginsWith};
ghost use Rattle.mp4_remux.specs.Headers.{has_tables, made_of};
ghost use Rattle.mp4_remux.specs.Named.{IsWhy, SaysNone};
ghost use Rattle.mp4_remux.specs.PlannedRebuilt.{FitsIn, IsNowhereEdited, IsPlannedData};
ghost use Rattle.mp4_remux.specs.PlannedRebuilt.{IsPlannedRebuilt, IsSettled};
ghost use Rattle.mp4_remux.specs.PlannedRebuilt.{IsUnplannedData, IsWhyUnplanned};
ghost use Rattle.mp4_remux.specs.PlannedRebuilt.{rebuilt_stretches, staying_of};
ghost use Rattle.mp4_remux.specs.Remuxed.{ids_of};
ghost use Rattle.mp4_remux.specs.Splice.{Follow, has_bytes, kept_stretch, spliced, stretch_len, stretch_of};
ghost use Rattle.mp4_remux.specs.Why.{most_samples};
ghost use Rattle.mp4_remux.specs.declared.data.Extent.{Extent};

use crate::data::{Extent, closed_up, data_of, len_of};
use crate::frame::Frame;
use crate::layout::Layout;
use crate::layout_error::LayoutError;
use crate::made::Keeps;
use crate::moves::{Move, Moves};
use crate::movie_box::{MovieEdit, edited};
use crate::movie_edits::edit_of;
use crate::piece::{Origin, Piece};
use crate::piece_list::push_piece;
use crate::same::most_samples;
use crate::settled::settled_len;
use crate::top_level::TopBox;
use mp4_codec::{BoxType, Error, HEADER_SIZE, Put, put_u32, put_u64};
use mp4_media::Movie;
use std::alloc::{AllocError, Global};

/// The header of a box of so much data; none where there is no data (ISO/IEC 14496-12, 4.2 and 8.1.1).
fn data_header(alloc: Global, len: u64) -> Result<Vec<u8>, AllocError>
    ensures { IfOk result (λ header. header.items ≡ data_header len) }
{
    let mut header = Vec::new(alloc);
    if len == 0 {
        return Ok(header);
    }
    let Ok(size) = u32::try_from(len.saturating_add(HEADER_SIZE)) else {
        put_u32(&mut header, 1)?;
        put_u32(&mut header, u32::from(BoxType::MdatBox))?;
        put_u64(&mut header, len.saturating_add(2 * HEADER_SIZE))?;
        return Ok(header);
    };
    put_u32(&mut header, size)?;
    put_u32(&mut header, u32::from(BoxType::MdatBox))?;
    Ok(header)
}

/// Adds the bytes of these boxes of the file.
fn push_boxes(pieces: &mut Vec<Piece>, boxes: &[TopBox]) -> Put
    ensures more { OnOk result ((source made : List ℕ) → (more : List ℕ)
        × (spliced source made pieces.new.items ≡ spliced source made pieces.old.items ++ more)) }
    ensures stretches { OnOk result (map stretch_of pieces.new.items ≡ map stretch_of pieces.old.items
        ++ filter has_bytes (map (λ b. kept_stretch b.place b.end) boxes.now)) }
    ensures follow { OnOk result ((source_len made_len before : ℕ) → All (λ b. b.end ≤ source_len) boxes.now
        → before + sum_by (λ b. b.end - b.place) boxes.now < 2 ^ 64
        → Follow source_len made_len 0 pieces.old.items before
        → Follow source_len made_len 0 pieces.new.items (before + sum_by (λ b. b.end - b.place) boxes.now)) }
{
    for i in 0..boxes.len() {
        push_piece(pieces, Origin::Kept, boxes[i].place, boxes[i].end)?;
    }
    Ok(())
}

/// Adds these bytes of the file.
fn push_extents(pieces: &mut Vec<Piece>, extents: &[Extent]) -> Put
    ensures more { OnOk result ((source made : List ℕ) → (more : List ℕ)
        × (spliced source made pieces.new.items ≡ spliced source made pieces.old.items ++ more)) }
    ensures stretches { OnOk result (map stretch_of pieces.new.items ≡ map stretch_of pieces.old.items
        ++ filter has_bytes (map (λ e. kept_stretch e.place e.end) extents.now)) }
    ensures follow { OnOk result ((source_len made_len before : ℕ) → All (λ e. e.end ≤ source_len) extents.now
        → before + data_len extents.now < 2 ^ 64 → Follow source_len made_len 0 pieces.old.items before
        → Follow source_len made_len 0 pieces.new.items (before + data_len extents.now)) }
{
    for i in 0..extents.len() {
        push_piece(pieces, Origin::Kept, extents[i].place, extents[i].end)?;
    }
    Ok(())
}

/// The pieces of a file with its movie box of `movie_len` bytes after its file type, then the other boxes that stay,
/// and the data in one box.
fn data_pieces(
    alloc: Global,
    frame: &Frame,
    movie_len: u64,
    made_len: u64,
    extents: &[Extent],
) -> Result<Vec<Piece>, AllocError>
    ensures bytes { IfOk result (λ ps. (source made : List ℕ) → (rest : List ℕ) × (spliced source made ps.items
        ≡ between source frame.now.file_type.place frame.now.file_type.end ++ (between made 0 movie_len ++ rest))) }
    ensures stretches { IfOk result (λ ps. map stretch_of ps.items
        ≡ filter has_bytes (rebuilt_stretches frame.now movie_len made_len extents.now)) }
    ensures follow { IfOk result (λ ps. (source_len : ℕ) → frame.now.file_type.end ≤ source_len
        → All (λ b. b.end ≤ source_len) frame.now.others.items → All (λ e. e.end ≤ source_len) extents.now
        → movie_len ≤ made_len
        → sum_by stretch_len (rebuilt_stretches frame.now movie_len made_len extents.now) < 2 ^ 64
        → Follow source_len made_len 0 ps.items
        (sum_by stretch_len (rebuilt_stretches frame.now movie_len made_len extents.now))) }
{
    let mut pieces = Vec::new(alloc);
    let file_type = frame.file_type;
    push_piece(&mut pieces, Origin::Kept, file_type.place, file_type.end)?;
    push_piece(&mut pieces, Origin::Made, 0, movie_len)?;
    push_boxes(&mut pieces, &frame.others)?;
    push_piece(&mut pieces, Origin::Made, movie_len, made_len)?;
    push_extents(&mut pieces, extents)?;
    Ok(pieces)
}

/// The bytes of the movie box as it is edited where the data is moved by this list, and begins after that box, the
/// boxes that stay, and a header of so many bytes. Where it begins depends on how long the box is: a table that becomes
/// `co64` makes it longer, and then another may.
fn movie_by_rounds(
    alloc: Global,
    frame: &Frame,
    edit: &MovieEdit,
    list: &[Move],
    header_len: u64,
) -> Result<Vec<u8>, Error>
    requires closed { (extents : List Extent) × AreClosedUp extents list.now }
    requires sorted { HasSortedIds edit.now }
    ensures settled { (extents : List Extent) → AreClosedUp extents list.now
        → IfOk result (λ movie. IsSettled edit.now frame.now extents header_len movie.items) }
    ensures refused { (extents : List Extent) → AreClosedUp extents list.now
        → IfErr result (IsNowhereEdited edit.now frame.now extents) }
{
    let mut movie_len = 0;
    loop {
        let base = frame.data_begin(movie_len, header_len);
        let moves = Moves::Listed { list, base };
        let movie = edited(alloc, &frame.movie_bytes, edit, &moves)?;
        if movie.len() as u64 == movie_len {
            return Ok(movie);
        }
        movie_len = movie.len() as u64;
    }
}

/// How many bytes the movie box has then, as it is reckoned.
fn reckoned_len(
    alloc: Global,
    frame: &Frame,
    edit: &MovieEdit,
    list: &[Move],
    header_len: u64,
) -> Result<u64, Error>
    requires { HasSortedIds edit.now }
{
    let nowhere = Moves::Listed { list: &[], base: 0 };
    let narrow = edited(alloc, &frame.movie_bytes, edit, &nowhere)?;
    let base = frame.data_begin(0, header_len);
    let alone = Moves::Listed { list, base };
    let len = settled_len(alloc, &frame.movie_bytes, edit, &alone, narrow.len() as u64)?;
    Ok(len)
}

/// The same, by one round where that length is reckoned first: tables that become `co64` one after the other would
/// take a round each.
fn settled_movie(
    alloc: Global,
    frame: &Frame,
    edit: &MovieEdit,
    list: &[Move],
    header_len: u64,
) -> Result<Vec<u8>, Error>
    requires closed { (extents : List Extent) × AreClosedUp extents list.now }
    requires sorted { HasSortedIds edit.now }
    ensures settled { (extents : List Extent) → AreClosedUp extents list.now
        → IfOk result (λ movie. IsSettled edit.now frame.now extents header_len movie.items) }
    ensures refused { (extents : List Extent) → AreClosedUp extents list.now
        → IfErr result (IsNowhereEdited edit.now frame.now extents) }
{
    let Ok(movie_len) = reckoned_len(alloc, frame, edit, list, header_len) else {
        return movie_by_rounds(alloc, frame, edit, list, header_len);
    };
    let base = frame.data_begin(movie_len, header_len);
    let moves = Moves::Listed { list, base };
    let movie = edited(alloc, &frame.movie_bytes, edit, &moves)?;
    if movie.len() as u64 == movie_len {
        return Ok(movie);
    }
    movie_by_rounds(alloc, frame, edit, list, header_len)
}

/// The bytes of the movie box and of the header of the data, and the pieces of their file. `OtherTracks` where the
/// movie box has other references than those that stay.
fn plan_data(
    alloc: Global,
    frame: &Frame,
    edit: &MovieEdit,
    extents: &[Extent],
    list: &[Move],
    keeps: &Keeps,
) -> Result<(Vec<u8>, Vec<Piece>), LayoutError>
    requires closed { AreClosedUp extents.now list.now }
    requires few { data_len extents.now < 2 ^ 64 }
    requires sorted { HasSortedIds edit.now }
    ensures planned { IfOk result (λ x. IsPlannedData edit.now frame.now extents.now keeps.now.ids.now
        keeps.now.references.now x.0.items x.1.items) }
    ensures follow { IfOk result (λ x. (source_len : ℕ) → FitsIn source_len frame.now extents.now
        → (movie : List ℕ) → x.0.items ≡ movie ++ data_header (data_len extents.now)
        → sum_by stretch_len (rebuilt_stretches frame.now (length movie) (length x.0.items) extents.now) < 2 ^ 64
        → Follow source_len (length x.0.items) 0 x.1.items
        (sum_by stretch_len (rebuilt_stretches frame.now (length movie) (length x.0.items) extents.now))) }
    ensures why { IfErr result SaysNone }
    ensures unplanned { IfErr result (λ e. IsUnplannedData edit.now frame.now extents.now keeps.now.ids.now
        keeps.now.references.now (of_layout e)) }
{
    let header = data_header(alloc, len_of(extents))?;
    let mut made = settled_movie(alloc, frame, edit, list, header.len() as u64)?;
    if !keeps.has_references(alloc, &made)? {
        return Err(LayoutError::OtherTracks);
    }
    let movie_len = made.len() as u64;
    made.extend_from_slice(&header)?;
    let pieces = data_pieces(alloc, frame, movie_len, made.len() as u64, extents)?;
    Ok((made, pieces))
}

/// The layout of a movie of the tracks that are kept, whose ids these are too, the lowest first.
pub(crate) fn plan(
    alloc: Global,
    frame: &Frame,
    movie: &Movie,
    keeps: &Keeps,
    sorted: &[u32],
    len: u64,
) -> Result<Layout, LayoutError>
    requires tracks { AreTracks movie.now.moov movie.now.moofs movie.now.moof_places movie.now.tracks }
    requires sorted { IsSorted nat_cmp sorted.now }
    requires ids { IsPermutation keeps.now.ids.now sorted.now }
    ensures source_len { IfOk result (λ l. l.source_len ≡ len) }
    ensures begins { IfOk result (λ l. BeginsWith (made_of (opened_movie movie.now)) keeps.now.ids.now
        keeps.now.references.now frame.now.file_type frame.now.movie_bytes.items l.made.items l.pieces.items) }
    ensures planned { IfOk result (λ l. (before : List ℕ) → length before ≡ len
        → IsFrame before (has_tables (made_of (opened_movie movie.now))) frame.now
        → IsPlannedRebuilt before (opened_movie movie.now) keeps.now.ids.now l.made.items l.pieces.items) }
    ensures why { IfErr result (IsWhy keeps.now.ids.now (most_samples len) (opened_movie movie.now)) }
    ensures unplanned { IfErr result (λ e. (before : List ℕ) → length before ≡ len
        → IsFrame before (has_tables (made_of (opened_movie movie.now))) frame.now
        → keeps.now.references.now ≡ staying_of frame.now (ids_of movie.now.moov) keeps.now.ids.now
        → IsWhyUnplanned before (opened_movie movie.now) keeps.now.ids.now (of_layout e)) }
{
    let most = most_samples(len);
    let extents = data_of(alloc, movie, keeps.ids, len, most)?;
    let list = closed_up(alloc, &extents)?;
    let moves = Moves::Listed {
        list: &list,
        base: 0,
    };
    let edit = edit_of(alloc, movie, sorted, &moves, most)?;
    let (made, pieces) = plan_data(alloc, frame, &edit, &extents, &list, keeps)?;
    match Layout::new(len, made, pieces) {
        Some(layout) => Ok(layout),
        None => Err(LayoutError::OtherTracks),
    }
}
