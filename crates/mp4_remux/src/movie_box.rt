//! A movie box in which tables, durations and tracks are others: all its other bytes stay.

ghost use Rattle.std.specs.Prelude.{◌≡◌, ◌+◌, ◌-◌, ◌^◌, ◌<◌, ◌≤◌, ◌++◌, ℕ, length, if◌then◌else◌, slice_get};
ghost use Rattle.std.specs.Prelude.{Some, option_copied, IfErr, IfOk, OnOk};
ghost use Rattle.mp4_codec.specs.declared.box_type.BoxType.TheVariants.{StsdBox};
ghost use Rattle.mp4_remux.specs.Edit.{change_of, last_edit, made_at, made_change, media_change, movie_change};
ghost use Rattle.mp4_remux.specs.Edit.{entered, kept, left_out, table_change, track_change, trak_change};
ghost use Rattle.mp4_remux.specs.Edit.{IsEditedAt, IsWhyNotEdited, changed_box, joined, tables_at, track_after};
ghost use Rattle.mp4_remux.specs.Edited.{AddsEdited, EntersAt, HasSorted, HasSortedIds, IsHeader, IsWhyNone};
ghost use Rattle.mp4_remux.specs.Edited.{IsWhyNotAdded, change_in};
ghost use Rattle.mp4_remux.specs.Moved.{IsBy, IsMovedAt, IsOfOffsets, IsUpToTwice, IsWhyNotMoved, base_of};
ghost use Rattle.mp4_remux.specs.declared.movie_box.Step.TheVariants.{Enter};
ghost use Rattle.mp4_remux.specs.declared.movie_box.MadeTrack.{MadeTrack};

use crate::box_bytes::{BoxBytes, end_box, first_box, put_whole};
use crate::chunk_offsets::{OffsetWidth, put_table};
use crate::edits::{ShownTime, put_edits};
use crate::header_box::put_header;
use crate::moves::Moves;
use crate::references::put_references;
use crate::track_tables::MadeTables;
use mp4_codec::{BoxType, Result};
use std::alloc::Global;

/// `tref`, where the references of a track to others are (8.3.3).
pub(crate) const REFERENCES: u32 = 0x7472_6566;

/// `stz2`, which has the sizes of samples in few bits (8.7.3.3).
const COMPACT_SIZES: u32 = 0x7374_7a32;

/// A track's tables that were made, and how long it is.
#[derive(Drop)]
pub(crate) struct MadeTrack {
    pub tables: MadeTables,
    pub shown: ShownTime,
}

/// What becomes of a track.
#[derive(Drop)]
pub(crate) enum TrackEdit {
    /// It is left out.
    Dropped,
    /// It has its tables, with other chunk offsets.
    Moved,
    /// It has these tables.
    Made(MadeTrack),
}

/// What is other in a movie box.
#[derive(Drop)]
pub(crate) struct MovieEdit {
    /// What becomes of each track, in the order of their boxes; of those past them nothing but their chunk offsets.
    pub tracks: Vec<TrackEdit>,
    /// How long the movie is, in ticks of it, where its header says another duration.
    pub duration: Option<u64>,
    /// The tracks to which references stay, the lowest id first, where some don't.
    pub ids: Option<Vec<u32>>,
    /// Whether nothing is said of fragments any more.
    pub is_gathered: bool,
}

/// What becomes of a box.
#[derive(Clone, Copy)]
pub(crate) enum Step<'a> {
    /// It stays as it is.
    Keep,
    /// It is left out.
    Drop,
    /// What it has in it is looked at.
    Enter,
    /// It is a table of chunk offsets of this width.
    Offsets(OffsetWidth),
    /// It is a header of the movie or of media, with this duration.
    Header(u64),
    /// It is a header of a track, with this duration.
    TrackHeader(u64),
    /// It is an `edts` whose last edit lasts so long.
    Edits(u64),
    /// It is a `tref`, of which the references to these tracks stay, the lowest id first.
    References(&'a [u32]),
    /// It stays, and these tables come after it.
    Tables(&'a MadeTables),
}

impl MovieEdit {
    /// Chunk offsets alone.
    pub fn of_offsets(alloc: Global) -> Self
        ensures { IsOfOffsets result }
    {
        MovieEdit {
            tracks: Vec::new(alloc),
            duration: None,
            ids: None,
            is_gathered: false,
        }
    }

    /// Whether a track is left out, by its number among the boxes, which counts from 0.
    fn is_dropped(&self, track: usize) -> bool
        ensures { trak_change (slice_get self.now.tracks.items track) ≡ (if result then left_out else entered) }
    {
        match self.tracks.get(track) {
            Some(TrackEdit::Dropped) => true,
            _ => false,
        }
    }

    /// What was made of a track, if its tables were.
    fn made(&self, track: usize) -> Option<&MadeTrack>
        ensures { option_copied result ≡ made_at self.now track }
    {
        match self.tracks.get(track) {
            Some(TrackEdit::Made(made)) => Some(made),
            _ => None,
        }
    }

    /// How long the last edit of a track is, where that is other than its edit list says.
    fn last_edit(&self, track: usize) -> Option<u64>
        ensures { result ≡ last_edit (made_at self.now track) }
    {
        match self.made(track) {
            Some(made) => made.shown.last,
            None => None,
        }
    }

    /// What becomes of a box in the movie box.
    fn movie_step(&self, name: BoxType, track: usize) -> Step<'_>
        ensures is { change_in result ≡ movie_change self.now name track }
        ensures enters { EntersAt 1 result }
        ensures sorted { HasSortedIds self.now → HasSorted result }
    {
        match name {
            BoxType::MvhdBox => match self.duration {
                Some(duration) => Step::Header(duration),
                None => Step::Keep,
            },
            BoxType::MvexBox if self.is_gathered => Step::Drop,
            BoxType::TrakBox if self.is_dropped(track) => Step::Drop,
            BoxType::TrakBox => Step::Enter,
            _ => Step::Keep,
        }
    }

    /// What becomes of a box in that of a track.
    fn track_step(&self, name: BoxType, track: usize) -> Step<'_>
        ensures is { change_in result ≡ track_change self.now name track }
        ensures enters { EntersAt 2 result }
        ensures sorted { HasSortedIds self.now → HasSorted result }
    {
        match name {
            BoxType::MdiaBox => Step::Enter,
            BoxType::TkhdBox => match self.made(track) {
                Some(made) => Step::TrackHeader(made.shown.total),
                None => Step::Keep,
            },
            BoxType::EdtsBox => match self.last_edit(track) {
                Some(last) => Step::Edits(last),
                None => Step::Keep,
            },
            _ => match &self.ids {
                Some(ids) if u32::from(name) == REFERENCES => Step::References(ids.as_slice()),
                _ => Step::Keep,
            },
        }
    }

    /// What becomes of a box in that of a track's media.
    fn media_step(&self, name: BoxType, track: usize) -> Step<'_>
        ensures is { change_in result ≡ media_change self.now name track }
        ensures enters { EntersAt 3 result }
        ensures sorted { HasSortedIds self.now → HasSorted result }
    {
        match name {
            BoxType::MinfBox => Step::Enter,
            BoxType::MdhdBox => match self.made(track) {
                Some(made) => Step::Header(made.tables.duration),
                None => Step::Keep,
            },
            _ => Step::Keep,
        }
    }

    /// What becomes of a box among a track's tables.
    fn table_step(&self, name: BoxType, track: usize) -> Step<'_>
        ensures is { change_in result ≡ table_change (made_at self.now track) name }
        ensures enters { EntersAt 5 result }
        ensures sorted { HasSortedIds self.now → HasSorted result }
    {
        match self.made(track) {
            Some(made) => match name {
                BoxType::StsdBox => Step::Tables(&made.tables),
                _ if is_table(name) => Step::Drop,
                _ => Step::Keep,
            },
            None => match name {
                BoxType::StcoBox => Step::Offsets(OffsetWidth::Narrow),
                BoxType::Co64Box => Step::Offsets(OffsetWidth::Wide),
                _ => Step::Keep,
            },
        }
    }

    /// What becomes of a box at this level, which is 0 for the movie box.
    #[tactic(auto, unfolding(crate::specs::Edit::change_of))]
    pub fn step(&self, level: usize, name: BoxType, track: usize) -> Step<'_>
        ensures is { change_in result ≡ change_of self.now level name track }
        ensures enters { EntersAt level result }
        ensures sorted { HasSortedIds self.now → HasSorted result }
    {
        match level {
            0 if name == BoxType::MoovBox => Step::Enter,
            1 => self.movie_step(name, track),
            2 => self.track_step(name, track),
            3 => self.media_step(name, track),
            4 if name == BoxType::StblBox => Step::Enter,
            5 => self.table_step(name, track),
            _ => Step::Keep,
        }
    }
}

/// Whether a box is one of the tables that are made.
fn is_table(name: BoxType) -> bool
    ensures { (m : MadeTrack) → (name ≡ StsdBox → ⊥) → made_change m name ≡ (if result then left_out else kept) }
{
    match name {
        BoxType::SttsBox
        | BoxType::CttsBox
        | BoxType::StssBox
        | BoxType::StscBox
        | BoxType::StszBox
        | BoxType::StcoBox
        | BoxType::Co64Box => true,
        _ => u32::from(name) == COMPACT_SIZES,
    }
}

/// Adds a box as it is, and after it these tables, of data that begins at this place.
fn put_with_tables(
    alloc: Global,
    one: &BoxBytes,
    tables: &MadeTables,
    base: u64,
    out: &mut Vec<u8>,
) -> Result<()>
    ensures added { OnOk result (joined (Some out.old.items)
        (joined (Some (one.now.header.now ++ one.now.payload.now)) (tables_at base tables.now)) ≡ Some out.new.items) }
    ensures refused { IfErr result
        (IsWhyNone (joined (Some (one.now.header.now ++ one.now.payload.now)) (tables_at base tables.now))) }
{
    put_whole(one, out)?;
    out.extend_from_slice(&tables.bytes)?;
    tables.put_offsets(alloc, base, out)?;
    Ok(())
}

/// Adds what becomes of a box that isn't entered.
#[tactic(auto, unfolding(crate::specs::Edit::changed_box))]
fn put_step(
    alloc: Global,
    one: &BoxBytes,
    step: Step,
    moves: &Moves,
    out: &mut Vec<u8>,
) -> Result<()>
    requires long { 8 ≤ length one.now.header.now }
    requires header { IsHeader one.now.header.now (length one.now.header.now) }
    requires sorted { HasSorted step }
    requires other { step ≡ Enter → ⊥ }
    ensures added { (to : ℕ → ℕ) → IsBy moves.now to → OnOk result (joined (Some out.old.items) (changed_box to
        (base_of moves.now) (change_in step.entry) one.now.header.now one.now.payload.now) ≡ Some out.new.items) }
    ensures refused { (to : ℕ → ℕ) → IsBy moves.now to → IfErr result (IsWhyNone (changed_box to
        (base_of moves.now) (change_in step.entry) one.now.header.now one.now.payload.now)) }
    ensures large { (to : ℕ → ℕ) → IsBy moves.now to
        → IfErr result (IsWhyNotAdded step.entry (one.now.header.now ++ one.now.payload.now)) }
{
    match step {
        Step::Keep | Step::Enter => Ok(put_whole(one, out)?),
        Step::Drop => Ok(()),
        Step::Offsets(width) => put_table(one, width, moves, out),
        Step::Header(duration) => put_header(one, 4, duration, out),
        Step::TrackHeader(duration) => put_header(one, 8, duration, out),
        Step::Edits(last) => put_edits(one, last, out),
        Step::References(ids) => put_references(one, ids, out),
        Step::Tables(tables) => put_with_tables(alloc, one, tables, moves.base(), out),
    }
}

/// How many tracks are before the next box at this level.
#[tactic(auto, unfolding(crate::specs::Edit::track_after))]
fn track_after(level: usize, name: BoxType, track: usize) -> usize
    requires { track < 2 ^ 64 - 1 }
    ensures { result ≡ track_after level name track }
{
    match name {
        BoxType::TrakBox if level == 1 => track + 1,
        _ => track,
    }
}

/// Adds what becomes of the boxes that these bytes hold, which are at this level, in the track of this number or, at
/// level 1, from it on; and the bytes after them.
fn put_boxes(
    alloc: Global,
    bytes: &[u8],
    level: usize,
    track: usize,
    edit: &MovieEdit,
    moves: &Moves,
    out: &mut Vec<u8>,
) -> Result<()>
    requires level { level ≤ 5 }
    requires track { track + length bytes.now < 2 ^ 64 }
    requires ids { HasSortedIds edit.now }
    ensures edited { (to : ℕ → ℕ) → IsBy moves.now to → OnOk result
        (AddsEdited edit.now to (base_of moves.now) level track bytes.now out.old.items out.new.items) }
    ensures refused { (to : ℕ → ℕ) → IsBy moves.now to
        → IfErr result (IsWhyNotEdited edit.now to (base_of moves.now) level track bytes.now) }
    ensures large { (to : ℕ → ℕ) → IsBy moves.now to → IsOfOffsets edit.now
        → IfErr result (IsWhyNotMoved bytes.now) }
{
    let mut rest = bytes;
    let mut track = track;
    while let Some(one) = first_box(rest) {
        match edit.step(level, one.name, track) {
            Step::Enter => {
                let start = out.len();
                out.extend_from_slice(one.header)?;
                put_boxes(alloc, one.payload, level + 1, track, edit, moves, out)?;
                end_box(out, start, one.header.len())?;
            }
            step => put_step(alloc, &one, step, moves, out)?,
        }
        track = track_after(level, one.name, track);
        rest = one.after;
    }
    out.extend_from_slice(rest)?;
    Ok(())
}

/// The bytes of a movie box as they become, where all is moved so.
pub(crate) fn edited(
    alloc: Global,
    movie: &[u8],
    edit: &MovieEdit,
    moves: &Moves,
) -> Result<Vec<u8>>
    requires { HasSortedIds edit.now }
    ensures edited { (to : ℕ → ℕ) → IsBy moves.now to
        → IfOk result (λ out. IsEditedAt edit.now to (base_of moves.now) 0 0 movie.now out.items) }
    ensures refused { (to : ℕ → ℕ) → IsBy moves.now to
        → IfErr result (IsWhyNotEdited edit.now to (base_of moves.now) 0 0 movie.now) }
    ensures moved { (to : ℕ → ℕ) → IsBy moves.now to → IsOfOffsets edit.now
        → IfOk result (λ out. IsMovedAt to 0 movie.now out.items) }
    ensures len { (to : ℕ → ℕ) → IsBy moves.now to → IsOfOffsets edit.now
        → IfOk result (λ out. IsUpToTwice movie.now out.items) }
    ensures large { (to : ℕ → ℕ) → IsBy moves.now to → IsOfOffsets edit.now
        → IfErr result (IsWhyNotMoved movie.now) }
{
    let mut out = Vec::with_capacity(alloc, movie.len())?;
    put_boxes(alloc, movie, 0, 0, edit, moves, &mut out)?;
    Ok(out)
}
