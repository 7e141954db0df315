//! How long a movie box is in front of the data, where some of its tables of chunk offsets become longer.

ghost use Rattle.std.specs.Prelude.{◌≤◌};

use crate::box_bytes::{BoxBytes, first_box};
use crate::chunk_offsets::{OffsetWidth, entry_count};
use crate::moves::Moves;
use crate::movie_box::{MovieEdit, Step};
use crate::track_tables::MadeTables;
use byteorder::{BigEndian, ByteOrder};
use mp4_codec::{BoxType, Put};
use std::alloc::{AllocError, Global};

/// A table of chunk offsets of 32 bits.
#[derive(Debug, Clone, Copy)]
struct NarrowTable {
    /// How many bytes a movie box may have at most, so that none of the offsets passes 32 bits.
    most: u64,
    /// How many bytes more the table has where they have 64.
    more: u64,
}

/// What has to be known of a table of chunk offsets of 32 bits that is moved, as after a movie box of no bytes.
fn moved_table(one: &BoxBytes, moves: &Moves) -> NarrowTable {
    let count = entry_count(one.payload, OffsetWidth::Narrow);
    let mut most = u64::MAX;
    if one.payload.len() >= 8 {
        for entry in one.payload[8..].chunks_exact(4).take(count) {
            most = most.min(moves.most_len(u64::from(BigEndian::read_u32(entry))));
        }
    }
    NarrowTable {
        most,
        more: 4 * count as u64,
    }
}

/// What has to be known of a table that is made, where the data begins at this place after a movie box of no bytes;
/// none of one whose offsets have 64 bits wherever it begins.
fn made_table(tables: &MadeTables, base: u64) -> Option<NarrowTable> {
    let mut last: u64 = 0;
    for chunk in tables.chunks.as_slice() {
        last = last.max(*chunk);
    }
    if last > u64::from(u32::MAX) {
        return None;
    }
    Some(NarrowTable {
        most: u64::from(u32::MAX).saturating_sub(base.saturating_add(last)),
        more: 4 * tables.chunks.len() as u64,
    })
}

/// Adds what becomes of a box at this step.
fn push_table(one: &BoxBytes, step: Step, moves: &Moves, tables: &mut Vec<NarrowTable>) -> Put {
    match step {
        Step::Offsets(OffsetWidth::Narrow) => tables.push(moved_table(one, moves))?,
        Step::Tables(made) => {
            if let Some(table) = made_table(made, moves.base()) {
                tables.push(table)?;
            }
        }
        _ => {}
    }
    Ok(())
}

/// Adds the tables of chunk offsets of 32 bits that an edit moves or makes, of the boxes that these bytes hold, which
/// are at this level, in the track of this number or, at level 1, from it on.
fn push_tables(
    bytes: &[u8],
    level: usize,
    track: usize,
    edit: &MovieEdit,
    moves: &Moves,
    tables: &mut Vec<NarrowTable>,
) -> Put
    requires { level ≤ 5 }
{
    let mut rest = bytes;
    let mut track = track;
    while let Some(one) = first_box(rest) {
        match edit.step(level, one.name, track) {
            Step::Enter => push_tables(one.payload, level + 1, track, edit, moves, tables)?,
            step => push_table(&one, step, moves, tables)?,
        }
        if level == 1 && one.name == BoxType::TrakBox {
            track = track.saturating_add(1);
        }
        rest = one.after;
    }
    Ok(())
}

/// How many bytes a movie box has that is edited so, where the moves are those after one of no bytes: as many as it has
/// with all chunk offsets in 32 bits, `len`, and more for each table that becomes `co64` as the box passes what it may
/// have at most. Each table is looked at once, those first that can have the fewest.
pub(crate) fn settled_len(
    alloc: Global,
    movie_bytes: &[u8],
    edit: &MovieEdit,
    moves: &Moves,
    len: u64,
) -> Result<u64, AllocError> {
    let mut tables = Vec::new(alloc);
    push_tables(movie_bytes, 0, 0, edit, moves, &mut tables)?;
    tables.sort_by_key(|table| table.most)?;
    let mut len = len;
    for table in tables.iter() {
        if len <= table.most {
            break;
        }
        len = len.saturating_add(table.more);
    }
    Ok(len)
}
