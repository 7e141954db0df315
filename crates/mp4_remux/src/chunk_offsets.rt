//! Tables of chunk offsets, with other offsets (ISO/IEC 14496-12, 8.7.5).

ghost use Rattle.std.specs.Prelude.{◌≡◌, ◌≤◌, ◌+◌, ◌*◌, ◌++◌, ◌||◌, ◌==◌, ℕ, length, Some, IfErr, OnOk};
ghost use Rattle.std.specs.List.{flat_map, list_any};
ghost use Rattle.byteorder.specs.Endian.{big_number};
ghost use Rattle.mp4_codec.specs.Bytes.{Appends};
ghost use Rattle.mp4_remux.specs.Edit.{joined, moved_box};
ghost use Rattle.mp4_remux.specs.Edited.{IsHeader, IsWhyNone};
ghost use Rattle.mp4_remux.specs.Moved.{IsBy, IsWhyNotMoved, entry_count, numbers_in, passes, size_of, wide_bytes};
ghost use Rattle.mp4_remux.specs.Moved.{wide_header};

use crate::box_bytes::{BoxBytes, end_box};
use crate::moves::Moves;
use byteorder::{BigEndian, ByteOrder};
use mp4_codec::{BoxType, Put, Result};

/// How wide the offsets of a table are.
#[derive(Debug, Clone, Copy)]
pub(crate) enum OffsetWidth {
    /// 32 bits, in a `stco`.
    Narrow,
    /// 64 bits, in a `co64`.
    Wide,
}

impl OffsetWidth {
    /// How many bytes an entry has.
    fn size(self) -> usize
        ensures { result ≡ size_of self }
    {
        match self {
            OffsetWidth::Narrow => 4,
            OffsetWidth::Wide => 8,
        }
    }

    /// Whether they have 64 bits.
    fn is_wide(self) -> bool
        ensures { result ≡ (size_of self == 8) }
    {
        match self {
            OffsetWidth::Narrow => false,
            OffsetWidth::Wide => true,
        }
    }

    /// The offset in the first entry of some.
    fn first(self, entries: &[u8]) -> u64
        requires { size_of self ≤ length entries.now }
        ensures { result ≡ big_number (size_of self) entries.now }
    {
        match self {
            OffsetWidth::Narrow => u64::from(BigEndian::read_u32(entries)),
            OffsetWidth::Wide => BigEndian::read_u64(entries),
        }
    }
}

/// How many entries a table has whole, of those that it counts after its version and flags.
pub(crate) fn entry_count(payload: &[u8], width: OffsetWidth) -> usize
    ensures { result ≡ entry_count (size_of width) payload.now }
{
    if payload.len() < 8 {
        return 0;
    }
    let counted = BigEndian::read_u32(&payload[4..]) as usize;
    counted.min((payload.len() - 8) / width.size())
}

/// Whether one of so many offsets passes 32 bits when all is moved.
fn needs_64_bits(entries: &[u8], count: usize, width: OffsetWidth, moves: &Moves) -> bool
    requires { count * size_of width ≤ length entries.now }
    ensures { (to : ℕ → ℕ) → IsBy moves.now to
        → result ≡ list_any (passes to) (numbers_in count (size_of width) entries.now) }
{
    let mut rest = entries;
    let mut left = count;
    while left > 0 {
        if moves.moved(width.first(rest)) > u64::from(u32::MAX) {
            return true;
        }
        rest = &rest[width.size()..];
        left -= 1;
    }
    false
}

/// Adds the header of a table, whose type is `co64` where the offsets have 64 bits.
fn put_type(header: &[u8], is_wide: bool, out: &mut Vec<u8>) -> Put
    requires { 8 ≤ length header.now }
    ensures { OnOk result (Appends out.old.items out.new.items (wide_header is_wide header.now)) }
{
    if !is_wide {
        return out.extend_from_slice(header);
    }
    out.extend_from_slice(&header[..4])?;
    out.extend_from_slice(&u32::from(BoxType::Co64Box).to_be_bytes())?;
    out.extend_from_slice(&header[8..])
}

/// Adds an offset, of 64 bits or of 32.
pub(crate) fn put_offset(offset: u64, is_wide: bool, out: &mut Vec<u8>) -> Put
    ensures { OnOk result (Appends out.old.items out.new.items (wide_bytes is_wide offset)) }
{
    let bytes = offset.to_be_bytes();
    if is_wide {
        return out.extend_from_slice(&bytes);
    }
    out.extend_from_slice(&bytes[4..])
}

/// Adds so many offsets as they are when all is moved.
fn put_offsets(
    entries: &[u8],
    count: usize,
    width: OffsetWidth,
    is_wide: bool,
    moves: &Moves,
    out: &mut Vec<u8>,
) -> Put
    requires { count * size_of width ≤ length entries.now }
    ensures { (to : ℕ → ℕ) → IsBy moves.now to → OnOk result (Appends out.old.items out.new.items
        (flat_map (λ offset. wide_bytes is_wide (to offset)) (numbers_in count (size_of width) entries.now))) }
{
    let mut rest = entries;
    let mut left = count;
    while left > 0 {
        put_offset(moves.moved(width.first(rest)), is_wide, out)?;
        rest = &rest[width.size()..];
        left -= 1;
    }
    Ok(())
}

/// Whether so many offsets have 64 bits when all is moved: they have, or one of them passes 32.
fn is_wide(entries: &[u8], count: usize, width: OffsetWidth, moves: &Moves) -> bool
    requires { count * size_of width ≤ length entries.now }
    ensures { (to : ℕ → ℕ) → IsBy moves.now to → result ≡ ((size_of width == 8)
        || list_any (passes to) (numbers_in count (size_of width) entries.now)) }
{
    width.is_wide() || needs_64_bits(entries, count, width, moves)
}

/// Adds a table of chunk offsets as they are when all is moved: `stco` becomes `co64` where one passes 32 bits.
pub(crate) fn put_table(
    table: &BoxBytes,
    width: OffsetWidth,
    moves: &Moves,
    out: &mut Vec<u8>,
) -> Result<()>
    requires long { 8 ≤ length table.now.header.now }
    requires header { IsHeader table.now.header.now (length table.now.header.now) }
    ensures added { (to : ℕ → ℕ) → IsBy moves.now to → OnOk result (joined (Some out.old.items)
        (moved_box to (size_of width) table.now.header.now table.now.payload.now) ≡ Some out.new.items) }
    ensures refused { (to : ℕ → ℕ) → IsBy moves.now to → IfErr result
        (IsWhyNone (moved_box to (size_of width) table.now.header.now table.now.payload.now)) }
    ensures large { (to : ℕ → ℕ) → IsBy moves.now to
        → IfErr result (IsWhyNotMoved (table.now.header.now ++ table.now.payload.now)) }
{
    let payload = table.payload;
    let count = entry_count(payload, width);
    let (fields, entries) = payload.split_at(payload.len().min(8));
    let is_wide = is_wide(entries, count, width, moves);
    let start = out.len();
    put_type(table.header, is_wide, out)?;
    out.extend_from_slice(fields)?;
    put_offsets(entries, count, width, is_wide, moves, out)?;
    out.extend_from_slice(&entries[count * width.size()..])?;
    end_box(out, start, table.header.len())
}
