//! What most tables are: version and flags, and entries with their count before them.

ghost use Rattle.std.specs.Prelude.{◌≡◌, ◌^◌, ◌<◌, length, OnOk};
ghost use Rattle.mp4_codec.specs.Cause.{Answers};
ghost use Rattle.mp4_codec.specs.Boxes.{size_around};
ghost use Rattle.mp4_codec.specs.Bytes.{Appends};
ghost use Rattle.mp4_table.specs.Table.{table_of, table};
ghost use Rattle.mp4_codec.specs.Early.{Shows, refused_at_once};

use mp4_codec::{
    Entry, Fields, Items, Put, Result, SharedItem, SharedItems, list_size, put_list, put_u8,
    put_u24, put_u32,
};
use std::alloc::Global;

/// The version, the flags and the entries of a payload. What refuses it is found before memory is requested.
#[tactic(auto, unfolding(crate::specs::Table::table_of))]
pub(crate) fn read_entries<T: Entry>(alloc: Global, payload: &[u8]) -> Result<(u8, u32, Items<T>)>
    ensures value { Answers (λ table. table) result (table_of T.at payload.now) }
    ensures early { Shows (refused_at_once (table_of T.at payload.now)) result }
{
    let mut fields = Fields::new(payload);
    let version = fields.u8()?;
    let flags = fields.u24()?;
    let count = fields.u32()?;
    let entries = fields.list(alloc, version, count as usize)?;
    Ok((version, flags, entries))
}

/// The same, with the entries in a list that copies share.
pub(crate) fn read_table<T: Entry + SharedItem + Drop>(
    alloc: Global,
    payload: &[u8],
) -> Result<(u8, u32, SharedItems<T>)>
    ensures value { Answers (λ table. table) result (table_of T.at payload.now) }
    ensures early { Shows (refused_at_once (table_of T.at payload.now)) result }
{
    let (version, flags, entries) = read_entries(alloc, payload)?;
    Ok((version, flags, SharedItems::from_items(entries)?))
}

/// Adds the payload of a table at the end of a buffer.
pub(crate) fn put_table<T: Entry>(out: &mut Vec<u8>, version: u8, flags: u32, entries: &[T]) -> Put
    requires { length entries.now < 2 ^ 32 }
    ensures { OnOk result (Appends out.old.items out.new.items (table T.encoded version flags entries.now)) }
{
    put_u8(out, version)?;
    put_u24(out, flags)?;
    put_u32(out, entries.len() as u32)?;
    put_list(out, version, entries)?;
    Ok(())
}

/// The bytes of a table's box, its header included; they stop at 2^64 - 1.
pub(crate) fn table_size<T: Entry>(version: u8, flags: u32, entries: &[T]) -> u64
    ensures { result ≡ size_around (table T.encoded version flags entries.now) }
{
    list_size(version, entries).saturating_add(16)
}
