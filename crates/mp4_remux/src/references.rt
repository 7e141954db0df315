//! References of a track that are written without those to tracks that are left out (ISO/IEC 14496-12, 8.3.3).

ghost use Rattle.std.specs.Prelude.{◌≡◌, ◌+◌, ◌<◌, ◌≤◌, ◌^◌, ◌++◌, ℕ, List, [], length, Some, IfErr, OnOk};
ghost use Rattle.std.specs.List.Sorted.{IsSorted};
ghost use Rattle.std.specs.Ordering.{nat_cmp};
ghost use Rattle.mp4_codec.specs.declared.error.Error.TheVariants.{TooLarge};
ghost use Rattle.mp4_codec.specs.declared.error.Limit.TheVariants.{BoxSize};
ghost use Rattle.mp4_remux.specs.Edit.{box_unless_empty, each_box, joined, reference_box, references_to};
ghost use Rattle.mp4_remux.specs.Edited.{IsHeader, IsWhyNone};

use crate::box_bytes::{BoxBytes, end_box, first_box};
use crate::left_out::contains_id;
use byteorder::{BigEndian, ByteOrder};
use mp4_codec::{Put, Result};

/// Adds the references, of four bytes each, that are to these tracks, the lowest id of which is first.
fn put_references_to(payload: &[u8], ids: &[u32], out: &mut Vec<u8>) -> Put
    requires { IsSorted nat_cmp ids.now }
    ensures { OnOk result (out.new.items ≡ out.old.items ++ references_to ids.now payload.now) }
{
    let mut rest = payload;
    while rest.len() >= 4 {
        let (reference, after) = rest.split_at(4);
        if contains_id(ids, BigEndian::read_u32(rest)) {
            out.extend_from_slice(reference)?;
        }
        rest = after;
    }
    Ok(())
}

/// Ends a box that was begun at this place of a buffer, with a header of so many bytes; where it is empty it is left
/// out.
fn end_unless_empty(out: &mut Vec<u8>, start: usize, header: usize) -> Result<()>
    requires { start + header ≤ length out.old.items }
    ensures added { OnOk result ((before head payload : List ℕ) → length before ≡ start → IsHeader head header
        → out.old.items ≡ before ++ (head ++ payload)
        → joined (Some before) (box_unless_empty head (Some payload)) ≡ Some out.new.items) }
    ensures refused { IfErr result (λ e. (e ≡ TooLarge BoxSize)
        × ((header < 16) × (start + 2 ^ 32 ≤ length out.old.items))) }
{
    if out.len() == start + header {
        out.truncate(start);
        return Ok(());
    }
    end_box(out, start, header)
}

/// Adds the references of one type that are to these tracks, the lowest id of which is first; nothing where none is.
fn put_kind(kind: &BoxBytes, ids: &[u32], out: &mut Vec<u8>) -> Result<()>
    requires sorted { IsSorted nat_cmp ids.now }
    requires header { IsHeader kind.now.header.now (length kind.now.header.now) }
    ensures added { OnOk result (joined (Some out.old.items)
        (reference_box ids.now kind.now.name kind.now.header.now kind.now.payload.now) ≡ Some out.new.items) }
    ensures refused { IfErr result
        (IsWhyNone (reference_box ids.now kind.now.name kind.now.header.now kind.now.payload.now)) }
{
    let start = out.len();
    out.extend_from_slice(kind.header)?;
    put_references_to(kind.payload, ids, out)?;
    end_unless_empty(out, start, kind.header.len())
}

/// Adds the references of each type that are to these tracks, the lowest id of which is first.
fn put_kinds(payload: &[u8], ids: &[u32], out: &mut Vec<u8>) -> Result<()>
    requires { IsSorted nat_cmp ids.now }
    ensures added { OnOk result (joined (Some out.old.items) (each_box (reference_box ids.now) (λ rest. []) payload.now)
        ≡ Some out.new.items) }
    ensures refused { IfErr result (IsWhyNone (each_box (reference_box ids.now) (λ rest. []) payload.now)) }
{
    let mut rest = payload;
    while let Some(kind) = first_box(rest) {
        put_kind(&kind, ids, out)?;
        rest = kind.after;
    }
    Ok(())
}

/// Adds a `tref` with the references that are to these tracks, the lowest id of which is first; nothing where none is.
pub(crate) fn put_references(one: &BoxBytes, ids: &[u32], out: &mut Vec<u8>) -> Result<()>
    requires sorted { IsSorted nat_cmp ids.now }
    requires header { IsHeader one.now.header.now (length one.now.header.now) }
    ensures added { OnOk result (joined (Some out.old.items)
        (box_unless_empty one.now.header.now (each_box (reference_box ids.now) (λ rest. []) one.now.payload.now))
        ≡ Some out.new.items) }
    ensures refused { IfErr result (IsWhyNone
        (box_unless_empty one.now.header.now (each_box (reference_box ids.now) (λ rest. []) one.now.payload.now))) }
{
    let start = out.len();
    out.extend_from_slice(one.header)?;
    put_kinds(one.payload, ids, out)?;
    end_unless_empty(out, start, one.header.len())
}
