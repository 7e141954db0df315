//! Boxes in a box: the children that are written at the end of a buffer.

ghost use Rattle.std.specs.Prelude.{◌≡◌, ◌-◌, ◌<◌, ◌^◌, min, length, OnOk};
ghost use Rattle.mp4_codec.specs.Cause.{Checks};
ghost use Rattle.mp4_codec.specs.Bytes.{Appends};
ghost use Rattle.mp4_codec.specs.Boxes.{optional, optional_refusal, all_box_bytes, all_refusal};

use crate::boxes::WriteBox;
use crate::error::Result;
use crate::put::Put;

/// Whether a child that may be missing can be written.
pub fn check_optional<B: WriteBox>(child: &Option<B>) -> Result<()>
    ensures { Checks result (optional_refusal B.refusal child.now) }
{
    match child {
        None => Ok(()),
        Some(b) => {
            b.check()?;
            Ok(())
        }
    }
}

/// Adds the box of a child that may be missing.
#[tactic(auto, using(crate::proofs::HasBoxes::boxes))]
pub fn put_optional<B: WriteBox>(out: &mut Vec<u8>, child: &Option<B>) -> Put
    requires { length (optional B.KIND B.payload child.now) < 2 ^ 32 }
    ensures { OnOk result (Appends out.old.items out.new.items (optional B.KIND B.payload child.now)) }
{
    match child {
        None => Ok(()),
        Some(b) => {
            b.put_box(out)?;
            Ok(())
        }
    }
}

/// The bytes of that box, 0 where it is missing; they stop at 2^64 - 1.
#[tactic(auto, using(crate::proofs::HasBoxes::boxes))]
pub fn optional_size<B: WriteBox>(child: &Option<B>) -> u64
    ensures { result ≡ min (length (optional B.KIND B.payload child.now)) (2 ^ 64 - 1) }
{
    match child {
        None => 0,
        Some(b) => b.box_size(),
    }
}

/// Whether each child of a list can be written: the first refusal in order.
pub fn check_all<B: WriteBox>(children: &[B]) -> Result<()>
    ensures { Checks result (all_refusal B.refusal children.now) }
{
    for child in children {
        child.check()?;
    }
    Ok(())
}

/// Adds the boxes of a list of children, one after the other.
pub fn put_all<B: WriteBox>(out: &mut Vec<u8>, children: &[B]) -> Put
    requires { length (all_box_bytes B.KIND B.payload children.now) < 2 ^ 32 }
    ensures { OnOk result (Appends out.old.items out.new.items (all_box_bytes B.KIND B.payload children.now)) }
{
    for child in children {
        child.put_box(out)?;
    }
    Ok(())
}

/// The bytes of those boxes; they stop at 2^64 - 1.
pub fn all_size<B: WriteBox>(children: &[B]) -> u64
    ensures { result ≡ min (length (all_box_bytes B.KIND B.payload children.now)) (2 ^ 64 - 1) }
{
    let mut size = 0u64;
    for child in children {
        size = size.saturating_add(child.box_size());
    }
    size
}
