//! The first fault of a box.

ghost use Rattle.mp4_faults.specs.BoxFault.{SaysFaultOfBox};

use crate::child::PlacedBox;
use crate::fault_place::FaultPlace;
use crate::innermost::innermost_fault;
use crate::refusal::refusal_of;
use mp4_codec::{BoxType, Items, Result};
use std::alloc::Global;

/// Where a payload is broken that is read as that of a box of this type: the steps to the innermost box that is at
/// fault, the place of that box's first byte, counted from the payload's first, and the error. `None` where it isn't
/// refused. The path is empty where the fault is the box's own, and the place is 0 then. `Err` is `OutOfMemory` alone.
pub fn first_fault_in(alloc: Global, name: BoxType, payload: &[u8]) -> Result<Option<FaultPlace>>
    ensures { SaysFaultOfBox name payload.now result }
{
    let Some(error) = refusal_of(alloc, name, payload)? else {
        return Ok(None);
    };
    let outermost = PlacedBox {
        name,
        place: 0,
        from: 0,
        payload,
    };
    let mut path = Items::new(alloc);
    let innermost = innermost_fault(alloc, outermost, &mut path)?;
    Ok(Some(FaultPlace {
        path,
        place: innermost.place,
        error,
    }))
}
