//! The innermost box that is at fault.

ghost use Rattle.std.specs.Prelude.{◌≡◌, ◌++◌, ◌+◌, ◌≤◌, ◌<◌, ◌^◌, List, length, IfOk, IfSome};
ghost use Rattle.std.specs.Prelude.{Some as some};
ghost use Rattle.mp4_codec.specs.Cause.{Cause};
ghost use Rattle.mp4_faults.specs.declared.fault_place.PathStep.{PathStep};
ghost use Rattle.mp4_faults.specs.ByChildren.{fault_with};
ghost use Rattle.mp4_faults.specs.Inner.{inner, as_child, end_of};
ghost use Rattle.mp4_faults.specs.Innermost.{step_after, FindsRefused, FindsFaulty, FindsInnermost};
ghost use Rattle.mp4_faults.specs.Refusal.{TellsFault, payload_fault};

use crate::child::{PlacedBox, child_at};
use crate::containers::{
    bytes_before_children, looks_at_first_alone, reads_child_with, reads_items,
};
use crate::fault_place::PathStep;
use crate::refusal::refusal_of;
use mp4_codec::{BoxType, Error, Items, Result};
use std::alloc::Global;

/// The step to a box of this type, before which there are boxes of these types.
pub(crate) fn step_to(name: BoxType, before: &[BoxType]) -> PathStep
    ensures { result ≡ step_after name before.now }
{
    let alike = before
        .iter()
        .filter(|t| u32::from(**t) == u32::from(name))
        .count();
    PathStep {
        name,
        number: alike as u64 + 1,
    }
}

/// Why a child is refused that a container of this type looks at, which looks at lists of items in it or not.
fn child_refusal(
    alloc: Global,
    parent: BoxType,
    items: bool,
    child: &PlacedBox,
) -> Result<Option<Error>>
    ensures { TellsFault result (fault_with parent items (as_child (inner child.now))) }
{
    if !reads_child_with(parent, items, child.name) {
        return Ok(None);
    }
    refusal_of(alloc, child.name, child.payload)
}

/// The first child of a box that is refused, of those that the reading of the box looks at, and the step to it.
fn first_refused<'a>(
    alloc: Global,
    parent: &PlacedBox<'a>,
) -> Result<Option<(PathStep, PlacedBox<'a>)>>
    ensures answer { FindsRefused parent.now.name parent.now.payload.now result }
    ensures within { IfOk result (λ found. IfSome found (λ x. end_of (inner x.1) ≤ length parent.now.payload.now)) }
    ensures onward { IfOk result (λ found. IfSome found (λ x. x.1.place + 8 ≤ x.1.from)) }
{
    let Some(start) = bytes_before_children(parent.name, parent.payload) else {
        return Ok(None);
    };
    let items = reads_items(alloc, parent.name, parent.payload)?;
    let mut place = start;
    let mut before = Items::new(alloc);
    while let Some(child) = child_at(parent.payload, place) {
        if let Some(_) = child_refusal(alloc, parent.name, items, &child)? {
            return Ok(Some((step_to(child.name, before.as_slice()), child)));
        }
        if looks_at_first_alone(parent.name) {
            return Ok(None);
        }
        place = child.end();
        before.push(child.name)?;
    }
    Ok(None)
}

/// The child that is at fault where a box is refused, and the step to it; None where the fault is the box's own.
fn faulty_child<'a>(
    alloc: Global,
    parent: &PlacedBox<'a>,
) -> Result<Option<(PathStep, PlacedBox<'a>)>>
    requires { end_of (inner parent.now) < 2 ^ 64 }
    ensures answer { FindsFaulty (inner parent.now) result }
    ensures within { IfOk result (λ found. IfSome found (λ x. end_of (inner x.1) ≤ end_of (inner parent.now))) }
    ensures shorter { IfOk result (λ found. IfSome found (λ x.
        length x.1.payload.now < length parent.now.payload.now)) }
{
    match first_refused(alloc, parent)? {
        None => Ok(None),
        Some((step, child)) => Ok(Some((step, parent.outward(child)))),
    }
}

/// The innermost box that is at fault where a box is refused. The steps from the one to the other are added to the
/// path.
pub(crate) fn innermost_fault<'a>(
    alloc: Global,
    outermost: PlacedBox<'a>,
    path: &mut Items<PathStep>,
) -> Result<PlacedBox<'a>>
    requires { end_of (inner outermost) < 2 ^ 64 }
    ensures answer { (c : Cause) → payload_fault outermost.entry.name outermost.entry.payload.now ≡ some c
        → FindsInnermost c (inner outermost.entry) path.old path.new result }
    ensures within { IfOk result (λ b. end_of (inner b) ≤ end_of (inner outermost.entry)) }
{
    let mut at = outermost;
    while let Some((step, child)) = faulty_child(alloc, &at)? {
        path.push(step)?;
        at = child;
    }
    Ok(at)
}
