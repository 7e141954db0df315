//! Where a wrong id is: in the header that says it (ISO/IEC 14496-12, 8.3.2 and 8.8.7).

ghost use Rattle.std.specs.Prelude.{◌≤◌, IfSome, length};
ghost use Rattle.mp4_source.specs.Answers.{IsLength};
ghost use Rattle.mp4_faults.specs.Inner.{inner, end_of};
ghost use Rattle.mp4_faults.specs.WrongId.{FindsNth, FindsLast, FindsWithin, HasHeader, FindsHeader, IsLost};
ghost use Rattle.mp4_faults.specs.WrongId.{SaysWrongId};

use crate::child::{PlacedBox, child_at};
use crate::fault_place::{FaultPlace, PathStep};
use crate::top_level::{Payload, fault_of_bytes};
use mp4_codec::{BoxType, Error, HEADER_SIZE, Items};
use mp4_source::{ByteSource, FileError, SourceCursor};
use std::alloc::Global;

/// The child of a payload that is the one with this number of its type, from 1, and the step to it.
fn nth_child(payload: &[u8], name: BoxType, number: u64) -> Option<(PathStep, PlacedBox<'_>)>
    ensures answer { FindsNth payload.now name number result }
    ensures within { IfSome result (λ x. end_of (inner x.1) ≤ length payload.now) }
{
    let mut place = 0;
    let mut count = 0u64;
    while let Some(child) = child_at(payload, place) {
        place = child.end();
        if u32::from(child.name) == u32::from(name) {
            count += 1;
            if count == number {
                let step = PathStep {
                    name: child.name,
                    number,
                };
                return Some((step, child));
            }
        }
    }
    None
}

/// The last child of a payload that is of this type, which is the one that counts, and the step to it.
fn last_child(payload: &[u8], name: BoxType) -> Option<(PathStep, PlacedBox<'_>)>
    ensures answer { FindsLast payload.now name result }
    ensures within { IfSome result (λ x. end_of (inner x.1) ≤ length payload.now) }
    ensures onward { IfSome result (λ x. x.1.place ≤ x.1.from) }
{
    let mut place = 0;
    let mut count = 0u64;
    let mut last = None;
    while let Some(child) = child_at(payload, place) {
        place = child.end();
        if u32::from(child.name) == u32::from(name) {
            count += 1;
            let step = PathStep {
                name: child.name,
                number: count,
            };
            last = Some((step, child));
        }
    }
    last
}

/// What says an id: a box of the file, a track or a track fragment in it, and its header.
#[derive(Clone, Copy)]
pub(crate) struct IdPlace {
    pub top: PathStep,
    /// The place of the outermost box's first byte.
    pub place: u64,
    /// The type of the box in it, and its number.
    pub name: BoxType,
    pub number: u64,
    /// The type of its header.
    pub header: BoxType,
}

/// A header that says an id: the steps to it in the outermost box, and the place of its first byte.
#[derive(Clone, Copy)]
struct IdHeader {
    middle: PathStep,
    last: PathStep,
    place: u64,
}

/// The header that says an id, in the payload of the outermost box, which begins at this place.
fn header_within(payload: &[u8], from: u64, id: IdPlace) -> Option<IdHeader>
    ensures { FindsWithin payload.now from id result }
{
    let (middle, container) = nth_child(payload, id.name, id.number)?;
    let (last, header) = last_child(container.payload, id.header)?;
    Some(IdHeader {
        middle,
        last,
        place: from.saturating_add(container.from + header.place),
    })
}

/// No header, where the bytes of a source aren't any more what they were; a refusal by memory or by the source is
/// handed on.
fn lost(refusal: FileError) -> Result<Option<IdHeader>, FileError>
    ensures { IsLost refusal result }
{
    let _ = fault_of_bytes(refusal)?;
    Ok(None)
}

/// The header that says an id, as the source is read again; None where it isn't there any more.
fn header_of_id<S: ByteSource + Drop>(
    alloc: Global,
    reader: &mut SourceCursor<S>,
    id: IdPlace,
) -> Result<Option<IdHeader>, FileError>
    requires { IsLength (S.contents reader.old.source) reader.old.len }
    ensures { IfSome (S.contents reader.old.source) (λ bytes. HasHeader bytes id →
        FindsHeader bytes id (S.can_refuse reader.old.source) result) }
{
    reader.set_position(id.place);
    let header = match reader.read_header() {
        Ok(header) => header,
        Err(refusal) => return lost(refusal),
    };
    if header.size < HEADER_SIZE {
        return Ok(None);
    }
    let from = reader.position();
    match reader.read_box::<Payload>(alloc, header.size) {
        Ok(payload) => {
            // For the proof alone, which has to know that the payload ends below 2 to the 64.
            let _ = reader.position();
            Ok(header_within(payload.bytes.as_slice(), from, id))
        }
        Err(refusal) => lost(refusal),
    }
}

/// The fault of a wrong id: it is in the header that says it, which is looked up in the source again.
pub(crate) fn wrong_id<S: ByteSource + Drop>(
    alloc: Global,
    reader: &mut SourceCursor<S>,
    id: IdPlace,
    error: Error,
) -> Result<FaultPlace, FileError>
    requires { IsLength (S.contents reader.old.source) reader.old.len }
    ensures { IfSome (S.contents reader.old.source) (λ bytes. HasHeader bytes id →
        SaysWrongId bytes id error (S.can_refuse reader.old.source) result) }
{
    let mut path = Items::new(alloc);
    path.push(id.top)?;
    let Some(header) = header_of_id(alloc, reader, id)? else {
        return Ok(FaultPlace {
            path,
            place: id.place,
            error,
        });
    };
    path.push(header.middle)?;
    path.push(header.last)?;
    Ok(FaultPlace {
        path,
        place: header.place,
        error,
    })
}
