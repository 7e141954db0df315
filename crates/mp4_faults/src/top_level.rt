//! The boxes of a file, one after the other, up to the first fault.

ghost use Rattle.std.specs.Prelude.{◌≡◌, ◌≤◌, ◌<◌, ◌+◌, ◌^◌, ℕ, List, [], ◌∷◌, IfSome, IfErr, IfOk, IsTrue, IsFalse};
ghost use Rattle.std.specs.Prelude.{None as none, Some as some};
ghost use Rattle.mp4_codec.specs.BoxType.{IsNamed};
ghost use Rattle.mp4_codec.specs.Cause.{cause_of};
ghost use Rattle.mp4_source.specs.Answers.{IsLength};
ghost use Rattle.mp4_media.specs.FileBoxes.{meaning_of};
ghost use Rattle.mp4_faults.specs.Inner.{inner, end_of};
ghost use Rattle.mp4_faults.specs.Innermost.{step_after};
ghost use Rattle.mp4_faults.specs.Refusal.{payload_fault};
ghost use Rattle.mp4_faults.specs.TopLevel.{GivesNext, TellsNext, IsRead, IsTopBox, IsBegun, TellsContent};
ghost use Rattle.mp4_faults.specs.TopLevel.{TellsValue, TellsInside, IsSeen, ReadsNext, SaysWhose};
ghost use Rattle.mp4_codec.specs.Early.{takes_memory};
ghost use Rattle.mp4_faults.specs.Payload.{whole_payload};

use crate::child::PlacedBox;
use crate::fault_place::FaultPlace;
use crate::innermost::{innermost_fault, step_to};
use mp4_boxes::MoovBox;
use mp4_codec::{BoxHeader, BoxType, Error, HEADER_SIZE, Items, OPEN_END, ReadBox, Result};
use mp4_leaf::FtypBox;
use mp4_moof::{EmsgBox, MoofBox};
use mp4_source::{ByteSource, FileError, SourceCursor};
use std::alloc::Global;

/// The payload of a box, as it is.
#[derive(Drop)]
pub(crate) struct Payload {
    pub bytes: Items<u8>,
}

impl ReadBox for Payload {
    ghost value = { whole_payload };

    ghost early = { λ _. takes_memory };

    fn read_payload(alloc: Global, payload: &[u8]) -> Result<Self> {
        Ok(Payload {
            bytes: Items::from(payload.to_vec(alloc)?),
        })
    }
}

/// What counts of the boxes before a place of a file.
#[derive(Drop)]
pub(crate) struct SeenBoxes {
    /// The types of all boxes.
    pub names: Items<BoxType>,
    /// The last file type.
    pub ftyp: Option<FtypBox>,
    /// The last movie.
    pub moov: Option<MoovBox>,
    /// The place of its first byte.
    pub moov_place: Option<u64>,
    /// The movie fragments.
    pub moofs: Items<MoofBox>,
    /// The places of their first bytes.
    pub moof_places: Items<u64>,
}

impl SeenBoxes {
    /// No box at all.
    pub fn none(alloc: Global) -> Self
        ensures { IsSeen result [] }
    {
        SeenBoxes {
            names: Items::new(alloc),
            ftyp: None,
            moov: None,
            moov_place: None,
            moofs: Items::new(alloc),
            moof_places: Items::new(alloc),
        }
    }
}

/// What is at a place of a file.
#[derive(Drop)]
pub(crate) enum NextBox {
    /// A box without fault.
    Faultless,
    /// The end of the file, or a box with an open end, which isn't read, of this type.
    End(Option<BoxType>),
    Faulty(FaultPlace),
}

/// A fault of a file outside any box.
fn fault_of_file(alloc: Global, place: u64, error: Error) -> NextBox
    ensures { result ≡ NextBox.Faulty (record { path = []; place = place; error = error }) }
{
    NextBox::Faulty(FaultPlace {
        path: Items::new(alloc),
        place,
        error,
    })
}

/// A fault of a box of a file, whose payload isn't looked at.
fn fault_of_box(
    alloc: Global,
    seen: &SeenBoxes,
    name: BoxType,
    place: u64,
    error: Error,
) -> Result<NextBox>
    ensures { GivesNext result (NextBox.Faulty
        (record { path = step_after name seen.now.names ∷ []; place = place; error = error })) }
{
    let mut path = Items::new(alloc);
    path.push(step_to(name, seen.names.as_slice()))?;
    Ok(NextBox::Faulty(FaultPlace { path, place, error }))
}

/// The fault of a box of a file whose payload is refused by this error.
fn fault_within(
    alloc: Global,
    seen: &SeenBoxes,
    outermost: PlacedBox,
    error: Error,
) -> Result<NextBox>
    requires narrow { end_of (inner outermost) < 2 ^ 64 }
    requires refused { payload_fault outermost.name outermost.payload.now ≡ some (cause_of error) }
    ensures { TellsInside seen.now.names (inner outermost.entry) (cause_of error) result }
{
    let mut path = Items::new(alloc);
    path.push(step_to(outermost.name, seen.names.as_slice()))?;
    let innermost = innermost_fault(alloc, outermost, &mut path)?;
    Ok(NextBox::Faulty(FaultPlace {
        path,
        place: innermost.place,
        error,
    }))
}

/// What a payload of this kind holds, or its error; `OutOfMemory` alone is handed on.
fn value_or_error<B: ReadBox>(
    alloc: Global,
    payload: &[u8],
) -> Result<std::result::Result<B, Error>>
    ensures { TellsValue result (B.value payload.now) }
{
    match B::read_payload(alloc, payload) {
        Ok(value) => Ok(Ok(value)),
        Err(Error::OutOfMemory) => Err(Error::OutOfMemory),
        Err(error) => Ok(Err(error)),
    }
}

/// Adds to what was seen a box that is read, or answers its error; the types of the boxes stay as they are.
#[tactic(auto, unfolding(crate::specs::Refusal::payload_fault, crate::specs::Refusal::table_fault, crate::specs::Refusal::other_fault))]
fn add_content(alloc: Global, seen: &mut SeenBoxes, top: &PlacedBox) -> Result<Option<Error>>
    requires { IsRead top.now.name }
    ensures { TellsContent seen.old seen.new (inner top.now) result }
{
    match top.name {
        BoxType::FtypBox => match value_or_error::<FtypBox>(alloc, top.payload)? {
            Ok(ftyp) => {
                seen.ftyp = Some(ftyp);
                Ok(None)
            }
            Err(error) => Ok(Some(error)),
        },
        BoxType::MoovBox => match value_or_error::<MoovBox>(alloc, top.payload)? {
            Ok(moov) => {
                seen.moov = Some(moov);
                seen.moov_place = Some(top.place);
                Ok(None)
            }
            Err(error) => Ok(Some(error)),
        },
        BoxType::MoofBox => match value_or_error::<MoofBox>(alloc, top.payload)? {
            Ok(moof) => {
                seen.moofs.push(moof)?;
                seen.moof_places.push(top.place)?;
                Ok(None)
            }
            Err(error) => Ok(Some(error)),
        },
        BoxType::EmsgBox => match value_or_error::<EmsgBox>(alloc, top.payload)? {
            Ok(emsg) => {
                drop(emsg);
                Ok(None)
            }
            Err(error) => Ok(Some(error)),
        },
        _ => Ok(None),
    }
}

/// Whether boxes of this type are read; all others are skipped.
fn is_read(name: BoxType) -> bool
    ensures yes { IsTrue result → IsRead name }
    ensures not { IsFalse result → IsNamed name → meaning_of name ≡ none }
{
    matches!(
        name,
        BoxType::FtypBox | BoxType::MoovBox | BoxType::MoofBox | BoxType::EmsgBox
    )
}

/// Passes over a box that isn't read, whose payload of n bytes is at the cursor.
fn skip_box<S: ByteSource + Drop>(
    alloc: Global,
    reader: &mut SourceCursor<S>,
    seen: &mut SeenBoxes,
    place: u64,
    header: BoxHeader,
) -> Result<NextBox>
    requires len { IsLength (S.contents reader.old.source) reader.old.len }
    requires skipped { meaning_of header.name ≡ none }
    requires size { 8 ≤ header.size }
    ensures answer { (size : ℕ) → IfSome (S.contents reader.old.source) (λ bytes.
        IsBegun size bytes place header reader.old.position
        → TellsNext size bytes place seen.old seen.new reader.new.position result) }
    ensures onward { reader.old.position ≤ reader.new.position }
    ensures contents { S.contents reader.new.source ≡ S.contents reader.old.source }
    ensures can_refuse { S.can_refuse reader.new.source ≡ S.can_refuse reader.old.source }
    ensures same_len { reader.new.len ≡ reader.old.len }
{
    let Some(after) = reader.position().checked_add(header.size - HEADER_SIZE) else {
        let error = Error::InvalidData("a box ends past 64 bits");
        return fault_of_box(alloc, seen, header.name, place, error);
    };
    seen.names.push(header.name)?;
    reader.set_position(after);
    Ok(NextBox::Faultless)
}

/// Adds to what was seen a box that is read and whose payload is at hand, or answers its fault.
fn add_box(alloc: Global, seen: &mut SeenBoxes, top: PlacedBox) -> Result<NextBox>
    requires { IsRead top.name }
    ensures { (size : ℕ) (bytes : List ℕ) → IsTopBox size bytes (inner top.entry)
        → TellsNext size bytes top.entry.place seen.old seen.new (end_of (inner top.entry)) result }
{
    if top.from.checked_add(top.payload.len() as u64).is_none() {
        return fault_of_box(alloc, seen, top.name, top.place, Error::EndOfData);
    }
    if let Some(error) = add_content(alloc, seen, &top)? {
        return fault_within(alloc, seen, top, error);
    }
    seen.names.push(top.name)?;
    Ok(NextBox::Faultless)
}

/// The fault of the bytes by which a read of a source is refused; a refusal by memory or by the source is handed on.
pub(crate) fn fault_of_bytes(refusal: FileError) -> std::result::Result<Error, FileError>
    ensures { SaysWhose refusal result }
{
    match refusal {
        FileError::Mp4(error) => match error {
            Error::OutOfMemory => Err(FileError::Mp4(Error::OutOfMemory)),
            error => Ok(error),
        },
        FileError::Io(refused) => Err(FileError::Io(refused)),
    }
}

/// Reads a box whose payload is at the cursor.
fn read_box<S: ByteSource + Drop>(
    alloc: Global,
    reader: &mut SourceCursor<S>,
    seen: &mut SeenBoxes,
    place: u64,
    header: BoxHeader,
) -> std::result::Result<NextBox, FileError>
    requires len { IsLength (S.contents reader.old.source) reader.old.len }
    requires is_read { IsRead header.name }
    requires size { 8 ≤ header.size }
    ensures answer { (size : ℕ) → IfSome (S.contents reader.old.source) (λ bytes.
        IsBegun size bytes place header reader.old.position → ReadsNext size bytes
        (S.can_refuse reader.old.source) place seen.old seen.new reader.new.position result) }
    ensures onward { IfOk result (λ next. next ≡ NextBox.Faultless → reader.old.position ≤ reader.new.position) }
    ensures contents { S.contents reader.new.source ≡ S.contents reader.old.source }
    ensures can_refuse { S.can_refuse reader.new.source ≡ S.can_refuse reader.old.source }
    ensures same_len { reader.new.len ≡ reader.old.len }
{
    let from = reader.position();
    match reader.read_box::<Payload>(alloc, header.size) {
        Ok(payload) => {
            // For the proof alone, which has to know that the box ends below 2 to the 64.
            let _ = reader.position();
            let top = PlacedBox {
                name: header.name,
                place,
                from,
                payload: payload.bytes.as_slice(),
            };
            Ok(add_box(alloc, seen, top)?)
        }
        Err(refusal) => {
            let error = fault_of_bytes(refusal)?;
            Ok(fault_of_box(alloc, seen, header.name, place, error)?)
        }
    }
}

/// What is at the cursor in a file that ends at the place `size`: after a box without fault the cursor is after it, and
/// where the file ends it stays. Memory runs out, and the source refuses a read, only where the bytes of a
/// header are left.
pub(crate) fn next_box<S: ByteSource + Drop>(
    alloc: Global,
    reader: &mut SourceCursor<S>,
    seen: &mut SeenBoxes,
    size: u64,
) -> std::result::Result<NextBox, FileError>
    requires len { IsLength (S.contents reader.old.source) reader.old.len }
    ensures answer { IfSome (S.contents reader.old.source) (λ bytes. ReadsNext size bytes
        (S.can_refuse reader.old.source) reader.old.position seen.old seen.new reader.new.position result) }
    ensures below { IfOk result (λ next. next ≡ NextBox.Faultless → reader.old.position < size) }
    ensures begun { IfErr result (λ _. reader.old.position + 8 ≤ size) }
    ensures onward { IfOk result (λ next. next ≡ NextBox.Faultless → reader.old.position < reader.new.position) }
    ensures contents { S.contents reader.new.source ≡ S.contents reader.old.source }
    ensures can_refuse { S.can_refuse reader.new.source ≡ S.can_refuse reader.old.source }
    ensures same_len { reader.new.len ≡ reader.old.len }
{
    let place = reader.position();
    if place >= size {
        return Ok(NextBox::End(None));
    }
    if size - place < HEADER_SIZE {
        return Ok(fault_of_file(alloc, place, Error::EndOfData));
    }
    let header = match reader.read_header() {
        Ok(header) => header,
        Err(refusal) => return Ok(fault_of_file(alloc, place, fault_of_bytes(refusal)?)),
    };
    if header.size == OPEN_END {
        reader.set_position(place);
        return Ok(NextBox::End(Some(header.name)));
    }
    if header.size > size {
        let error = Error::InvalidData("a box is larger than the file");
        return Ok(fault_of_box(alloc, seen, header.name, place, error)?);
    }
    if is_read(header.name) {
        return read_box(alloc, reader, seen, place, header);
    }
    Ok(skip_box(alloc, reader, seen, place, header)?)
}
