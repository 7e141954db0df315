//! The first fault of a file.

ghost use Rattle.std.specs.Prelude.{◌≡◌, ◌<◌, ◌+◌, ◌^◌, ℕ, List, [], IfSome, unwrap_or};
ghost use Rattle.std.specs.List.{slice_get};
ghost use Rattle.mp4_codec.specs.declared.box_type.BoxType.TheVariants.{MoovBox, TrakBox, TkhdBox, MoofBox, TrafBox};
ghost use Rattle.mp4_codec.specs.declared.box_type.BoxType.TheVariants.{TfhdBox};
ghost use Rattle.mp4_source.specs.Answers.{IsLength};
ghost use Rattle.mp4_faults.specs.FirstFault.{TellsLacking, SaysAtEnd, SaysFirst, is_open_of};
ghost use Rattle.mp4_faults.specs.Innermost.{count_of};
ghost use Rattle.mp4_faults.specs.TopLevel.{AreNamedBoxes, EndsAt, IsSeen, NamedBox};

use crate::fault_place::{FaultPlace, PathStep};
use crate::ids::{IdFault, id_fault};
use crate::innermost::step_to;
use crate::top_level::{NextBox, SeenBoxes, next_box};
use crate::wrong_id::{IdPlace, wrong_id};
use mp4_codec::{BoxType, Error, Items, Result};
use mp4_source::{ByteSource, FileError, SourceCursor, Window};
use std::alloc::Global;

/// How many boxes of this type were seen.
fn count_of(seen: &SeenBoxes, name: BoxType) -> u64
    ensures { result ≡ count_of name seen.now.names }
{
    let names = seen.names.as_slice().iter();
    names.filter(|t| u32::from(**t) == u32::from(name)).count() as u64
}

/// What says the wrong id of the track at this index of the last movie.
fn track_place(seen: &SeenBoxes, index: usize) -> IdPlace
    requires { index < 2 ^ 63 }
    ensures { result ≡ record {
      top = record { name = MoovBox; number = count_of MoovBox seen.now.names };
      place = unwrap_or seen.now.moov_place 0;
      name = TrakBox;
      number = index + 1;
      header = TkhdBox;
    } }
{
    IdPlace {
        top: PathStep {
            name: BoxType::MoovBox,
            number: count_of(seen, BoxType::MoovBox),
        },
        place: seen.moov_place.unwrap_or(0),
        name: BoxType::TrakBox,
        number: index as u64 + 1,
        header: BoxType::TkhdBox,
    }
}

/// What says the wrong id of a track fragment, at an index of a movie fragment, which is at the other index.
fn fragment_place(seen: &SeenBoxes, moof: usize, traf: usize) -> IdPlace
    requires moof { moof < 2 ^ 63 }
    requires traf { traf < 2 ^ 63 }
    ensures { result ≡ record {
      top = record { name = MoofBox; number = moof + 1 };
      place = unwrap_or (slice_get seen.now.moof_places moof) 0;
      name = TrafBox;
      number = traf + 1;
      header = TfhdBox;
    } }
{
    IdPlace {
        top: PathStep {
            name: BoxType::MoofBox,
            number: moof as u64 + 1,
        },
        place: seen.moof_places.get(moof).copied().unwrap_or(0),
        name: BoxType::TrafBox,
        number: traf as u64 + 1,
        header: BoxType::TfhdBox,
    }
}

/// Where a file ends.
#[derive(Clone, Copy)]
struct FileEnd {
    /// The place after its last byte.
    size: u64,
    /// The place after its last box that was seen.
    place: u64,
    /// The type of the box that begins there and has an open end, if there is one.
    open_type: Option<BoxType>,
}

impl FileEnd {
    /// Whether the file ends at a box of this type with an open end.
    fn is_open_of(&self, name: BoxType) -> bool
        ensures { result ≡ is_open_of self.now.open_type name }
    {
        match self.open_type {
            Some(other) => u32::from(other) == u32::from(name),
            None => false,
        }
    }
}

/// The fault of a file that lacks a box of this type. Where the file ends at such a box with an open end, which isn't
/// read, it is that of the box; else it is the file's own, and where the file ends.
fn lacking(alloc: Global, seen: &SeenBoxes, end: FileEnd, name: BoxType) -> Result<FaultPlace>
    ensures { TellsLacking seen.now.names end name result }
{
    let error = Error::BoxNotFound(name);
    let mut path = Items::new(alloc);
    if !end.is_open_of(name) {
        let place = end.size;
        return Ok(FaultPlace { path, place, error });
    }
    path.push(step_to(name, seen.names.as_slice()))?;
    let place = end.place;
    Ok(FaultPlace { path, place, error })
}

/// The fault of a file none of whose boxes has one, and which ends so.
fn fault_at_end<S: ByteSource + Drop>(
    alloc: Global,
    reader: &mut SourceCursor<S>,
    seen: &SeenBoxes,
    end: FileEnd,
) -> std::result::Result<Option<FaultPlace>, FileError>
    requires { IsLength (S.contents reader.old.source) reader.old.len }
    ensures { IfSome (S.contents reader.old.source) (λ bytes. (start : ℕ) (boxes : List NamedBox)
        → AreNamedBoxes end.size bytes start boxes end.place → EndsAt end.size bytes end.place end.open_type
        → IsSeen seen.now boxes
        → SaysAtEnd end.size bytes boxes end.place (S.can_refuse reader.old.source) result) }
{
    let Some(_) = &seen.ftyp else {
        return Ok(Some(lacking(alloc, seen, end, BoxType::FtypBox)?));
    };
    let Some(moov) = &seen.moov else {
        return Ok(Some(lacking(alloc, seen, end, BoxType::MoovBox)?));
    };
    match id_fault(alloc, moov, seen.moofs.as_slice())? {
        None => Ok(None),
        Some(IdFault::Track(index)) => {
            let error = Error::InvalidData("a track id of 0");
            Ok(Some(wrong_id(alloc, reader, track_place(seen, index), error)?))
        }
        Some(IdFault::Fragment(moof, traf, id)) => {
            let error = Error::TrakNotFound(id);
            Ok(Some(wrong_id(alloc, reader, fragment_place(seen, moof, traf), error)?))
        }
    }
}

/// The first fault of a file that begins where the cursor is and ends at the place `size`. Nothing was seen of it yet.
fn fault_from<S: ByteSource + Drop>(
    alloc: Global,
    reader: &mut SourceCursor<S>,
    seen: &mut SeenBoxes,
    size: u64,
) -> std::result::Result<Option<FaultPlace>, FileError>
    requires len { IsLength (S.contents reader.old.source) reader.old.len }
    requires none { IsSeen seen.old [] }
    ensures { IfSome (S.contents reader.old.source) (λ bytes.
        SaysFirst size bytes reader.old.position (S.can_refuse reader.old.source) result) }
{
    loop {
        match next_box(alloc, reader, seen, size)? {
            NextBox::Faultless => {}
            NextBox::End(open_type) => {
                let place = reader.position();
                return fault_at_end(
                    alloc,
                    reader,
                    seen,
                    FileEnd {
                        size,
                        place,
                        open_type,
                    },
                );
            }
            NextBox::Faulty(fault) => return Ok(Some(fault)),
        }
    }
}

/// Where a file is broken that begins at the place `start` of a source and ends at its place `size`, both counted from
/// the source's first byte: its first fault, with the path to it and its place; `None` for a file that opens. What
/// opens, and by which error it is refused else, is as [`mp4_media::Mp4File::open`] answers with the same arguments.
/// Each track and each track fragment is looked at once.
///
/// Refused by `OutOfMemory`, or by `Io` where the source refuses a read.
pub fn first_fault_of<S: ByteSource + Drop>(
    alloc: Global,
    source: S,
    start: u64,
    size: u64,
) -> std::result::Result<Option<FaultPlace>, FileError>
    ensures { IfSome (S.contents source) (λ bytes. SaysFirst size bytes start (S.can_refuse source) result) }
{
    let window = Window::new(alloc, source)?;
    let mut reader = SourceCursor::new(alloc, window, start)?;
    let mut seen = SeenBoxes::none(alloc);
    fault_from(alloc, &mut reader, &mut seen, size)
}
