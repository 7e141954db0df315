//! Opening a file: its boxes, one after the other.

ghost use Rattle.std.specs.Prelude.{◌≡◌, ◌<◌, ◌≤◌, ◌-◌, ◌+◌, [], List, ℕ, length, IfOk, IfErr, IfSome, OnOk, IsTrue, IsFalse};
ghost use Rattle.mp4_codec.specs.BoxType.{IsNamed};
ghost use Rattle.mp4_codec.specs.Cause.{Gives};
ghost use Rattle.mp4_codec.specs.Cursor.{here};
ghost use Rattle.mp4_source.specs.Answers.{AnswersRead, IsLength};
ghost use Rattle.mp4_source.specs.declared.file_error.FileError.TheVariants.{Mp4};
ghost use Rattle.mp4_media.specs.FileBoxes.{IsRead};
ghost use Rattle.mp4_media.specs.FileGrammar.{IsWholeToRead, MayTakeMemory};
ghost use Rattle.mp4_media.specs.MovieTracks.{IsNumbered};
ghost use Rattle.mp4_media.specs.Walk.{skip_at, found_at, found_of, with_content_at, with_next_at};

use mp4_boxes::MoovBox;
use mp4_codec::{BoxHeader, BoxType, Error, HEADER_SIZE, Items, OPEN_END, Result};
use mp4_leaf::FtypBox;
use mp4_moof::{EmsgBox, MoofBox};
use mp4_source::{ByteSource, FileError, SourceCursor};
use std::alloc::Global;

/// What counts of a file's boxes: the last file type and the last movie, all fragments and all event messages.
#[derive(Drop)]
pub(crate) struct TopLevelBoxes {
    pub ftyp: Option<FtypBox>,
    pub moov: Option<MoovBox>,
    pub moofs: Items<MoofBox>,
    /// The place of each fragment's first byte.
    pub moof_places: Items<u64>,
    pub emsgs: Items<EmsgBox>,
}

impl TopLevelBoxes {
    /// No box at all.
    pub fn none(alloc: Global) -> Self
        ensures { result ≡ found_of [] }
    {
        TopLevelBoxes {
            ftyp: None,
            moov: None,
            moofs: Items::new(alloc),
            moof_places: Items::new(alloc),
            emsgs: Items::new(alloc),
        }
    }
}

/// The place after so many bytes from this one, also past the end of a file; `InvalidData` past 64 bits.
fn place_after(place: u64, n: u64) -> Result<u64>
    ensures value { (bytes : List ℕ) → Gives (λ after. here bytes after) result (skip_at n (here bytes place)) }
    ensures onward { IfOk result (λ after. place ≤ after) }
    ensures memory { IfErr result (λ e. e ≡ Error.OutOfMemory → ⊥) }
{
    let Some(after) = place.checked_add(n) else {
        return Err(Error::InvalidData("a box ends past 64 bits"));
    };
    Ok(after)
}

/// Adds the box to what was found that begins at the place and whose payload is at the cursor, which is then
/// after it. A box of a type that isn't read is passed over.
fn add_content<S: ByteSource + Drop>(
    alloc: Global,
    reader: &mut SourceCursor<S>,
    found: &mut TopLevelBoxes,
    place: u64,
    header: BoxHeader,
) -> std::result::Result<(), FileError>
    requires len { IsLength (S.contents reader.old.source) reader.old.len }
    requires named { IsNamed header.name }
    requires size { 8 ≤ header.size }
    ensures answer { IfSome (S.contents reader.old.source) (λ bytes. AnswersRead (S.can_refuse reader.old.source)
        (λ _. (found.new, here bytes reader.new.position)) result
        (with_content_at header.name header.size found.old place (here bytes reader.old.position))) }
    ensures memory { IfErr result (λ e. e ≡ Mp4 Error.OutOfMemory
        → IsRead header.name × (reader.old.position + (header.size - 8) ≤ reader.old.len)) }
    ensures numbered { OnOk result (IsNumbered found.old.moov → IsNumbered found.new.moov) }
    ensures places { OnOk result (length found.old.moof_places ≡ length found.old.moofs
        → length found.new.moof_places ≡ length found.new.moofs) }
    ensures onward { OnOk result (reader.old.position ≤ reader.new.position) }
    ensures contents { S.contents reader.new.source ≡ S.contents reader.old.source }
    ensures can_refuse { S.can_refuse reader.new.source ≡ S.can_refuse reader.old.source }
    ensures same_len { reader.new.len ≡ reader.old.len }
{
    match header.name {
        BoxType::FtypBox => {
            let ftyp = reader.read_box(alloc, header.size)?;
            found.ftyp = Some(ftyp);
            Ok(())
        }
        BoxType::MoovBox => {
            let moov = reader.read_box(alloc, header.size)?;
            found.moov = Some(moov);
            Ok(())
        }
        BoxType::MoofBox => {
            let moof = reader.read_box(alloc, header.size)?;
            found.moofs.push(moof)?;
            found.moof_places.push(place)?;
            Ok(())
        }
        BoxType::EmsgBox => {
            let emsg = reader.read_box(alloc, header.size)?;
            found.emsgs.push(emsg)?;
            Ok(())
        }
        _ => {
            let payload = reader.position();
            let after = place_after(payload, header.size - HEADER_SIZE)?;
            reader.set_position(after);
            Ok(())
        }
    }
}

/// Adds the next box of a file of `size` bytes to what was found, with the cursor after it, and answers whether there
/// is one: there is none at the file's end, and at a box whose end is open, with the cursor where it was.
///
/// `EndOfData` where 1 to 7 bytes are left before `size`, then what refuses the header, then `InvalidData` for
/// a size past `size`, then what refuses the content. `Io` where the source refuses.
pub(crate) fn add_next<S: ByteSource + Drop>(
    alloc: Global,
    reader: &mut SourceCursor<S>,
    found: &mut TopLevelBoxes,
    size: u64,
) -> std::result::Result<bool, FileError>
    requires len { IsLength (S.contents reader.old.source) reader.old.len }
    ensures answer { IfSome (S.contents reader.old.source) (λ bytes. AnswersRead (S.can_refuse reader.old.source)
        (λ more. (more, found.new, here bytes reader.new.position)) result
        (with_next_at size found.old (here bytes reader.old.position))) }
    ensures memory { IfErr result (λ e. e ≡ Mp4 Error.OutOfMemory
        → IfSome (S.contents reader.old.source) (λ bytes. IsWholeToRead size bytes reader.old.position)) }
    ensures numbered { OnOk result (IsNumbered found.old.moov → IsNumbered found.new.moov) }
    ensures places { OnOk result (length found.old.moof_places ≡ length found.old.moofs
        → length found.new.moof_places ≡ length found.new.moofs) }
    ensures onward { IfOk result (λ more. IsTrue more → reader.old.position < size) }
    ensures moved { IfOk result (λ more. IsTrue more → reader.old.position < reader.new.position) }
    ensures still { IfOk result (λ more. IsFalse more → reader.new.position ≡ reader.old.position) }
    ensures contents { S.contents reader.new.source ≡ S.contents reader.old.source }
    ensures can_refuse { S.can_refuse reader.new.source ≡ S.can_refuse reader.old.source }
    ensures same_len { reader.new.len ≡ reader.old.len }
{
    let place = reader.position();
    if place >= size {
        return Ok(false);
    }
    if size - place < HEADER_SIZE {
        return Err(FileError::from(Error::EndOfData));
    }
    let header = reader.read_header()?;
    if header.size == OPEN_END {
        reader.set_position(place);
        return Ok(false);
    }
    if header.size > size {
        return Err(FileError::from(Error::InvalidData("a box is larger than the file")));
    }
    add_content(alloc, reader, found, place, header)?;
    Ok(true)
}

/// Adds the boxes of a file of `size` bytes from the cursor on, which is then at its end, to what was found, which
/// is no box at the start; or answers the first fault of a box.
fn add_boxes<S: ByteSource + Drop>(
    alloc: Global,
    reader: &mut SourceCursor<S>,
    found: &mut TopLevelBoxes,
    size: u64,
) -> std::result::Result<(), FileError>
    requires none { found.old ≡ found_of [] }
    requires len { IsLength (S.contents reader.old.source) reader.old.len }
    ensures answer { IfSome (S.contents reader.old.source) (λ bytes. AnswersRead (S.can_refuse reader.old.source)
        (λ _. (found.new, reader.new.position)) result (found_at size (here bytes reader.old.position))) }
    ensures memory { IfErr result (λ e. e ≡ Mp4 Error.OutOfMemory
        → IfSome (S.contents reader.old.source) (λ bytes. MayTakeMemory size (here bytes reader.old.position))) }
    ensures numbered { OnOk result (IsNumbered found.new.moov) }
    ensures places { OnOk result (length found.new.moof_places ≡ length found.new.moofs) }
    ensures onward { OnOk result (reader.old.position ≤ reader.new.position) }
    ensures contents { S.contents reader.new.source ≡ S.contents reader.old.source }
    ensures can_refuse { S.can_refuse reader.new.source ≡ S.can_refuse reader.old.source }
    ensures same_len { reader.new.len ≡ reader.old.len }
{
    while add_next(alloc, reader, found, size)? {}
    Ok(())
}

/// What counts of the boxes of a file of `size` bytes from the cursor on, which is then at its end; or the first
/// fault of a box.
pub(crate) fn find_boxes<S: ByteSource + Drop>(
    alloc: Global,
    reader: &mut SourceCursor<S>,
    size: u64,
) -> std::result::Result<TopLevelBoxes, FileError>
    requires len { IsLength (S.contents reader.old.source) reader.old.len }
    ensures answer { IfSome (S.contents reader.old.source) (λ bytes. AnswersRead (S.can_refuse reader.old.source)
        (λ found. (found, reader.new.position)) result (found_at size (here bytes reader.old.position))) }
    ensures memory { IfErr result (λ e. e ≡ Mp4 Error.OutOfMemory
        → IfSome (S.contents reader.old.source) (λ bytes. MayTakeMemory size (here bytes reader.old.position))) }
    ensures numbered { IfOk result (λ found. IsNumbered found.moov) }
    ensures places { IfOk result (λ found. length found.moof_places ≡ length found.moofs) }
    ensures onward { OnOk result (reader.old.position ≤ reader.new.position) }
    ensures contents { S.contents reader.new.source ≡ S.contents reader.old.source }
    ensures can_refuse { S.can_refuse reader.new.source ≡ S.can_refuse reader.old.source }
    ensures same_len { reader.new.len ≡ reader.old.len }
{
    let mut found = TopLevelBoxes::none(alloc);
    match add_boxes(alloc, reader, &mut found, size) {
        Ok(()) => Ok(found),
        Err(error) => {
            drop(found);
            Err(error)
        }
    }
}
