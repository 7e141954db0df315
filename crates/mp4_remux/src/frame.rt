//! The boxes of a file that is rewritten.

ghost use Rattle.std.specs.Prelude.{◌≡◌, ◌⊎◌, List, IfSome, IfErr, IfNone, IfOk};
ghost use Rattle.std.specs.List.{filter, sum_by};
ghost use Rattle.mp4_codec.specs.declared.error.Error.TheVariants.{OutOfMemory, EndOfData};
ghost use Rattle.mp4_source.specs.Answers.{IsLength};
ghost use Rattle.mp4_remux.specs.Refused.{SaysDiffers};
ghost use Rattle.mp4_remux.specs.Errors.{IsRefusalOf, MayRefuse};
ghost use Rattle.mp4_remux.specs.Named.{AreTwo, EndsAt, NamesBox, NamesBy, SaysTwice};
ghost use Rattle.mp4_media.specs.FileGrammar.{between};
ghost use Rattle.mp4_remux.specs.Caused.{CausedBy, CausedByMemory, CausedByNone};
ghost use Rattle.mp4_remux.specs.Front.{AreBoxes, HasNone, IsBoxOf, IsOnly, IsTopBox};
ghost use Rattle.mp4_remux.specs.Frames.{IsFrame, IsWhyNoFrame, box_len, data_begin, stays_beside};
ghost use Rattle.mp4_remux.specs.ShownTimes.{in_64_bits};

use crate::box_bytes::is_among;
use crate::error::RemuxError;
use crate::fragment_boxes::check_fragment;
use crate::layout::fits;
use crate::places::{MORE_METADATA, check_box, check_top_level, is_of_fragments};
use crate::top_level::{TopBox, top_boxes};
use mp4_codec::{BoxType, Error, HEADER_SIZE, is_equal};
use mp4_source::{ByteSource, SourceCursor, read_into};
use std::alloc::{AllocError, Global};

/// The only box of a type; `Twice` where there are two.
pub(crate) fn only_box(boxes: &[TopBox], name: BoxType) -> Result<Option<TopBox>, RemuxError>
    ensures names { IfErr result (SaysTwice (λ n. (n ≡ name) × AreTwo boxes.now n)) }
    ensures refused { IfErr result (IsRefusalOf ⊥ ⊥) }
    ensures cause { IfErr result CausedByNone }
    ensures only { IfOk result (λ found. IfSome found (IsOnly boxes.now name)) }
    ensures none { IfOk result (λ found. IfNone found (HasNone boxes.now name)) }
{
    let mut found: Option<TopBox> = None;
    for i in 0..boxes.len() {
        let one = boxes[i];
        if !is_equal(&one.name, &name) {
            continue;
        }
        if let Some(_) = found {
            return Err(RemuxError::Twice(name));
        }
        found = Some(one);
    }
    Ok(found)
}

/// The source, where a box of this type begins and ends there as its header says.
pub(crate) fn check_header<S: ByteSource + Drop>(
    alloc: Global,
    source: S,
    len: u64,
    name: BoxType,
    one: TopBox,
) -> Result<S, RemuxError>
    requires { IsLength (S.contents source) len }
    ensures header { IfOk result (λ _. IfSome (S.contents source) (λ xs. IsBoxOf xs name one)) }
    ensures cause { IfErr result (λ e. IfSome (S.contents source) (λ xs. IsTopBox xs one → one.name ≡ name
        → CausedBy (λ error. (error ≡ OutOfMemory) ⊎ ((error ≡ EndOfData) × (IsBoxOf xs name one → ⊥))) ⊥ e)) }
    ensures names { IfErr result (NamesBy (λ _ _. ⊥)) }
    ensures contents { IfOk result (λ s. S.contents s ≡ S.contents source) }
    ensures can_refuse { IfOk result (λ s. S.can_refuse s ≡ S.can_refuse source) }
    ensures refused { IfErr result (IsRefusalOf (MayRefuse (S.contents source) (S.can_refuse source)) ⊥) }
    ensures differs { IfErr result (SaysDiffers (λ _ _. ⊥)) }
{
    let mut cursor = SourceCursor::new(alloc, source, one.place)?;
    let header = cursor.read_header()?;
    let end = cursor
        .position()
        .checked_add(header.size.saturating_sub(HEADER_SIZE));
    if !is_equal(&header.name, &name) || end != Some(one.end) || one.end > len {
        return Err(RemuxError::Mp4(Error::EndOfData));
    }
    let (source, _) = cursor.into_parts();
    Ok(source)
}

/// The bytes of a box.
pub(crate) fn bytes_of<S: ByteSource>(
    alloc: Global,
    source: &mut S,
    len: u64,
    one: TopBox,
) -> Result<Vec<u8>, RemuxError>
    requires { IsLength (S.contents source.old) len }
    ensures bytes { IfOk result (λ bytes. IfSome (S.contents source.old) (λ xs.
        bytes.items ≡ between xs one.place one.end)) }
    ensures ends { IfOk result (λ bytes. IfSome (S.contents source.old) (λ xs. EndsAt xs bytes.items one.end)) }
    ensures cause { IfErr result (λ e. IfSome (S.contents source.old) (λ xs. IsTopBox xs one → CausedByMemory e)) }
    ensures names { IfErr result (NamesBy (λ _ _. ⊥)) }
    ensures contents { S.contents source.new ≡ S.contents source.old }
    ensures can_refuse { S.can_refuse source.new ≡ S.can_refuse source.old }
    ensures refused { IfErr result (IsRefusalOf (MayRefuse (S.contents source.old) (S.can_refuse source.old)) ⊥) }
    ensures differs { IfErr result (SaysDiffers (λ _ _. ⊥)) }
{
    let size = one.end.saturating_sub(one.place);
    if !fits(one.place, size, len) {
        return Err(RemuxError::Mp4(Error::EndOfData));
    }
    let mut bytes = Vec::new(alloc);
    read_into(source, one.place, size as usize, &mut bytes)?;
    Ok(bytes)
}

/// The bytes of a box, in which no box says places, or where fragments are gathered, something of each sample.
pub(crate) fn checked_bytes<S: ByteSource>(
    alloc: Global,
    source: &mut S,
    len: u64,
    one: TopBox,
    is_gathered: bool,
) -> Result<Vec<u8>, RemuxError>
    requires { IsLength (S.contents source.old) len }
    ensures names { IfErr result (NamesBox (S.contents source.old)) }
    ensures cause { IfErr result (λ e. IfSome (S.contents source.old) (λ xs. IsTopBox xs one → CausedByMemory e)) }
    ensures bytes { IfOk result (λ bytes. IfSome (S.contents source.old) (λ xs.
        bytes.items ≡ between xs one.place one.end)) }
    ensures contents { S.contents source.new ≡ S.contents source.old }
    ensures can_refuse { S.can_refuse source.new ≡ S.can_refuse source.old }
    ensures refused { IfErr result (IsRefusalOf (MayRefuse (S.contents source.old) (S.can_refuse source.old)) ⊥) }
    ensures differs { IfErr result (SaysDiffers (λ _ _. ⊥)) }
{
    let bytes = bytes_of(alloc, source, len, one)?;
    check_box(&bytes, one.end, is_gathered)?;
    Ok(bytes)
}

/// Checks that no metadata of the file itself says places.
pub(crate) fn check_metadata<S: ByteSource>(
    alloc: Global,
    source: &mut S,
    len: u64,
    boxes: &[TopBox],
) -> Result<(), RemuxError>
    requires { IsLength (S.contents source.old) len }
    ensures names { IfErr result (NamesBox (S.contents source.old)) }
    ensures cause { IfErr result (λ e. IfSome (S.contents source.old) (λ xs. AreBoxes xs 0 boxes.now
        → CausedByMemory e)) }
    ensures contents { S.contents source.new ≡ S.contents source.old }
    ensures can_refuse { S.can_refuse source.new ≡ S.can_refuse source.old }
    ensures refused { IfErr result (IsRefusalOf (MayRefuse (S.contents source.old) (S.can_refuse source.old)) ⊥) }
    ensures differs { IfErr result (SaysDiffers (λ _ _. ⊥)) }
{
    for one in boxes {
        if one.name == BoxType::MetaBox || u32::from(one.name) == MORE_METADATA {
            checked_bytes(alloc, source, len, *one, false)?;
        }
    }
    Ok(())
}

/// A file without the data of its samples.
#[derive(Drop)]
pub(crate) struct Frame {
    pub file_type: TopBox,
    pub movie: TopBox,
    /// The bytes of the movie box.
    pub movie_bytes: Vec<u8>,
    /// The boxes that stay beside these, in their order.
    pub others: Vec<TopBox>,
}

impl Frame {
    /// Where the data begins: after the file type, a movie box of so many bytes, the boxes that stay, and a header of
    /// so many.
    pub fn data_begin(&self, movie_len: u64, header_len: u64) -> u64
        ensures { result ≡ data_begin self.now movie_len header_len }
    {
        movie_len
            .saturating_add(self.file_type.len())
            .saturating_add(len_of_boxes(&self.others))
            .saturating_add(header_len)
    }
}

/// How many bytes these boxes have; the largest number where that passes 64 bits.
fn len_of_boxes(boxes: &[TopBox]) -> u64
    ensures { result ≡ in_64_bits (sum_by box_len boxes.now) }
{
    let mut len: u64 = 0;
    for one in boxes {
        len = len.saturating_add(one.len());
    }
    len
}

/// The codes of the file type, of the movie box, and of data: `ftyp`, `moov` and `mdat`.
const OWN_BOXES: [u32; 3] = [0x6674_7970, 0x6d6f_6f76, 0x6d64_6174];

/// Whether a box of this type stays beside the file type and the movie box: it is none of the data, and where
/// fragments are gathered, none that goes with them.
fn stays_beside(name: BoxType, is_gathered: bool) -> bool
    ensures { result ≡ stays_beside is_gathered name }
{
    if is_among(&OWN_BOXES, name) {
        return false;
    }
    !(is_gathered && is_of_fragments(name))
}

/// The boxes that stay beside the file type and the movie box, in their order.
fn others_of(alloc: Global, boxes: &[TopBox], is_gathered: bool) -> Result<Vec<TopBox>, AllocError>
    ensures { IfOk result (λ others. others.items ≡ filter (λ b. stays_beside is_gathered b.name) boxes.now) }
{
    let mut others = Vec::new(alloc);
    for i in 0..boxes.len() {
        let one = boxes[i];
        if !stays_beside(one.name, is_gathered) {
            continue;
        }
        others.push(one)?;
    }
    Ok(others)
}

/// Checks that all that the fragments say of samples is said by tables.
fn check_fragments<S: ByteSource>(
    alloc: Global,
    source: &mut S,
    len: u64,
    boxes: &[TopBox],
) -> Result<(), RemuxError>
    requires { IsLength (S.contents source.old) len }
    ensures names { IfErr result (NamesBox (S.contents source.old)) }
    ensures cause { IfErr result (λ e. IfSome (S.contents source.old) (λ xs. AreBoxes xs 0 boxes.now
        → CausedByMemory e)) }
    ensures contents { S.contents source.new ≡ S.contents source.old }
    ensures can_refuse { S.can_refuse source.new ≡ S.can_refuse source.old }
    ensures refused { IfErr result (IsRefusalOf (MayRefuse (S.contents source.old) (S.can_refuse source.old)) ⊥) }
    ensures differs { IfErr result (SaysDiffers (λ _ _. ⊥)) }
{
    for one in boxes {
        if one.name == BoxType::MoofBox {
            let bytes = bytes_of(alloc, source, len, *one)?;
            check_fragment(&bytes, one.end)?;
        }
    }
    Ok(())
}

/// Checks that the boxes beside the movie box say nothing that would be wrong or lost.
fn check_others<S: ByteSource>(
    alloc: Global,
    source: &mut S,
    len: u64,
    boxes: &[TopBox],
    is_gathered: bool,
) -> Result<(), RemuxError>
    requires len { IsLength (S.contents source.old) len }
    requires boxes { IfSome (S.contents source.old) (λ xs. AreBoxes xs 0 boxes.now) }
    ensures names { IfErr result (NamesBox (S.contents source.old)) }
    ensures cause { IfErr result (λ e. IfSome (S.contents source.old) (λ xs. AreBoxes xs 0 boxes.now
        → CausedByMemory e)) }
    ensures contents { S.contents source.new ≡ S.contents source.old }
    ensures can_refuse { S.can_refuse source.new ≡ S.can_refuse source.old }
    ensures refused { IfErr result (IsRefusalOf (MayRefuse (S.contents source.old) (S.can_refuse source.old)) ⊥) }
    ensures differs { IfErr result (SaysDiffers (λ _ _. ⊥)) }
{
    if is_gathered {
        check_fragments(alloc, source, len, boxes)?;
    } else {
        check_top_level(boxes)?;
    }
    check_metadata(alloc, source, len, boxes)
}

/// The source, and the boxes of its file of `len` bytes, whose fragments are to be gathered or which has none.
pub(crate) fn read_frame<S: ByteSource + Drop>(
    alloc: Global,
    source: S,
    len: u64,
    is_gathered: bool,
) -> Result<(S, Frame), RemuxError>
    requires { IsLength (S.contents source) len }
    ensures contents { IfOk result (λ x. S.contents x.0 ≡ S.contents source) }
    ensures can_refuse { IfOk result (λ x. S.can_refuse x.0 ≡ S.can_refuse source) }
    ensures frame { IfOk result (λ x. IfSome (S.contents source) (λ xs. IsFrame xs is_gathered x.1)) }
    ensures names { IfErr result (NamesBox (S.contents source)) }
    ensures why { IfErr result (λ e. IfSome (S.contents source) (λ xs. (boxes : List TopBox) → AreBoxes xs 0 boxes
        → IsWhyNoFrame xs boxes e)) }
    ensures refused { IfErr result (IsRefusalOf (MayRefuse (S.contents source) (S.can_refuse source)) ⊥) }
    ensures differs { IfErr result (SaysDiffers (λ _ _. ⊥)) }
{
    let (source, boxes) = top_boxes(alloc, source, len)?;
    let file_type = only_box(&boxes, BoxType::FtypBox)?;
    let movie = only_box(&boxes, BoxType::MoovBox)?;
    let (Some(file_type), Some(movie)) = (file_type, movie) else {
        return Err(RemuxError::OtherTracks);
    };
    let source = check_header(alloc, source, len, BoxType::FtypBox, file_type)?;
    let mut source = check_header(alloc, source, len, BoxType::MoovBox, movie)?;
    check_others(alloc, &mut source, len, &boxes, is_gathered)?;
    let movie_bytes = checked_bytes(alloc, &mut source, len, movie, is_gathered)?;
    let others = others_of(alloc, &boxes, is_gathered)?;
    Ok((
        source,
        Frame {
            file_type,
            movie,
            movie_bytes,
            others,
        },
    ))
}
