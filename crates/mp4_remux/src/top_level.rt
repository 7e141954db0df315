//! The boxes of a file, by their places.

ghost use Rattle.std.specs.Prelude.{◌≡◌, ◌+◌, ◌≤◌, ◌<◌, List, length, IfSome, IfOk, IfErr};
ghost use Rattle.mp4_source.specs.Answers.{IsLength};
ghost use Rattle.mp4_remux.specs.Refused.{SaysDiffers};
ghost use Rattle.mp4_remux.specs.Errors.{IsNamed, IsRefusalOf, MayRefuse};
ghost use Rattle.mp4_remux.specs.Named.{NamesBy};
ghost use Rattle.mp4_remux.specs.Frames.{box_len};
ghost use Rattle.mp4_remux.specs.Front.{AreBoxes, HasNoHeader, IsTopBox, top_end};

use crate::error::RemuxError;
use crate::layout::fits;
use mp4_codec::{BoxType, HEADER_SIZE, OPEN_END};
use mp4_source::{ByteSource, SourceCursor};
use std::alloc::Global;

/// A box of a file: its first byte, and the one after its last, by their places, which count from 0.
#[derive(Debug, Clone, Copy)]
pub(crate) struct TopBox {
    pub name: BoxType,
    pub place: u64,
    pub end: u64,
}

impl TopBox {
    /// How many bytes it has.
    pub fn len(&self) -> u64
        ensures { result ≡ box_len self.now }
    {
        self.end.saturating_sub(self.place)
    }
}

/// Where a box ends whose header ends there and says this size, in a file of `len` bytes: with the file where it says
/// no end, or one past it.
fn top_end(size: u64, from: u64, len: u64) -> u64
    ensures { result ≡ top_end size from len }
{
    if size == OPEN_END {
        return len;
    }
    from.saturating_add(size.saturating_sub(HEADER_SIZE))
        .min(len)
}

/// The box that begins at a place of a file of `len` bytes.
fn read_top<S: ByteSource + Drop>(
    cursor: &mut SourceCursor<S>,
    place: u64,
    len: u64,
) -> Result<TopBox, RemuxError>
    requires len { IsLength (S.contents cursor.old.source) cursor.old.len }
    requires measured { IsLength (S.contents cursor.old.source) len }
    requires room { place + 8 ≤ len }
    ensures top { IfOk result (λ b. IfSome (S.contents cursor.old.source) (λ xs. IsTopBox xs b)) }
    ensures place { IfOk result (λ b. b.place ≡ place) }
    ensures moved { IfOk result (λ b. place < b.end) }
    ensures named { IfErr result (λ e. IsNamed e → HasNoHeader (S.contents cursor.old.source) place) }
    ensures names { IfErr result (NamesBy (λ _ _. ⊥)) }
    ensures contents { S.contents cursor.new.source ≡ S.contents cursor.old.source }
    ensures can_refuse { S.can_refuse cursor.new.source ≡ S.can_refuse cursor.old.source }
    ensures same_len { cursor.new.len ≡ cursor.old.len }
    ensures refused { IfErr result (IsRefusalOf
        (MayRefuse (S.contents cursor.old.source) (S.can_refuse cursor.old.source)) ⊥) }
    ensures differs { IfErr result (SaysDiffers (λ _ _. ⊥)) }
{
    cursor.set_position(place);
    let header = cursor.read_header()?;
    Ok(TopBox {
        name: header.name,
        place,
        end: top_end(header.size, cursor.position(), len),
    })
}

/// The source, and the boxes of its file of `len` bytes, in their order. One whose end is open, or passes the file's,
/// ends with the file.
pub(crate) fn top_boxes<S: ByteSource + Drop>(
    alloc: Global,
    source: S,
    len: u64,
) -> Result<(S, Vec<TopBox>), RemuxError>
    requires { IsLength (S.contents source) len }
    ensures boxes { IfOk result (λ x. IfSome (S.contents source) (λ xs. AreBoxes xs 0 x.1.items)) }
    ensures none { IfErr result (λ e. IsNamed e → IfSome (S.contents source) (λ xs.
        (bs : List TopBox) → AreBoxes xs 0 bs → ⊥)) }
    ensures names { IfErr result (NamesBy (λ _ _. ⊥)) }
    ensures contents { IfOk result (λ x. S.contents x.0 ≡ S.contents source) }
    ensures can_refuse { IfOk result (λ x. S.can_refuse x.0 ≡ S.can_refuse source) }
    ensures refused { IfErr result (IsRefusalOf (MayRefuse (S.contents source) (S.can_refuse source)) ⊥) }
    ensures differs { IfErr result (SaysDiffers (λ _ _. ⊥)) }
{
    let mut boxes = Vec::new(alloc);
    let mut cursor = SourceCursor::new(alloc, source, 0)?;
    let mut place = 0;
    while fits(place, HEADER_SIZE, len) {
        let next = read_top(&mut cursor, place, len)?;
        boxes.push(next)?;
        place = next.end;
    }
    let (source, _) = cursor.into_parts();
    Ok((source, boxes))
}
