//! Segment indexes (`sidx`), which say places as distances from their own end (ISO/IEC 14496-12, 8.16.3).

ghost use Rattle.std.specs.Prelude.{◌≡◌, IfErr, IfSome};
ghost use Rattle.mp4_source.specs.Answers.{IsLength};
ghost use Rattle.mp4_remux.specs.Caused.{CausedByMemory};
ghost use Rattle.mp4_remux.specs.Errors.{IsRefusalOf, MayRefuse};
ghost use Rattle.mp4_remux.specs.Front.{AreBoxes, IsTopBox};
ghost use Rattle.mp4_remux.specs.Named.{IsOneOf, IsPlacing, NamesBy};

use crate::box_bytes::first_box;
use crate::error::RemuxError;
use crate::frame::bytes_of;
use crate::places::{check_top_box, is_segment_index};
use crate::top_level::TopBox;
use byteorder::{BigEndian, ByteOrder};
use mp4_source::ByteSource;
use std::alloc::Global;

/// How many bytes an entry has: of what it refers to the size, the duration, and where playing can begin.
const ENTRY: usize = 12;

/// How many bytes the longest index has: of version 1, with 16 bytes of header and as many entries as 16 bits count.
const LONGEST: u64 = 16 + 32 + 12 * 65_535;

/// The `first_offset` of an index with this payload, and the bytes from the count of its entries on; none where it is
/// too short, or of another version than 0 and 1.
fn first_offset(payload: &[u8]) -> Option<(u64, &[u8])> {
    match payload.first() {
        Some(0) if payload.len() >= 24 => {
            Some((
                u64::from(BigEndian::read_u32(&payload[16..20])),
                &payload[22..],
            ))
        }
        Some(1) if payload.len() >= 32 => {
            Some((BigEndian::read_u64(&payload[20..28]), &payload[30..]))
        }
        _ => None,
    }
}

/// How far after itself an index with this payload refers to bytes: what its first entry refers to begins so many bytes
/// after it as `first_offset` says, and that of each other entry where that of the one before ends. None where it can't
/// be read.
fn reach(payload: &[u8]) -> Option<u64> {
    let (offset, counted) = first_offset(payload)?;
    let (count, entries) = counted.split_at_checked(2)?;
    let entries = entries.get(..ENTRY * usize::from(BigEndian::read_u16(count)))?;
    let mut end = offset;
    for entry in entries.chunks_exact(ENTRY) {
        // The highest bit says whether it refers to another index.
        end = end.checked_add(u64::from(BigEndian::read_u32(entry)) % (1 << 31))?;
    }
    Some(end)
}

/// Where the bytes end that an index refers to, whose own bytes these are, and end at this place of the file; none
/// where it can't be read.
fn referred_end(bytes: &[u8], end: u64) -> Option<u64> {
    let index = first_box(bytes)?;
    end.checked_add(reach(index.payload)?)
}

/// Whether one of these boxes begins between two places, the second of which isn't among them.
fn is_any_between(boxes: &[TopBox], start: u64, end: u64) -> bool {
    for one in boxes {
        if start <= one.place && one.place < end {
            return true;
        }
    }
    false
}

/// Checks that what an index says is so too where these boxes of the file are elsewhere, and all others follow each
/// other as before: that none of these is between the index and the end of what it refers to.
fn check_index<S: ByteSource>(
    alloc: Global,
    source: &mut S,
    len: u64,
    one: TopBox,
    moved: &[TopBox],
) -> Result<(), RemuxError>
    requires len { IsLength (S.contents source.old) len }
    requires name { IsPlacing one.name }
    ensures names { IfErr result (NamesBy (λ name place. (one.name ≡ name) × (one.place ≡ place))) }
    ensures cause { IfErr result (λ e. IfSome (S.contents source.old) (λ xs. IsTopBox xs one → CausedByMemory e)) }
    ensures contents { S.contents source.new ≡ S.contents source.old }
    ensures can_refuse { S.can_refuse source.new ≡ S.can_refuse source.old }
    ensures refused { IfErr result (IsRefusalOf (MayRefuse (S.contents source.old) (S.can_refuse source.old)) ⊥) }
{
    if one.len() > LONGEST {
        return Err(RemuxError::SaysPlaces(one.name, one.place));
    }
    let bytes = bytes_of(alloc, source, len, one)?;
    match referred_end(&bytes, one.end) {
        Some(end) if !is_any_between(moved, one.end, end) => Ok(()),
        _ => Err(RemuxError::SaysPlaces(one.name, one.place)),
    }
}

/// Checks that no box of the file is a movie fragment, or says places that are wrong where these boxes of the file are
/// elsewhere, and all others follow each other as before.
pub(crate) fn check_moved<S: ByteSource>(
    alloc: Global,
    source: &mut S,
    len: u64,
    boxes: &[TopBox],
    moved: &[TopBox],
) -> Result<(), RemuxError>
    requires { IsLength (S.contents source.old) len }
    ensures names { IfErr result (NamesBy (IsOneOf boxes.now)) }
    ensures cause { IfErr result (λ e. IfSome (S.contents source.old) (λ xs. AreBoxes xs 0 boxes.now
        → CausedByMemory e)) }
    ensures contents { S.contents source.new ≡ S.contents source.old }
    ensures can_refuse { S.can_refuse source.new ≡ S.can_refuse source.old }
    ensures refused { IfErr result (IsRefusalOf (MayRefuse (S.contents source.old) (S.can_refuse source.old)) ⊥) }
{
    for i in 0..boxes.len() {
        let one = boxes[i];
        if is_segment_index(one.name) {
            check_index(alloc, source, len, one, moved)?;
        } else {
            check_top_box(one)?;
        }
    }
    Ok(())
}
