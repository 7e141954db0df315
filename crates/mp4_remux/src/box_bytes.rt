//! Boxes as bytes, whatever is in them.

ghost use Rattle.std.specs.Prelude.{◌≡◌, ◌↔◌, ◌+◌, ◌-◌, ◌^◌, ◌≤◌, ◌<◌, ◌++◌, ℕ, List, length, take, None};
ghost use Rattle.std.specs.Prelude.{IfErr, IfNone, IfSome, IsTrue, OnOk};
ghost use Rattle.mp4_remux.specs.Kept.{IsAmong, IsFirstBox};
ghost use Rattle.mp4_remux.specs.Edited.{EndsSized, IsHeader, IsSized};
ghost use Rattle.mp4_remux.specs.References.{first_part};

use mp4_codec::{BoxHeader, BoxType, ByteCursor, Error, HEADER_SIZE, Limit, OPEN_END, Put, Result};

/// A box with which some bytes begin.
#[derive(Clone, Copy)]
pub(crate) struct BoxBytes<'a> {
    pub name: BoxType,
    /// Its header, of 8 bytes or 16.
    pub header: &'a [u8],
    pub payload: &'a [u8],
    /// The bytes after it.
    pub after: &'a [u8],
}

/// The box with which bytes begin; none where they begin with no whole one (ISO/IEC 14496-12, 4.2).
pub(crate) fn first_box(bytes: &[u8]) -> Option<BoxBytes>
    ensures first { IfSome result (λ b. IsFirstBox bytes.now b.name b.header.now b.payload.now b.after.now) }
    ensures after { IfSome result (λ b. length b.after.now < length bytes.now) }
    ensures header { IfSome result (λ b. 8 ≤ length b.header.now) }
    ensures framed { IfSome result (λ b. IsHeader b.header.now (length b.header.now)) }
    ensures none { IfNone result (first_part bytes.now ≡ None) }
{
    let mut cursor = ByteCursor::new(bytes);
    let Ok(header) = BoxHeader::read(&mut cursor) else {
        return None;
    };
    let from = cursor.position();
    let len = bytes.len() as u64;
    if header.size == OPEN_END || from > len || header.size - HEADER_SIZE > len - from {
        return None;
    }
    let (head, rest) = bytes.split_at(from as usize);
    let (payload, after) = rest.split_at((header.size - HEADER_SIZE) as usize);
    Some(BoxBytes {
        name: header.name,
        header: head,
        payload,
        after,
    })
}

/// A box of a file that was found.
#[derive(Clone, Copy)]
pub(crate) struct FoundBox {
    pub name: BoxType,
    /// Where it begins in the file.
    pub place: u64,
}

impl<'a> BoxBytes<'a> {
    /// Where the box begins in the file, of which bytes end at a place that begin with it.
    pub fn place_before(&self, end: u64) -> u64
        ensures { result ≡ end - length self.now.after.now
            - (length self.now.header.now + length self.now.payload.now) }
    {
        let len = self.header.len() as u64 + self.payload.len() as u64;
        end.saturating_sub(self.after.len() as u64)
            .saturating_sub(len)
    }

    /// Where its payload ends in the file, of which bytes end at a place that begin with the box.
    pub fn payload_end(&self, end: u64) -> u64
        ensures { result ≡ end - length self.now.after.now }
    {
        end.saturating_sub(self.after.len() as u64)
    }

    /// The box as it was found among bytes of the file that end at this place.
    pub fn found_before(&self, end: u64) -> FoundBox
        ensures name { result.name ≡ self.now.name }
        ensures place { result.place ≡ end - length self.now.after.now
            - (length self.now.header.now + length self.now.payload.now) }
    {
        FoundBox {
            name: self.name,
            place: self.place_before(end),
        }
    }
}

/// Adds a box as it is.
pub(crate) fn put_whole(one: &BoxBytes, out: &mut Vec<u8>) -> Put
    ensures { OnOk result (out.new.items ≡ out.old.items ++ (one.now.header.now ++ one.now.payload.now)) }
{
    out.extend_from_slice(one.header)?;
    out.extend_from_slice(one.payload)
}

/// Writes the size of a box, all of whose bytes these are, into its header, which has so many bytes: 8, or 16 where the
/// size has 64 bits. `TooLarge(BoxSize)` where it doesn't fit.
pub(crate) fn put_size(bytes: &mut [u8], header: usize) -> Result<()>
    ensures sized { OnOk result ((head payload : List ℕ) → IsHeader head header → bytes.old ≡ head ++ payload
        → IsSized head payload bytes.new) }
    ensures refused { IfErr result (λ e. (e ≡ Error.TooLarge Limit.BoxSize)
        × ((header < 16) × (2 ^ 32 ≤ length bytes.old))) }
{
    let size = bytes.len() as u64;
    if header >= 16 && bytes.len() >= 16 {
        bytes[8..16].copy_from_slice(&size.to_be_bytes());
        return Ok(());
    }
    let Ok(size) = u32::try_from(size) else {
        return Err(Error::TooLarge(Limit::BoxSize));
    };
    if bytes.len() >= 4 {
        bytes[..4].copy_from_slice(&size.to_be_bytes());
    }
    Ok(())
}

/// Ends a box that was begun at this place of a buffer, with a header of so many bytes: its size is written.
pub(crate) fn end_box(out: &mut Vec<u8>, start: usize, header: usize) -> Result<()>
    ensures sized { OnOk result ((before head payload : List ℕ) → length before ≡ start → IsHeader head header
        → out.old.items ≡ before ++ (head ++ payload) → EndsSized before head payload out.new.items) }
    ensures refused { IfErr result (λ e. (e ≡ Error.TooLarge Limit.BoxSize)
        × ((header < 16) × (start + 2 ^ 32 ≤ length out.old.items))) }
{
    if start <= out.len() {
        put_size(&mut out[start..], header)?;
    }
    Ok(())
}

/// Whether the code of a type is one of these.
pub(crate) fn is_among(codes: &[u32], name: BoxType) -> bool
    ensures { IsTrue result ↔ IsAmong codes.now name }
{
    codes.contains(&u32::from(name))
}
