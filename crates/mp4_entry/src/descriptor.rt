//! Descriptors (ISO/IEC 14496-1, 8.3.3): a tag, a length and a body.
//!
//! They are read leniently: a body that passes the end of its parent is cut there, and zeros stand for all bytes that
//! are missing, one by one.

ghost use Rattle.std.specs.Prelude.{◌≡◌, ℕ, List, drop};
ghost use Rattle.std.specs.Option.{option_map};
ghost use Rattle.mp4_entry.specs.Descriptor.{padded_at, length_at, descriptor_at, first_of};

use std::marker::Model;

/// Bytes that zeros follow, as many as are asked for.
#[derive(Drop)]
pub(crate) struct Padded<'a> {
    rest: &'a [u8],
}

impl<'a> Model for Padded<'a> {
    ghost Value = { List ℕ };

    ghost view = { λ s. s.rest.now };
}

impl<'a> Padded<'a> {
    /// All of these bytes.
    pub(crate) fn new(bytes: &'a [u8]) -> Self
        ensures { result ≡ bytes.now }
    {
        Padded { rest: bytes }
    }

    /// All bytes that are left.
    pub(crate) fn rest(&self) -> &'a [u8]
        ensures { result.now ≡ self.now }
    {
        self.rest
    }

    /// Passes over so many bytes, or over all where fewer are left.
    pub(crate) fn skip(&mut self, n: usize)
        ensures { self.new ≡ drop n self.old }
    {
        let n = n.min(self.rest.len());
        self.rest = &self.rest[n..];
    }

    /// A number of one byte.
    #[tactic(auto, unfolding(crate::specs::Descriptor::padded_at))]
    pub(crate) fn u8(&mut self) -> u8
        ensures { (result, self.new) ≡ padded_at 1 self.old }
    {
        match self.rest.split_first() {
            None => 0,
            Some((byte, rest)) => {
                self.rest = rest;
                *byte
            }
        }
    }

    /// A number of two bytes, the high one first.
    pub(crate) fn u16(&mut self) -> u16
        ensures { (result, self.new) ≡ padded_at 2 self.old }
    {
        let high = self.u8();
        let low = self.u8();
        high as u16 * 256 + low as u16
    }

    /// A number of three bytes, the highest first.
    pub(crate) fn u24(&mut self) -> u32
        ensures { (result, self.new) ≡ padded_at 3 self.old }
    {
        let high = self.u8();
        let low = self.u16();
        high as u32 * 65536 + low as u32
    }

    /// A number of four bytes, the highest first.
    pub(crate) fn u32(&mut self) -> u32
        ensures { (result, self.new) ≡ padded_at 4 self.old }
    {
        let high = self.u16();
        let low = self.u16();
        high as u32 * 65536 + low as u32
    }

    /// A number of six bytes, the highest first.
    pub(crate) fn u48(&mut self) -> u64
        ensures { (result, self.new) ≡ padded_at 6 self.old }
    {
        let high = self.u16();
        let low = self.u32();
        high as u64 * 0x1_0000_0000 + low as u64
    }

    /// The length of a body: seven bits of each byte, the high ones first. The high bit of a byte says that another
    /// follows; the fourth byte is the last in any case.
    fn length(&mut self) -> u32
        ensures { (result, self.new) ≡ length_at 4 0 self.old }
    {
        let mut length = 0u32;
        for _ in 0u32..4 {
            let byte = self.u8();
            length = length * 128 + (byte % 128) as u32;
            if byte < 128 {
                return length;
            }
        }
        length
    }

    /// The next descriptor, its tag and its body; None where no byte is left.
    #[tactic(auto, unfolding(crate::specs::Descriptor::descriptor_at))]
    fn descriptor(&mut self) -> Option<(u8, &'a [u8])>
        ensures { option_map (λ d. ((d.0, d.1.now), self.new)) result ≡ descriptor_at self.old }
    {
        let (tag, after_tag) = self.rest.split_first()?;
        self.rest = after_tag;
        let length = self.length() as usize;
        let (body, rest) = self.rest.split_at(length.min(self.rest.len()));
        self.rest = rest;
        Some((*tag, body))
    }
}

/// The body of the first descriptor of this tag; an empty one where there is none.
pub(crate) fn first_body(bytes: &[u8], tag: u8) -> &[u8]
    ensures { result.now ≡ first_of tag bytes.now }
{
    let mut rest = Padded::new(bytes);
    while let Some((other, body)) = rest.descriptor() {
        if other == tag {
            return body;
        }
    }
    &[]
}
