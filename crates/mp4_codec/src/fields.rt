//! The fields of a payload, read one after the other.

ghost use Rattle.std.specs.Prelude.{◌≡◌, ◌==◌, ◌≤◌, length, Ok, ℕ, List};
ghost use Rattle.mp4_codec.specs.Cause.{Answers, Reads};
ghost use Rattle.mp4_codec.specs.Bytes.{bytes_at, number_at, int16_at, int32_at, versioned_at, sized_at, four_cc_at};
ghost use Rattle.mp4_codec.specs.Bytes.{until_zero, text_at};

use crate::error::{Field, Malformed, Result};
use crate::four_cc::FourCC;
use crate::items::Items;
use byteorder::{BigEndian, ByteOrder};
use std::alloc::Global;
use std::marker::Model;

/// The bytes of a payload that are still to be read.
///
/// Numbers are big-endian. A field that passes the end is `InvalidData`, and then the bytes that are
/// left are of no further use.
#[derive(Debug, Drop)]
pub struct Fields<'a> {
    rest: &'a [u8],
}

impl<'a> Model for Fields<'a> {
    ghost Value = { List ℕ };

    ghost view = { λ s. s.rest.now };
}

impl<'a> Fields<'a> {
    /// All fields of a payload.
    pub fn new(payload: &'a [u8]) -> Self
        ensures { result ≡ payload.now }
    {
        Fields { rest: payload }
    }

    /// How many bytes are left.
    pub fn len(&self) -> usize
        ensures { result ≡ length self.now }
    {
        self.rest.len()
    }

    /// Whether no byte is left.
    pub fn is_empty(&self) -> bool
        ensures { result ≡ (length self.now == 0) }
    {
        self.rest.is_empty()
    }

    /// All bytes that are left.
    pub fn rest(&self) -> &'a [u8]
        ensures { result.now ≡ self.now }
    {
        self.rest
    }

    /// The next n bytes.
    #[tactic(auto, unfolding(crate::specs::Bytes::bytes_at))]
    pub fn bytes(&mut self, n: usize) -> Field<&'a [u8]>
        ensures { Reads (λ part. (part.now, self.new)) result (bytes_at n self.old) }
    {
        if self.rest.len() < n {
            return Err(Malformed {
                text: "a field passes the end",
            });
        }
        let (front, rest) = self.rest.split_at(n);
        self.rest = rest;
        Ok(front)
    }

    /// A number of one byte.
    #[tactic(auto, unfolding(crate::specs::Bytes::bytes_at, crate::specs::Bytes::number_at))]
    pub fn u8(&mut self) -> Field<u8>
        ensures { Reads (λ n. (n, self.new)) result (number_at 1 self.old) }
    {
        let part = self.bytes(1)?;
        Ok(part[0])
    }

    /// A number of two bytes.
    #[tactic(auto, unfolding(crate::specs::Bytes::bytes_at, crate::specs::Bytes::number_at))]
    pub fn u16(&mut self) -> Field<u16>
        ensures { Reads (λ n. (n, self.new)) result (number_at 2 self.old) }
    {
        let part = self.bytes(2)?;
        Ok(BigEndian::read_u16(part))
    }

    /// A number of three bytes, as flags are.
    #[tactic(auto, unfolding(crate::specs::Bytes::bytes_at, crate::specs::Bytes::number_at))]
    pub fn u24(&mut self) -> Field<u32>
        ensures { Reads (λ n. (n, self.new)) result (number_at 3 self.old) }
    {
        let part = self.bytes(3)?;
        Ok(BigEndian::read_u24(part))
    }

    /// A number of four bytes.
    #[tactic(auto, unfolding(crate::specs::Bytes::bytes_at, crate::specs::Bytes::number_at))]
    pub fn u32(&mut self) -> Field<u32>
        ensures { Reads (λ n. (n, self.new)) result (number_at 4 self.old) }
    {
        let part = self.bytes(4)?;
        Ok(BigEndian::read_u32(part))
    }

    /// A number of eight bytes.
    #[tactic(auto, unfolding(crate::specs::Bytes::bytes_at, crate::specs::Bytes::number_at))]
    pub fn u64(&mut self) -> Field<u64>
        ensures { Reads (λ n. (n, self.new)) result (number_at 8 self.old) }
    {
        let part = self.bytes(8)?;
        Ok(BigEndian::read_u64(part))
    }

    /// A signed number of two bytes.
    #[tactic(auto, unfolding(crate::specs::Bytes::int16_at))]
    pub fn i16(&mut self) -> Field<i16>
        ensures { Reads (λ z. (z, self.new)) result (int16_at self.old) }
    {
        let bits = self.u16()?;
        Ok(bits.cast_signed())
    }

    /// A signed number of four bytes.
    #[tactic(auto, unfolding(crate::specs::Bytes::int32_at))]
    pub fn i32(&mut self) -> Field<i32>
        ensures { Reads (λ z. (z, self.new)) result (int32_at self.old) }
    {
        let bits = self.u32()?;
        Ok(bits.cast_signed())
    }

    /// A number of eight bytes in version 1 and of four in version 0; other versions are `InvalidData`.
    #[tactic(auto, unfolding(crate::specs::Bytes::versioned_at))]
    pub fn versioned(&mut self, version: u8) -> Field<u64>
        ensures { Reads (λ n. (n, self.new)) result (versioned_at version self.old) }
    {
        match version {
            0 => {
                let n = self.u32()?;
                Ok(n as u64)
            }
            1 => self.u64(),
            _ => Err(Malformed {
                text: "an unknown version",
            }),
        }
    }

    /// A number of eight bytes in version 1 and of four in any other, where the version was looked at before.
    #[tactic(auto, unfolding(crate::specs::Bytes::sized_at))]
    pub fn sized(&mut self, version: u8) -> Field<u64>
        ensures { Reads (λ n. (n, self.new)) result (sized_at version self.old) }
    {
        if version == 1 {
            return self.u64();
        }
        let n = self.u32()?;
        Ok(u64::from(n))
    }

    /// A code of four bytes.
    #[tactic(auto, unfolding(crate::specs::Bytes::four_cc_at))]
    pub fn four_cc(&mut self) -> Field<FourCC>
        ensures { Reads (λ f. (f, self.new)) result (four_cc_at self.old) }
    {
        let code = self.u32()?;
        Ok(FourCC::from(code))
    }

    /// The bytes that are left before the first zero, or all of them, which are left as they are.
    pub fn until_zero(&self, alloc: Global) -> Result<Items<u8>>
        ensures { Answers (λ text. text) result (Ok (until_zero self.now)) }
    {
        let n = zero_place(self.rest);
        Ok(Items::from(self.rest[..n].to_vec(alloc)?))
    }

    /// The bytes before the next zero, which has to be there and is passed over.
    #[tactic(auto, unfolding(crate::specs::Bytes::text_at))]
    pub fn text(&mut self) -> Field<&'a [u8]>
        ensures { Reads (λ text. (text.now, self.new)) result (text_at self.old) }
    {
        let n = zero_place(self.rest);
        let text = self.bytes(n)?;
        self.bytes(1)?;
        Ok(text)
    }
}

/// The place of the first zero, or the length.
#[tactic(auto, unfolding(crate::specs::Bytes::until_zero))]
fn zero_place(bytes: &[u8]) -> usize
    ensures place { result ≡ length (until_zero bytes.now) }
    ensures within { result ≤ length bytes.now }
{
    bytes.iter().take_while(|b| **b != 0).count()
}
