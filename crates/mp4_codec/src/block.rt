//! Values that are in blocks of bytes, one block for each.

ghost use Rattle.std.specs.Prelude.{◌≡◌, ◌≤◌, ◌<◌, ◌*◌, ◌^◌, ℕ, List, length, FitsSigned, Ok, OnOk};
ghost use Rattle.std.specs.Int.{w32, cast_signed};
ghost use Rattle.byteorder.specs.Endian.{big_number};
ghost use Rattle.mp4_codec.specs.Cause.{Answers, Reads};
ghost use Rattle.mp4_codec.specs.Bytes.{Appends, ◌⧺◌, Reader, number_at, number, int32_at, int32, four_cc_at, four_cc};
ghost use Rattle.mp4_codec.specs.Bytes.{coded, IsCode, list_at};
ghost use Rattle.mp4_codec.specs.Blocks.{block_at, IsBlock, number-is_block, int32-is_block, four_cc-is_block};
ghost use Rattle.mp4_codec.specs.FieldLaws.{number_again, length-number, int32_again, length-int32, four_cc_again};
ghost use Rattle.mp4_codec.specs.FieldLaws.{length-four_cc};

use crate::error::{Field, Result};
use crate::fields::Fields;
use crate::four_cc::FourCC;
use crate::items::Items;
use crate::put::{Put, put_four_cc, put_i32, put_u32, put_u64};
use byteorder::{BigEndian, ByteOrder};
use std::alloc::Global;

/// A value that is in a block of bytes: as many for each value, whatever they are. It says its layout once for each
/// direction, in `from_block` and in `put_block`.
pub trait Block: Copy {
    ghost SIZE: { ℕ };

    /// The bytes of a block.
    const SIZE: usize;

    ghost in_block: { List ℕ → Self };

    ghost at: { Reader Self };

    ghost encoded: { Self → List ℕ };

    /// The values that are encoded apart from one another.
    ghost Fits: { Self → Type 0 };

    /// The value of a block.
    fn from_block(block: &[u8]) -> Self
        requires { length block.now ≡ SIZE }
        ensures { result ≡ in_block block.now };

    /// Adds the block of the value at the end of a buffer.
    fn put_block(self, out: &mut Vec<u8>) -> Put
        ensures { OnOk result (Appends out.old.items out.new.items (encoded self)) };

    ghost is_block: { IsBlock at SIZE in_block };

    ghost again: { (x : Self) (rest : List ℕ) → Fits x → at (encoded x ⧺ rest) ≡ Ok (x, rest) };

    ghost length_encoded: { (x : Self) → length (encoded x) ≡ SIZE };
}

impl Block for u32 {
    ghost SIZE = { 4 };

    const SIZE: usize = 4;

    ghost in_block = { big_number 4 };

    ghost at = { number_at 4 };

    ghost encoded = { number 4 };

    ghost Fits = { λ n. n < 2 ^ 32 };

    ghost is_block = { number-is_block 4 };

    ghost again = { number_again 4 };

    ghost length_encoded = { length-number 4 };

    fn from_block(block: &[u8]) -> u32 {
        BigEndian::read_u32(block)
    }

    fn put_block(self, out: &mut Vec<u8>) -> Put {
        put_u32(out, self)
    }
}

impl Block for i32 {
    ghost SIZE = { 4 };

    const SIZE: usize = 4;

    ghost in_block = { λ block. cast_signed w32 (big_number 4 block) };

    ghost at = { int32_at };

    ghost encoded = { int32 };

    ghost Fits = { FitsSigned w32 };

    ghost is_block = { int32-is_block };

    ghost again = { int32_again };

    ghost length_encoded = { length-int32 };

    fn from_block(block: &[u8]) -> i32 {
        BigEndian::read_u32(block).cast_signed()
    }

    fn put_block(self, out: &mut Vec<u8>) -> Put {
        put_i32(out, self)
    }
}

impl Block for u64 {
    ghost SIZE = { 8 };

    const SIZE: usize = 8;

    ghost in_block = { big_number 8 };

    ghost at = { number_at 8 };

    ghost encoded = { number 8 };

    ghost Fits = { λ n. n < 2 ^ 64 };

    ghost is_block = { number-is_block 8 };

    ghost again = { number_again 8 };

    ghost length_encoded = { length-number 8 };

    fn from_block(block: &[u8]) -> u64 {
        BigEndian::read_u64(block)
    }

    fn put_block(self, out: &mut Vec<u8>) -> Put {
        put_u64(out, self)
    }
}

impl Block for FourCC {
    ghost SIZE = { 4 };

    const SIZE: usize = 4;

    ghost in_block = { λ block. coded (big_number 4 block) };

    ghost at = { four_cc_at };

    ghost encoded = { four_cc };

    ghost Fits = { IsCode };

    ghost is_block = { four_cc-is_block };

    ghost again = { four_cc_again };

    ghost length_encoded = { length-four_cc };

    fn from_block(block: &[u8]) -> FourCC {
        FourCC::from(BigEndian::read_u32(block))
    }

    fn put_block(self, out: &mut Vec<u8>) -> Put {
        put_four_cc(out, self)
    }
}

/// The value of the next block.
#[tactic(auto, unfolding(crate::specs::Blocks::block_at, crate::specs::Bytes::bytes_at))]
pub(crate) fn read_block<T: Block>(fields: &mut Fields) -> Field<T>
    ensures { Reads (λ x. (x, fields.new)) result (block_at T.SIZE T.in_block fields.old) }
{
    let block = fields.bytes(T::SIZE)?;
    Ok(T::from_block(block))
}

/// The values of the next blocks, where all of them are there: they are those that are read one after the other, but
/// their bytes are tested for once and not at each value, and the list grows once.
pub fn read_blocks<T: Block>(alloc: Global, fields: &mut Fields, count: usize) -> Result<Items<T>>
    requires { count * T.SIZE ≤ length fields.old }
    ensures { Answers (λ xs. (xs, fields.new)) result (list_at (block_at T.SIZE T.in_block) count fields.old) }
{
    let mut values = Vec::with_capacity(alloc, count)?;
    let mut rest = fields.rest();
    for _ in 0..count {
        let (block, after) = rest.split_at(T::SIZE);
        values.push_reserved(T::from_block(block));
        rest = after;
    }
    *fields = Fields::new(rest);
    Ok(Items::from(values))
}
