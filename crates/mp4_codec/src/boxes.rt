//! The traits of a box.

ghost use Rattle.std.specs.Prelude.{◌≡◌, ℕ, ◌+◌, ◌^◌, ◌<◌, List, length, Option, Result, Ok, OnOk};
ghost use Rattle.mp4_codec.specs.declared.box_type.BoxType.{BoxType};
ghost use Rattle.mp4_codec.specs.Cause.{Cause, Answers, AnswersCause, Checks};
ghost use Rattle.mp4_codec.specs.Early.{Early, Shows, early_at};
ghost use Rattle.mp4_codec.specs.Bytes.{Appends};
ghost use Rattle.mp4_codec.specs.Boxes.{size_around, box_at, box_bytes, write_cause, Writes, IsCanonical};

use crate::box_type::BoxType;
use crate::cursor::ByteCursor;
use crate::error::{Error, Limit, Result};
use crate::exact_eq::ExactEq;
use crate::header::HEADER_SIZE;
use crate::in_range::InRange;
use crate::put::{Put, put_u32};
use std::alloc::Global;

/// A box. What it means is its payload, the bytes after its header.
pub trait Mp4Box {
    ghost KIND: { BoxType };

    /// The type of all boxes of this kind.
    const KIND: BoxType;

    ghost payload: { Self → List ℕ };

    /// The type of the box.
    fn box_type(&self) -> BoxType
        ensures { result ≡ KIND }
    {
        Self::KIND
    }

    /// The length of the box in bytes, its header of 8 bytes included; it stops at 2^64 - 1.
    fn box_size(&self) -> u64
        ensures { result ≡ size_around (payload self.now) };
}

/// A box that can be read. What a payload means is its value, or why it has none.
pub trait ReadBox: Sized + Drop {
    ghost value: { List ℕ → Result Self Cause };

    /// What a payload shows before memory is requested: where it shows a cause, just that cause is answered.
    ghost early: { List ℕ → Early };

    /// The value of a payload.
    fn read_payload(alloc: Global, payload: &[u8]) -> Result<Self>
        ensures value { Answers (λ x. x) result (value payload.now) }
        ensures early { Shows (early payload.now) result };

    /// The box of this size whose payload is at the cursor; the size counts a header of 8 bytes.
    ///
    /// `InvalidData` for a size below 8, `EndOfData` where fewer than `size - 8` bytes are left, both before memory is
    /// requested; else the answer is that of those bytes alone. On Ok the cursor is at the end of the box, after a
    /// refusal at any place.
    fn read_box(alloc: Global, reader: &mut ByteCursor, size: u64) -> Result<Self>
        ensures value { Answers (λ x. (x, reader.new)) result (box_at value size reader.old) }
        ensures early { Shows (early_at early size reader.old) result }
        ensures same { reader.new.bytes ≡ reader.old.bytes }
    {
        if size < HEADER_SIZE {
            return Err(Error::InvalidData("a size below 8"));
        }
        let payload = reader.take(size - HEADER_SIZE)?;
        Self::read_payload(alloc, payload)
    }
}

/// A box that can be written.
pub trait WriteBox: Mp4Box + ReadBox + InRange + ExactEq {
    /// Why a value is not written, whatever its size.
    ghost refusal: { Self → Option Cause };

    /// What the layout asks of a value beside its ranges, so that it reads back equal: flags of 24 bits, a text without
    /// a zero byte and the like.
    ghost IsWellFormed: { Self → Type 0 };

    /// Whether the value can be written, whatever its size: the first refusal of a leaf in written order.
    fn check(&self) -> Result<()>
        ensures { Checks result (refusal self.now) };

    /// Adds the payload at the end of a buffer. Where a request for memory is refused, the buffer may hold a part of
    /// it.
    fn put_payload(&self, out: &mut Vec<u8>) -> Put
        requires { 8 + length (Self.payload self.now) < 2 ^ 32 }
        ensures { OnOk result (Appends out.old.items out.new.items (Self.payload self.now)) };

    /// Adds the box at the end of a buffer. Where a request for memory is refused, the buffer may hold a part of it.
    #[tactic(auto, unfolding(crate::specs::Boxes::box_bytes))]
    fn put_box(&self, out: &mut Vec<u8>) -> Put
        requires { 8 + length (Self.payload self.now) < 2 ^ 32 }
        ensures { OnOk result (Appends out.old.items out.new.items (box_bytes Self.KIND (Self.payload self.now))) }
    {
        put_u32(out, self.box_size() as u32)?;
        put_u32(out, u32::from(self.box_type()))?;
        self.put_payload(out)?;
        Ok(())
    }

    /// Adds the box at the end of a buffer, and answers its length in bytes, which is that of `box_size`.
    ///
    /// `TooLarge(BoxSize)` where that passes 2^32 - 1, then the first refusal of a leaf in written order, both before
    /// memory is requested. A refused call leaves the buffer as before, also when memory ran out.
    fn write_box(&self, writer: &mut Vec<u8>) -> Result<u64>
        ensures cause { AnswersCause (write_cause (Self.payload self.now) (refusal self.now)) result }
        ensures bytes { Writes writer.old.items writer.new.items result (box_bytes Self.KIND (Self.payload self.now)) }
    {
        let size = self.box_size();
        if size > u32::MAX as u64 {
            return Err(Error::TooLarge(Limit::BoxSize));
        }
        self.check()?;
        let mut bytes = Vec::with_capacity(*writer.allocator(), size as usize)?;
        self.put_box(&mut bytes)?;
        writer.extend_from_slice(&bytes)?;
        Ok(size)
    }

    /// What is canonical reads back equal.
    ghost reads_back: { (x : Self) → IsCanonical Self.IsInRange IsWellFormed Self.payload refusal x
        → Self.value (Self.payload x) ≡ Ok x };
}
