//! The entries of a box's list.

ghost use Rattle.std.specs.Prelude.{◌≡◌, ℕ, List, length, Result, Ok, OnOk, min, ◌^◌, ◌-◌, ◌*◌, ◌<◌, ◌≤◌};
ghost use Rattle.std.specs.List.{flat_map};
ghost use Rattle.mp4_codec.specs.Cause.{Cause, Answers, Checks, Reads};
ghost use Rattle.mp4_codec.specs.Early.{Shows, refused_at_once};
ghost use Rattle.mp4_codec.specs.Bytes.{Appends, ◌⧺◌, Reader, list_at, count_cause, HasLength};
ghost use Rattle.mp4_codec.specs.Blocks.{is_block-has_length};

use crate::block::{Block, read_block, read_blocks};
use crate::error::{Error, Field, Result};
use crate::fields::Fields;
use crate::items::Items;
use crate::put::Put;
use std::alloc::Global;

/// An entry of a box's list. Its length in bytes depends on nothing but the version of the box.
pub trait Entry: Copy {
    ghost at: { ℕ → Reader Self };

    ghost encoded: { ℕ → Self → List ℕ };

    /// The values that a version encodes apart from one another.
    ghost Fits: { ℕ → Self → Type 0 };

    ghost bytes_each: { ℕ → ℕ };

    /// The bytes of one entry.
    fn size(version: u8) -> u64
        ensures { result ≡ bytes_each version };

    /// The next entry.
    fn read(fields: &mut Fields, version: u8) -> Field<Self>
        ensures { Reads (λ x. (x, fields.new)) result (at version fields.old) };

    /// The next entries, so many, where the bytes of all of them are there; the list grows once.
    fn read_all(
        alloc: Global,
        fields: &mut Fields,
        version: u8,
        count: usize,
    ) -> Result<Items<Self>>
        requires { count * bytes_each version ≤ length fields.old }
        ensures { Answers (λ xs. (xs, fields.new)) result (list_at (at version) count fields.old) }
    {
        let mut items = Vec::with_capacity(alloc, count)?;
        for _ in 0..count {
            let item = Self::read(fields, version)?;
            items.push_reserved(item);
        }
        Ok(Items::from(items))
    }

    /// Adds the entry at the end of a buffer.
    fn put(self, out: &mut Vec<u8>, version: u8) -> Put
        ensures { OnOk result (Appends out.old.items out.new.items (encoded version self)) };

    ghost again: { (version : ℕ) (x : Self) (rest : List ℕ) → Fits version x
        → at version (encoded version x ⧺ rest) ≡ Ok (x, rest) };

    ghost length_encoded: { (version : ℕ) (x : Self) → length (encoded version x) ≡ bytes_each version };

    ghost has_length: { (version : ℕ) → HasLength (at version) (bytes_each version) };
}

impl<'a> Fields<'a> {
    /// Whether so many entries of this many bytes each are left.
    fn check_count(&self, count: usize, each: u64) -> Result<()>
        ensures { Checks result (count_cause count each self.now) }
    {
        let bytes = count as u128 * each as u128;
        if bytes > self.len() as u128 {
            return Err(Error::InvalidData("a list passes the end"));
        }
        Ok(())
    }

    /// So many entries. Where they pass the end they are `InvalidData`, before memory is requested; else the list grows
    /// once.
    pub fn list<T: Entry>(&mut self, alloc: Global, version: u8, count: usize) -> Result<Items<T>>
        ensures value { Answers (λ xs. (xs, self.new)) result (list_at (T.at version) count self.old) }
        ensures early { Shows (refused_at_once (list_at (T.at version) count self.old)) result }
    {
        self.check_count(count, T::size(version))?;
        T::read_all(alloc, self, version, count)
    }
}

/// Adds the entries of a list, one after the other.
pub fn put_list<T: Entry>(out: &mut Vec<u8>, version: u8, items: &[T]) -> Put
    ensures { OnOk result (Appends out.old.items out.new.items (flat_map (T.encoded version) items.now)) }
{
    for item in items {
        item.put(out, version)?;
    }
    Ok(())
}

/// The bytes of the entries of a list; it stops at 2^64 - 1.
pub fn list_size<T: Entry>(version: u8, items: &[T]) -> u64
    ensures { result ≡ min (length (flat_map (T.encoded version) items.now)) (2 ^ 64 - 1) }
{
    (items.len() as u64).saturating_mul(T::size(version))
}

/// An entry in a block is the same in any version of the box, and a list of such entries is read as a whole.
impl<T: Block> Entry for T {
    ghost at = { λ _. T.at };

    ghost encoded = { λ _. T.encoded };

    ghost Fits = { λ _. T.Fits };

    ghost bytes_each = { λ _. T.SIZE };

    ghost again = { λ _. T.again };

    ghost length_encoded = { λ _. T.length_encoded };

    ghost has_length = { λ _. is_block-has_length T.at T.SIZE T.in_block T.is_block };

    fn size(_version: u8) -> u64 {
        T::SIZE as u64
    }

    fn read(fields: &mut Fields, _version: u8) -> Field<T> {
        read_block(fields)
    }

    fn read_all(
        alloc: Global,
        fields: &mut Fields,
        _version: u8,
        count: usize,
    ) -> Result<Items<T>> {
        read_blocks(alloc, fields, count)
    }

    fn put(self, out: &mut Vec<u8>, _version: u8) -> Put {
        self.put_block(out)
    }
}
