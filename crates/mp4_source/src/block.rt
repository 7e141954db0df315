//! The bytes of a source that a window holds.

ghost use Rattle.std.specs.Prelude.{◌≡◌, ◌+◌, ◌-◌, ◌≤◌, ◌<◌, ◌↔◌, length, take, drop, IsTrue, IfOk, OnOk, OnErr};
ghost use Rattle.std.specs.Prelude.{vec_len};
ghost use Rattle.mp4_source.specs.Source.{IsPartOf, IsRefusal};
ghost use Rattle.mp4_source.specs.Block.{IsHeld, IsBlockOf};

use crate::source::{ByteSource, check_end};
use std::alloc::{AllocError, Global};
use std::fmt::Debug;
use std::{fmt, io};

/// The bytes of a source from `start` on: the first `filled` of `bytes`, which are all of them or none.
#[derive(Drop)]
pub(crate) struct Block {
    pub(crate) bytes: Vec<u8>,
    pub(crate) start: u64,
    pub(crate) filled: usize,
    ghost in_bounds: { filled ≤ vec_len bytes },
}

impl Debug for Block {
    fn fmt<W: fmt::Write>(&self, f: &mut fmt::Formatter<W>) -> fmt::Result {
        f.debug_struct("Block")
            .field("start", &self.start)
            .field("filled", &self.filled)
            .finish()
    }
}

impl Block {
    /// An empty block of this size.
    pub(crate) fn new(alloc: Global, size: usize) -> Result<Block, AllocError>
        ensures size { IfOk result (λ b. vec_len b.bytes ≡ size) }
        ensures start { IfOk result (λ b. b.start ≡ 0) }
        ensures filled { IfOk result (λ b. b.filled ≡ 0) }
        ensures memory { OnErr result (0 < size) }
    {
        let mut bytes = Vec::with_capacity(alloc, size)?;
        bytes.resize(size, 0)?;
        Ok(Block {
            bytes,
            start: 0,
            filled: 0,
        })
    }

    /// How many bytes it has room for.
    pub(crate) fn size(&self) -> usize
        ensures { result ≡ vec_len self.now.bytes }
    {
        self.bytes.len()
    }

    /// Whether it holds the n bytes from the place on.
    // Kept inline: docs/PERF.md, "Why these are calls".
    #[inline]
    pub(crate) fn holds(&self, place: u64, n: usize) -> bool
        ensures { IsTrue result ↔ IsHeld place n self.now.start self.now.filled }
    {
        if place < self.start {
            return false;
        }
        let skipped = place - self.start;
        let filled = self.filled as u64;
        skipped <= filled && n as u64 <= filled - skipped
    }

    /// The n bytes from the place on.
    // Kept inline: docs/PERF.md, "Why these are calls".
    #[inline]
    pub(crate) fn part(&self, place: u64, n: usize) -> &[u8]
        requires { IsHeld place n self.now.start self.now.filled }
        ensures len { length result.now ≡ n }
        ensures value { result.now ≡ take n (drop (place - self.now.start) self.now.bytes.items) }
    {
        let skipped = (place - self.start) as usize;
        let all = self.bytes.as_slice();
        &all[skipped..skipped + n]
    }

    /// Reads the block anew, from the place on. After an error it holds nothing.
    pub(crate) fn fill<S: ByteSource>(&mut self, source: &mut S, place: u64) -> io::Result<()>
        ensures start { self.new.start ≡ place }
        ensures size { vec_len self.new.bytes ≡ vec_len self.old.bytes }
        ensures all { OnOk result (self.new.filled ≡ vec_len self.old.bytes) }
        ensures none { OnErr result (self.new.filled ≡ 0) }
        ensures value { OnOk result
            (IsPartOf (S.contents source.old) place (vec_len self.old.bytes) self.new.bytes.items) }
        ensures err { OnErr result
            (IsRefusal (S.contents source.old) place (vec_len self.old.bytes) (S.can_refuse source.old)) }
        ensures contents { S.contents source.new ≡ S.contents source.old }
        ensures can_refuse { S.can_refuse source.new ≡ S.can_refuse source.old }
    {
        self.start = place;
        self.filled = 0;
        source.read_exact_at(place, self.bytes.as_mut_slice())?;
        self.filled = self.bytes.len();
        Ok(())
    }

    /// Fills the block so that it holds the n bytes from the place on, of a source of `len` bytes: from the
    /// place on, or up to the source's end where fewer bytes follow than it has room for. Where the n bytes
    /// pass the end it is `UnexpectedEof`, and the block stays.
    // Kept a call: docs/PERF.md, "Why these are calls".
    #[cold]
    #[inline(never)]
    pub(crate) fn reach<S: ByteSource>(
        &mut self,
        source: &mut S,
        len: u64,
        place: u64,
        n: usize,
    ) -> io::Result<()>
        requires small { n ≤ vec_len self.old.bytes }
        requires end { self.old.start + vec_len self.old.bytes ≤ len }
        requires block { IsBlockOf (S.contents source.old) len self.old.start self.old.filled self.old.bytes.items }
        ensures size { vec_len self.new.bytes ≡ vec_len self.old.bytes }
        ensures end { self.new.start + vec_len self.new.bytes ≤ len }
        ensures held { OnOk result (IsHeld place n self.new.start self.new.filled) }
        ensures block { IsBlockOf (S.contents source.new) len self.new.start self.new.filled self.new.bytes.items }
        ensures err { OnErr result (IsRefusal (S.contents source.old) place n (S.can_refuse source.old)) }
        ensures contents { S.contents source.new ≡ S.contents source.old }
        ensures can_refuse { S.can_refuse source.new ≡ S.can_refuse source.old }
    {
        check_end(place, n, len)?;
        let last = len - self.size() as u64;
        let start = place.min(last);
        self.fill(source, start)
    }
}
