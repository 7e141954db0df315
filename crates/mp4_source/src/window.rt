//! A source whose small reads are few.

ghost use Rattle.std.specs.Prelude.{◌≡◌, ◌+◌, ◌≤◌, IfOk, IfErr, IsTrue, vec_len};
ghost use Rattle.mp4_source.specs.Source.{IsNotEmpty, OnIo, OnOutOfMemory};
ghost use Rattle.mp4_source.specs.Block.{IsBlockOf};

use crate::block::Block;
use crate::error::SourceError;
use crate::source::{ByteSource, check_end, grow_to};
use std::alloc::Global;
use std::io;
use std::marker::Model;

/// How many bytes a window holds at most: 32 KiB.
pub const BLOCK_SIZE: usize = 32768;

/// A source, and a block of its bytes, so that many small reads are few calls of the source.
///
/// A read of bytes that the block doesn't hold fills the block from their place on, or up to the source's end
/// where fewer bytes follow. So a walk over small headers asks its source once for each block, and once after
/// each skip that is longer. A read that is longer than the block goes to the source itself.
///
/// The source is asked once how many bytes it has, and never for bytes after them: those that a file grows by
/// later are not seen, and where it shrinks, what is gone is an error of the file. Contracts see a window as its
/// source.
#[derive(Debug, Drop)]
pub struct Window<S: ByteSource> {
    source: S,
    len: u64,
    block: Block,
}

impl<S: ByteSource> Model for Window<S> {
    ghost Value = { S };

    ghost view = { λ w. w.source };

    ghost invariant = { λ w. (w.block.start + vec_len w.block.bytes ≤ w.len)
        × IsBlockOf (S.contents w.source) w.len w.block.start w.block.filled w.block.bytes.items };
}

impl<S: ByteSource> Window<S> {
    /// A window over a source, which is asked for its length. It takes the memory of its block here: as many
    /// bytes as the source has, and [`BLOCK_SIZE`] at most. Where that is refused, it is `OutOfMemory`; where
    /// the source refuses, it is `Io`. After an error the source is dropped: pass `&mut` to keep it.
    pub fn new(alloc: Global, source: S) -> Result<Self, SourceError>
    where
        S: Drop,
        ensures contents { IfOk result (λ w. S.contents w ≡ S.contents source) }
        ensures can_refuse { IfOk result (λ w. S.can_refuse w ≡ S.can_refuse source) }
        ensures io { IfErr result (λ e. OnIo e (IsTrue (S.can_refuse source))) }
        ensures memory { IfErr result (λ e. OnOutOfMemory e (IsNotEmpty (S.contents source))) }
    {
        let mut source = source;
        let len = source.len()?;
        let block = Block::new(alloc, block_size(len))?;
        Ok(Window { source, len, block })
    }

    /// The source.
    pub fn get_ref(&self) -> &S
        ensures { result.now ≡ self.now }
    {
        &self.source
    }

    /// The source.
    pub fn into_inner(self) -> S
        ensures { result ≡ self }
    {
        let Window {
            source,
            len: _,
            block: _,
        } = self;
        source
    }
}

impl<S: ByteSource> ByteSource for Window<S> {
    ghost contents = { S.contents };

    ghost can_refuse = { S.can_refuse };

    /// What the source said when the window was made. It is never an error.
    fn len(&mut self) -> io::Result<u64> {
        Ok(self.len)
    }

    #[tactic(auto, using(crate::proofs::Held::held_part))]
    fn read_exact_at(&mut self, place: u64, buf: &mut [u8]) -> io::Result<()> {
        let n = buf.len();
        if self.block.holds(place, n) {
            buf.copy_from_slice(self.block.part(place, n));
            return Ok(());
        }
        if n > self.block.size() {
            check_end(place, n, self.len)?;
            return self.source.read_exact_at(place, buf);
        }
        self.block.reach(&mut self.source, self.len, place, n)?;
        buf.copy_from_slice(self.block.part(place, n));
        Ok(())
    }

    // Kept inline: docs/PERF.md, "Why these are calls".
    #[inline]
    #[tactic(auto, using(crate::proofs::Held::held_part))]
    fn part<'r>(
        &'r mut self,
        place: u64,
        n: usize,
        room: &'r mut Vec<u8>,
    ) -> Result<&'r [u8], SourceError> {
        if self.block.holds(place, n) {
            return Ok(self.block.part(place, n));
        }
        if n > self.block.size() {
            check_end(place, n, self.len)?;
            grow_to(room, n)?;
            self.source.read_exact_at(place, room.as_mut_slice())?;
            return Ok(room.as_slice());
        }
        self.block.reach(&mut self.source, self.len, place, n)?;
        Ok(self.block.part(place, n))
    }
}

/// The block's size over a source of so many bytes.
fn block_size(len: u64) -> usize
    ensures { result ≤ len }
{
    if len < BLOCK_SIZE as u64 {
        len as usize
    } else {
        BLOCK_SIZE
    }
}
