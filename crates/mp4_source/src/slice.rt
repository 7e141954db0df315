//! Bytes in memory.

ghost use Rattle.std.specs.Prelude.{[], ◌≡◌, ◌+◌, ◌<◌, ◌≤◌, Some, false, length, take, drop, IfOk, IfErr};
ghost use Rattle.std.specs.Prelude.{OnOk, OnErr, vec_capacity};
ghost use Rattle.std.specs.IoError.{error_kind};
ghost use Rattle.std.specs.Borrow.{sem, u8 as byte};
ghost use Rattle.mp4_source.specs.Source.{HasPart, IsPartOf, IsRefusal, RestsAsBefore, OnIo, OnOutOfMemory};
ghost use denote.Slice.{ShrSlice};
ghost use mir.Syntax.{named};

use crate::error::SourceError;
use crate::source::{ByteSource, check_end};
use std::io;
use std::io::ErrorKind;

/// It never refuses. `part` lends the bytes themselves and takes no memory. A part that passes the end is of the
/// kind `UnexpectedEof`.
impl ByteSource for &[u8] {
    ghost contents = { λ s. Some s.now };

    ghost can_refuse = { λ _. false };

    fn len(&mut self) -> io::Result<u64> {
        let all: &[u8] = *self;
        Ok(all.len() as u64)
    }

    fn read_exact_at(&mut self, place: u64, buf: &mut [u8]) -> io::Result<()> {
        let all: &[u8] = *self;
        let part = part_of(all, place, buf.len())?;
        buf.copy_from_slice(part);
        Ok(())
    }

    fn part<'r>(
        &'r mut self,
        place: u64,
        n: usize,
        room: &'r mut Vec<u8>,
    ) -> Result<&'r [u8], SourceError>
        ensures len { IfOk result (λ part. length part.now ≡ n) }
        ensures value { IfOk result (λ part. IsPartOf (Some self.old.now) place n part.now) }
        ensures io { IfErr result (λ e. OnIo e (IsRefusal (Some self.old.now) place n false)) }
        ensures memory { IfErr result (λ e. OnOutOfMemory e (vec_capacity room.old < n)) }
        ensures fits { IfErr result (λ e. OnOutOfMemory e (HasPart (Some self.old.now) place n)) }
        ensures* after_borrow { sem 𝓛 (RestsAsBefore (ShrSlice (named 1) [] byte)
            (λ s. Some s.now) (λ _. false) self.entry) }
        ensures end { OnErr result (length self.old.now < place + n) }
        ensures lent { IfErr result (λ e. OnOutOfMemory e ⊥) }
    {
        let all: &[u8] = *self;
        let part = part_of(all, place, n)?;
        Ok(part)
    }
}

/// The n bytes from the place on. Where they pass the end it is `UnexpectedEof`.
fn part_of(bytes: &[u8], place: u64, n: usize) -> io::Result<&[u8]>
    ensures len { IfOk result (λ part. length part.now ≡ n) }
    ensures value { IfOk result (λ part. part.now ≡ take n (drop place bytes.now)) }
    ensures fits { OnOk result (place + n ≤ length bytes.now) }
    ensures err { OnErr result (length bytes.now < place + n) }
    ensures kind { IfErr result (λ e. error_kind e ≡ ErrorKind.UnexpectedEof) }
{
    check_end(place, n, bytes.len() as u64)?;
    let start = place as usize;
    Ok(&bytes[start..start + n])
}
