//! Bytes that are read by their places.

ghost use Rattle.std.specs.Prelude.{◌≡◌, ℕ, ◌+◌, ◌<◌, ◌≤◌, Bool, true, List, Option, None, length, IfOk, IfErr};
ghost use Rattle.std.specs.Prelude.{IfSome, IsTrue, OnOk, OnErr, vec_len, vec_capacity};
ghost use Rattle.std.specs.Borrow.{sem};
ghost use Rattle.std.specs.IoError.{error_kind};
ghost use Rattle.mp4_source.specs.Source.{IsPartOf, IsRefusal, HasPart, RestsAsBefore, OnIo, OnOutOfMemory};

use crate::error::SourceError;
use std::alloc::AllocError;
use std::io;
use std::io::ErrorKind;

/// Bytes that are read by their places, which count from 0.
///
/// A call leaves the bytes as they are. Where they are known, as those of a slice are, the contracts say which
/// of them a call gives, and that it fails only where the source refuses or the bytes pass the end. Nothing is
/// known of the bytes of a file.
pub trait ByteSource {
    // The bytes, where they are known. No call changes them.
    ghost contents: { Self → Option (List ℕ) } = { λ _. None };

    // Whether it may refuse to read bytes that it has. No call changes that.
    ghost can_refuse: { Self → Bool } = { λ _. true };

    /// How many bytes there are. It is an error only where the source refuses.
    fn len(&mut self) -> io::Result<u64>
        ensures value { IfOk result (λ n. IfSome (contents self.old) (λ xs. n ≡ length xs)) }
        ensures err { OnErr result (IsTrue (can_refuse self.old)) }
        ensures contents { contents self.new ≡ contents self.old }
        ensures can_refuse { can_refuse self.new ≡ can_refuse self.old };

    /// Fills the buffer with the bytes from the place on. It is an error where the source refuses, or where they
    /// pass the end, which is of the kind `UnexpectedEof` unless the source says otherwise. After an error the
    /// buffer holds any bytes.
    fn read_exact_at(&mut self, place: u64, buf: &mut [u8]) -> io::Result<()>
        ensures value { OnOk result (IsPartOf (contents self.old) place (length buf.old) buf.new) }
        ensures err { OnErr result (IsRefusal (contents self.old) place (length buf.old) (can_refuse self.old)) }
        ensures contents { contents self.new ≡ contents self.old }
        ensures can_refuse { can_refuse self.new ≡ can_refuse self.old };

    /// The n bytes from the place on, which are borrowed from the source and from `room`. A source that holds
    /// them in memory lends them, and `room` stays as it is. Else they are read into `room`, over what it held.
    ///
    /// `room` grows where it has no capacity for n bytes, but never for bytes that pass the end: before it grows,
    /// the source is asked how many bytes it has. Where that memory is refused, it is `OutOfMemory`. Where the
    /// source refuses, or the bytes pass the end, it is `Io`.
    fn part<'r>(
        &'r mut self,
        place: u64,
        n: usize,
        room: &'r mut Vec<u8>,
    ) -> Result<&'r [u8], SourceError>
        ensures len { IfOk result (λ part. length part.now ≡ n) }
        ensures value { IfOk result (λ part. IsPartOf (contents self.old) place n part.now) }
        ensures io { IfErr result (λ e. OnIo e (IsRefusal (contents self.old) place n (can_refuse self.old))) }
        ensures memory { IfErr result (λ e. OnOutOfMemory e (vec_capacity room.old < n)) }
        ensures fits { IfErr result (λ e. OnOutOfMemory e (HasPart (contents self.old) place n)) }
        ensures* after_borrow { sem 𝓛 (RestsAsBefore Self.row contents can_refuse self.entry) }
    {
        if room.capacity() < n {
            check_end(place, n, self.len()?)?;
        }
        grow_to(room, n)?;
        self.read_exact_at(place, room.as_mut_slice())?;
        Ok(room.as_slice())
    }
}

impl<S: ByteSource> ByteSource for &mut S {
    ghost contents = { λ s. S.contents s.now };

    ghost can_refuse = { λ s. S.can_refuse s.now };

    fn len(&mut self) -> io::Result<u64> {
        ByteSource::len(&mut **self)
    }

    fn read_exact_at(&mut self, place: u64, buf: &mut [u8]) -> io::Result<()> {
        ByteSource::read_exact_at(&mut **self, place, buf)
    }

    fn part<'r>(
        &'r mut self,
        place: u64,
        n: usize,
        room: &'r mut Vec<u8>,
    ) -> Result<&'r [u8], SourceError> {
        ByteSource::part(&mut **self, place, n, room)
    }
}

/// Reads the n bytes from the place on into a buffer, over what it held: it holds just them then. It grows where it has
/// no capacity for them, and where that memory is refused, it is `OutOfMemory`. After an error it holds any bytes.
pub fn read_into<S: ByteSource>(
    source: &mut S,
    place: u64,
    n: usize,
    buffer: &mut Vec<u8>,
) -> Result<(), SourceError>
    ensures len { OnOk result (vec_len buffer.new ≡ n) }
    ensures value { OnOk result (IsPartOf (S.contents source.old) place n buffer.new.items) }
    ensures io { IfErr result (λ e. OnIo e (IsRefusal (S.contents source.old) place n (S.can_refuse source.old))) }
    ensures memory { IfErr result (λ e. OnOutOfMemory e (vec_capacity buffer.old < n)) }
    ensures contents { S.contents source.new ≡ S.contents source.old }
    ensures can_refuse { S.can_refuse source.new ≡ S.can_refuse source.old }
{
    grow_to(buffer, n)?;
    source.read_exact_at(place, buffer.as_mut_slice())?;
    Ok(())
}

/// Refuses a part that passes the end of so many bytes, by `UnexpectedEof`.
pub(crate) fn check_end(place: u64, n: usize, len: u64) -> io::Result<()>
    ensures fits { OnOk result (place + n ≤ len) }
    ensures err { OnErr result (len < place + n) }
    ensures kind { IfErr result (λ e. error_kind e ≡ ErrorKind.UnexpectedEof) }
{
    if place > len || len - place < n as u64 {
        return Err(io::Error::new(ErrorKind::UnexpectedEof, "the part passes the end"));
    }
    Ok(())
}

/// Makes room of n bytes, of any values. What it holds isn't copied where it has to grow.
pub(crate) fn grow_to(room: &mut Vec<u8>, n: usize) -> Result<(), AllocError>
    ensures len { OnOk result (vec_len room.new ≡ n) }
    ensures full { OnErr result (vec_capacity room.old < n) }
{
    if room.capacity() < n {
        room.clear();
    }
    room.resize(n, 0)
}
