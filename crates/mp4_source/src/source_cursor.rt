//! Boxes of a source, read where they lie.

ghost use Rattle.std.specs.Prelude.{◌≡◌, ◌+◌, ◌-◌, ◌≤◌, ◌⊎◌, Ok, length, IfOk, IfErr, IfSome, OnOk, OnErr};
ghost use Rattle.std.specs.Prelude.{IsTrue, ◌↔◌, min};
ghost use Rattle.mp4_codec.specs.BoxType.{IsNamed};
ghost use Rattle.mp4_codec.specs.Boxes.{box_at};
ghost use Rattle.mp4_codec.specs.Cause.{Gives};
ghost use Rattle.mp4_codec.specs.Cursor.{here, header_at};
ghost use Rattle.mp4_codec.specs.declared.error.Error.TheVariants.{OutOfMemory};
ghost use Rattle.mp4_source.specs.Answers.{AnswersRead, IsIo, IsLength, IsSomeHeader, IsSomeValue};
ghost use Rattle.mp4_source.specs.declared.file_error.FileError.TheVariants.{Mp4};

use crate::error::SourceError;
use crate::file_error::FileError;
use crate::source::ByteSource;
use mp4_codec::{BoxHeader, ByteCursor, Error, HEADER_SIZE, ReadBox};
use std::alloc::Global;

/// The most bytes of a header.
const MOST_HEADER: u64 = 16;

/// A source, how many bytes it has, and a position in it, which counts bytes from 0 and may lie after them. What is
/// read is borrowed from the source, or read into `room`.
#[derive(Drop)]
pub struct SourceCursor<S> {
    source: S,
    len: u64,
    position: u64,
    room: Vec<u8>,
}

/// The header with which bytes begin, and its length.
fn header_of(bytes: &[u8]) -> mp4_codec::Result<(BoxHeader, u64)>
    ensures value { Gives (λ x. (x.0, here bytes.now x.1)) result (header_at (here bytes.now 0)) }
    ensures moved { IfOk result (λ x. 8 ≤ x.1) }
    ensures upto { IfOk result (λ x. x.1 ≤ length bytes.now) }
    ensures named { IfOk result (λ x. IsNamed x.0.name) }
    ensures size { IfOk result (λ x. (x.0.size ≡ 0) ⊎ (8 ≤ x.0.size)) }
    ensures memory { IfErr result (λ e. e ≡ OutOfMemory → ⊥) }
{
    let mut cursor = ByteCursor::new(bytes);
    let header = BoxHeader::read(&mut cursor)?;
    Ok((header, cursor.position()))
}

/// The header at a place of a source, and its length: the first bytes there are read into these, as many as a header
/// has at most, or all that are left.
fn read_header_of<S: ByteSource>(
    source: &mut S,
    place: u64,
    bytes: &mut [u8],
) -> Result<(BoxHeader, u64), FileError>
    requires room { IfSome (S.contents source.old) (λ all. (place + 8 ≤ length all)
        × (length bytes.old ≡ min (length all - place) 16)) }
    ensures answer { IfSome (S.contents source.old) (λ all. AnswersRead (S.can_refuse source.old)
        (λ x. (x.0, here all (place + x.1))) result (header_at (here all place))) }
    ensures header { IfOk result (λ x. IsSomeHeader x.0 x.1) }
    ensures memory { IfErr result (λ e. e ≡ Mp4 OutOfMemory → ⊥) }
    ensures moved { IfOk result (λ x. 8 ≤ x.1) }
    ensures upto { IfOk result (λ x. x.1 ≤ length bytes.old) }
    ensures named { IfOk result (λ x. IsNamed x.0.name) }
    ensures size { IfOk result (λ x. (x.0.size ≡ 0) ⊎ (8 ≤ x.0.size)) }
    ensures contents { S.contents source.new ≡ S.contents source.old }
    ensures can_refuse { S.can_refuse source.new ≡ S.can_refuse source.old }
{
    source.read_exact_at(place, bytes)?;
    Ok(header_of(bytes)?)
}

impl<S: ByteSource + Drop> SourceCursor<S> {
    /// A cursor at this position of a source, which is asked how many bytes it has.
    pub fn new(alloc: Global, source: S, position: u64) -> Result<Self, FileError>
        ensures contents { IfOk result (λ c. S.contents c.source ≡ S.contents source) }
        ensures can_refuse { IfOk result (λ c. S.can_refuse c.source ≡ S.can_refuse source) }
        ensures position { IfOk result (λ c. c.position ≡ position) }
        ensures len { IfOk result (λ c. IsLength (S.contents source) c.len) }
        ensures refused { IfErr result (λ e. IsTrue (S.can_refuse source)) }
        ensures io { IfErr result IsIo }
    {
        let mut source = source;
        let len = source.len()?;
        Ok(SourceCursor {
            source,
            len,
            position,
            room: Vec::new(alloc),
        })
    }

    /// The source, and how many bytes it has.
    pub fn into_parts(self) -> (S, u64)
        ensures { result ≡ (self.source, self.len) }
    {
        let SourceCursor {
            source,
            len,
            position: _,
            room,
        } = self;
        drop(room);
        (source, len)
    }

    /// Where the cursor is.
    pub fn position(&self) -> u64
        ensures { result ≡ self.now.position }
    {
        self.position
    }

    /// Moves the cursor to any position, also after the bytes.
    pub fn set_position(&mut self, position: u64)
        ensures { self.new ≡ record self.old { position = position } }
    {
        self.position = position;
    }

    /// Whether n bytes follow the position.
    fn has(&self, n: u64) -> bool
        ensures { IsTrue result ↔ (self.now.position + n ≤ self.now.len) }
    {
        self.position <= self.len && n <= self.len - self.position
    }

    /// The header at the cursor, which is then after it, as [`BoxHeader::read`] answers of these bytes.
    ///
    /// `Io` where the source refuses to read it. A refusal leaves the cursor where it was. It takes no memory.
    pub fn read_header(&mut self) -> Result<BoxHeader, FileError>
        requires len { IsLength (S.contents self.old.source) self.old.len }
        ensures answer { IfSome (S.contents self.old.source) (λ bytes. AnswersRead (S.can_refuse self.old.source)
            (λ h. (h, here bytes self.new.position)) result (header_at (here bytes self.old.position))) }
        ensures header { IfOk result (λ h. IsSomeHeader h (self.new.position - self.old.position)) }
        ensures moved { OnOk result (self.old.position + 8 ≤ self.new.position) }
        ensures stays { OnErr result (self.new.position ≡ self.old.position) }
        ensures memory { IfErr result (λ e. e ≡ Mp4 OutOfMemory → ⊥) }
        ensures io { IfErr result (λ e. IsIo e → self.old.position + 8 ≤ self.old.len) }
        ensures named { IfOk result (λ h. IsNamed h.name) }
        ensures size { IfOk result (λ h. (h.size ≡ 0) ⊎ (8 ≤ h.size)) }
        ensures contents { S.contents self.new.source ≡ S.contents self.old.source }
        ensures can_refuse { S.can_refuse self.new.source ≡ S.can_refuse self.old.source }
        ensures same_len { self.new.len ≡ self.old.len }
    {
        if !self.has(HEADER_SIZE) {
            return Err(FileError::from(Error::EndOfData));
        }
        let n = (self.len - self.position).min(MOST_HEADER) as usize;
        let mut bytes = [0; MOST_HEADER as usize];
        let (header, length) = read_header_of(&mut self.source, self.position, &mut bytes[..n])?;
        self.position += length;
        Ok(header)
    }

    /// The box of this size whose payload is at the cursor, which is then after it, as [`ReadBox::read_box`]
    /// answers of these bytes. Where they pass the end it is `EndOfData`, before memory is requested for them.
    ///
    /// `Io` where the source refuses to read them. A refusal leaves the cursor where it was.
    pub fn read_box<B: ReadBox>(&mut self, alloc: Global, size: u64) -> Result<B, FileError>
        requires len { IsLength (S.contents self.old.source) self.old.len }
        requires size { 8 ≤ size }
        ensures answer { IfSome (S.contents self.old.source) (λ bytes. AnswersRead (S.can_refuse self.old.source)
            (λ x. (x, here bytes self.new.position)) result (box_at B.value size (here bytes self.old.position))) }
        ensures value { IfOk result (IsSomeValue B.value) }
        ensures fits { IfErr result (λ e. e ≡ Mp4 OutOfMemory → self.old.position + (size - 8) ≤ self.old.len) }
        ensures io { IfErr result (λ e. IsIo e → self.old.position + (size - 8) ≤ self.old.len) }
        ensures moved { OnOk result (self.new.position ≡ self.old.position + (size - 8)) }
        ensures within { OnOk result (self.new.position ≤ self.old.len) }
        ensures stays { OnErr result (self.new.position ≡ self.old.position) }
        ensures contents { S.contents self.new.source ≡ S.contents self.old.source }
        ensures can_refuse { S.can_refuse self.new.source ≡ S.can_refuse self.old.source }
        ensures same_len { self.new.len ≡ self.old.len }
    {
        let n = size - HEADER_SIZE;
        if !self.has(n) {
            return Err(FileError::from(Error::EndOfData));
        }
        let payload = self.source.part(self.position, n as usize, &mut self.room)?;
        let value = B::read_payload(alloc, payload)?;
        self.position += n;
        Ok(value)
    }
}
