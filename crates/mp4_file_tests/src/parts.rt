//! Parts of sources, compared with bytes in memory.

ghost use Rattle.std.specs.Prelude.{◌≡◌, Some};

use mp4_source::{ByteSource, SourceError};
use std::alloc::Global;
use std::io;
use std::io::ErrorKind;
use std::process::Abort;

/// So many bytes, of which those near each other differ.
pub fn many_bytes(rt: &impl Abort, alloc: Global, n: usize) -> Vec<u8> {
    let mut bytes = Vec::with_capacity(alloc, n).expect(rt, "memory");
    for index in 0..n {
        bytes.push((index % 251) as u8).expect(rt, "memory");
    }
    bytes
}

/// Numbers that look random, the same in each run.
#[derive(Clone, Copy)]
pub struct Numbers {
    state: u64,
}

impl Numbers {
    pub fn new() -> Self {
        Numbers { state: 1 }
    }

    /// A number up to `most`.
    pub fn up_to(&mut self, most: u64) -> u64 {
        self.state = self
            .state
            .wrapping_mul(6364136223846793005)
            .wrapping_add(1442695040888963407);
        (self.state >> 33) % most.max(1)
    }
}

/// Bytes in memory. They refuse one call: that of this number, counted from 1.
#[derive(Drop)]
pub struct Refusing<'a> {
    pub bytes: &'a [u8],
    pub refused: u64,
    pub calls: u64,
    /// The last place that was asked for, after the bytes of a call.
    pub furthest: u64,
}

impl<'a> Refusing<'a> {
    pub fn new(bytes: &'a [u8], refused: u64) -> Self {
        Refusing {
            bytes,
            refused,
            calls: 0,
            furthest: 0,
        }
    }
}

impl ByteSource for Refusing<'_> {
    ghost contents = { λ s. Some s.bytes.now };

    fn len(&mut self) -> io::Result<u64> {
        self.calls = self.calls.saturating_add(1);
        if self.calls == self.refused {
            return Err(io::Error::from(ErrorKind::PermissionDenied));
        }
        Ok(self.bytes.len() as u64)
    }

    fn read_exact_at(&mut self, place: u64, buf: &mut [u8]) -> io::Result<()> {
        let end = place.saturating_add(buf.len() as u64);
        self.furthest = self.furthest.max(end);
        self.calls = self.calls.saturating_add(1);
        if self.calls == self.refused {
            return Err(io::Error::from(ErrorKind::PermissionDenied));
        }
        let mut all: &[u8] = self.bytes;
        all.read_exact_at(place, buf)
    }
}

/// The kind of the error, if it is one of reading.
pub fn kind_of<T: Drop>(answer: Result<T, SourceError>) -> Option<ErrorKind> {
    match answer {
        Err(SourceError::Io(e)) => Some(e.kind()),
        _ => None,
    }
}

/// Whether a source gives these bytes from a place on, by `part` and by `read_exact_at`, which fills the copy.
fn gives<S: ByteSource>(
    source: &mut S,
    wanted: &[u8],
    place: u64,
    copy: &mut [u8],
    room: &mut Vec<u8>,
) -> Result<bool, SourceError> {
    let is_part = source.part(place, wanted.len(), room)? == wanted;
    source.read_exact_at(place, copy)?;
    Ok(is_part && &*copy == wanted)
}

/// Whether a source has no part of as many bytes as the copy has, by `read_exact_at` and by `part`, since it passes
/// the end.
fn ends<S: ByteSource>(source: &mut S, place: u64, copy: &mut [u8], room: &mut Vec<u8>) -> bool {
    let is_past = source.read_exact_at(place, copy).is_err();
    is_past && kind_of(source.part(place, copy.len(), room)) == Some(ErrorKind::UnexpectedEof)
}

/// Whether a source answers for this part as bytes in memory do, by `part` and by `read_exact_at`.
pub fn agrees<S: ByteSource>(
    rt: &impl Abort,
    source: &mut S,
    bytes: &[u8],
    place: u64,
    n: usize,
    room: &mut Vec<u8>,
) -> Result<bool, SourceError> {
    let mut all: &[u8] = bytes;
    let alloc = *room.allocator();
    let mut none = Vec::new(alloc);
    let mut copy = Vec::with_capacity(alloc, n.min(1000)).expect(rt, "memory");
    copy.resize(n, 0).expect(rt, "memory");
    match all.part(place, n, &mut none) {
        Ok(wanted) => gives(source, wanted, place, copy.as_mut_slice(), room),
        Err(_) => Ok(ends(source, place, copy.as_mut_slice(), room)),
    }
}

/// Whether a source that refuses nothing does so for each of these parts.
pub fn agrees_at<S: ByteSource>(
    rt: &impl Abort,
    source: &mut S,
    bytes: &[u8],
    parts: &[(u64, usize)],
    room: &mut Vec<u8>,
) -> bool {
    let mut all = true;
    for (place, n) in parts {
        let answer = agrees(rt, source, bytes, *place, *n, room);
        all = answer.expect(rt, "the source reads") && all;
    }
    all
}
