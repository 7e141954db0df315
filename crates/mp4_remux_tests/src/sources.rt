//! Sources of the tests.

use mp4_media::ByteSource;
use std::io;
use std::io::ErrorKind;

/// A file with a hole: some bytes at its beginning, others at its end, which begin at a place, and zeros between.
#[derive(Drop)]
pub struct Zeros<'a> {
    head: &'a [u8],
    tail: &'a [u8],
    place: u64,
}

impl<'a> Zeros<'a> {
    pub fn new(head: &'a [u8], tail: &'a [u8], place: u64) -> Self {
        Zeros { head, tail, place }
    }

    /// The byte at a place.
    fn byte_at(&self, place: u64) -> u8 {
        if place < self.place {
            return self.head.get(place as usize).copied().unwrap_or(0);
        }
        self.tail
            .get((place - self.place) as usize)
            .copied()
            .unwrap_or(0)
    }
}

impl<'a> ByteSource for Zeros<'a> {
    fn len(&mut self) -> io::Result<u64> {
        Ok(self.place.saturating_add(self.tail.len() as u64))
    }

    fn read_exact_at(&mut self, place: u64, buf: &mut [u8]) -> io::Result<()> {
        let mut at = place;
        for byte in buf.iter_mut() {
            *byte = self.byte_at(at);
            at = at.saturating_add(1);
        }
        Ok(())
    }
}

/// Bytes in memory, of which one read is refused: that of this number, counted from 1.
#[derive(Drop)]
pub struct Refusing<'a> {
    bytes: &'a [u8],
    refused: u64,
    reads: u64,
}

impl<'a> Refusing<'a> {
    pub fn new(bytes: &'a [u8], refused: u64) -> Self {
        Refusing {
            bytes,
            refused,
            reads: 0,
        }
    }
}

impl<'a> ByteSource for Refusing<'a> {
    fn len(&mut self) -> io::Result<u64> {
        Ok(self.bytes.len() as u64)
    }

    fn read_exact_at(&mut self, place: u64, buf: &mut [u8]) -> io::Result<()> {
        self.reads = self.reads.saturating_add(1);
        let start = place.min(self.bytes.len() as u64) as usize;
        let rest = &self.bytes[start..];
        if self.reads == self.refused || rest.len() < buf.len() {
            return Err(io::Error::from(ErrorKind::PermissionDenied));
        }
        let n = buf.len();
        buf.copy_from_slice(&rest[..n]);
        Ok(())
    }
}
