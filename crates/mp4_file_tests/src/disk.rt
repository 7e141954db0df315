//! A file of the tests that is read.

ghost use Rattle.std.specs.Prelude.{◌≤◌, length};

use std::io;
use std::io::{ErrorKind, Read, Seek, SeekFrom};

/// Bytes that read and seek as a file does, and count these calls. They refuse one of them: that of this number,
/// counted from 1. After the bytes, up to the length, are zeros, as in a file with a hole.
#[derive(Drop)]
pub struct Disk<'a> {
    pub bytes: &'a [u8],
    /// How many of the bytes there are.
    pub len: usize,
    /// How many there are once so many calls were made.
    pub later_len: usize,
    pub changes_after: u64,
    /// A read gives the bytes that are asked for divided by this, one at least.
    pub share: usize,
    pub refused: u64,
    pub position: u64,
    pub calls: u64,
    /// How many of the calls are seeks; the others are reads.
    pub seeks: u64,
}

impl<'a> Disk<'a> {
    /// All bytes, as many of them in a read as are asked for.
    pub fn new(bytes: &'a [u8]) -> Self {
        Disk {
            bytes,
            len: bytes.len(),
            later_len: bytes.len(),
            changes_after: u64::MAX,
            share: 1,
            refused: 0,
            position: 0,
            calls: 0,
            seeks: 0,
        }
    }

    /// Counts a call, and refuses it where it is the one to be refused.
    fn count(&mut self) -> io::Result<()> {
        if self.calls >= self.changes_after {
            self.len = self.later_len;
        }
        self.calls = self.calls.saturating_add(1);
        if self.calls == self.refused {
            return Err(io::Error::from(ErrorKind::PermissionDenied));
        }
        Ok(())
    }
}

/// Zeros from a place up to another, as many as the buffer takes. The answer is how many.
fn put_zeros(start: u64, end: usize, buf: &mut [u8]) -> usize
    ensures { result ≤ length buf.old }
{
    let rest = (end as u64).saturating_sub(start);
    let n = rest.min(buf.len() as u64) as usize;
    buf[..n].fill(0);
    n
}

/// The bytes from a place up to another, or up to their end.
fn between(bytes: &[u8], start: u64, end: usize) -> &[u8] {
    let end = end.min(bytes.len());
    let start = start.min(end as u64) as usize;
    &bytes[start..end]
}

impl Read for Disk<'_> {
    fn read(&mut self, buf: &mut [u8]) -> io::Result<usize> {
        self.count()?;
        let mut rest: &[u8] = between(self.bytes, self.position, self.len);
        let share = buf.len().checked_div(self.share).unwrap_or(1);
        let most = share.max(1).min(buf.len());
        let held = rest.read(&mut buf[..most])?;
        let after = self.position.saturating_add(held as u64);
        let n = held.saturating_add(put_zeros(after, self.len, &mut buf[held..most]));
        self.position = self.position.saturating_add(n as u64);
        Ok(n)
    }
}

impl Seek for Disk<'_> {
    fn seek(&mut self, to: SeekFrom) -> io::Result<u64> {
        self.seeks = self.seeks.saturating_add(1);
        self.count()?;
        match to {
            SeekFrom::Start(place) => self.position = place,
            SeekFrom::End(_) => self.position = self.len as u64,
            SeekFrom::Current(_) => return Err(io::Error::from(ErrorKind::Unsupported)),
        }
        Ok(self.position)
    }
}
