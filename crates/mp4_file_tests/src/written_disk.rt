//! A file of the tests that is written.

use std::alloc::{AllocError, Global};
use std::io;
use std::io::{ErrorKind, Seek, SeekFrom, Write};

/// Bytes that are written and sought as a file's are, and count these calls. They refuse one call: that of this
/// number, counted from 1.
#[derive(Drop)]
pub struct WrittenDisk {
    pub bytes: Vec<u8>,
    pub position: u64,
    pub refused: u64,
    /// How many bytes a write takes at most.
    pub most: usize,
    /// Whether each second write is interrupted first.
    pub is_interrupted: bool,
    pub calls: u64,
    pub writes: u64,
    pub seeks: u64,
    pub flushes: u64,
}

impl WrittenDisk {
    /// An empty file, which takes any number of bytes in a write.
    pub fn new(alloc: Global, refused: u64) -> Self {
        WrittenDisk {
            bytes: Vec::new(alloc),
            position: 7,
            refused,
            most: usize::MAX,
            is_interrupted: false,
            calls: 0,
            writes: 0,
            seeks: 0,
            flushes: 0,
        }
    }

    /// Counts a call, and refuses it where it is that one.
    fn count(&mut self) -> io::Result<()> {
        self.calls = self.calls.saturating_add(1);
        if self.calls == self.refused {
            return Err(io::Error::from(ErrorKind::PermissionDenied));
        }
        Ok(())
    }

    /// Writes bytes at the position, over those that are there or after them; between them are zeros.
    fn put(&mut self, bytes: &[u8]) -> Result<(), AllocError> {
        let start = self.position as usize;
        let end = start.saturating_add(bytes.len());
        if self.bytes.len() < end {
            self.bytes.resize(end, 0)?;
        }
        if start <= end && end <= self.bytes.len() && end - start == bytes.len() {
            self.bytes.as_mut_slice()[start..end].copy_from_slice(bytes);
        }
        self.position = end as u64;
        Ok(())
    }
}

impl Write for WrittenDisk {
    fn write(&mut self, buf: &[u8]) -> io::Result<usize> {
        self.writes = self.writes.saturating_add(1);
        self.count()?;
        if self.is_interrupted && self.writes % 2 == 1 {
            return Err(io::Error::from(ErrorKind::Interrupted));
        }
        let n = self.most.min(buf.len());
        if self.put(&buf[..n]).is_err() {
            return Err(io::Error::from(ErrorKind::OutOfMemory));
        }
        Ok(n)
    }

    fn flush(&mut self) -> io::Result<()> {
        self.flushes = self.flushes.saturating_add(1);
        self.count()
    }
}

impl Seek for WrittenDisk {
    fn seek(&mut self, to: SeekFrom) -> io::Result<u64> {
        self.seeks = self.seeks.saturating_add(1);
        self.count()?;
        match to {
            SeekFrom::Start(place) => self.position = place,
            _ => return Err(io::Error::from(ErrorKind::Unsupported)),
        }
        Ok(self.position)
    }
}
