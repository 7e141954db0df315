//! Sinks of the tests.

use mp4_media::{ByteSink, SinkError};
use std::alloc::Global;
use std::io;
use std::io::ErrorKind;

/// A sink that takes so many bytes, and refuses those that pass them.
#[derive(Drop)]
pub struct FirstBytes {
    pub bytes: Vec<u8>,
    most: usize,
}

impl FirstBytes {
    pub fn new(alloc: Global, most: usize) -> Self {
        FirstBytes {
            bytes: Vec::new(alloc),
            most,
        }
    }
}

impl ByteSink for FirstBytes {
    ghost use Rattle.std.specs.Prelude.{vec_len};

    ghost len = { λ s. vec_len s.bytes };

    fn len(&self) -> u64 {
        self.bytes.len() as u64
    }

    fn append(&mut self, bytes: &[u8]) -> Result<(), SinkError> {
        let room = self.most.saturating_sub(self.bytes.len());
        if bytes.len() > room {
            self.bytes.extend_from_slice(&bytes[..room])?;
            return Err(SinkError::from(io::Error::from(ErrorKind::StorageFull)));
        }
        self.bytes.extend_from_slice(bytes)?;
        Ok(())
    }

    fn overwrite(&mut self, _place: u64, _bytes: &[u8]) -> io::Result<()> {
        Err(io::Error::from(ErrorKind::Unsupported))
    }

    fn flush(&mut self) -> io::Result<()> {
        Ok(())
    }

    ghost counted = { λ s. tt };
}
