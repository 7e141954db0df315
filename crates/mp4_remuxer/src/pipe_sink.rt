//! Pipes, and whatever else is only written to.

ghost use Rattle.std.specs.Prelude.{◌≡◌, ℕ, ◌+◌, ◌<◌, ◌≤◌, ◌^◌, None, true, length, IfOk, IfErr, OnOk, OnErr};

use mp4_media::{ByteSink, SinkError};
use std::io;
use std::io::{ErrorKind, Write};

/// A pipe, or whatever else is only written to, as a sink: bytes are added, and handed on at once; none can be written
/// over.
#[derive(Drop)]
pub struct PipeSink<W> {
    out: W,
    len: u64,
}

impl<W> PipeSink<W> {
    /// A sink that writes to this, and has no bytes yet.
    pub fn new(out: W) -> Self {
        PipeSink { out, len: 0 }
    }
}

/// The errors are those of what is written; and `FileTooLarge` where the bytes would pass 2^64 - 1.
impl<W: Write> ByteSink for PipeSink<W> {
    ghost len = { λ s. s.len };

    fn len(&self) -> u64 {
        self.len
    }

    fn append(&mut self, bytes: &[u8]) -> Result<(), SinkError> {
        let Some(len) = self.len.checked_add(bytes.len() as u64) else {
            return Err(SinkError::Io(ErrorKind::FileTooLarge.into()));
        };
        if let Err(refused) = self.out.write_all(bytes) {
            return Err(SinkError::Io(refused));
        }
        self.len = len;
        Ok(())
    }

    /// It is always an error, of the kind `Unsupported`.
    fn overwrite(&mut self, _place: u64, _bytes: &[u8]) -> io::Result<()> {
        Err(ErrorKind::Unsupported.into())
    }

    fn flush(&mut self) -> io::Result<()> {
        self.out.flush()
    }

    ghost counted = { λ _. tt };
}
