//! Bytes, and a position in them.

ghost use Rattle.std.specs.Prelude.{◌≡◌, OnErr};
ghost use Rattle.mp4_codec.specs.Cause.{Gives};
ghost use Rattle.mp4_codec.specs.Cursor.{take_at, left, Cursor};

use crate::error::{Error, Result};
use std::marker::Model;

/// Bytes, and a position in them, which counts bytes from 0 and may lie after them. It stands for Rust's
/// `Read` and `Seek`.
#[derive(Debug, Drop)]
pub struct ByteCursor<'a> {
    bytes: &'a [u8],
    position: u64,
}

impl<'a> Model for ByteCursor<'a> {
    ghost Value = { Cursor };

    ghost view = { λ c. record { bytes = c.bytes.now; position = c.position } };
}

impl<'a> ByteCursor<'a> {
    /// A cursor at position 0.
    pub fn new(bytes: &'a [u8]) -> Self
        ensures { result ≡ record { bytes = bytes.now; position = 0 } }
    {
        ByteCursor { bytes, position: 0 }
    }

    /// Where the cursor is.
    pub fn position(&self) -> u64
        ensures { result ≡ self.now.position }
    {
        self.position
    }

    /// Moves the cursor to any position, also after the bytes.
    pub fn set_position(&mut self, position: u64)
        ensures { self.new ≡ record self.old { position = position } }
    {
        self.position = position;
    }

    /// The next n bytes, which outlive the cursor. Where they pass the end it is `EndOfData`, and the
    /// position stays.
    pub fn take(&mut self, n: u64) -> Result<&'a [u8]>
        ensures value { Gives (λ part. (part.now, self.new)) result (take_at n self.old) }
        ensures err { OnErr result (self.new ≡ self.old) }
    {
        let len = self.bytes.len() as u64;
        if self.position > len || len - self.position < n {
            return Err(Error::EndOfData);
        }
        let start = self.position as usize;
        let part = &self.bytes[start..start + n as usize];
        self.position += n;
        Ok(part)
    }

    /// All bytes that the cursor goes over, whatever its position.
    pub fn bytes(&self) -> &'a [u8]
        ensures { result.now ≡ self.now.bytes }
    {
        self.bytes
    }

    /// All bytes from the position on.
    pub fn rest(&self) -> &'a [u8]
        ensures { result.now ≡ left self.now }
    {
        let len = self.bytes.len() as u64;
        let start = self.position.min(len);
        &self.bytes[start as usize..]
    }
}
