//! Inputs that fail, and inputs that give little at a time.

use std::io;
use std::io::{ErrorKind, Read};

/// Gives line feeds one by one, and then fails.
#[derive(Drop)]
pub struct FailsAfter {
    pub bytes: u64,
}

impl Read for FailsAfter {
    fn read(&mut self, buf: &mut [u8]) -> io::Result<usize> {
        if self.bytes == 0 {
            return Err(io::Error::from(ErrorKind::PermissionDenied));
        }
        self.bytes -= 1;
        match buf.first_mut() {
            Some(byte) => {
                *byte = b'\n';
                Ok(1)
            }
            None => Ok(0),
        }
    }
}

/// Gives a text byte by byte, and is interrupted before each second one.
#[derive(Drop)]
pub struct Slow<'a> {
    pub text: &'a [u8],
    pub interrupted: bool,
}

impl<'a> Read for Slow<'a> {
    fn read(&mut self, buf: &mut [u8]) -> io::Result<usize> {
        self.interrupted = !self.interrupted;
        if self.interrupted {
            return Err(io::Error::from(ErrorKind::Interrupted));
        }
        match (self.text.split_first(), buf.first_mut()) {
            (Some((byte, rest)), Some(place)) => {
                *place = *byte;
                self.text = rest;
                Ok(1)
            }
            _ => Ok(0),
        }
    }
}
