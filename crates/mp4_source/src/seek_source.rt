//! Files, and whatever else reads and seeks.

ghost use Rattle.std.specs.Prelude.{◌≡◌};

use crate::source::ByteSource;
use std::io;
use std::io::{Read, Seek, SeekFrom};
use std::marker::Model;

/// A file, or whatever else reads and seeks, as a source. A read is one call of `seek`, which is left out where
/// the read before it ended there, and one of `read` where that gives all that is asked for.
///
/// Nothing else may move the position meanwhile, as through a clone of a `File`: other bytes would be read.
/// Contracts see it as what is read, whose bytes they don't know.
#[derive(Debug, Drop)]
pub struct SeekSource<F> {
    inner: F,
    // Where the next read begins, if that is known.
    position: Option<u64>,
}

impl<F> Model for SeekSource<F> {
    ghost Value = { F };

    ghost view = { λ s. s.inner };
}

impl<F> SeekSource<F> {
    /// A source that reads this, from its first byte on, wherever its position is.
    pub fn new(inner: F) -> Self
        ensures { result ≡ inner }
    {
        SeekSource {
            inner,
            position: None,
        }
    }

    /// What is read. Its position may not be moved.
    pub fn get_ref(&self) -> &F
        ensures { result.now ≡ self.now }
    {
        &self.inner
    }

    /// What is read, at any position.
    pub fn into_inner(self) -> F
        ensures { result ≡ self }
    {
        let SeekSource { inner, position: _ } = self;
        inner
    }
}

/// The errors are those of what is read.
impl<F: Read + Seek> ByteSource for SeekSource<F> {
    /// Seeks to the end.
    fn len(&mut self) -> io::Result<u64> {
        self.position = None;
        let len = self.inner.seek(SeekFrom::End(0))?;
        self.position = Some(len);
        Ok(len)
    }

    fn read_exact_at(&mut self, place: u64, buf: &mut [u8]) -> io::Result<()> {
        let position = self.position.take();
        if position != Some(place) {
            self.inner.seek(SeekFrom::Start(place))?;
        }
        self.inner.read_exact(buf)?;
        self.position = place.checked_add(buf.len() as u64);
        Ok(())
    }
}
