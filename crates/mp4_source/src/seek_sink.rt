//! Files, and whatever else writes and seeks.

ghost use Rattle.std.specs.Prelude.{◌≡◌, ℕ, ◌+◌, ◌<◌, ◌≤◌, ◌^◌, None, true, length, IfOk, IfErr, OnOk, OnErr};
ghost use Rattle.std.specs.Prelude.{vec_len};
ghost use Rattle.mp4_source.specs.Sink.{AppendFails, IsAppended, IsCountKept, IsSinkIo};

use crate::sink::{ByteSink, check_room, check_within};
use crate::sink_error::SinkError;
use std::alloc::{AllocError, Global};
use std::fmt::Debug;
use std::io::{Seek, SeekFrom, Write};
use std::marker::Model;
use std::{fmt, io};

/// How many bytes wait in a [`SeekSink`] at most: 64 KiB.
pub const WAITING_SIZE: usize = 65536;

/// A file, or whatever else writes and seeks, as a sink: of all bytes from its first one on, wherever its position is.
///
/// Bytes wait in a buffer of fixed size until it has no room for those of a call, so that many small appends are few
/// calls of `write`. Longer ones than the buffer go past it. An `overwrite` of bytes that wait is one in the buffer;
/// else those that wait are written before it, and the position is at the end again after it.
///
/// `flush` writes what waits: without it the last bytes are lost. After an error a call may be made again: what waited
/// waits still, and is written where it belongs, over what of it was written.
///
/// Nothing else may move the position meanwhile, as through a clone of a `File`: bytes would be written elsewhere.
/// Contracts see it as what is written, whose bytes they don't know, how many bytes it holds, and how many wait.
#[derive(Drop)]
pub struct SeekSink<W> {
    target: Target<W>,
    /// The bytes that wait are the first `filled` of these.
    buffer: Vec<u8>,
    filled: usize,
    /// How many bytes were written, before those that wait.
    start: u64,
}

/// What is written.
#[derive(Drop)]
struct Target<W> {
    inner: W,
    // Where the next write begins, if that is known.
    position: Option<u64>,
}

impl<W> Model for SeekSink<W> {
    ghost use Rattle.std.specs.Prelude.{◌≡◌, ◌+◌, ◌<◌, ◌≤◌, ◌^◌, vec_len};
    ghost use Rattle.mp4_source.specs.Sink.{BufferedSink};

    ghost Value = { BufferedSink W };

    ghost view = { λ s. record { inner = s.target.inner; len = s.start + s.filled; waiting = s.filled } };

    ghost invariant = { λ s. (vec_len s.buffer ≡ 65536) × (s.filled ≤ 65536) × (s.start + s.filled < 2 ^ 64) };
}

impl<W: Debug> Debug for SeekSink<W> {
    fn fmt<F: fmt::Write>(&self, f: &mut fmt::Formatter<F>) -> fmt::Result {
        f.debug_struct("SeekSink")
            .field("inner", &self.target.inner)
            .field("start", &self.start)
            .field("filled", &self.filled)
            .finish()
    }
}

impl<W> SeekSink<W> {
    /// A sink that writes to this. It takes the memory of its buffer here, and none later.
    pub fn new(alloc: Global, inner: W) -> Result<Self, AllocError>
    where
        W: Drop,
        ensures { IfOk result (λ s. s ≡ record { inner = inner; len = 0; waiting = 0 }) }
    {
        let mut buffer = Vec::with_capacity(alloc, WAITING_SIZE)?;
        buffer.resize(WAITING_SIZE, 0)?;
        Ok(SeekSink {
            target: Target {
                inner,
                position: None,
            },
            buffer,
            filled: 0,
            start: 0,
        })
    }

    /// What is written, without the bytes that wait. Its position may not be moved.
    pub fn get_ref(&self) -> &W
        ensures { result.now ≡ self.now.inner }
    {
        &self.target.inner
    }

    /// What is written, without the bytes that wait: `flush` writes them. Its position is at the end of what it has of
    /// them, or anywhere after an error.
    pub fn into_inner(self) -> W
        ensures { result ≡ self.inner }
    {
        let SeekSink {
            target,
            buffer: _,
            filled: _,
            start: _,
        } = self;
        let Target { inner, position: _ } = target;
        inner
    }
}

impl<W: Write + Seek> Target<W> {
    /// Moves the position there, where it isn't.
    fn seek_to(&mut self, place: u64) -> io::Result<()> {
        if self.position.take() != Some(place) {
            self.inner.seek(SeekFrom::Start(place))?;
        }
        self.position = Some(place);
        Ok(())
    }

    /// Writes bytes from the place on, and has the position after them then.
    fn write_at(&mut self, place: u64, bytes: &[u8]) -> io::Result<()> {
        self.seek_to(place)?;
        self.position = None;
        self.inner.write_all(bytes)?;
        self.position = place.checked_add(bytes.len() as u64);
        Ok(())
    }
}

impl<W: Write + Seek> SeekSink<W> {
    /// Writes the bytes that wait. After an error they wait still.
    fn write_waiting(&mut self) -> io::Result<()>
        ensures none { OnOk result (self.new.waiting ≡ 0) }
        ensures len { self.new.len ≡ self.old.len }
    {
        self.target
            .write_at(self.start, &self.buffer[..self.filled])?;
        self.start += self.filled as u64;
        self.filled = 0;
        Ok(())
    }
}

/// The errors are those of what is written; and `FileTooLarge` where the bytes would pass 2^64 - 1.
impl<W: Write + Seek> ByteSink for SeekSink<W> {
    ghost len = { λ s. s.len };

    ghost waiting = { λ s. s.waiting };

    fn len(&self) -> u64 {
        self.start + self.filled as u64
    }

    fn append(&mut self, bytes: &[u8]) -> Result<(), SinkError>
        ensures ok { OnOk result (IsAppended None None bytes.now) }
        ensures all { OnOk result (self.new.len ≡ self.old.len + length bytes.now) }
        ensures err { IfErr result (λ e. AppendFails e true None None bytes.now) }
        ensures none { IfErr result (λ e. IsCountKept e self.old.len self.new.len) }
        ensures waits { IfErr result (λ e. IsCountKept e self.old.waiting self.new.waiting) }
        ensures least { self.old.len ≤ self.new.len }
        ensures most { self.new.len ≤ self.old.len + length bytes.now }
        ensures can_refuse { true ≡ true }
        ensures stays { OnErr result (self.new.len ≡ self.old.len) }
        ensures memory { IfErr result IsSinkIo }
    {
        check_room(bytes.len(), ByteSink::len(self))?;
        if bytes.len() > WAITING_SIZE - self.filled {
            self.write_waiting()?;
        }
        if bytes.len() > WAITING_SIZE - self.filled {
            self.target.write_at(self.start, bytes)?;
            self.start += bytes.len() as u64;
            return Ok(());
        }
        let end = self.filled + bytes.len();
        self.buffer[self.filled..end].copy_from_slice(bytes);
        self.filled = end;
        Ok(())
    }

    fn overwrite(&mut self, place: u64, bytes: &[u8]) -> io::Result<()> {
        check_within(place, bytes.len(), ByteSink::len(self))?;
        if place >= self.start {
            let skipped = (place - self.start) as usize;
            self.buffer[skipped..skipped + bytes.len()].copy_from_slice(bytes);
            return Ok(());
        }
        self.write_waiting()?;
        self.target.write_at(place, bytes)?;
        self.target.seek_to(self.start)
    }

    fn flush(&mut self) -> io::Result<()> {
        self.write_waiting()?;
        self.target.inner.flush()
    }

    ghost counted = { λ _. tt };
}
