//! How far a long run is, on a terminal.

ghost use Rattle.std.specs.Prelude.{◌≡◌, ℕ, ◌+◌, ◌<◌, ◌≤◌, ◌^◌, IfOk, IfErr, OnOk, OnErr};

use mp4_media::{ByteSink, SinkError};
use mp4_readable::Grouped;
use std::io;
use std::rt::Stderr;

/// Of a file with fewer bytes nothing is said: it takes no time.
const LEAST: u64 = 64 << 20;

const MEGABYTE: u64 = 1_000_000;

/// What is written over a line: at least as many blanks as it has characters.
const BLANKS: &str = "                                                            ";

/// Says on a terminal how much of a file was written, by a line that is written over.
#[derive(Drop)]
pub struct Progress {
    /// `None` where nothing is to be said.
    terminal: Option<Stderr>,
    /// How many bytes the file has that is read.
    len: u64,
    written: u64,
    /// After how many bytes the next line is written.
    next: u64,
}

impl Progress {
    /// Nothing is written yet of what is made of a file of `len` bytes.
    pub fn new(terminal: Option<Stderr>, len: u64) -> Self {
        let terminal = if len < LEAST { None } else { terminal };
        Progress {
            terminal,
            len,
            written: 0,
            next: len / 100,
        }
    }

    /// Counts bytes that were written, and says how many they are, where a hundredth more was.
    fn note(&mut self, n: usize) {
        self.written = self.written.saturating_add(n as u64);
        if self.written < self.next {
            return;
        }
        self.next = self.written.saturating_add(self.len / 100);
        if let Some(terminal) = self.terminal {
            let written = Grouped(self.written / MEGABYTE);
            let len = Grouped(self.len / MEGABYTE);
            let _ = eprint!(terminal; "\r{written} MB written, IN has {len} MB");
        }
    }

    /// Clears the line.
    fn finish(&self) {
        if let Some(terminal) = self.terminal {
            let _ = eprint!(terminal; "\r{BLANKS}\r");
        }
    }
}

/// A sink that says how much was written to it.
#[derive(Drop)]
pub struct WatchedSink<K> {
    sink: K,
    progress: Progress,
}

impl<K: ByteSink> WatchedSink<K> {
    pub fn new(sink: K, progress: Progress) -> Self {
        WatchedSink { sink, progress }
    }

    /// The sink, to which all was written.
    pub fn finish(self) -> K {
        let WatchedSink { sink, progress } = self;
        progress.finish();
        sink
    }
}

impl<K: ByteSink> ByteSink for WatchedSink<K> {
    ghost contents = { λ s. K.contents s.sink };

    ghost len = { λ s. K.len s.sink };

    ghost waiting = { λ s. K.waiting s.sink };

    ghost can_refuse = { λ s. K.can_refuse s.sink };

    fn len(&self) -> u64 {
        ByteSink::len(&self.sink)
    }

    fn append(&mut self, bytes: &[u8]) -> Result<(), SinkError> {
        self.progress.note(bytes.len());
        ByteSink::append(&mut self.sink, bytes)
    }

    fn overwrite(&mut self, place: u64, bytes: &[u8]) -> io::Result<()> {
        ByteSink::overwrite(&mut self.sink, place, bytes)
    }

    fn flush(&mut self) -> io::Result<()> {
        ByteSink::flush(&mut self.sink)
    }

    ghost counted = { λ s. K.counted s.sink };
}
