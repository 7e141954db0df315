//! A sink that keeps no bytes.

ghost use Rattle.std.specs.Prelude.{◌≡◌, ℕ, ◌+◌, ◌<◌, ◌≤◌, ◌^◌, None, true, length, IfErr, OnOk, OnErr};
ghost use Rattle.mp4_source.specs.Sink.{AppendFails, IsAppended, IsKept, IsCountKept, IsOverwritten, IsSinkIo};
ghost use Rattle.mp4_source.specs.Sink.{OverwriteFails};

use crate::sink::{ByteSink, check_room, check_within};
use crate::sink_error::SinkError;
use std::io;
use std::marker::Model;

/// A sink that counts the bytes and keeps none of them: what is written to it tells how many bytes it is. It takes no
/// memory, and refuses bytes past 2^64 - 1, by `FileTooLarge`. Contracts see it as the number.
#[derive(Debug, Default, Drop)]
pub struct CountingSink {
    count: u64,
}

impl Model for CountingSink {
    ghost Value = { ℕ };

    ghost view = { λ s. s.count };
}

impl CountingSink {
    /// A sink without bytes.
    pub fn new() -> Self
        ensures { result ≡ 0 }
    {
        CountingSink { count: 0 }
    }
}

impl ByteSink for CountingSink {
    ghost len = { λ s. s };

    fn len(&self) -> u64 {
        self.count
    }

    fn append(&mut self, bytes: &[u8]) -> Result<(), SinkError>
        ensures ok { OnOk result (IsAppended None None bytes.now) }
        ensures all { OnOk result (self.new ≡ self.old + length bytes.now) }
        ensures err { IfErr result (λ e. AppendFails e true None None bytes.now) }
        ensures none { IfErr result (λ e. IsCountKept e self.old self.new) }
        ensures waits { IfErr result (λ e. IsCountKept e 0 0) }
        ensures least { self.old ≤ self.new }
        ensures most { self.new ≤ self.old + length bytes.now }
        ensures can_refuse { true ≡ true }
        ensures full { OnErr result (2 ^ 64 ≤ self.old + length bytes.now) }
        ensures stays { OnErr result (self.new ≡ self.old) }
        ensures memory { IfErr result IsSinkIo }
    {
        check_room(bytes.len(), self.count)?;
        self.count += bytes.len() as u64;
        Ok(())
    }

    fn overwrite(&mut self, place: u64, bytes: &[u8]) -> io::Result<()>
        ensures ok { OnOk result (IsOverwritten None None place bytes.now) }
        ensures within { OnOk result (place + length bytes.now ≤ self.old) }
        ensures err { OnErr result (OverwriteFails self.old true None None place bytes.now) }
        ensures len { self.new ≡ self.old }
        ensures can_refuse { true ≡ true }
        ensures past { OnErr result (self.old < place + length bytes.now) }
    {
        check_within(place, bytes.len(), self.count)
    }

    /// It is never an error.
    fn flush(&mut self) -> io::Result<()>
        ensures none { OnOk result (◌≡◌ {A = ℕ} 0 0) }
        ensures err { OnErr result ⊥ }
        ensures contents { IsKept None None }
        ensures len { self.new ≡ self.old }
        ensures can_refuse { true ≡ true }
    {
        Ok(())
    }

    ghost counted = { λ _. tt };
}
