//! Bytes that are written, mostly one after the other.

ghost use Rattle.std.specs.Prelude.{◌≡◌, ℕ, ◌+◌, ◌<◌, ◌≤◌, ◌^◌, Bool, true, List, Option, None, length, IfOk, IfErr};
ghost use Rattle.std.specs.Prelude.{IfSome, IsTrue, OnOk, OnErr};
ghost use Rattle.std.specs.IoError.{error_kind};
ghost use Rattle.mp4_source.specs.Sink.{AppendFails, IsAppended, IsKept, IsCountKept, IsOverwritten, OverwriteFails};

use crate::sink_error::SinkError;
use std::io;
use std::io::ErrorKind;

/// Bytes that are written: each after those before it, and over some of these later, by their places, which count
/// from 0.
///
/// Where the bytes are known, as those of a `Vec` are, the contracts say which a sink holds after each call.
/// Nothing is known of the bytes of a file.
pub trait ByteSink {
    // The bytes that it holds, where they are known.
    ghost contents: { Self → Option (List ℕ) } = { λ _. None };

    // How many bytes it holds.
    ghost len: { Self → ℕ };

    // How many of them, the last ones, wait to be handed on. A flush leaves none.
    ghost waiting: { Self → ℕ } = { λ _. 0 };

    // Whether it may refuse for another reason than memory. No call changes that.
    ghost can_refuse: { Self → Bool } = { λ _. true };

    /// How many bytes it holds.
    fn len(&self) -> u64
        ensures { result ≡ len self.now };

    /// Adds the bytes after those that it holds. Where memory for them is refused, it is `OutOfMemory`, and none are
    /// added. Where the sink refuses, it is `Io`, and some may be: which is known of a sink whose bytes are.
    fn append(&mut self, bytes: &[u8]) -> Result<(), SinkError>
        ensures ok { OnOk result (IsAppended (contents self.old) (contents self.new) bytes.now) }
        ensures all { OnOk result (len self.new ≡ len self.old + length bytes.now) }
        ensures err { IfErr result (λ e.
            AppendFails e (can_refuse self.old) (contents self.old) (contents self.new) bytes.now) }
        ensures none { IfErr result (λ e. IsCountKept e (len self.old) (len self.new)) }
        ensures waits { IfErr result (λ e. IsCountKept e (waiting self.old) (waiting self.new)) }
        ensures least { len self.old ≤ len self.new }
        ensures most { len self.new ≤ len self.old + length bytes.now }
        ensures can_refuse { can_refuse self.new ≡ can_refuse self.old };

    /// Writes the bytes over those from the place on. Where they pass the end, it is an error, of the kind
    /// `InvalidInput` unless the sink says otherwise, and nothing is written. Else it is one only where the sink
    /// refuses, and some may be written.
    fn overwrite(&mut self, place: u64, bytes: &[u8]) -> io::Result<()>
        ensures ok { OnOk result (IsOverwritten (contents self.old) (contents self.new) place bytes.now) }
        ensures within { OnOk result (place + length bytes.now ≤ len self.old) }
        ensures err { OnErr result (OverwriteFails
            (len self.old) (can_refuse self.old) (contents self.old) (contents self.new) place bytes.now) }
        ensures len { len self.new ≡ len self.old }
        ensures can_refuse { can_refuse self.new ≡ can_refuse self.old };

    /// Hands on all bytes that wait to be written. It is an error only where the sink refuses.
    fn flush(&mut self) -> io::Result<()>
        ensures none { OnOk result (waiting self.new ≡ 0) }
        ensures err { OnErr result (IsTrue (can_refuse self.old)) }
        ensures contents { IsKept (contents self.old) (contents self.new) }
        ensures len { len self.new ≡ len self.old }
        ensures can_refuse { can_refuse self.new ≡ can_refuse self.old };

    // The bytes that are known are all.
    ghost counted: { (s : Self) → IfSome (contents s) (λ xs. len s ≡ length xs) };
}

impl<S: ByteSink> ByteSink for &mut S {
    ghost contents = { λ s. S.contents s.now };

    ghost len = { λ s. S.len s.now };

    ghost waiting = { λ s. S.waiting s.now };

    ghost can_refuse = { λ s. S.can_refuse s.now };

    fn len(&self) -> u64 {
        ByteSink::len(&**self)
    }

    fn append(&mut self, bytes: &[u8]) -> Result<(), SinkError> {
        ByteSink::append(&mut **self, bytes)
    }

    fn overwrite(&mut self, place: u64, bytes: &[u8]) -> io::Result<()> {
        ByteSink::overwrite(&mut **self, place, bytes)
    }

    fn flush(&mut self) -> io::Result<()> {
        ByteSink::flush(&mut **self)
    }

    ghost counted = { λ s. S.counted s.now };
}

/// Refuses bytes that pass the end of so many, by `InvalidInput`.
pub(crate) fn check_within(place: u64, n: usize, len: u64) -> io::Result<()>
    ensures fits { OnOk result (place + n ≤ len) }
    ensures err { OnErr result (len < place + n) }
    ensures kind { IfErr result (λ e. error_kind e ≡ ErrorKind.InvalidInput) }
{
    if place > len || len - place < n as u64 {
        return Err(io::Error::new(ErrorKind::InvalidInput, "the bytes pass the end"));
    }
    Ok(())
}

/// Refuses bytes that would be the 2^64th or a later one after so many, by `FileTooLarge`.
pub fn check_room(n: usize, len: u64) -> io::Result<()>
    ensures fits { OnOk result (len + n < 2 ^ 64) }
    ensures err { OnErr result (2 ^ 64 ≤ len + n) }
    ensures kind { IfErr result (λ e. error_kind e ≡ ErrorKind.FileTooLarge) }
{
    if u64::MAX - len < n as u64 {
        return Err(io::Error::new(ErrorKind::FileTooLarge, "the bytes pass 2^64 - 1"));
    }
    Ok(())
}
