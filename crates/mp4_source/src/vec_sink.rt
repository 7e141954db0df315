//! A buffer in memory as a sink.

ghost use Rattle.std.specs.Prelude.{◌≡◌, ◌+◌, ◌<◌, ◌≤◌, Some, false, length, refl, IfErr, OnOk, OnErr, vec_len};
ghost use Rattle.std.specs.Prelude.{vec_capacity};
ghost use Rattle.mp4_source.specs.Sink.{AppendFails, IsAppended, IsCountKept};

use crate::sink::{ByteSink, check_within};
use crate::sink_error::SinkError;
use std::io;

/// It refuses only where it has to grow and that memory is refused. What it holds when it is made a sink counts too.
impl ByteSink for Vec<u8> {
    ghost contents = { λ v. Some v.items };

    ghost len = { λ v. length v.items };

    ghost can_refuse = { λ _. false };

    fn len(&self) -> u64 {
        self.as_slice().len() as u64
    }

    fn append(&mut self, bytes: &[u8]) -> Result<(), SinkError>
        ensures ok { OnOk result (IsAppended (Some self.old.items) (Some self.new.items) bytes.now) }
        ensures all { OnOk result (length self.new.items ≡ length self.old.items + length bytes.now) }
        ensures err { IfErr result (λ e.
            AppendFails e false (Some self.old.items) (Some self.new.items) bytes.now) }
        ensures none { IfErr result (λ e. IsCountKept e (length self.old.items) (length self.new.items)) }
        ensures waits { IfErr result (λ e. IsCountKept e 0 0) }
        ensures least { length self.old.items ≤ length self.new.items }
        ensures most { length self.new.items ≤ length self.old.items + length bytes.now }
        ensures can_refuse { false ≡ false }
        ensures memory { OnErr result (vec_capacity self.old < vec_len self.old + length bytes.now) }
    {
        self.extend_from_slice(bytes)?;
        Ok(())
    }

    fn overwrite(&mut self, place: u64, bytes: &[u8]) -> io::Result<()> {
        let all = self.as_mut_slice();
        check_within(place, bytes.len(), all.len() as u64)?;
        let start = place as usize;
        all[start..start + bytes.len()].copy_from_slice(bytes);
        Ok(())
    }

    fn flush(&mut self) -> io::Result<()> {
        Ok(())
    }

    ghost counted = { λ _. refl };
}
