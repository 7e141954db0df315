//! All bytes of a source, copied to a sink.

ghost use Rattle.std.specs.Prelude.{◌≡◌, ◌+◌, IfSome, IfErr, OnOk, IsTrue};
ghost use Rattle.mp4_source.specs.Answers.{IsLength};
ghost use Rattle.mp4_source.specs.Sink.{IsAppended};
ghost use Rattle.mp4_remux.specs.Errors.{CopyFails};

use crate::error::RemuxError;
use mp4_source::{ByteSink, ByteSource, read_into};
use std::alloc::Global;

/// How many bytes are copied at once: 128 KiB, which stay in a processor's cache until they are written.
const BLOCK: u64 = 1 << 17;

/// Adds all bytes of a source, of which there are `len`, to a sink, and lets it hand them on: block after block, so
/// that no more than a block of them is in memory.
pub(crate) fn copy_all<S: ByteSource, K: ByteSink>(
    alloc: Global,
    source: &mut S,
    len: u64,
    sink: &mut K,
) -> Result<(), RemuxError>
    requires { IsLength (S.contents source.old) len }
    ensures ok { OnOk result (IfSome (S.contents source.old) (λ xs.
        IsAppended (K.contents sink.old) (K.contents sink.new) xs)) }
    ensures all { OnOk result (K.len sink.new ≡ K.len sink.old + len) }
    ensures none { OnOk result (K.waiting sink.new ≡ 0) }
    ensures err { IfErr result (CopyFails (IfSome (S.contents source.old) (λ _. IsTrue (S.can_refuse source.old)))
        (K.can_refuse sink.old)) }
{
    let mut block = Vec::new(alloc);
    let mut place = 0;
    while place < len {
        let n = (len - place).min(BLOCK);
        read_into(source, place, n as usize, &mut block)?;
        sink.append(&block)?;
        place += n;
    }
    if let Err(refused) = sink.flush() {
        return Err(RemuxError::Write(refused));
    }
    Ok(())
}
