//! Callers that any source or any sink serves.

ghost use Rattle.std.specs.Prelude.{◌≡◌, ◌+◌, ◌≤◌, ◌++◌, Some, length, slice_index, IfOk, IfErr, IfSome, IsTrue, OnOk};
ghost use Rattle.std.specs.Prelude.{vec_len, vec_capacity};
ghost use Rattle.mp4_source.specs.Source.{OnIo, OnOutOfMemory};

use mp4_source::{ByteSink, ByteSource, SinkError, SourceError, read_into};

/// The bytes at two places. The first is copied before the second is asked for, since each is borrowed.
pub fn two_bytes<S: ByteSource>(
    source: &mut S,
    first: u64,
    second: u64,
    room: &mut Vec<u8>,
) -> Result<(u8, u8), SourceError>
    ensures first { IfOk result (λ r. IfSome (S.contents source.old) (λ xs. slice_index xs first ≡ r.0)) }
    ensures second { IfOk result (λ r. IfSome (S.contents source.old) (λ xs. slice_index xs second ≡ r.1)) }
    ensures io { IfErr result (λ e. OnIo e (IfSome (S.contents source.old) (λ xs.
        first + 1 ≤ length xs → second + 1 ≤ length xs → IsTrue (S.can_refuse source.old)))) }
    ensures contents { S.contents source.new ≡ S.contents source.old }
    ensures can_refuse { S.can_refuse source.new ≡ S.can_refuse source.old }
{
    let part = source.part(first, 1, room)?;
    let one = part[0];
    let part = source.part(second, 1, room)?;
    let two = part[0];
    Ok((one, two))
}

/// The byte at a place, which is read into a buffer. It has this byte alone then, also where nothing is known of the
/// bytes of the source.
pub fn byte_into<S: ByteSource>(
    source: &mut S,
    place: u64,
    buffer: &mut Vec<u8>,
) -> Result<u8, SourceError>
    ensures len { OnOk result (vec_len buffer.new ≡ 1) }
    ensures memory { IfErr result (λ e. OnOutOfMemory e (vec_capacity buffer.old ≡ 0)) }
{
    read_into(source, place, 1, buffer)?;
    Ok(buffer.as_slice()[0])
}

/// Adds 16 bytes that aren't known yet, and then these; and writes a header over the 16.
pub fn with_late_header<S: ByteSink>(
    sink: &mut S,
    header: &[u8; 16],
    bytes: &[u8],
) -> Result<(), SinkError>
    ensures { OnOk result (IfSome (S.contents sink.old)
        (λ xs. S.contents sink.new ≡ Some (xs ++ (header.now ++ bytes.now)))) }
{
    let place = sink.len();
    sink.append(&[0; 16])?;
    sink.append(bytes)?;
    sink.overwrite(place, header)?;
    Ok(())
}
