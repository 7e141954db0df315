//! Headers of a movie, its tracks and their media, with another duration (ISO/IEC 14496-12, 8.2.2, 8.3.2 and 8.4.2).

ghost use Rattle.std.specs.Prelude.{◌≡◌, ◌+◌, ◌≤◌, ◌++◌, length, Some, IfErr, OnOk};
ghost use Rattle.mp4_remux.specs.Edit.{is_version_1, joined, sized_box, time_size, version_1, with_duration};
ghost use Rattle.mp4_remux.specs.Edit.{with_number};
ghost use Rattle.mp4_remux.specs.Edited.{IsHeader, IsWhyNone};
ghost use Rattle.mp4_remux.specs.Moved.{wide_bytes};

use crate::box_bytes::{BoxBytes, end_box};
use crate::chunk_offsets::put_offset;
use byteorder::{BigEndian, ByteOrder};
use mp4_codec::{Put, Result, put_u64};

/// Whether the payload of a box has version 1, whose times and durations have 64 bits.
pub(crate) fn is_version_1(payload: &[u8]) -> bool
    ensures { result ≡ is_version_1 payload.now }
{
    payload.first() == Some(&1)
}

/// How many bytes a time or a duration has.
pub(crate) fn time_size(payload: &[u8]) -> usize
    ensures { result ≡ time_size payload.now }
{
    if is_version_1(payload) { 8 } else { 4 }
}

/// Adds a payload in which the time at this place is this one.
pub(crate) fn put_with_time(payload: &[u8], place: usize, time: u64, out: &mut Vec<u8>) -> Put
    requires { place + time_size payload.now ≤ length payload.now }
    ensures { OnOk result (out.new.items
        ≡ out.old.items ++ with_number (time_size payload.now) place time payload.now) }
{
    out.extend_from_slice(&payload[..place])?;
    put_offset(time, is_version_1(payload), out)?;
    out.extend_from_slice(&payload[place + time_size(payload)..])
}

/// Adds the payload of a header of version 0 as that of one of version 1 with this duration.
fn put_version_1(payload: &[u8], more: usize, duration: u64, out: &mut Vec<u8>) -> Put
    requires { 16 + more ≤ length payload.now }
    ensures { OnOk result (out.new.items ≡ out.old.items ++ version_1 more duration payload.now) }
{
    out.push(1)?;
    out.extend_from_slice(&payload[1..4])?;
    put_u64(out, u64::from(BigEndian::read_u32(&payload[4..])))?;
    put_u64(out, u64::from(BigEndian::read_u32(&payload[8..])))?;
    out.extend_from_slice(&payload[12..12 + more])?;
    put_u64(out, duration)?;
    out.extend_from_slice(&payload[16 + more..])?;
    Ok(())
}

/// Adds the payload of a header whose duration is this one, after its version and flags, two times, and so many bytes
/// more. Version 1 takes the place of version 0 where the duration passes 32 bits.
#[tactic(auto, unfolding(crate::specs::Edit::with_duration))]
fn put_with_duration(payload: &[u8], more: usize, duration: u64, out: &mut Vec<u8>) -> Put
    requires { more ≤ 8 }
    ensures { OnOk result (out.new.items ≡ out.old.items ++ with_duration more duration payload.now) }
{
    let place = 4 + 2 * time_size(payload) + more;
    if payload.len() < place + time_size(payload) {
        return out.extend_from_slice(payload);
    }
    if is_version_1(payload) || duration < u64::from(u32::MAX) {
        return put_with_time(payload, place, duration, out);
    }
    put_version_1(payload, more, duration, out)
}

/// Adds a header whose duration is this one, after its version and flags, two times, and so many bytes more.
pub(crate) fn put_header(
    one: &BoxBytes,
    more: usize,
    duration: u64,
    out: &mut Vec<u8>,
) -> Result<()>
    requires more { more ≤ 8 }
    requires header { IsHeader one.now.header.now (length one.now.header.now) }
    ensures added { OnOk result (joined (Some out.old.items)
        (sized_box one.now.header.now (with_duration more duration one.now.payload.now)) ≡ Some out.new.items) }
    ensures refused { IfErr result
        (IsWhyNone (sized_box one.now.header.now (with_duration more duration one.now.payload.now))) }
{
    let start = out.len();
    out.extend_from_slice(one.header)?;
    put_with_duration(one.payload, more, duration, out)?;
    end_box(out, start, one.header.len())
}
