//! The times that headers of movies, tracks and media have.

ghost use Rattle.std.specs.Prelude.{OnOk};
ghost use Rattle.mp4_codec.specs.Cause.{Checks, Gives, Reads};
ghost use Rattle.mp4_codec.specs.Bytes.{Appends};
ghost use Rattle.mp4_leaf.specs.Times.{header_times_at, header_times, times_refusal};

use mp4_codec::{
    Field, Fields, Put, Result, check_value, check_version, put_u8, put_u24, put_versioned,
};

/// What such a header begins with.
#[derive(Clone, Copy)]
pub(crate) struct HeaderTimes {
    pub version: u8,
    pub flags: u32,
    /// Seconds since 1904-01-01 00:00 UTC.
    pub creation_time: u64,
    /// Seconds since 1904-01-01 00:00 UTC.
    pub modification_time: u64,
}

/// The next header times of a payload: 12 bytes in version 0, 20 in version 1; any other version is `InvalidData`.
#[tactic(auto, unfolding(crate::specs::Times::header_times_at))]
pub(crate) fn read_header_times(fields: &mut Fields) -> Field<HeaderTimes>
    ensures { Reads (λ s. (s, fields.new)) result (header_times_at fields.old) }
{
    let version = fields.u8()?;
    let flags = fields.u24()?;
    let creation_time = fields.versioned(version)?;
    let modification_time = fields.versioned(version)?;
    Ok(HeaderTimes {
        version,
        flags,
        creation_time,
        modification_time,
    })
}

/// Adds the bytes of header times.
pub(crate) fn put_header_times(out: &mut Vec<u8>, s: HeaderTimes) -> Put
    ensures { OnOk result (Appends out.old.items out.new.items (header_times s)) }
{
    put_u8(out, s.version)?;
    put_u24(out, s.flags)?;
    put_versioned(out, s.version, s.creation_time)?;
    put_versioned(out, s.version, s.modification_time)?;
    Ok(())
}

/// Whether the version of a header is 0 or 1 and has room for its times: the first fault in the order of the layout.
///
/// `InvalidData` for another version, then `TooLarge(Value)` where a time passes 32 bits, but in version 1.
#[tactic(auto, unfolding(crate::specs::Times::times_refusal))]
pub(crate) fn check_times(
    version: u8,
    creation_time: u64,
    modification_time: u64,
    duration: u64,
) -> Result<()>
    ensures { Checks result (times_refusal version creation_time modification_time duration) }
{
    check_version(version)?;
    check_value(version, creation_time)?;
    check_value(version, modification_time)?;
    check_value(version, duration)?;
    Ok(())
}
