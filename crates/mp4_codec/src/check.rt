//! Whether a full box's fields can be written.

ghost use Rattle.mp4_codec.specs.Cause.{Checks};
ghost use Rattle.mp4_codec.specs.Bytes.{version_refusal, value_refusal};

use crate::error::{Error, Limit, Result};

/// Whether a version is 0 or 1; any other is `InvalidData`.
pub fn check_version(version: u8) -> Result<()>
    ensures { Checks result (version_refusal version) }
{
    if version > 1 {
        return Err(Error::InvalidData("an unknown version"));
    }
    Ok(())
}

/// Whether a number has room in the bytes that a version gives it; `TooLarge(Value)` where it passes
/// 32 bits, but in version 1.
#[tactic(auto, unfolding(crate::specs::Bytes::value_refusal))]
pub fn check_value(version: u8, n: u64) -> Result<()>
    ensures { Checks result (value_refusal version n) }
{
    if version != 1 && n > u32::MAX as u64 {
        return Err(Error::TooLarge(Limit::Value));
    }
    Ok(())
}
