//! The types of coded sound.

ghost use Rattle.std.specs.Prelude.{◌≡◌, ◌<◌, ◌^◌};
ghost use Rattle.mp4_codec.specs.Cause.{Gives};
ghost use Rattle.mp4_entry.specs.AudioObjectType.{IsObjectType, object_type_of};
ghost use Rattle.std.proofs.Props.{props};

use mp4_codec::{Error, InRange, Result};

/// The type of coded sound, by its number: 1 to 95 without 31, which stands for the numbers from 32 on where it is
/// written (ISO/IEC 14496-3, 1.5.1). 2 is AAC of low complexity. It is made of a number alone, which is looked at.
#[derive(Clone, Copy, Debug, PartialEq, Eq)]
pub struct AudioObjectType {
    number: u8,
    ghost is_type: { IsObjectType number } by { Prim.hlevel props },
}

impl AudioObjectType {
    /// The number, 1 to 95 and not 31.
    pub fn number(self) -> u8
        ensures value { result ≡ self.number }
        ensures is_type { IsObjectType result }
    {
        self.number
    }
}

impl InRange for AudioObjectType {
    ghost IsInRange = { λ t. t.number < 2 ^ 8 };

    fn in_range(&self) {
        self.number.in_range();
    }
}

impl TryFrom<u8> for AudioObjectType {
    type Error = Error;

    ghost try_from_gives = { λ n result. Gives (λ t. t.number) result (object_type_of n) };

    /// The type with this number; `InvalidData` for 0, 31 and from 96 on.
    fn try_from(number: u8) -> Result<AudioObjectType> {
        if number == 0 || number == 31 || number > 95 {
            return Err(Error::InvalidData("a number of no type of sound"));
        }
        Ok(AudioObjectType { number })
    }
}
