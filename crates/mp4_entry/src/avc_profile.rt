//! The profiles of AVC video.

ghost use denote.Enum.Bare.{same_true};
ghost use Rattle.mp4_entry.specs.contracts.avc_profile.AvcProfile.{the_type as avc_profiles};
ghost use Rattle.std.specs.Prelude.{◌≡◌};
ghost use Rattle.mp4_codec.specs.Cause.{Gives};
ghost use Rattle.mp4_entry.specs.AvcProfile.{avc_profile_of};

use mp4_codec::{Error, ExactEq, Result};

/// A profile of AVC video (ISO/IEC 14496-10, Annex A).
#[derive(Clone, Copy, Debug, PartialEq, Eq)]
pub enum AvcProfile {
    /// 66 with the bit 0x40 of the compatibility.
    AvcConstrainedBaseline,
    /// 66 without it.
    AvcBaseline,
    /// 77.
    AvcMain,
    /// 88.
    AvcExtended,
    /// 100.
    AvcHigh,
}

impl ExactEq for AvcProfile {
    ghost exact = { same_true avc_profiles tt };
}

impl TryFrom<(u8, u8)> for AvcProfile {
    type Error = Error;

    ghost try_from_gives = { λ pair result. Gives (λ p. p) result (avc_profile_of pair.0 pair.1) };

    /// The profile by its number and the byte of compatibility that follows it; `InvalidData` for any other number.
    fn try_from(pair: (u8, u8)) -> Result<AvcProfile> {
        let (profile, compatibility) = pair;
        let constrained = compatibility / 0x40 % 2 == 1;
        match profile {
            66 if constrained => Ok(AvcProfile::AvcConstrainedBaseline),
            66 => Ok(AvcProfile::AvcBaseline),
            77 => Ok(AvcProfile::AvcMain),
            88 => Ok(AvcProfile::AvcExtended),
            100 => Ok(AvcProfile::AvcHigh),
            _ => Err(Error::InvalidData("a number of no profile")),
        }
    }
}
