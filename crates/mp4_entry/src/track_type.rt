//! The kinds of tracks.

ghost use denote.Enum.Bare.{same_true};
ghost use Rattle.mp4_entry.specs.contracts.track_type.TrackType.{the_type as track_types};
ghost use Rattle.std.specs.Prelude.{◌≡◌};
ghost use Rattle.mp4_codec.specs.Cause.{Gives};
ghost use Rattle.mp4_codec.specs.Bytes.{coded};
ghost use Rattle.mp4_entry.specs.TrackType.{handler_number, track_type_of};

use mp4_codec::{Error, ExactEq, FourCC, Result};
use std::fmt;

/// The kind of a track, which its handler says (ISO/IEC 14496-12, 8.4.3).
#[derive(Clone, Copy, Debug, PartialEq, Eq)]
pub enum TrackType {
    /// `vide`.
    Video,
    /// `soun`.
    Audio,
    /// `sbtl`.
    Subtitle,
}

impl ExactEq for TrackType {
    ghost exact = { same_true track_types tt };
}

impl TryFrom<&FourCC> for TrackType {
    type Error = Error;

    ghost try_from_gives = { λ handler result. Gives (λ t. t) result (track_type_of handler.now) };

    /// The kind of track with this handler; `InvalidData` for any but the three.
    fn try_from(handler: &FourCC) -> Result<TrackType> {
        match u32::from(*handler) {
            0x76696465 => Ok(TrackType::Video),
            0x736f756e => Ok(TrackType::Audio),
            0x7362746c => Ok(TrackType::Subtitle),
            _ => Err(Error::InvalidData("a handler of no kind of track")),
        }
    }
}

impl From<TrackType> for FourCC {
    ghost from_gives = { λ t handler. handler ≡ coded (handler_number t) };

    fn from(track_type: TrackType) -> FourCC {
        match track_type {
            TrackType::Video => FourCC::from(0x76696465),
            TrackType::Audio => FourCC::from(0x736f756e),
            TrackType::Subtitle => FourCC::from(0x7362746c),
        }
    }
}

impl fmt::Display for TrackType {
    fn fmt<W: fmt::Write>(&self, f: &mut fmt::Formatter<W>) -> fmt::Result {
        f.write_str(match self {
            TrackType::Video => "Video",
            TrackType::Audio => "Audio",
            TrackType::Subtitle => "Subtitle",
        })
    }
}
