//! The channels of sound.

ghost use denote.Enum.Bare.{same_true};
ghost use Rattle.mp4_entry.specs.contracts.channel_config.ChannelConfig.{the_type as channel_configs};
ghost use Rattle.std.specs.Prelude.{◌≡◌};
ghost use Rattle.mp4_codec.specs.Cause.{Gives};
ghost use Rattle.mp4_entry.specs.ChannelConfig.{channel_number, channel_config_of};

use mp4_codec::{Error, ExactEq, Result};

/// The channels of a sound track, by their number (ISO/IEC 14496-3, 1.6.3.5).
#[derive(Clone, Copy, Debug, PartialEq, Eq)]
pub enum ChannelConfig {
    /// 1: one channel.
    Mono,
    /// 2: left and right.
    Stereo,
    /// 3: centre, left and right.
    Three,
    /// 4: those three, and one after.
    Four,
    /// 5: those three, and two after.
    Five,
    /// 6: those five, and one of low frequencies.
    FiveOne,
    /// 7: those six, and two further out in front.
    SevenOne,
}

impl ExactEq for ChannelConfig {
    ghost exact = { same_true channel_configs tt };
}

impl ChannelConfig {
    /// The number, 1 to 7.
    pub fn number(self) -> u8
        ensures { result ≡ channel_number self }
    {
        match self {
            ChannelConfig::Mono => 1,
            ChannelConfig::Stereo => 2,
            ChannelConfig::Three => 3,
            ChannelConfig::Four => 4,
            ChannelConfig::Five => 5,
            ChannelConfig::FiveOne => 6,
            ChannelConfig::SevenOne => 7,
        }
    }
}

impl TryFrom<u8> for ChannelConfig {
    type Error = Error;

    ghost try_from_gives = { λ n result. Gives (λ config. config) result (channel_config_of n) };

    /// The channels with this number; `InvalidData` for 0 and from 8 on.
    fn try_from(number: u8) -> Result<ChannelConfig> {
        match number {
            1 => Ok(ChannelConfig::Mono),
            2 => Ok(ChannelConfig::Stereo),
            3 => Ok(ChannelConfig::Three),
            4 => Ok(ChannelConfig::Four),
            5 => Ok(ChannelConfig::Five),
            6 => Ok(ChannelConfig::FiveOne),
            7 => Ok(ChannelConfig::SevenOne),
            _ => Err(Error::InvalidData("a number of no channels")),
        }
    }
}
