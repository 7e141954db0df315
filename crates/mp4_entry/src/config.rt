//! What the sample entry of a track is made from.

ghost use Rattle.mp4_codec.specs.ExactTest.{by_law, exact_enum, field_tests};
ghost use Rattle.mp4_entry.specs.contracts.avc1.AvcConfigExactEq.TheImpl.Laws.{lawful as avc_config_laws};
ghost use Rattle.mp4_entry.specs.contracts.hev1.HevcConfigExactEq.TheImpl.Laws.{lawful as hevc_config_laws};
ghost use Rattle.mp4_entry.specs.contracts.vp09.Vp9ConfigExactEq.TheImpl.Laws.{lawful as vp9_config_laws};
ghost use Rattle.mp4_entry.specs.contracts.mp4a.AacConfigExactEq.TheImpl.Laws.{lawful as aac_config_laws};
ghost use Rattle.mp4_entry.specs.contracts.tx3g.TtxtConfigExactEq.TheImpl.Laws.{lawful as ttxt_config_laws};
ghost use Rattle.mp4_entry.specs.contracts.config.MediaConfig.{enum as media_configs};
ghost use Rattle.std.specs.Prelude.{◌≡◌, ◌-◌, ◌^◌, Ok, min};
ghost use Rattle.mp4_codec.specs.Cause.{Answers, Checks};
ghost use Rattle.mp4_entry.specs.Config.{media_refusal, avc_refusal, track_type_in, media_type_in};
ghost use Rattle.mp4_entry.specs.Config.{IsInRangeMediaConfig, entry_length};

use crate::avc1::{AVC1_SIZE, AvcConfig};
use crate::hev1::{HEV1_SIZE, HevcConfig};
use crate::media_type::MediaType;
use crate::mp4a::{AacConfig, MP4A_SIZE};
use crate::track_type::TrackType;
use crate::tx3g::{TX3G_SIZE, TtxtConfig};
use crate::vp09::{VP09_SIZE, Vp9Config};
use mp4_codec::{Error, ExactEq, InRange, Result, TryClone};

/// The longest parameter set, whose length has 16 bits.
const LONGEST_SET: usize = 65_535;

/// How the samples of a track are coded, and what their decoder is started with.
#[derive(Debug, PartialEq, Eq, Drop)]
pub enum MediaConfig {
    AvcConfig(AvcConfig),
    HevcConfig(HevcConfig),
    Vp9Config(Vp9Config),
    AacConfig(AacConfig),
    TtxtConfig(TtxtConfig),
}

impl ExactEq for MediaConfig {
    ghost exact = { exact_enum media_configs
        (Prim.search (
          field_tests,
          by_law avc_config_laws.exact,
          by_law hevc_config_laws.exact,
          by_law vp9_config_laws.exact,
          by_law aac_config_laws.exact,
          by_law ttxt_config_laws.exact,
        )) };
}

/// Whether the parameter sets of AVC video have an encoding.
fn check_avc(config: &AvcConfig) -> Result<()>
    ensures { Checks result (avc_refusal config.now) }
{
    let sequence = config.seq_param_set.len();
    if sequence < 4 {
        return Err(Error::Unrepresentable("a sequence set under 4 bytes"));
    }
    if sequence > LONGEST_SET {
        return Err(Error::Unrepresentable("a sequence set over 65,535 bytes"));
    }
    if config.pic_param_set.len() > LONGEST_SET {
        return Err(Error::Unrepresentable("a picture set over 65,535 bytes"));
    }
    Ok(())
}

impl MediaConfig {
    /// Whether an entry of it can be written.
    ///
    /// `Unrepresentable` for a sequence parameter set of AVC video under 4 bytes, which hasn't its profile and level,
    /// or over 65,535, then for a picture parameter set over 65,535 bytes; and for a type of sound that isn't 1 to 30,
    /// which has no place in its five bits. Nothing else is refused.
    pub fn check(&self) -> Result<()>
        ensures { Checks result (media_refusal self.now) }
    {
        match self {
            MediaConfig::AvcConfig(config) => check_avc(config),
            MediaConfig::AacConfig(config) => {
                match config.profile.number() {
                    1..=30 => Ok(()),
                    _ => Err(Error::Unrepresentable("a type of sound that isn't 1 to 30")),
                }
            }
            _ => Ok(()),
        }
    }

    /// The kind of track that it is for.
    pub fn track_type(&self) -> TrackType
        ensures { result ≡ track_type_in self.now }
    {
        match self {
            MediaConfig::AvcConfig(_) => TrackType::Video,
            MediaConfig::HevcConfig(_) => TrackType::Video,
            MediaConfig::Vp9Config(_) => TrackType::Video,
            MediaConfig::AacConfig(_) => TrackType::Audio,
            MediaConfig::TtxtConfig(_) => TrackType::Subtitle,
        }
    }

    /// How its samples are coded.
    pub fn media_type(&self) -> MediaType
        ensures { result ≡ media_type_in self.now }
    {
        match self {
            MediaConfig::AvcConfig(_) => MediaType::H264,
            MediaConfig::HevcConfig(_) => MediaType::H265,
            MediaConfig::Vp9Config(_) => MediaType::VP9,
            MediaConfig::AacConfig(_) => MediaType::AAC,
            MediaConfig::TtxtConfig(_) => MediaType::TTXT,
        }
    }
}

/// How many bytes the entry of a configuration has, its header included; they stop at 2^64 - 1. It requests no memory.
pub fn entry_size(config: &MediaConfig) -> u64
    ensures { result ≡ min (entry_length config.now) (2 ^ 64 - 1) }
{
    match config {
        MediaConfig::AvcConfig(config) => {
            let sequence = config.seq_param_set.len() as u64;
            let picture = config.pic_param_set.len() as u64;
            sequence.saturating_add(picture).saturating_add(AVC1_SIZE)
        }
        MediaConfig::HevcConfig(_) => HEV1_SIZE,
        MediaConfig::Vp9Config(_) => VP09_SIZE,
        MediaConfig::AacConfig(_) => MP4A_SIZE,
        MediaConfig::TtxtConfig(_) => TX3G_SIZE,
    }
}

impl TryClone for MediaConfig {
    fn try_clone(&self) -> Result<Self> {
        match self {
            MediaConfig::AvcConfig(config) => {
                let copy = config.try_clone()?;
                Ok(MediaConfig::AvcConfig(copy))
            }
            MediaConfig::HevcConfig(config) => {
                let copy = config.try_clone()?;
                Ok(MediaConfig::HevcConfig(copy))
            }
            MediaConfig::Vp9Config(config) => {
                let copy = config.try_clone()?;
                Ok(MediaConfig::Vp9Config(copy))
            }
            MediaConfig::AacConfig(config) => Ok(MediaConfig::AacConfig(*config)),
            MediaConfig::TtxtConfig(config) => {
                let copy = config.try_clone()?;
                Ok(MediaConfig::TtxtConfig(copy))
            }
        }
    }
}

impl InRange for MediaConfig {
    ghost IsInRange = { IsInRangeMediaConfig };

    fn in_range(&self) {
        match self {
            MediaConfig::AvcConfig(config) => config.in_range(),
            MediaConfig::HevcConfig(config) => config.in_range(),
            MediaConfig::Vp9Config(config) => config.in_range(),
            MediaConfig::AacConfig(config) => config.in_range(),
            MediaConfig::TtxtConfig(config) => config.in_range(),
        }
    }
}
