//! What a movie is begun with, and what a track is added with.

ghost use Rattle.mp4_codec.specs.ExactTest.{by_law, by_test, field_tests};
ghost use Rattle.mp4_entry.specs.contracts.track_type.TrackTypeExactEq.TheImpl.Laws.{lawful as track_type_laws};
ghost use Rattle.mp4_entry.specs.contracts.config.MediaConfigExactEq.TheImpl.Laws.{lawful as media_config_laws};
ghost use Rattle.std.specs.Prelude.{Ok};
ghost use Rattle.mp4_codec.specs.Cause.{Answers, Checks};
ghost use Rattle.mp4_entry.specs.declared.config.MediaConfig.TheVariants.{AvcConfig as Avc, HevcConfig as Hevc};
ghost use Rattle.mp4_entry.specs.declared.config.MediaConfig.TheVariants.{Vp9Config as Vp9, AacConfig as Aac};
ghost use Rattle.mp4_entry.specs.declared.config.MediaConfig.TheVariants.{TtxtConfig as Ttxt};
ghost use Rattle.mp4_mux.specs.Config.{IsInRangeConfig, IsInRangeTrackConfig, config_cause, track_config_of};

use mp4_codec::{Error, ExactEq, FourCC, InRange, Items, Result, Text, TryClone};
use mp4_entry::{AacConfig, AvcConfig, HevcConfig, MediaConfig, TrackType, TtxtConfig, Vp9Config};
use mp4_leaf::check_language;
use std::alloc::Global;

/// What a movie is begun with: its brands and its timescale.
#[derive(Debug, PartialEq, Eq, Drop)]
pub struct Mp4Config {
    /// The specification that the file follows first of all (ISO/IEC 14496-12, 4.3).
    pub major_brand: FourCC,
    /// The version of the major brand.
    pub minor_version: u32,
    /// All specifications that the file follows.
    pub compatible_brands: Items<FourCC>,
    /// Ticks in a second, of the movie's durations (8.2.2). 0 is accepted: then all durations in these ticks are 0.
    pub timescale: u32,
}

impl ExactEq for Mp4Config {
    ghost exact = { by_test (Prim.hlevel field_tests) };
}

impl TryClone for Mp4Config {
    fn try_clone(&self) -> Result<Self> {
        Ok(Mp4Config {
            major_brand: self.major_brand,
            minor_version: self.minor_version,
            compatible_brands: self.compatible_brands.try_clone()?,
            timescale: self.timescale,
        })
    }
}

impl InRange for Mp4Config {
    ghost IsInRange = { IsInRangeConfig };

    fn in_range(&self) {
        self.major_brand.in_range();
        self.minor_version.in_range();
        self.compatible_brands.in_range();
        self.timescale.in_range();
    }
}

/// What a track is added with.
#[derive(Debug, PartialEq, Eq, Drop)]
pub struct TrackConfig {
    /// The kind of the track, which its handler says (ISO/IEC 14496-12, 8.4.3).
    pub track_type: TrackType,
    /// Ticks in a second, of the durations of its samples (8.4.2).
    pub timescale: u32,
    /// Its language, three characters of U+0060 to U+007F (8.4.2).
    pub language: Text,
    /// How its samples are coded.
    pub media_conf: MediaConfig,
}

impl ExactEq for TrackConfig {
    ghost exact = { by_test (Prim.hlevel (field_tests, by_law track_type_laws.exact, by_law media_config_laws.exact)) };
}

impl TrackConfig {
    /// 1000 ticks a second, the language `und`, and the kind of track that these media are of. Refused by `OutOfMemory`
    /// alone.
    pub fn from_media(alloc: Global, media_conf: MediaConfig) -> Result<Self>
        ensures { Answers (λ c. c) result (Ok (track_config_of media_conf)) }
    {
        Ok(TrackConfig {
            track_type: media_conf.track_type(),
            timescale: 1000,
            language: Text::from_str(alloc, "und")?,
            media_conf,
        })
    }

    /// A track of AVC video, as `from_media` makes it.
    pub fn from_avc(alloc: Global, config: AvcConfig) -> Result<Self>
        ensures { Answers (λ c. c) result (Ok (track_config_of (Avc config))) }
    {
        Self::from_media(alloc, MediaConfig::AvcConfig(config))
    }

    /// A track of HEVC video, as `from_media` makes it.
    pub fn from_hevc(alloc: Global, config: HevcConfig) -> Result<Self>
        ensures { Answers (λ c. c) result (Ok (track_config_of (Hevc config))) }
    {
        Self::from_media(alloc, MediaConfig::HevcConfig(config))
    }

    /// A track of VP9 video, as `from_media` makes it.
    pub fn from_vp9(alloc: Global, config: Vp9Config) -> Result<Self>
        ensures { Answers (λ c. c) result (Ok (track_config_of (Vp9 config))) }
    {
        Self::from_media(alloc, MediaConfig::Vp9Config(config))
    }

    /// A track of AAC sound, as `from_media` makes it.
    pub fn from_aac(alloc: Global, config: AacConfig) -> Result<Self>
        ensures { Answers (λ c. c) result (Ok (track_config_of (Aac config))) }
    {
        Self::from_media(alloc, MediaConfig::AacConfig(config))
    }

    /// A track of timed text, as `from_media` makes it.
    pub fn from_ttxt(alloc: Global, config: TtxtConfig) -> Result<Self>
        ensures { Answers (λ c. c) result (Ok (track_config_of (Ttxt config))) }
    {
        Self::from_media(alloc, MediaConfig::TtxtConfig(config))
    }

    /// Whether a track can be added with it: `ZeroTimescale`, then `Unrepresentable` for a language of other than three
    /// characters of U+0060 to U+007F, and then for media of which no entry can be written, as `MediaConfig::check`
    /// says. It requests no memory.
    #[tactic(auto, unfolding(crate::specs::Config::config_cause))]
    pub fn check(&self) -> Result<()>
        ensures { Checks result (config_cause self.now) }
    {
        if self.timescale == 0 {
            return Err(Error::ZeroTimescale);
        }
        check_language(&self.language)?;
        self.media_conf.check()
    }
}

impl TryClone for TrackConfig {
    fn try_clone(&self) -> Result<Self> {
        Ok(TrackConfig {
            track_type: self.track_type,
            timescale: self.timescale,
            language: self.language.try_clone()?,
            media_conf: self.media_conf.try_clone()?,
        })
    }
}

impl InRange for TrackConfig {
    ghost IsInRange = { IsInRangeTrackConfig };

    fn in_range(&self) {
        self.timescale.in_range();
        self.media_conf.in_range();
    }
}
