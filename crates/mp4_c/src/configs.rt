//! What a movie and its tracks are written with.

ghost use Rattle.std.specs.Prelude.{◌≡◌, map, IfErr, IfOk};
ghost use Rattle.mp4_codec.specs.Cause.{AnswersCause, Checks};
ghost use Rattle.mp4_c.specs.Parts.{part_at, part_fault};
ghost use Rattle.mp4_c.specs.TrackConfigs.{IsConfigOf, IsMediaOf, IsSoundOf, avc_in, language_in, row_fault};
ghost use Rattle.mp4_c.specs.TrackConfigs.{sets_fault, sound_fault};
ghost use Rattle.mp4_c.specs.Written.{config_of, four_cc};

use mp4_media::{
    AacConfig, AudioObjectType, AvcConfig, ByteCursor, ChannelConfig, Error, FourCC, HevcConfig,
    Items, MediaConfig, Mp4Config, Result, SampleFreqIndex, Text, TrackConfig, TtxtConfig,
    Vp9Config,
};
use std::alloc::Global;

/// A specification that a file follows.
#[repr(C)]
#[derive(Clone, Copy, Debug, PartialEq, Eq)]
pub struct Brand {
    /// Its four bytes, as `isom`.
    pub code: [u8; 4],
}

/// The size that the header says.
const _: () = prove!(size_of::<Brand>() == 4);

/// What a movie is begun with.
#[repr(C)]
#[derive(Clone, Copy, Debug, PartialEq, Eq)]
pub struct NewMovie {
    /// Ticks in a second, of the movie's durations.
    pub timescale: u32,
    /// The version of the major brand.
    pub minor_version: u32,
    /// The specification that the file follows first of all.
    pub major_brand: [u8; 4],
}

/// The size that the header says.
const _: () = prove!(size_of::<NewMovie>() == 12);

/// What a track is added with. The first has id 1, and each next one the id after the one before.
#[repr(C)]
#[derive(Clone, Copy, Debug, PartialEq, Eq)]
pub struct NewTrack {
    /// For `avc1`: where the sequence parameter set begins in the data.
    pub sequence_set: u64,
    /// For `avc1`: where the picture parameter set begins in the data.
    pub picture_set: u64,
    /// For `avc1`: the bytes of the sequence parameter set.
    pub sequence_set_size: u32,
    /// For `avc1`: the bytes of the picture parameter set.
    pub picture_set_size: u32,
    /// Ticks in a second, of the track's times.
    pub timescale: u32,
    /// For `mp4a`: bits in a second.
    pub bits_per_second: u32,
    /// `avc1`, `hev1`, `vp09`, `mp4a` or `tx3g`.
    pub sample_entry: [u8; 4],
    /// Three characters of U+0060 to U+007F; `und` where the first is zero.
    pub language: [u8; 4],
    /// For `avc1`, `hev1` and `vp09`: pixels.
    pub width: u16,
    /// For `avc1`, `hev1` and `vp09`: pixels.
    pub height: u16,
    /// For `mp4a`: the type of coded sound.
    pub audio_profile: u8,
    /// For `mp4a`: the number of the sampling frequency.
    pub frequency_index: u8,
    /// For `mp4a`: the number of the channel configuration.
    pub channels: u8,
    /// Not looked at.
    pub reserved: u8,
}

/// The size that the header says.
const _: () = prove!(size_of::<NewTrack>() == 48);

/// The bytes at a place of the data; `EndOfData` where they aren't whole there.
pub fn part_of(source: &[u8], offset: u64, size: u32) -> Result<&[u8]>
    ensures part { IfOk result (λ part. part.now ≡ part_at source.now offset size) }
    ensures fault { Checks result (part_fault source.now offset size) }
{
    let mut cursor = ByteCursor::new(source);
    cursor.set_position(offset);
    cursor.take(u64::from(size))
}

/// AVC video with copies of these parameter sets; memory may run out.
fn avc_with(
    alloc: Global,
    track: &NewTrack,
    sequence_set: &[u8],
    picture_set: &[u8],
) -> Result<AvcConfig>
    ensures config { IfOk result (λ config. config ≡ record {
      width = track.now.width;
      height = track.now.height;
      seq_param_set = sequence_set.now;
      pic_param_set = picture_set.now;
    }) }
    ensures memory { IfErr result (λ e. e ≡ Error.OutOfMemory) }
{
    Ok(AvcConfig {
        width: track.width,
        height: track.height,
        seq_param_set: Items::from(sequence_set.to_vec(alloc)?),
        pic_param_set: Items::from(picture_set.to_vec(alloc)?),
    })
}

/// AVC video; `EndOfData` where a parameter set isn't whole in the data.
fn avc_of(alloc: Global, track: &NewTrack, source: &[u8]) -> Result<AvcConfig>
    ensures config { IfOk result (λ config. config ≡ avc_in source.now track.now) }
    ensures cause { AnswersCause (sets_fault source.now track.now) result }
{
    let sequence_set = part_of(source, track.sequence_set, track.sequence_set_size)?;
    let picture_set = part_of(source, track.picture_set, track.picture_set_size)?;
    avc_with(alloc, track, sequence_set, picture_set)
}

/// AAC sound; `InvalidData` for another type of sound, frequency or channels than are known.
fn aac_of(track: &NewTrack) -> Result<AacConfig>
    ensures config { IfOk result (IsSoundOf track.now) }
    ensures fault { Checks result (sound_fault track.now) }
{
    let profile = AudioObjectType::try_from(track.audio_profile)?;
    let freq_index = SampleFreqIndex::try_from(track.frequency_index)?;
    let chan_conf = ChannelConfig::try_from(track.channels)?;
    Ok(AacConfig {
        bitrate: track.bits_per_second,
        profile,
        freq_index,
        chan_conf,
    })
}

/// How the samples of a track are coded; `InvalidData` for another sample entry than the five.
#[tactic(auto, unfolding(crate::specs::TrackConfigs::IsMediaOf, crate::specs::TrackConfigs::row_fault))]
fn media_of(alloc: Global, track: &NewTrack, source: &[u8]) -> Result<MediaConfig>
    ensures media { IfOk result (IsMediaOf source.now track.now) }
    ensures cause { AnswersCause (row_fault source.now track.now) result }
{
    let width = track.width;
    let height = track.height;
    match u32::from_be_bytes(track.sample_entry) {
        0x61766331 => {
            let config = avc_of(alloc, track, source)?;
            Ok(MediaConfig::AvcConfig(config))
        }
        0x68657631 => Ok(MediaConfig::HevcConfig(HevcConfig { width, height })),
        0x76703039 => Ok(MediaConfig::Vp9Config(Vp9Config { width, height })),
        0x6d703461 => {
            let config = aac_of(track)?;
            Ok(MediaConfig::AacConfig(config))
        }
        0x74783367 => Ok(MediaConfig::TtxtConfig(TtxtConfig {})),
        _ => Err(Error::InvalidData("a sample entry that isn't written")),
    }
}

/// A language of three characters; `und` where the first is zero.
#[tactic(auto, unfolding(crate::specs::TrackConfigs::language_in))]
fn language_of(alloc: Global, language: [u8; 4]) -> Result<Text>
    ensures text { IfOk result (λ text. text ≡ language_in language) }
    ensures memory { IfErr result (λ e. e ≡ Error.OutOfMemory) }
{
    let [a, b, c, _] = language;
    if a == 0 {
        return Ok(Text::from_str(alloc, "und")?);
    }
    let mut text = String::new(alloc);
    text.push(char::from(a))?;
    text.push(char::from(b))?;
    text.push(char::from(c))?;
    Ok(Text::from(text))
}

/// What a track is added with.
pub fn track_config(alloc: Global, track: &NewTrack, source: &[u8]) -> Result<TrackConfig>
    ensures config { IfOk result (IsConfigOf source.now track.now) }
    ensures cause { AnswersCause (row_fault source.now track.now) result }
{
    let media_conf = media_of(alloc, track, source)?;
    let language = language_of(alloc, track.language)?;
    Ok(TrackConfig {
        track_type: media_conf.track_type(),
        timescale: track.timescale,
        language,
        media_conf,
    })
}

/// The codes of brands.
fn brand_codes(alloc: Global, brands: &[Brand]) -> Result<Items<FourCC>>
    ensures codes { IfOk result (λ codes. codes ≡ map four_cc brands.now) }
    ensures memory { IfErr result (λ e. e ≡ Error.OutOfMemory) }
{
    let mut codes = Vec::new(alloc);
    for brand in brands {
        codes.push(FourCC { value: brand.code })?;
    }
    Ok(Items::from(codes))
}

/// What a movie is begun with.
pub fn movie_config(alloc: Global, movie: &NewMovie, brands: &[Brand]) -> Result<Mp4Config>
    ensures config { IfOk result (λ config. config ≡ config_of movie.now brands.now) }
    ensures memory { IfErr result (λ e. e ≡ Error.OutOfMemory) }
{
    Ok(Mp4Config {
        major_brand: FourCC {
            value: movie.major_brand,
        },
        minor_version: movie.minor_version,
        compatible_brands: brand_codes(alloc, brands)?,
        timescale: movie.timescale,
    })
}
