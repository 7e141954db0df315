//! The media of a track, as cases write it.

use crate::encoded::encoded_word;
use mp4_codec::Items;
use mp4_entry::{
    AacConfig, AudioObjectType, AvcConfig, ChannelConfig, HevcConfig, MediaConfig, SampleFreqIndex,
    TtxtConfig, Vp9Config,
};
use std::alloc::{AllocError, Global};

/// Width and height; None where the words aren't two numbers of 16 bits.
fn pixels_of(width: &str, height: &str) -> Option<(u16, u16)> {
    Some((width.parse::<u16>().ok()?, height.parse::<u16>().ok()?))
}

/// AVC video of width and height, a sequence parameter set and a picture parameter set.
fn avc_of(alloc: Global, words: &[&str]) -> Result<Option<MediaConfig>, AllocError> {
    let [width, height, sps, pps] = words else {
        return Ok(None);
    };
    let Some((width, height)) = pixels_of(width, height) else {
        return Ok(None);
    };
    let seq_param_set = Items::from(encoded_word(alloc, sps)?);
    let pic_param_set = Items::from(encoded_word(alloc, pps)?);
    Ok(Some(MediaConfig::AvcConfig(AvcConfig {
        width,
        height,
        seq_param_set,
        pic_param_set,
    })))
}

/// HEVC video of width and height.
fn hevc_of(words: &[&str]) -> Option<MediaConfig> {
    let [width, height] = words else {
        return None;
    };
    let (width, height) = pixels_of(width, height)?;
    Some(MediaConfig::HevcConfig(HevcConfig { width, height }))
}

/// VP9 video of width and height.
fn vp9_of(words: &[&str]) -> Option<MediaConfig> {
    let [width, height] = words else {
        return None;
    };
    let (width, height) = pixels_of(width, height)?;
    Some(MediaConfig::Vp9Config(Vp9Config { width, height }))
}

/// AAC sound of bits in a second, and the numbers of its type, its frequency and its channels.
fn aac_of(words: &[&str]) -> Option<MediaConfig> {
    let [bitrate, profile, frequency, channels] = words else {
        return None;
    };
    let profile = profile.parse::<u8>().ok()?;
    let freq_index = frequency.parse::<u8>().ok()?;
    let chan_conf = channels.parse::<u8>().ok()?;
    Some(MediaConfig::AacConfig(AacConfig {
        bitrate: bitrate.parse::<u32>().ok()?,
        profile: AudioObjectType::try_from(profile).ok()?,
        freq_index: SampleFreqIndex::try_from(freq_index).ok()?,
        chan_conf: ChannelConfig::try_from(chan_conf).ok()?,
    }))
}

/// The media of a track: `avc 320 240 6742c01e 68ce3c80`, `hevc 320 240`, `vp9 320 240`, `aac 128000 2 3 2` or `ttxt`.
pub fn media_of(alloc: Global, text: &str) -> Result<Option<MediaConfig>, AllocError> {
    let words: Vec<&str> = text.split(' ').collect(alloc)?;
    let [kind, words @ ..] = words.as_slice() else {
        return Ok(None);
    };
    match *kind {
        "avc" => avc_of(alloc, words),
        "hevc" => Ok(hevc_of(words)),
        "vp9" => Ok(vp9_of(words)),
        "aac" => Ok(aac_of(words)),
        "ttxt" if words.is_empty() => Ok(Some(MediaConfig::TtxtConfig(TtxtConfig {}))),
        _ => Ok(None),
    }
}
