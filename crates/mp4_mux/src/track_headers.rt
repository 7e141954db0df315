//! The headers of a track that is written, and of its movie.

ghost use Rattle.std.specs.Prelude.{◌≡◌, Ok};
ghost use Rattle.mp4_codec.specs.Cause.{Answers};
ghost use Rattle.mp4_mux.specs.TrackHeaders.{version_for, header_length, picture_size, tkhd_for, mdhd_for, hdlr_for};
ghost use Rattle.mp4_mux.specs.TrackHeaders.{vmhd_for, smhd_for, media_header_length, mvhd_for};

use crate::config::TrackConfig;
use mp4_codec::{FixedPointU16, FourCC, Items, Result, TryClone};
use mp4_entry::{MediaConfig, TrackType};
use mp4_leaf::{HdlrBox, MdhdBox, MvhdBox, SmhdBox, TkhdBox, VmhdBox};
use std::alloc::Global;

/// The version of a header of this duration: 0 where it has room in 32 bits, else 1.
fn version_for(duration: u64) -> u8
    ensures { result ≡ version_for duration }
{
    if duration > u32::MAX as u64 { 1 } else { 0 }
}

/// How many bytes a header of this duration has, of which version 0 has so many.
pub(crate) fn header_size(short: u32, duration: u64) -> u64
    ensures { result ≡ header_length short duration }
{
    if duration > u32::MAX as u64 {
        short as u64 + 12
    } else {
        short as u64
    }
}

/// The width and the height of the pictures, in whole pixels; 0 where there are none.
fn picture_size(media: &MediaConfig) -> (u16, u16)
    ensures { result ≡ picture_size media.now }
{
    match media {
        MediaConfig::AvcConfig(config) => (config.width, config.height),
        MediaConfig::HevcConfig(config) => (config.width, config.height),
        MediaConfig::Vp9Config(config) => (config.width, config.height),
        MediaConfig::AacConfig(_) => (0, 0),
        MediaConfig::TtxtConfig(_) => (0, 0),
    }
}

/// The header of a track (ISO/IEC 14496-12, 8.3.2), with its duration in ticks of the movie. It requests no memory.
pub(crate) fn tkhd_box(id: u32, duration: u64, media: &MediaConfig) -> TkhdBox
    ensures { result ≡ tkhd_for id duration media.now }
{
    let (width, height) = picture_size(media);
    TkhdBox {
        version: version_for(duration),
        track_id: id,
        duration,
        width: FixedPointU16::new(width),
        height: FixedPointU16::new(height),
        ..TkhdBox::default()
    }
}

/// The header of its media (8.4.2), with its duration in ticks of the track. Refused by `OutOfMemory` alone.
pub(crate) fn mdhd_box(duration: u64, config: &TrackConfig) -> Result<MdhdBox>
    ensures { Answers (λ b. b) result (Ok (mdhd_for duration config.now)) }
{
    Ok(MdhdBox {
        version: version_for(duration),
        flags: 0,
        creation_time: 0,
        modification_time: 0,
        timescale: config.timescale,
        duration,
        language: config.language.try_clone()?,
    })
}

/// Its handler (8.4.3), of no name. It requests no memory.
pub(crate) fn hdlr_box(alloc: Global, kind: TrackType) -> HdlrBox
    ensures { result ≡ hdlr_for kind }
{
    HdlrBox {
        version: 0,
        flags: 0,
        handler_type: FourCC::from(kind),
        name: Items::new(alloc),
    }
}

/// The header of video (12.1.2), but for VP9. It requests no memory.
pub(crate) fn vmhd_box(media: &MediaConfig) -> Option<VmhdBox>
    ensures { result ≡ vmhd_for media.now }
{
    match media {
        MediaConfig::AvcConfig(_) => Some(VmhdBox::default()),
        MediaConfig::HevcConfig(_) => Some(VmhdBox::default()),
        _ => None,
    }
}

/// The header of sound (12.2.2). It requests no memory.
pub(crate) fn smhd_box(media: &MediaConfig) -> Option<SmhdBox>
    ensures { result ≡ smhd_for media.now }
{
    match media {
        MediaConfig::AacConfig(_) => Some(SmhdBox::default()),
        _ => None,
    }
}

/// How many bytes the one of the two that there is has; 0 where there is none.
pub(crate) fn media_header_size(media: &MediaConfig) -> u64
    ensures { result ≡ media_header_length media.now }
{
    match media {
        MediaConfig::AvcConfig(_) => 20,
        MediaConfig::HevcConfig(_) => 20,
        MediaConfig::AacConfig(_) => 16,
        _ => 0,
    }
}

/// The header of a movie (8.2.2) of this timescale, in ticks a second, and of this duration, in such ticks. It requests
/// no memory.
pub fn mvhd_box(timescale: u32, duration: u64) -> MvhdBox
    ensures { result ≡ mvhd_for timescale duration }
{
    MvhdBox {
        version: version_for(duration),
        timescale,
        duration,
        ..MvhdBox::default()
    }
}

/// How many bytes the header of a movie of this duration has, its own header included: 108, or 120 where the duration
/// passes 32 bits.
pub fn mvhd_size(duration: u64) -> u64
    ensures { result ≡ header_length 108 duration }
{
    header_size(108, duration)
}
