//! Sample entries and headers of media, encoded byte by byte.

use crate::calls::{Media, Picture, Sound};
use crate::plain_bytes::{begin_box, end_box, put, put_short_pair, put_zeros};
use std::alloc::AllocError;

const VMHD: [u8; 20] = *b"\0\0\0\x14vmhd\0\0\0\x01\0\0\0\0\0\0\0\0";

const SMHD: [u8; 16] = *b"\0\0\0\x10smhd\0\0\0\0\0\0\0\0";

/// The fields of an entry that come first: six zeros, and the index 1 of its data reference.
const FIRST: [u8; 8] = *b"\0\0\0\0\0\0\0\x01";

/// 72 dots an inch across and down, four zeros, one frame a sample.
const RESOLUTION: [u8; 14] = *b"\0\x48\0\0\0\x48\0\0\0\0\0\0\0\x01";

const HVCC: [u8; 31] = *b"\0\0\0\x1fhvcC\x01\0\0\0\0\0\0\0\0\0\0\0\0\0\0\0\0\0\0\0\0\0\0";

const VPCC: [u8; 20] = *b"\0\0\0\x14vpcC\x01\0\0\0\0\x1f\x80\0\0\0\0\0";

/// Horizontal and vertical place, colours, box and style of text.
const TEXT: [u8; 30] =
    *b"\0\0\0\0\x01\xff\0\0\0\xff\0\0\0\0\0\0\0\0\0\0\0\0\0\x01\0\x10\xff\xff\xff\xff";

/// The hertz of each number of a frequency.
const FREQUENCIES: [u32; 13] = [
    96000, 88200, 64000, 48000, 44100, 32000, 24000, 22050, 16000, 12000, 11025, 8000, 7350,
];

/// The header of media that video and sound have, but VP9 video hasn't.
pub fn put_media_header(bytes: &mut Vec<u8>, media: &Media) -> Result<(), AllocError> {
    match media {
        Media::Avc(_, _, _) | Media::Hevc(_) => bytes.extend_from_slice(&VMHD)?,
        Media::Aac(_) => bytes.extend_from_slice(&SMHD)?,
        Media::Vp9(_) | Media::Text => {}
    }
    Ok(())
}

/// Width and height in the header of a track, 0 where it has none.
pub fn pixels(media: &Media) -> (u32, u32) {
    match media {
        Media::Avc(picture, _, _) | Media::Hevc(picture) | Media::Vp9(picture) => {
            (u32::from(picture.width), u32::from(picture.height))
        }
        Media::Aac(_) | Media::Text => (0, 0),
    }
}

/// The fields of an entry of video.
fn put_picture(bytes: &mut Vec<u8>, picture: Picture) -> Result<(), AllocError> {
    bytes.extend_from_slice(&FIRST)?;
    put_zeros(bytes, 16)?;
    put_short_pair(bytes, picture.width, picture.height)?;
    bytes.extend_from_slice(&RESOLUTION)?;
    put_zeros(bytes, 32)?;
    bytes.extend_from_slice(b"\0\x18\xff\xff")
}

/// One parameter set: how many there are, its length and its bytes.
fn put_set(bytes: &mut Vec<u8>, count: u8, set: &[u8]) -> Result<(), AllocError> {
    bytes.push(count)?;
    let length = u16::try_from(set.len()).unwrap_or(0);
    bytes.extend_from_slice(&length.to_be_bytes())?;
    bytes.extend_from_slice(set)
}

/// The three bytes of a sequence parameter set that say profile and level.
fn profile_of(sequence: &[u8]) -> &[u8] {
    sequence.get(1..4).unwrap_or(&[])
}

fn put_avcc(bytes: &mut Vec<u8>, sequence: &[u8], picture_set: &[u8]) -> Result<(), AllocError> {
    let start = begin_box(bytes, b"avcC\x01")?;
    bytes.extend_from_slice(profile_of(sequence))?;
    bytes.push(0xff)?;
    put_set(bytes, 0xe1, sequence)?;
    put_set(bytes, 1, picture_set)?;
    end_box(bytes, start);
    Ok(())
}

fn put_avc(
    bytes: &mut Vec<u8>,
    picture: Picture,
    sequence: &[u8],
    picture_set: &[u8],
) -> Result<(), AllocError> {
    let start = begin_box(bytes, b"avc1")?;
    put_picture(bytes, picture)?;
    put_avcc(bytes, sequence, picture_set)?;
    end_box(bytes, start);
    Ok(())
}

/// An entry of video with this configuration after its fields.
fn put_video(
    bytes: &mut Vec<u8>,
    kind: &[u8],
    picture: Picture,
    setup: &[u8],
) -> Result<(), AllocError> {
    let start = begin_box(bytes, kind)?;
    put_picture(bytes, picture)?;
    bytes.extend_from_slice(setup)?;
    end_box(bytes, start);
    Ok(())
}

/// The hertz of a number of a frequency, as 16.16; 0 where they have no room in 16 bits.
fn fixed_hertz(frequency: u8) -> u32 {
    let hertz = FREQUENCIES
        .get(usize::from(frequency))
        .copied()
        .unwrap_or(0);
    if hertz > 65535 {
        0
    } else {
        hertz.wrapping_mul(65536)
    }
}

/// Profile, frequency and channels in 5, 4 and 4 bits, and 3 zeros.
fn sound_bits(sound: Sound) -> u16 {
    u16::from(sound.profile)
        .wrapping_mul(2048)
        .wrapping_add(u16::from(sound.frequency).wrapping_mul(128))
        .wrapping_add(u16::from(sound.channels).wrapping_mul(8))
}

/// The descriptors of a stream of sound whose largest sample has so many bytes.
fn put_stream(bytes: &mut Vec<u8>, sound: Sound, largest: u32) -> Result<(), AllocError> {
    let start = begin_box(bytes, b"esds\0\0\0\0\x03\x19\0\x01\0\x04\x11\x40")?;
    put(bytes, largest.min(0xff_ffff).wrapping_add(0x1500_0000))?;
    put(bytes, sound.bitrate)?;
    put(bytes, sound.bitrate)?;
    bytes.extend_from_slice(b"\x05\x02")?;
    bytes.extend_from_slice(&sound_bits(sound).to_be_bytes())?;
    bytes.extend_from_slice(b"\x06\x01\x02")?;
    end_box(bytes, start);
    Ok(())
}

/// The fields of an entry of sound.
fn put_sound(bytes: &mut Vec<u8>, sound: Sound) -> Result<(), AllocError> {
    bytes.extend_from_slice(&FIRST)?;
    put_zeros(bytes, 8)?;
    put_short_pair(bytes, u16::from(sound.channels), 16)?;
    put_zeros(bytes, 4)?;
    put(bytes, fixed_hertz(sound.frequency))
}

fn put_aac(bytes: &mut Vec<u8>, sound: Sound, largest: u32) -> Result<(), AllocError> {
    let start = begin_box(bytes, b"mp4a")?;
    put_sound(bytes, sound)?;
    put_stream(bytes, sound, largest)?;
    end_box(bytes, start);
    Ok(())
}

fn put_text(bytes: &mut Vec<u8>) -> Result<(), AllocError> {
    let start = begin_box(bytes, b"tx3g")?;
    bytes.extend_from_slice(&FIRST)?;
    bytes.extend_from_slice(&TEXT)?;
    end_box(bytes, start);
    Ok(())
}

fn put_entry(bytes: &mut Vec<u8>, media: &Media, largest: u32) -> Result<(), AllocError> {
    match media {
        Media::Avc(picture, sequence, picture_set) => {
            put_avc(bytes, *picture, sequence, picture_set)
        }
        Media::Hevc(picture) => put_video(bytes, b"hev1", *picture, &HVCC),
        Media::Vp9(picture) => put_video(bytes, b"vp09", *picture, &VPCC),
        Media::Aac(sound) => put_aac(bytes, *sound, largest),
        Media::Text => put_text(bytes),
    }
}

/// The sample description of a track whose largest sample has so many bytes.
pub fn put_description(bytes: &mut Vec<u8>, media: &Media, largest: u32) -> Result<(), AllocError> {
    let start = begin_box(bytes, b"stsd\0\0\0\0\0\0\0\x01")?;
    put_entry(bytes, media, largest)?;
    end_box(bytes, start);
    Ok(())
}
