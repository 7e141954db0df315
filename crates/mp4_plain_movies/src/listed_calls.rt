//! Lists of calls that make a movie, and the media of their tracks.

use crate::calls::{Call, Media, Picture, Sound, Track, add_text, write_sync};
use mp4_entry::TrackType;

/// The calls that make the text movie of `movie_bytes`.
pub fn text_calls() -> [Call<'static>; 5] {
    [
        add_text(1000),
        write_sync(1, 500, b"abc"),
        write_sync(1, 500, b"def"),
        write_sync(1, 500, b"gh"),
        Call::WriteEnd,
    ]
}

/// 320 by 240 pixels.
pub const SMALL: Picture = Picture {
    width: 320,
    height: 240,
};

const SEQUENCE: [u8; 4] = [0x67, 0x42, 0xc0, 0x1e];

const PICTURE_SET: [u8; 4] = [0x68, 0xce, 0x3c, 0x80];

/// Two channels of 48,000 hertz, AAC of low complexity.
pub const STEREO: Sound = Sound {
    bitrate: 128000,
    profile: 2,
    frequency: 3,
    channels: 2,
};

/// The call that adds a track of these media, of 1000 ticks a second.
pub fn add_media(track_type: TrackType, media: Media) -> Call {
    Call::AddTrack(Track {
        track_type,
        timescale: 1000,
        language: "und",
        media,
    })
}

/// Media of each kind.
fn five_media() -> [Media<'static>; 5] {
    [
        Media::Avc(SMALL, &SEQUENCE, &PICTURE_SET),
        Media::Hevc(SMALL),
        Media::Vp9(SMALL),
        Media::Aac(STEREO),
        Media::Text,
    ]
}

/// A track of each kind of media.
fn five_tracks() -> [Call<'static>; 5] {
    let [avc, hevc, vp9, aac, _] = five_media();
    [
        add_media(TrackType::Video, avc),
        add_media(TrackType::Video, hevc),
        add_media(TrackType::Video, vp9),
        add_media(TrackType::Audio, aac),
        add_text(1000),
    ]
}

/// The calls that write a track of each kind of media with one sample, of which two are left to the end.
pub fn five_calls() -> [Call<'static>; 11] {
    let [avc, hevc, vp9, aac, text] = five_tracks();
    [
        avc,
        hevc,
        vp9,
        aac,
        text,
        write_sync(1, 500, b"picture"),
        write_sync(2, 1000, b"pictures"),
        write_sync(3, 1000, b"more"),
        write_sync(4, 1000, b"sound"),
        write_sync(5, 1000, b""),
        Call::WriteEnd,
    ]
}
