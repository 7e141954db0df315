//! Calls of a writer as plain data, which a test writes down.

use mp4_entry::TrackType;

/// What a movie is begun with: brands as the numbers of their four bytes.
#[derive(Clone, Copy)]
pub struct Beginning<'a> {
    pub major_brand: u32,
    pub minor_version: u32,
    pub compatible_brands: &'a [u32],
    pub timescale: u32,
}

/// Brand isom, and 1000 ticks a second.
pub const ISOM: Beginning<'static> = Beginning {
    major_brand: 0x69736f6d,
    minor_version: 512,
    compatible_brands: &[0x69736f6d, 0x69736f32, 0x61766331, 0x6d703431],
    timescale: 1000,
};

/// Width and height in pixels.
#[derive(Clone, Copy)]
pub struct Picture {
    pub width: u16,
    pub height: u16,
}

/// Bits in a second, the type of the sound, and the numbers of its frequency and its channels.
#[derive(Clone, Copy)]
pub struct Sound {
    pub bitrate: u32,
    pub profile: u8,
    pub frequency: u8,
    pub channels: u8,
}

/// How samples are coded; of AVC also a sequence parameter set and a picture parameter set.
#[derive(Clone, Copy)]
pub enum Media<'a> {
    Avc(Picture, &'a [u8], &'a [u8]),
    Hevc(Picture),
    Vp9(Picture),
    Aac(Sound),
    Text,
}

/// What a track is added with.
#[derive(Clone, Copy)]
pub struct Track<'a> {
    pub track_type: TrackType,
    pub timescale: u32,
    pub language: &'a str,
    pub media: Media<'a>,
}

/// A sample.
#[derive(Clone, Copy)]
pub struct Sample<'a> {
    pub duration: u32,
    pub rendering_offset: i32,
    pub is_sync: bool,
    pub bytes: &'a [u8],
}

/// A call of a writer that was begun.
#[derive(Clone, Copy)]
pub enum Call<'a> {
    AddTrack(Track<'a>),
    /// The id of the track, and the sample.
    WriteSample(u32, Sample<'a>),
    WriteEnd,
}

/// A track of text with so many ticks a second.
fn text_track(timescale: u32) -> Track<'static> {
    Track {
        track_type: TrackType::Subtitle,
        timescale,
        language: "und",
        media: Media::Text,
    }
}

/// The call that adds such a track.
pub fn add_text(timescale: u32) -> Call<'static> {
    Call::AddTrack(text_track(timescale))
}

/// The call that writes a sync sample, which is shown when it is decoded.
pub fn write_sync(id: u32, duration: u32, bytes: &[u8]) -> Call {
    Call::WriteSample(
        id,
        Sample {
            duration,
            rendering_offset: 0,
            is_sync: true,
            bytes,
        },
    )
}
