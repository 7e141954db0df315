//! What the headers of a track say of it as a whole (ISO/IEC 14496-12, 8.3.2 and 8.4.2).

ghost use Rattle.std.specs.Prelude.{◌≡◌};
ghost use Rattle.mp4_codec.specs.Cause.{Gives};
ghost use Rattle.mp4_lookup.specs.Headers.{duration_of, width_of, height_of};

use crate::time::time_of;
use crate::track::Mp4Track;
use mp4_codec::Result;

/// Microseconds in a second.
pub const MICROSECONDS: u32 = 1_000_000;

impl Mp4Track {
    /// The number that names the track: that of the track header (ISO/IEC 14496-12, 8.3.2).
    pub fn track_id(&self) -> u32
        ensures { result ≡ self.now.trak.tkhd.track_id }
    {
        self.trak.tkhd.track_id
    }

    /// Ticks in a second, of the track's times: those of the media header (ISO/IEC 14496-12, 8.4.2).
    pub fn timescale(&self) -> u32
        ensures { result ≡ self.now.trak.mdia.mdhd.timescale }
    {
        self.trak.mdia.mdhd.timescale
    }

    /// The language of the media, as its ISO 639-2/T code: that of the media header (ISO/IEC 14496-12, 8.4.2).
    pub fn language(&self) -> &str
        ensures { result.now ≡ self.now.trak.mdia.mdhd.language }
    {
        self.trak.mdia.mdhd.language.as_str()
    }

    /// How long the track lasts, in whole microseconds, rounded down: the duration of the media header (ISO/IEC
    /// 14496-12, 8.4.2).
    ///
    /// `ZeroTimescale` where the track's timescale is 0, then `TooLarge(Value)` past 64 bits.
    pub fn duration(&self) -> Result<u64>
        ensures { Gives (λ microseconds. microseconds) result (duration_of self.now.trak) }
    {
        time_of(
            MICROSECONDS,
            self.trak.mdia.mdhd.duration,
            self.trak.mdia.mdhd.timescale,
        )
    }

    /// The width of the track's pictures, in pixels: that of the sample entry avc1 (ISO/IEC 14496-12, 8.5.2) where it
    /// is there, else the whole part of the track header's (8.3.2).
    pub fn width(&self) -> u16
        ensures { result ≡ width_of self.now.trak }
    {
        match &self.trak.mdia.minf.stbl.stsd.avc1 {
            Some(entry) => entry.width,
            None => self.trak.tkhd.width.value(),
        }
    }

    /// The height of the track's pictures, in pixels: that of the sample entry avc1 (ISO/IEC 14496-12, 8.5.2) where
    /// it is there, else the whole part of the track header's (8.3.2).
    pub fn height(&self) -> u16
        ensures { result ≡ height_of self.now.trak }
    {
        match &self.trak.mdia.minf.stbl.stsd.avc1 {
            Some(entry) => entry.height,
            None => self.trak.tkhd.height.value(),
        }
    }
}
