//! What kind of track it is, and what kind of samples it has (ISO/IEC 14496-12, 8.4.3 and 8.5.2).

ghost use Rattle.mp4_codec.specs.Cause.{Gives};
ghost use Rattle.mp4_entry.specs.TrackType.{track_type_of};
ghost use Rattle.mp4_lookup.specs.Kind.{media_type_of, box_type_of};

use crate::track::Mp4Track;
use mp4_codec::{BoxType, Error, FourCC, Result};
use mp4_entry::{MediaType, TrackType};

impl Mp4Track {
    /// The kind of the track, by its handler `vide`, `soun` or `sbtl` (ISO/IEC 14496-12, 8.4.3).
    ///
    /// `InvalidData` for any other handler.
    pub fn track_type(&self) -> Result<TrackType>
        ensures { Gives (λ t. t) result (track_type_of self.now.trak.mdia.hdlr.handler_type) }
    {
        TrackType::try_from(&self.trak.mdia.hdlr.handler_type)
    }

    /// How the samples of the track are coded, by the first sample entry that is there of avc1, hev1, vp09, mp4a
    /// and tx3g (ISO/IEC 14496-12, 8.5.2).
    ///
    /// `InvalidData` where none of them is.
    #[tactic(auto, unfolding(crate::specs::Kind::media_type_of))]
    pub fn media_type(&self) -> Result<MediaType>
        ensures { Gives (λ m. m) result (media_type_of self.now.trak) }
    {
        let stsd = &self.trak.mdia.minf.stbl.stsd;
        if stsd.avc1.is_some() {
            return Ok(MediaType::H264);
        }
        if stsd.hev1.is_some() {
            return Ok(MediaType::H265);
        }
        if stsd.vp09.is_some() {
            return Ok(MediaType::VP9);
        }
        if stsd.mp4a.is_some() {
            return Ok(MediaType::AAC);
        }
        if stsd.tx3g.is_some() {
            return Ok(MediaType::TTXT);
        }
        Err(Error::InvalidData("a track without a known sample entry"))
    }

    /// The type of the first sample entry that is there of avc1, hev1, vp09, mp4a and tx3g (ISO/IEC 14496-12, 8.5.2).
    ///
    /// `InvalidData` where none of them is.
    #[tactic(auto, unfolding(crate::specs::Kind::box_type_of))]
    pub fn box_type(&self) -> Result<FourCC>
        ensures { Gives (λ code. code) result (box_type_of self.now.trak) }
    {
        let media_type = self.media_type()?;
        Ok(FourCC::from(BoxType::from(media_type)))
    }
}
