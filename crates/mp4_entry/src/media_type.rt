//! The codings of media.

ghost use denote.Enum.Bare.{same_true};
ghost use Rattle.mp4_entry.specs.contracts.media_type.MediaType.{the_type as media_types};
ghost use Rattle.std.specs.Prelude.{◌≡◌};
ghost use Rattle.mp4_entry.specs.MediaType.{entry_type};

use mp4_codec::{BoxType, ExactEq};

/// How the samples of a track are coded, which the type of its sample entry says.
#[derive(Clone, Copy, Debug, PartialEq, Eq)]
pub enum MediaType {
    /// Video by ISO/IEC 14496-10, in an entry `avc1`.
    H264,
    /// Video by ISO/IEC 23008-2, in an entry `hev1`.
    H265,
    /// VP9 video, in an entry `vp09`.
    VP9,
    /// Sound by ISO/IEC 14496-3, in an entry `mp4a`.
    AAC,
    /// Timed text by 3GPP TS 26.245, in an entry `tx3g`.
    TTXT,
}

impl ExactEq for MediaType {
    ghost exact = { same_true media_types tt };
}

impl From<MediaType> for BoxType {
    ghost from_gives = { λ m t. t ≡ entry_type m };

    /// The type of the sample entry.
    fn from(media_type: MediaType) -> BoxType {
        match media_type {
            MediaType::H264 => BoxType::Avc1Box,
            MediaType::H265 => BoxType::Hev1Box,
            MediaType::VP9 => BoxType::Vp09Box,
            MediaType::AAC => BoxType::Mp4aBox,
            MediaType::TTXT => BoxType::Tx3gBox,
        }
    }
}
