//! How samples are written.

ghost use denote.Enum.Bare.{same_true};
ghost use Rattle.mp4_extract.specs.contracts.format.SampleFormat.{the_type as sample_formats};

use mp4_codec::ExactEq;
use thiserror::Error as ThisError;

/// How the samples of a track are written.
#[derive(Clone, Copy, Debug, PartialEq, Eq, ThisError)]
pub enum SampleFormat {
    /// As they lie in the file.
    #[error("as stored")]
    AsStored,
    /// Video of `avc1` or `hev1` as a byte stream (ISO/IEC 14496-10 and 23008-2, Annex B): a start code before each
    /// unit in place of its length; and before the first unit of a sample at which decoding can begin, the parameter
    /// sets of the track, those of each kind that the sample has none of before it. A set in the sample has before it
    /// those of the kinds that it refers to.
    #[error("Annex B")]
    AnnexB,
    /// Sound of `mp4a` with a header before each sample (ISO/IEC 14496-3, 1.A.2.2.1).
    #[error("ADTS")]
    Adts,
}

impl ExactEq for SampleFormat {
    ghost exact = { same_true sample_formats tt };
}
