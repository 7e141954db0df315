//! The track fragment header.

ghost use Rattle.mp4_codec.specs.ExactTest.{by_test, field_tests};
ghost use Rattle.std.specs.Prelude.{◌≡◌};
ghost use Rattle.mp4_codec.specs.declared.box_type.BoxType.TheVariants.{TfhdBox as tfhd};
ghost use Rattle.mp4_codec.specs.Cause.{Gives};
ghost use Rattle.mp4_codec.specs.Boxes.{size_around};
ghost use Rattle.mp4_moof.specs.Tfhd.{tfhd_payload, default_tfhd, tfhd_of, tfhd_refusal, IsInRangeTfhd};
ghost use Rattle.mp4_moof.specs.Tfhd.{IsWellFormedTfhd};
ghost use Rattle.mp4_moof.specs.TfhdLaws.{tfhd_again};
ghost use Rattle.mp4_codec.specs.Early.{at_once};

use crate::optional::{check_flagged, how_many, put_flagged, read_flagged};
use mp4_codec::{
    BoxType, ExactEq, Fields, InRange, Mp4Box, Plain, Put, ReadBox, Result, WriteBox, put_u8,
    put_u24, put_u32,
};
use std::alloc::Global;

/// The flag of `base_data_offset`.
const BASE_DATA_OFFSET: u32 = 0x1;

/// The flag of `sample_description_index`.
const SAMPLE_DESCRIPTION_INDEX: u32 = 0x2;

/// The flag of `default_sample_duration`.
const DEFAULT_SAMPLE_DURATION: u32 = 0x8;

/// The flag of `default_sample_size`.
const DEFAULT_SAMPLE_SIZE: u32 = 0x10;

/// The flag of `default_sample_flags`.
const DEFAULT_SAMPLE_FLAGS: u32 = 0x20;

/// The track fragment header, `tfhd`: whose samples a track fragment has, and what holds of them where they
/// say nothing else (ISO/IEC 14496-12, 8.8.7).
///
/// Any version is read and written. Each field that may be missing has a flag: it is read where its flag is set, and
/// written where it is there. Where a flag and its field disagree, the box isn't written, but `InvalidData`.
#[derive(Clone, Copy, Debug, PartialEq, Eq)]
pub struct TfhdBox {
    pub version: u8,
    /// The low 24 bits are written. Beside those of the fields, 0x10000 is set where there are no samples, and 0x20000
    /// where places count from the first byte of the movie fragment.
    pub flags: u32,
    /// The track of the movie that the samples belong to.
    pub track_id: u32,
    /// By flag 0x1: the byte of the file from which the places of the samples count.
    pub base_data_offset: Option<u64>,
    /// By flag 0x2: the entry of the sample description, counted from 1.
    pub sample_description_index: Option<u32>,
    /// By flag 0x8: ticks of the media's timescale.
    pub default_sample_duration: Option<u32>,
    /// By flag 0x10: bytes.
    pub default_sample_size: Option<u32>,
    /// By flag 0x20: sample flags (ISO/IEC 14496-12, 8.8.3.1); bit 0x10000 is set where the sample is no sync sample.
    pub default_sample_flags: Option<u32>,
}

impl ExactEq for TfhdBox {
    ghost exact = { by_test (Prim.hlevel field_tests) };
}

impl TfhdBox {
    /// `tfhd`.
    pub fn get_type(&self) -> BoxType
        ensures { result ≡ tfhd }
    {
        BoxType::TfhdBox
    }

    /// The bytes of the box, its header included: 16, 8 for a base data offset, and 4 for each other field that is
    /// there.
    #[tactic(auto, using(crate::proofs::LeafSizes::sizes))]
    pub fn get_size(&self) -> u64
        ensures { result ≡ size_around (tfhd_payload self.now) }
    {
        16 + 8 * how_many(&self.base_data_offset)
            + 4 * how_many(&self.sample_description_index)
            + 4 * how_many(&self.default_sample_duration)
            + 4 * how_many(&self.default_sample_size)
            + 4 * how_many(&self.default_sample_flags)
    }
}

impl Default for TfhdBox {
    ghost is_default = { λ b. b ≡ default_tfhd };

    fn default() -> Self {
        TfhdBox {
            version: 0,
            flags: 0,
            track_id: 0,
            base_data_offset: None,
            sample_description_index: None,
            default_sample_duration: None,
            default_sample_size: None,
            default_sample_flags: None,
        }
    }
}

impl Plain for TfhdBox {}

impl InRange for TfhdBox {
    ghost IsInRange = { IsInRangeTfhd };

    fn in_range(&self) {
        self.version.in_range();
        self.track_id.in_range();
        self.base_data_offset.in_range();
        self.sample_description_index.in_range();
        self.default_sample_duration.in_range();
        self.default_sample_size.in_range();
        self.default_sample_flags.in_range();
    }
}

impl Mp4Box for TfhdBox {
    ghost KIND = { tfhd };

    const KIND: BoxType = BoxType::TfhdBox;

    ghost payload = { tfhd_payload };

    fn box_size(&self) -> u64 {
        self.get_size()
    }
}

impl ReadBox for TfhdBox {
    ghost value = { tfhd_of };

    ghost early = { λ payload. at_once (tfhd_of payload) };

    #[tactic(auto, unfolding(crate::specs::Tfhd::tfhd_of))]
    fn read_payload(_alloc: Global, payload: &[u8]) -> Result<Self>
        ensures { Gives (λ x. x) result (tfhd_of payload.now) }
    {
        let mut fields = Fields::new(payload);
        let version = fields.u8()?;
        let flags = fields.u24()?;
        let track_id = fields.u32()?;
        let base_data_offset = read_flagged(&mut fields, BASE_DATA_OFFSET, flags)?;
        let sample_description_index = read_flagged(&mut fields, SAMPLE_DESCRIPTION_INDEX, flags)?;
        let default_sample_duration = read_flagged(&mut fields, DEFAULT_SAMPLE_DURATION, flags)?;
        let default_sample_size = read_flagged(&mut fields, DEFAULT_SAMPLE_SIZE, flags)?;
        let default_sample_flags = read_flagged(&mut fields, DEFAULT_SAMPLE_FLAGS, flags)?;
        Ok(TfhdBox {
            version,
            flags,
            track_id,
            base_data_offset,
            sample_description_index,
            default_sample_duration,
            default_sample_size,
            default_sample_flags,
        })
    }
}

impl WriteBox for TfhdBox {
    ghost refusal = { tfhd_refusal };

    ghost IsWellFormed = { IsWellFormedTfhd };

    ghost reads_back = { tfhd_again };

    #[tactic(auto, unfolding(crate::specs::Tfhd::tfhd_refusal))]
    fn check(&self) -> Result<()> {
        let flags = self.flags;
        check_flagged(BASE_DATA_OFFSET, flags, &self.base_data_offset)?;
        check_flagged(
            SAMPLE_DESCRIPTION_INDEX,
            flags,
            &self.sample_description_index,
        )?;
        check_flagged(
            DEFAULT_SAMPLE_DURATION,
            flags,
            &self.default_sample_duration,
        )?;
        check_flagged(DEFAULT_SAMPLE_SIZE, flags, &self.default_sample_size)?;
        check_flagged(DEFAULT_SAMPLE_FLAGS, flags, &self.default_sample_flags)?;
        Ok(())
    }

    fn put_payload(&self, out: &mut Vec<u8>) -> Put {
        put_u8(out, self.version)?;
        put_u24(out, self.flags)?;
        put_u32(out, self.track_id)?;
        put_flagged(out, self.base_data_offset)?;
        put_flagged(out, self.sample_description_index)?;
        put_flagged(out, self.default_sample_duration)?;
        put_flagged(out, self.default_sample_size)?;
        put_flagged(out, self.default_sample_flags)?;
        Ok(())
    }
}
