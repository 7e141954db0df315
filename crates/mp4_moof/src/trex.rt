//! The defaults of a track in movie fragments.

ghost use Rattle.mp4_codec.specs.ExactTest.{by_test, field_tests};
ghost use Rattle.std.specs.Prelude.{◌≡◌};
ghost use Rattle.mp4_codec.specs.declared.box_type.BoxType.TheVariants.{TrexBox as trex};
ghost use Rattle.mp4_codec.specs.Cause.{Gives};
ghost use Rattle.mp4_codec.specs.Boxes.{size_around, no_refusal};
ghost use Rattle.mp4_moof.specs.Trex.{trex_payload, default_trex, trex_of, IsInRangeTrex, IsWellFormedTrex};
ghost use Rattle.mp4_moof.specs.TrexLaws.{trex_again};
ghost use Rattle.mp4_codec.specs.Early.{at_once};

use mp4_codec::{
    BoxType, DebugItem, ExactEq, Fields, InRange, Mp4Box, Plain, Put, ReadBox, Result, WriteBox,
    put_u8, put_u24, put_u32,
};
use std::alloc::Global;

/// The track extends box, `trex`: what holds of a track's samples in movie fragments where a fragment says nothing else
/// (ISO/IEC 14496-12, 8.8.3).
///
/// Any version is read and written.
#[derive(Clone, Copy, Debug, PartialEq, Eq)]
pub struct TrexBox {
    pub version: u8,
    /// The low 24 bits are written.
    pub flags: u32,
    /// The track of the movie that has these defaults.
    pub track_id: u32,
    /// The entry of the sample description, counted from 1.
    pub default_sample_description_index: u32,
    /// Ticks of the media's timescale.
    pub default_sample_duration: u32,
    /// Bytes.
    pub default_sample_size: u32,
    /// Sample flags (ISO/IEC 14496-12, 8.8.3.1); bit 0x10000 is set where the sample is no sync sample.
    pub default_sample_flags: u32,
}

impl ExactEq for TrexBox {
    ghost exact = { by_test (Prim.hlevel field_tests) };
}

impl DebugItem for TrexBox {}

impl TrexBox {
    /// `trex`.
    pub fn get_type(&self) -> BoxType
        ensures { result ≡ trex }
    {
        BoxType::TrexBox
    }

    /// The bytes of the box, its header included: 32.
    #[tactic(auto, using(crate::proofs::LeafSizes::sizes))]
    pub fn get_size(&self) -> u64
        ensures { result ≡ size_around (trex_payload self.now) }
    {
        32
    }
}

impl Default for TrexBox {
    ghost is_default = { λ b. b ≡ default_trex };

    fn default() -> Self {
        TrexBox {
            version: 0,
            flags: 0,
            track_id: 0,
            default_sample_description_index: 0,
            default_sample_duration: 0,
            default_sample_size: 0,
            default_sample_flags: 0,
        }
    }
}

impl Plain for TrexBox {}

impl InRange for TrexBox {
    ghost IsInRange = { IsInRangeTrex };

    fn in_range(&self) {
        self.version.in_range();
        self.track_id.in_range();
        self.default_sample_description_index.in_range();
        self.default_sample_duration.in_range();
        self.default_sample_size.in_range();
        self.default_sample_flags.in_range();
    }
}

impl Mp4Box for TrexBox {
    ghost KIND = { trex };

    const KIND: BoxType = BoxType::TrexBox;

    ghost payload = { trex_payload };

    fn box_size(&self) -> u64 {
        self.get_size()
    }
}

impl ReadBox for TrexBox {
    ghost value = { trex_of };

    ghost early = { λ payload. at_once (trex_of payload) };

    #[tactic(auto, unfolding(crate::specs::Trex::trex_of))]
    fn read_payload(_alloc: Global, payload: &[u8]) -> Result<Self>
        ensures { Gives (λ x. x) result (trex_of payload.now) }
    {
        let mut fields = Fields::new(payload);
        let version = fields.u8()?;
        let flags = fields.u24()?;
        let track_id = fields.u32()?;
        let default_sample_description_index = fields.u32()?;
        let default_sample_duration = fields.u32()?;
        let default_sample_size = fields.u32()?;
        let default_sample_flags = fields.u32()?;
        Ok(TrexBox {
            version,
            flags,
            track_id,
            default_sample_description_index,
            default_sample_duration,
            default_sample_size,
            default_sample_flags,
        })
    }
}

impl WriteBox for TrexBox {
    ghost refusal = { no_refusal };

    ghost IsWellFormed = { IsWellFormedTrex };

    ghost reads_back = { trex_again };

    fn check(&self) -> Result<()> {
        Ok(())
    }

    fn put_payload(&self, out: &mut Vec<u8>) -> Put {
        put_u8(out, self.version)?;
        put_u24(out, self.flags)?;
        put_u32(out, self.track_id)?;
        put_u32(out, self.default_sample_description_index)?;
        put_u32(out, self.default_sample_duration)?;
        put_u32(out, self.default_sample_size)?;
        put_u32(out, self.default_sample_flags)?;
        Ok(())
    }
}
