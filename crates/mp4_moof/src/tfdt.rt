//! When a track fragment begins.

ghost use Rattle.mp4_codec.specs.ExactTest.{by_test, field_tests};
ghost use Rattle.std.specs.Prelude.{◌≡◌};
ghost use Rattle.mp4_codec.specs.declared.box_type.BoxType.TheVariants.{TfdtBox as tfdt};
ghost use Rattle.mp4_codec.specs.Cause.{Gives};
ghost use Rattle.mp4_codec.specs.Boxes.{size_around};
ghost use Rattle.mp4_moof.specs.Tfdt.{tfdt_payload, default_tfdt, tfdt_of, tfdt_refusal, IsInRangeTfdt};
ghost use Rattle.mp4_moof.specs.Tfdt.{IsWellFormedTfdt};
ghost use Rattle.mp4_moof.specs.TfdtLaws.{tfdt_again};
ghost use Rattle.mp4_codec.specs.Early.{at_once};

use mp4_codec::{
    BoxType, ExactEq, Fields, InRange, Mp4Box, Plain, Put, ReadBox, Result, WriteBox, check_value,
    check_version, put_u8, put_u24, put_versioned,
};
use std::alloc::Global;

/// The track fragment decode time, `tfdt`: when the first sample of a track fragment is decoded
/// (ISO/IEC 14496-12, 8.8.12).
///
/// Version 1 has 64 bits for the time, version 0 has 32. Any other version is `InvalidData`, both ways; a time past
/// 32 bits isn't written in version 0, but `TooLarge(Value)`.
#[derive(Clone, Copy, Debug, PartialEq, Eq)]
pub struct TfdtBox {
    pub version: u8,
    /// The low 24 bits are written.
    pub flags: u32,
    /// Ticks of the media's timescale: the sum of the durations of all samples before.
    pub base_media_decode_time: u64,
}

impl ExactEq for TfdtBox {
    ghost exact = { by_test (Prim.hlevel field_tests) };
}

impl TfdtBox {
    /// `tfdt`.
    pub fn get_type(&self) -> BoxType
        ensures { result ≡ tfdt }
    {
        BoxType::TfdtBox
    }

    /// The bytes of the box, its header included: 20 in version 1, else 16.
    #[tactic(auto, using(crate::proofs::LeafSizes::sizes))]
    pub fn get_size(&self) -> u64
        ensures { result ≡ size_around (tfdt_payload self.now) }
    {
        if self.version == 1 { 20 } else { 16 }
    }
}

impl Default for TfdtBox {
    ghost is_default = { λ b. b ≡ default_tfdt };

    fn default() -> Self {
        TfdtBox {
            version: 0,
            flags: 0,
            base_media_decode_time: 0,
        }
    }
}

impl Plain for TfdtBox {}

impl InRange for TfdtBox {
    ghost IsInRange = { IsInRangeTfdt };

    fn in_range(&self) {
        self.version.in_range();
        self.base_media_decode_time.in_range();
    }
}

impl Mp4Box for TfdtBox {
    ghost KIND = { tfdt };

    const KIND: BoxType = BoxType::TfdtBox;

    ghost payload = { tfdt_payload };

    fn box_size(&self) -> u64 {
        self.get_size()
    }
}

impl ReadBox for TfdtBox {
    ghost value = { tfdt_of };

    ghost early = { λ payload. at_once (tfdt_of payload) };

    #[tactic(auto, unfolding(crate::specs::Tfdt::tfdt_of))]
    fn read_payload(_alloc: Global, payload: &[u8]) -> Result<Self>
        ensures { Gives (λ x. x) result (tfdt_of payload.now) }
    {
        let mut fields = Fields::new(payload);
        let version = fields.u8()?;
        let flags = fields.u24()?;
        let base_media_decode_time = fields.versioned(version)?;
        Ok(TfdtBox {
            version,
            flags,
            base_media_decode_time,
        })
    }
}

impl WriteBox for TfdtBox {
    ghost refusal = { tfdt_refusal };

    ghost IsWellFormed = { IsWellFormedTfdt };

    ghost reads_back = { tfdt_again };

    #[tactic(auto, unfolding(crate::specs::Tfdt::tfdt_refusal))]
    fn check(&self) -> Result<()> {
        check_version(self.version)?;
        check_value(self.version, self.base_media_decode_time)?;
        Ok(())
    }

    fn put_payload(&self, out: &mut Vec<u8>) -> Put {
        put_u8(out, self.version)?;
        put_u24(out, self.flags)?;
        put_versioned(out, self.version, self.base_media_decode_time)?;
        Ok(())
    }
}
