//! The movie fragment header.

ghost use Rattle.mp4_codec.specs.ExactTest.{by_test, field_tests};
ghost use Rattle.std.specs.Prelude.{◌≡◌};
ghost use Rattle.mp4_codec.specs.declared.box_type.BoxType.TheVariants.{MfhdBox as mfhd};
ghost use Rattle.mp4_codec.specs.Cause.{Gives};
ghost use Rattle.mp4_codec.specs.Boxes.{size_around, no_refusal};
ghost use Rattle.mp4_moof.specs.Mfhd.{mfhd_payload, default_mfhd, mfhd_of, IsInRangeMfhd, IsWellFormedMfhd};
ghost use Rattle.mp4_moof.specs.MfhdLaws.{mfhd_again};
ghost use Rattle.mp4_codec.specs.Early.{at_once};

use mp4_codec::{
    BoxType, ExactEq, Fields, InRange, Mp4Box, Plain, Put, ReadBox, Result, WriteBox, put_u8,
    put_u24, put_u32,
};
use std::alloc::Global;

/// The movie fragment header, `mfhd`: the number of a movie fragment in its file (ISO/IEC 14496-12, 8.8.5).
///
/// Any version is read and written.
#[derive(Clone, Copy, Debug, PartialEq, Eq)]
pub struct MfhdBox {
    pub version: u8,
    /// The low 24 bits are written.
    pub flags: u32,
    /// The number of the fragment, which grows from one fragment to the next; 1 in the first of most files.
    pub sequence_number: u32,
}

impl ExactEq for MfhdBox {
    ghost exact = { by_test (Prim.hlevel field_tests) };
}

impl MfhdBox {
    /// `mfhd`.
    pub fn get_type(&self) -> BoxType
        ensures { result ≡ mfhd }
    {
        BoxType::MfhdBox
    }

    /// The bytes of the box, its header included: 16.
    #[tactic(auto, using(crate::proofs::LeafSizes::sizes))]
    pub fn get_size(&self) -> u64
        ensures { result ≡ size_around (mfhd_payload self.now) }
    {
        16
    }
}

impl Default for MfhdBox {
    ghost is_default = { λ b. b ≡ default_mfhd };

    fn default() -> Self {
        MfhdBox {
            version: 0,
            flags: 0,
            sequence_number: 1,
        }
    }
}

impl Plain for MfhdBox {}

impl InRange for MfhdBox {
    ghost IsInRange = { IsInRangeMfhd };

    fn in_range(&self) {
        self.version.in_range();
        self.sequence_number.in_range();
    }
}

impl Mp4Box for MfhdBox {
    ghost KIND = { mfhd };

    const KIND: BoxType = BoxType::MfhdBox;

    ghost payload = { mfhd_payload };

    fn box_size(&self) -> u64 {
        self.get_size()
    }
}

impl ReadBox for MfhdBox {
    ghost value = { mfhd_of };

    ghost early = { λ payload. at_once (mfhd_of payload) };

    #[tactic(auto, unfolding(crate::specs::Mfhd::mfhd_of))]
    fn read_payload(_alloc: Global, payload: &[u8]) -> Result<Self>
        ensures { Gives (λ x. x) result (mfhd_of payload.now) }
    {
        let mut fields = Fields::new(payload);
        let version = fields.u8()?;
        let flags = fields.u24()?;
        let sequence_number = fields.u32()?;
        Ok(MfhdBox {
            version,
            flags,
            sequence_number,
        })
    }
}

impl WriteBox for MfhdBox {
    ghost refusal = { no_refusal };

    ghost IsWellFormed = { IsWellFormedMfhd };

    ghost reads_back = { mfhd_again };

    fn check(&self) -> Result<()> {
        Ok(())
    }

    fn put_payload(&self, out: &mut Vec<u8>) -> Put {
        put_u8(out, self.version)?;
        put_u24(out, self.flags)?;
        put_u32(out, self.sequence_number)?;
        Ok(())
    }
}
