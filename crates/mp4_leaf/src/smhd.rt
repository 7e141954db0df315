//! The sound media header.

ghost use Rattle.mp4_codec.specs.ExactTest.{by_test, field_tests};
ghost use Rattle.std.specs.Prelude.{◌≡◌};
ghost use Rattle.mp4_codec.specs.declared.box_type.BoxType.TheVariants.{SmhdBox as smhd};
ghost use Rattle.mp4_codec.specs.Boxes.{size_around, no_refusal};
ghost use Rattle.mp4_leaf.specs.Smhd.{smhd_payload, default_smhd, smhd_of, IsInRangeSmhd, IsWellFormedSmhd};
ghost use Rattle.mp4_leaf.specs.SmhdLaws.{smhd_again};
ghost use Rattle.mp4_codec.specs.Cause.{Gives};
ghost use Rattle.mp4_codec.specs.Early.{at_once};

use mp4_codec::{
    BoxType, ExactEq, Fields, FixedPointI8, InRange, Mp4Box, Plain, Put, ReadBox, Result, WriteBox,
    put_i16, put_u8, put_u24, put_zeros,
};
use std::alloc::Global;

/// The sound media header, `smhd`: where a sound track is heard (ISO/IEC 14496-12, 12.2.2).
///
/// Any version is read and written.
#[derive(Clone, Copy, Debug, PartialEq, Eq)]
pub struct SmhdBox {
    pub version: u8,
    /// The low 24 bits are written.
    pub flags: u32,
    /// -1.0 is all left, 0 the centre, 1.0 all right.
    pub balance: FixedPointI8,
}

impl ExactEq for SmhdBox {
    ghost exact = { by_test (Prim.hlevel field_tests) };
}

impl SmhdBox {
    /// `smhd`.
    pub fn get_type(&self) -> BoxType
        ensures { result ≡ smhd }
    {
        BoxType::SmhdBox
    }

    /// The bytes of the box, its header included: 16.
    #[tactic(auto, using(crate::proofs::Sizes::sizes))]
    pub fn get_size(&self) -> u64
        ensures { result ≡ size_around (smhd_payload self.now) }
    {
        16
    }
}

impl Default for SmhdBox {
    ghost is_default = { λ b. b ≡ default_smhd };

    fn default() -> Self {
        SmhdBox {
            version: 0,
            flags: 0,
            balance: FixedPointI8::new(0),
        }
    }
}

impl Plain for SmhdBox {}

impl InRange for SmhdBox {
    ghost IsInRange = { IsInRangeSmhd };

    fn in_range(&self) {
        self.version.in_range();
        self.balance.raw.in_range();
    }
}

impl Mp4Box for SmhdBox {
    ghost KIND = { smhd };

    const KIND: BoxType = BoxType::SmhdBox;

    ghost payload = { smhd_payload };

    fn box_size(&self) -> u64 {
        self.get_size()
    }
}

impl ReadBox for SmhdBox {
    ghost value = { smhd_of };

    ghost early = { λ payload. at_once (smhd_of payload) };

    #[tactic(auto, unfolding(crate::specs::Smhd::smhd_of))]
    fn read_payload(_alloc: Global, payload: &[u8]) -> Result<Self>
        ensures { Gives (λ x. x) result (smhd_of payload.now) }
    {
        let mut fields = Fields::new(payload);
        let version = fields.u8()?;
        let flags = fields.u24()?;
        let balance = fields.i16()?;
        fields.bytes(2)?;
        Ok(SmhdBox {
            version,
            flags,
            balance: FixedPointI8::new_raw(balance),
        })
    }
}

impl WriteBox for SmhdBox {
    ghost refusal = { no_refusal };

    ghost IsWellFormed = { IsWellFormedSmhd };

    ghost reads_back = { smhd_again };

    fn check(&self) -> Result<()> {
        Ok(())
    }

    fn put_payload(&self, out: &mut Vec<u8>) -> Put {
        put_u8(out, self.version)?;
        put_u24(out, self.flags)?;
        put_i16(out, self.balance.raw)?;
        put_zeros(out, 2)?;
        Ok(())
    }
}
