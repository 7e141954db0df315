//! What a decoder of HEVC video is started with.

ghost use Rattle.mp4_codec.specs.ExactTest.{by_test, field_tests};
ghost use Rattle.std.specs.Prelude.{◌≡◌, Ok};
ghost use Rattle.mp4_codec.specs.declared.box_type.BoxType.TheVariants.{HvcCBox as hvcc};
ghost use Rattle.mp4_codec.specs.Cause.{Answers};
ghost use Rattle.mp4_codec.specs.Boxes.{size_around, no_refusal};
ghost use Rattle.mp4_entry.specs.Hvcc.{hvcc_of, hvcc_payload, default_hvcc, IsInRangeHvcC, IsWellFormedHvcC};
ghost use Rattle.mp4_entry.specs.HvccLaws.{hvcc_again};
ghost use Rattle.mp4_codec.specs.Early.{refused_at_once};

use mp4_codec::{
    BoxType, ExactEq, InRange, Items, Mp4Box, Put, ReadBox, Result, TryClone, WriteBox, put_bytes,
    put_u8, put_zeros,
};
use std::alloc::Global;

/// What a decoder of HEVC video is started with, `hvcC` (ISO/IEC 14496-15, 8.3.3.1): the payload as it is.
#[derive(Debug, PartialEq, Eq, Drop)]
pub struct HvcCBox {
    pub raw: Items<u8>,
}

impl ExactEq for HvcCBox {
    ghost exact = { by_test (Prim.hlevel field_tests) };
}

impl HvcCBox {
    /// Version 1 of the configuration, and 22 zero bytes.
    pub fn default(alloc: Global) -> Result<Self>
        ensures { Answers (λ b. b) result (Ok default_hvcc) }
    {
        let mut raw = Vec::new(alloc);
        put_u8(&mut raw, 1)?;
        put_zeros(&mut raw, 22)?;
        Ok(HvcCBox {
            raw: Items::from(raw),
        })
    }

    /// `hvcC`.
    pub fn get_type(&self) -> BoxType
        ensures { result ≡ hvcc }
    {
        BoxType::HvcCBox
    }

    /// The bytes of the box, its header included: 8, and the payload.
    #[tactic(auto, using(crate::proofs::Sizes::sizes))]
    pub fn get_size(&self) -> u64
        ensures { result ≡ size_around (hvcc_payload self.now) }
    {
        (self.raw.len() as u64).saturating_add(8)
    }
}

impl TryClone for HvcCBox {
    fn try_clone(&self) -> Result<Self> {
        Ok(HvcCBox {
            raw: self.raw.try_clone()?,
        })
    }
}

impl InRange for HvcCBox {
    ghost IsInRange = { IsInRangeHvcC };

    fn in_range(&self) {}
}

impl Mp4Box for HvcCBox {
    ghost KIND = { hvcc };

    const KIND: BoxType = BoxType::HvcCBox;

    ghost payload = { hvcc_payload };

    fn box_size(&self) -> u64 {
        self.get_size()
    }
}

impl ReadBox for HvcCBox {
    ghost value = { hvcc_of };

    ghost early = { λ payload. refused_at_once (hvcc_of payload) };

    #[tactic(auto, unfolding(crate::specs::Hvcc::hvcc_of))]
    fn read_payload(alloc: Global, payload: &[u8]) -> Result<Self> {
        Ok(HvcCBox {
            raw: Items::from(payload.to_vec(alloc)?),
        })
    }
}

impl WriteBox for HvcCBox {
    ghost refusal = { no_refusal };

    ghost IsWellFormed = { IsWellFormedHvcC };

    ghost reads_back = { hvcc_again };

    fn check(&self) -> Result<()> {
        Ok(())
    }

    #[tactic(auto, unfolding(crate::specs::Hvcc::hvcc_payload))]
    fn put_payload(&self, out: &mut Vec<u8>) -> Put {
        put_bytes(out, self.raw.as_slice())?;
        Ok(())
    }
}
