//! What a decoder of VP9 video is started with.

ghost use Rattle.mp4_codec.specs.ExactTest.{by_test, field_tests};
ghost use Rattle.std.specs.Prelude.{◌≡◌, Ok};
ghost use Rattle.mp4_codec.specs.declared.box_type.BoxType.TheVariants.{VpccBox as vpcc};
ghost use Rattle.mp4_codec.specs.Cause.{Answers};
ghost use Rattle.mp4_codec.specs.Boxes.{size_around, no_refusal};
ghost use Rattle.mp4_entry.specs.Vpcc.{vpcc_of, vpcc_payload, default_vpcc, IsInRangeVpcc, IsWellFormedVpcc};
ghost use Rattle.mp4_entry.specs.VpccLaws.{vpcc_again};
ghost use Rattle.mp4_codec.specs.Early.{refused_at_once};

use mp4_codec::{
    BoxType, ExactEq, InRange, Items, Mp4Box, Put, ReadBox, Result, TryClone, WriteBox, put_bytes,
    put_u32,
};
use std::alloc::Global;

/// What a decoder of VP9 video is started with, `vpcC` (the VP codec binding to ISO media files): the payload as it is.
#[derive(Debug, PartialEq, Eq, Drop)]
pub struct VpccBox {
    pub raw: Items<u8>,
}

impl ExactEq for VpccBox {
    ghost exact = { by_test (Prim.hlevel field_tests) };
}

impl VpccBox {
    /// Version 1 and no flags; profile 0, level 3.1 and 8 bits a colour; no data for the codec.
    pub fn default(alloc: Global) -> Result<Self>
        ensures { Answers (λ b. b) result (Ok default_vpcc) }
    {
        let mut raw = Vec::new(alloc);
        put_u32(&mut raw, 0x0100_0000)?;
        put_u32(&mut raw, 0x001f_8000)?;
        put_u32(&mut raw, 0)?;
        Ok(VpccBox {
            raw: Items::from(raw),
        })
    }

    /// `vpcC`.
    pub fn get_type(&self) -> BoxType
        ensures { result ≡ vpcc }
    {
        BoxType::VpccBox
    }

    /// The bytes of the box, its header included: 8, and the payload.
    #[tactic(auto, using(crate::proofs::Sizes::sizes))]
    pub fn get_size(&self) -> u64
        ensures { result ≡ size_around (vpcc_payload self.now) }
    {
        (self.raw.len() as u64).saturating_add(8)
    }
}

impl TryClone for VpccBox {
    fn try_clone(&self) -> Result<Self> {
        Ok(VpccBox {
            raw: self.raw.try_clone()?,
        })
    }
}

impl InRange for VpccBox {
    ghost IsInRange = { IsInRangeVpcc };

    fn in_range(&self) {}
}

impl Mp4Box for VpccBox {
    ghost KIND = { vpcc };

    const KIND: BoxType = BoxType::VpccBox;

    ghost payload = { vpcc_payload };

    fn box_size(&self) -> u64 {
        self.get_size()
    }
}

impl ReadBox for VpccBox {
    ghost value = { vpcc_of };

    ghost early = { λ payload. refused_at_once (vpcc_of payload) };

    #[tactic(auto, unfolding(crate::specs::Vpcc::vpcc_of))]
    fn read_payload(alloc: Global, payload: &[u8]) -> Result<Self> {
        Ok(VpccBox {
            raw: Items::from(payload.to_vec(alloc)?),
        })
    }
}

impl WriteBox for VpccBox {
    ghost refusal = { no_refusal };

    ghost IsWellFormed = { IsWellFormedVpcc };

    ghost reads_back = { vpcc_again };

    fn check(&self) -> Result<()> {
        Ok(())
    }

    #[tactic(auto, unfolding(crate::specs::Vpcc::vpcc_payload))]
    fn put_payload(&self, out: &mut Vec<u8>) -> Put {
        put_bytes(out, self.raw.as_slice())?;
        Ok(())
    }
}
