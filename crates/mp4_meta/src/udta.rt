//! User data.

ghost use Rattle.mp4_codec.specs.ExactTest.{by_law, by_test, field_tests};
ghost use Rattle.mp4_meta.specs.contracts.meta.MetaBoxExactEq.TheImpl.Laws.{lawful as meta_laws};
ghost use Rattle.std.specs.Prelude.{◌≡◌};
ghost use Rattle.mp4_codec.specs.declared.box_type.BoxType.TheVariants.{UdtaBox as udta};
ghost use Rattle.mp4_codec.specs.Boxes.{size_around, no_refusal};
ghost use Rattle.mp4_meta.specs.Udta.{udta_of, udta_early, udta_payload, IsInRangeUdta, IsWellFormedUdta, default_udta};
ghost use Rattle.mp4_meta.specs.UdtaLaws.{udta_again};

use crate::meta::MetaBox;
use mp4_codec::{
    BoxType, ExactEq, HEADER_SIZE, InRange, Mp4Box, Put, ReadBox, Result, TryClone, WriteBox,
    last_child, optional_size, put_optional,
};
use std::alloc::Global;

/// User data, `udta` (ISO/IEC 14496-12, 8.10.1): the metadata of a movie.
///
/// Children of other types are skipped. The first refused `meta` in file order is the answer of reading one, then
/// `InvalidData` for a broken tail. QuickTime ends the children with four zero bytes, which are skipped.
#[derive(Debug, PartialEq, Eq, Drop)]
pub struct UdtaBox {
    /// The metadata: the last such child.
    pub meta: Option<MetaBox>,
}

impl ExactEq for UdtaBox {
    ghost exact = { by_test (Prim.hlevel (field_tests, by_law meta_laws.exact)) };
}

impl Default for UdtaBox {
    ghost is_default = { λ b. b ≡ default_udta };

    fn default() -> Self {
        UdtaBox { meta: None }
    }
}

impl UdtaBox {
    /// `udta`.
    pub fn get_type(&self) -> BoxType
        ensures { result ≡ udta }
    {
        BoxType::UdtaBox
    }

    /// The bytes of the box, its header included; they stop at 2^64 - 1.
    #[tactic(auto, using(crate::proofs::Sizes::sizes), unfolding(crate::specs::Udta::udta_payload))]
    pub fn get_size(&self) -> u64
        ensures { result ≡ size_around (udta_payload self.now) }
    {
        HEADER_SIZE.saturating_add(optional_size(&self.meta))
    }
}

impl TryClone for UdtaBox {
    fn try_clone(&self) -> Result<Self> {
        Ok(UdtaBox {
            meta: self.meta.try_clone()?,
        })
    }
}

impl InRange for UdtaBox {
    ghost IsInRange = { IsInRangeUdta };

    fn in_range(&self) {
        self.meta.in_range();
    }
}

impl Mp4Box for UdtaBox {
    ghost KIND = { udta };

    const KIND: BoxType = BoxType::UdtaBox;

    ghost payload = { udta_payload };

    fn box_size(&self) -> u64 {
        self.get_size()
    }
}

impl ReadBox for UdtaBox {
    ghost value = { udta_of };

    ghost early = { udta_early };

    #[tactic(auto, unfolding(crate::specs::Udta::udta_of, crate::specs::Udta::udta_early))]
    fn read_payload(alloc: Global, payload: &[u8]) -> Result<Self> {
        let meta = last_child::<MetaBox>(alloc, payload)?;
        Ok(UdtaBox { meta })
    }
}

impl WriteBox for UdtaBox {
    ghost refusal = { no_refusal };

    ghost IsWellFormed = { IsWellFormedUdta };

    ghost reads_back = { udta_again };

    fn check(&self) -> Result<()> {
        Ok(())
    }

    #[tactic(auto, using(crate::proofs::Sizes::sizes), unfolding(crate::specs::Udta::udta_payload))]
    fn put_payload(&self, out: &mut Vec<u8>) -> Put {
        put_optional(out, &self.meta)?;
        Ok(())
    }
}
