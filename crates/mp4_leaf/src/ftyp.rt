//! The file type.

ghost use Rattle.mp4_codec.specs.ExactTest.{by_test, field_tests};
ghost use Rattle.std.specs.Prelude.{◌≡◌, Ok};
ghost use Rattle.mp4_codec.specs.Cause.{Gives};
ghost use Rattle.mp4_codec.specs.declared.box_type.BoxType.TheVariants.{FtypBox as ftyp};
ghost use Rattle.mp4_codec.specs.Boxes.{size_around, no_refusal};
ghost use Rattle.mp4_leaf.specs.Ftyp.{ftyp_payload, default_ftyp, ftyp_of, IsInRangeFtyp, IsWellFormedFtyp};
ghost use Rattle.mp4_leaf.specs.FtypLaws.{ftyp_again};
ghost use Rattle.mp4_codec.specs.Early.{refused_at_once};

use mp4_codec::{
    BoxType, ExactEq, Fields, FourCC, InRange, Items, Mp4Box, Put, ReadBox, Result, TryClone,
    WriteBox, list_size, put_four_cc, put_list, put_u32,
};
use std::alloc::Global;

/// The bytes of a brand.
const BRAND_SIZE: usize = 4;

/// The file type, `ftyp`: which specifications a file follows (ISO/IEC 14496-12, 4.3).
///
/// One to three bytes after the last brand are skipped.
#[derive(Debug, PartialEq, Eq, Drop)]
pub struct FtypBox {
    pub major_brand: FourCC,
    /// The version of the major brand, which it alone gives a meaning.
    pub minor_version: u32,
    pub compatible_brands: Items<FourCC>,
}

impl ExactEq for FtypBox {
    ghost exact = { by_test (Prim.hlevel field_tests) };
}

impl FtypBox {
    /// A major brand of four zero bytes, and no compatible one.
    pub fn default(alloc: Global) -> Result<Self>
        ensures { Gives (λ b. b) result (Ok default_ftyp) }
    {
        Ok(FtypBox {
            major_brand: FourCC::default(),
            minor_version: 0,
            compatible_brands: Items::new(alloc),
        })
    }

    /// `ftyp`.
    pub fn get_type(&self) -> BoxType
        ensures { result ≡ ftyp }
    {
        BoxType::FtypBox
    }

    /// The bytes of the box, its header included: 16, and 4 for each compatible brand.
    #[tactic(auto, using(crate::proofs::Sizes::sizes))]
    pub fn get_size(&self) -> u64
        ensures { result ≡ size_around (ftyp_payload self.now) }
    {
        list_size(0, self.compatible_brands.as_slice()).saturating_add(16)
    }
}

impl TryClone for FtypBox {
    fn try_clone(&self) -> Result<Self> {
        Ok(FtypBox {
            major_brand: self.major_brand,
            minor_version: self.minor_version,
            compatible_brands: self.compatible_brands.try_clone()?,
        })
    }
}

impl InRange for FtypBox {
    ghost IsInRange = { IsInRangeFtyp };

    fn in_range(&self) {
        self.major_brand.in_range();
        self.minor_version.in_range();
        self.compatible_brands.in_range();
    }
}

impl Mp4Box for FtypBox {
    ghost KIND = { ftyp };

    const KIND: BoxType = BoxType::FtypBox;

    ghost payload = { ftyp_payload };

    fn box_size(&self) -> u64 {
        self.get_size()
    }
}

impl ReadBox for FtypBox {
    ghost value = { ftyp_of };

    ghost early = { λ payload. refused_at_once (ftyp_of payload) };

    #[tactic(auto, unfolding(crate::specs::Ftyp::ftyp_of))]
    fn read_payload(alloc: Global, payload: &[u8]) -> Result<Self> {
        let mut fields = Fields::new(payload);
        let major_brand = fields.four_cc()?;
        let minor_version = fields.u32()?;
        let count = fields.len() / BRAND_SIZE;
        let compatible_brands = fields.list(alloc, 0, count)?;
        Ok(FtypBox {
            major_brand,
            minor_version,
            compatible_brands,
        })
    }
}

impl WriteBox for FtypBox {
    ghost refusal = { no_refusal };

    ghost IsWellFormed = { IsWellFormedFtyp };

    ghost reads_back = { ftyp_again };

    fn check(&self) -> Result<()> {
        Ok(())
    }

    fn put_payload(&self, out: &mut Vec<u8>) -> Put {
        put_four_cc(out, self.major_brand)?;
        put_u32(out, self.minor_version)?;
        put_list(out, 0, self.compatible_brands.as_slice())?;
        Ok(())
    }
}
