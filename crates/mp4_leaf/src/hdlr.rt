//! The handler.

ghost use Rattle.mp4_codec.specs.ExactTest.{by_test, field_tests};
ghost use Rattle.std.specs.Prelude.{◌≡◌, Ok};
ghost use Rattle.mp4_codec.specs.declared.box_type.BoxType.TheVariants.{HdlrBox as hdlr};
ghost use Rattle.mp4_codec.specs.Boxes.{size_around, no_refusal};
ghost use Rattle.mp4_codec.specs.Cause.{Gives, seen};
ghost use Rattle.mp4_leaf.specs.Hdlr.{hdlr_payload, default_hdlr, hdlr_of, IsInRangeHdlr, IsWellFormedHdlr};
ghost use Rattle.mp4_leaf.specs.HdlrLaws.{hdlr_again};
ghost use Rattle.mp4_codec.specs.Early.{refused_at_once};

use mp4_codec::{
    BoxType, ExactEq, Fields, FourCC, InRange, Items, Mp4Box, Put, ReadBox, Result, TryClone,
    WriteBox, put_bytes, put_four_cc, put_u8, put_u24, put_zeros,
};
use std::alloc::Global;

/// The handler, `hdlr`: of which kind a track, or metadata, is (ISO/IEC 14496-12, 8.4.3).
///
/// Any version is read and written. The name is read up to the first zero byte, or to the end where
/// there is none, and written with a zero byte after it.
#[derive(Debug, PartialEq, Eq, Drop)]
pub struct HdlrBox {
    pub version: u8,
    /// The low 24 bits are written.
    pub flags: u32,
    /// `vide`, `soun`, `sbtl` and others in a track, `mdir` in iTunes metadata.
    pub handler_type: FourCC,
    /// A name for people, in UTF-8. One with a zero byte is written, but not read again as it is.
    pub name: Items<u8>,
}

impl ExactEq for HdlrBox {
    ghost exact = { by_test (Prim.hlevel field_tests) };
}

impl HdlrBox {
    /// A handler type of four zero bytes, and an empty name.
    pub fn default(alloc: Global) -> Result<Self>
        ensures { Gives (λ b. b) result (Ok default_hdlr) }
    {
        Ok(HdlrBox {
            version: 0,
            flags: 0,
            handler_type: FourCC::default(),
            name: Items::new(alloc),
        })
    }

    /// The handler type that a payload says; what refuses the payload is found without a request for memory.
    #[tactic(auto, unfolding(crate::specs::Hdlr::hdlr_of))]
    pub fn handler_type_of(payload: &[u8]) -> Result<FourCC>
        ensures { Gives (λ t. t) result (seen (λ b. b.handler_type) (hdlr_of payload.now)) }
    {
        let mut fields = Fields::new(payload);
        fields.u8()?;
        fields.u24()?;
        fields.bytes(4)?;
        let handler_type = fields.four_cc()?;
        fields.bytes(12)?;
        Ok(handler_type)
    }

    /// `hdlr`.
    pub fn get_type(&self) -> BoxType
        ensures { result ≡ hdlr }
    {
        BoxType::HdlrBox
    }

    /// The bytes of the box, its header included: 33, and the length of the name.
    #[tactic(auto, using(crate::proofs::Sizes::sizes))]
    pub fn get_size(&self) -> u64
        ensures { result ≡ size_around (hdlr_payload self.now) }
    {
        (self.name.len() as u64).saturating_add(33)
    }
}

impl TryClone for HdlrBox {
    fn try_clone(&self) -> Result<Self> {
        Ok(HdlrBox {
            version: self.version,
            flags: self.flags,
            handler_type: self.handler_type,
            name: self.name.try_clone()?,
        })
    }
}

impl InRange for HdlrBox {
    ghost IsInRange = { IsInRangeHdlr };

    fn in_range(&self) {
        self.version.in_range();
        self.handler_type.in_range();
    }
}

impl Mp4Box for HdlrBox {
    ghost KIND = { hdlr };

    const KIND: BoxType = BoxType::HdlrBox;

    ghost payload = { hdlr_payload };

    fn box_size(&self) -> u64 {
        self.get_size()
    }
}

impl ReadBox for HdlrBox {
    ghost value = { hdlr_of };

    ghost early = { λ payload. refused_at_once (hdlr_of payload) };

    #[tactic(auto, unfolding(crate::specs::Hdlr::hdlr_of))]
    fn read_payload(alloc: Global, payload: &[u8]) -> Result<Self> {
        let mut fields = Fields::new(payload);
        let version = fields.u8()?;
        let flags = fields.u24()?;
        fields.bytes(4)?;
        let handler_type = fields.four_cc()?;
        fields.bytes(12)?;
        let name = fields.until_zero(alloc)?;
        Ok(HdlrBox {
            version,
            flags,
            handler_type,
            name,
        })
    }
}

impl WriteBox for HdlrBox {
    ghost refusal = { no_refusal };

    ghost IsWellFormed = { IsWellFormedHdlr };

    ghost reads_back = { hdlr_again };

    fn check(&self) -> Result<()> {
        Ok(())
    }

    fn put_payload(&self, out: &mut Vec<u8>) -> Put {
        put_u8(out, self.version)?;
        put_u24(out, self.flags)?;
        put_zeros(out, 4)?;
        put_four_cc(out, self.handler_type)?;
        put_zeros(out, 12)?;
        put_bytes(out, self.name.as_slice())?;
        put_zeros(out, 1)?;
        Ok(())
    }
}
