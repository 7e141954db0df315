//! The video media header.

ghost use Rattle.mp4_codec.specs.ExactTest.{by_test, field_tests};
ghost use Rattle.std.specs.Prelude.{◌≡◌};
ghost use Rattle.mp4_codec.specs.declared.box_type.BoxType.TheVariants.{VmhdBox as vmhd};
ghost use Rattle.mp4_codec.specs.Boxes.{size_around, no_refusal};
ghost use Rattle.mp4_leaf.specs.Vmhd.{vmhd_payload, default_vmhd, vmhd_of, IsInRangeVmhd, IsWellFormedVmhd};
ghost use Rattle.mp4_leaf.specs.VmhdLaws.{vmhd_again};
ghost use Rattle.mp4_codec.specs.Cause.{Gives};
ghost use Rattle.mp4_codec.specs.Early.{at_once};

use mp4_codec::{
    BoxType, ExactEq, Fields, InRange, Mp4Box, Plain, Put, ReadBox, Result, WriteBox, put_u8,
    put_u16, put_u24,
};
use std::alloc::Global;

/// A colour, by three numbers of 16 bits.
#[derive(Clone, Copy, Debug, PartialEq, Eq)]
pub struct RgbColor {
    pub red: u16,
    pub green: u16,
    pub blue: u16,
}

impl ExactEq for RgbColor {
    ghost exact = { by_test (Prim.hlevel field_tests) };
}

impl Default for RgbColor {
    ghost is_default = { λ color. color ≡ record { red = 0; green = 0; blue = 0 } };

    fn default() -> Self {
        RgbColor {
            red: 0,
            green: 0,
            blue: 0,
        }
    }
}

impl Plain for RgbColor {}

/// The video media header, `vmhd`: how a video track is put over what lies after it (ISO/IEC 14496-12,
/// 12.1.2).
///
/// Any version is read and written.
#[derive(Clone, Copy, Debug, PartialEq, Eq)]
pub struct VmhdBox {
    pub version: u8,
    /// 1, as the standard wants it. The low 24 bits are written.
    pub flags: u32,
    /// How the track is put over the pictures after it; 0 covers them.
    pub graphics_mode: u16,
    /// The colour that the graphics mode may use.
    pub op_color: RgbColor,
}

impl ExactEq for VmhdBox {
    ghost exact = { by_test (Prim.hlevel field_tests) };
}

impl VmhdBox {
    /// `vmhd`.
    pub fn get_type(&self) -> BoxType
        ensures { result ≡ vmhd }
    {
        BoxType::VmhdBox
    }

    /// The bytes of the box, its header included: 20.
    #[tactic(auto, using(crate::proofs::Sizes::sizes))]
    pub fn get_size(&self) -> u64
        ensures { result ≡ size_around (vmhd_payload self.now) }
    {
        20
    }
}

impl Default for VmhdBox {
    ghost is_default = { λ b. b ≡ default_vmhd };

    fn default() -> Self {
        VmhdBox {
            version: 0,
            flags: 1,
            graphics_mode: 0,
            op_color: RgbColor::default(),
        }
    }
}

impl Plain for VmhdBox {}

impl InRange for VmhdBox {
    ghost IsInRange = { IsInRangeVmhd };

    fn in_range(&self) {
        self.version.in_range();
        self.graphics_mode.in_range();
        self.op_color.red.in_range();
        self.op_color.green.in_range();
        self.op_color.blue.in_range();
    }
}

impl Mp4Box for VmhdBox {
    ghost KIND = { vmhd };

    const KIND: BoxType = BoxType::VmhdBox;

    ghost payload = { vmhd_payload };

    fn box_size(&self) -> u64 {
        self.get_size()
    }
}

impl ReadBox for VmhdBox {
    ghost value = { vmhd_of };

    ghost early = { λ payload. at_once (vmhd_of payload) };

    #[tactic(auto, unfolding(crate::specs::Vmhd::vmhd_of))]
    fn read_payload(_alloc: Global, payload: &[u8]) -> Result<Self>
        ensures { Gives (λ x. x) result (vmhd_of payload.now) }
    {
        let mut fields = Fields::new(payload);
        let version = fields.u8()?;
        let flags = fields.u24()?;
        let graphics_mode = fields.u16()?;
        let red = fields.u16()?;
        let green = fields.u16()?;
        let blue = fields.u16()?;
        Ok(VmhdBox {
            version,
            flags,
            graphics_mode,
            op_color: RgbColor { red, green, blue },
        })
    }
}

impl WriteBox for VmhdBox {
    ghost refusal = { no_refusal };

    ghost IsWellFormed = { IsWellFormedVmhd };

    ghost reads_back = { vmhd_again };

    fn check(&self) -> Result<()> {
        Ok(())
    }

    fn put_payload(&self, out: &mut Vec<u8>) -> Put {
        put_u8(out, self.version)?;
        put_u24(out, self.flags)?;
        put_u16(out, self.graphics_mode)?;
        put_u16(out, self.op_color.red)?;
        put_u16(out, self.op_color.green)?;
        put_u16(out, self.op_color.blue)?;
        Ok(())
    }
}
