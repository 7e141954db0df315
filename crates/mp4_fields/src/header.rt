//! The fields of headers: ftyp, mvhd, tkhd, mdhd, hdlr, vmhd, smhd and elst.

ghost use Rattle.std.specs.Prelude.{◌≡◌};
ghost use Rattle.mp4_fields.specs.Numbers.{elst_cells, fraction, matrix_numbers, signed_time, twos_complement};

use crate::leaf::LeafFields;
use crate::list::FieldList;
use crate::value::{Cells, TableRow};
use mp4_codec::FixedPointI8;
use mp4_leaf::{
    ElstBox, ElstEntry, FtypBox, HdlrBox, Matrix, MdhdBox, MvhdBox, SmhdBox, TkhdBox, VmhdBox,
};

/// A signed number of 16.16 bits, which is so many 65536ths.
#[tactic(auto, using(crate::proofs::Numbers::units), unfolding(crate::specs::Numbers::fraction))]
fn signed_16(raw: i32) -> f64
    ensures { result ≡ fraction raw 16 }
{
    f64::from(raw) / 65536.0
}

/// A signed number of 2.30 bits.
#[tactic(auto, using(crate::proofs::Numbers::units), unfolding(crate::specs::Numbers::fraction))]
fn signed_2(raw: i32) -> f64
    ensures { result ≡ fraction raw 30 }
{
    f64::from(raw) / 1_073_741_824.0
}

/// A signed number of 8.8 bits.
#[tactic(auto, using(crate::proofs::Numbers::units), unfolding(crate::specs::Numbers::fraction))]
fn signed_8(number: FixedPointI8) -> f64
    ensures { result ≡ fraction number.raw 8 }
{
    f64::from(number.raw_value()) / 256.0
}

/// The nine numbers of a matrix in file order (ISO/IEC 14496-12, 8.2.2): a b u, c d v, x y w.
#[tactic(auto, unfolding(crate::specs::Numbers::matrix_numbers))]
fn numbers_of(matrix: Matrix) -> [f64; 9]
    ensures { result ≡ matrix_numbers matrix }
{
    [
        signed_16(matrix.a),
        signed_16(matrix.b),
        signed_2(matrix.u),
        signed_16(matrix.c),
        signed_16(matrix.d),
        signed_2(matrix.v),
        signed_16(matrix.x),
        signed_16(matrix.y),
        signed_2(matrix.w),
    ]
}

impl LeafFields for FtypBox {
    fn fields(&self, fields: FieldList) -> FieldList {
        fields
            .code("major_brand", self.major_brand)
            .number("minor_version", self.minor_version)
            .codes("compatible_brands", self.compatible_brands.as_slice())
    }
}

impl LeafFields for MvhdBox {
    fn fields(&self, fields: FieldList) -> FieldList {
        fields
            .version_and_flags(self.version, self.flags)
            .header_times(self.creation_time, self.modification_time)
            .number("timescale", self.timescale)
            .number("duration", self.duration)
            .fixed_16("rate", self.rate)
            .fixed_8("volume", self.volume)
            .all_fixed("matrix", &numbers_of(self.matrix))
            .number("next_track_id", self.next_track_id)
    }
}

impl LeafFields for TkhdBox {
    fn fields(&self, fields: FieldList) -> FieldList {
        fields
            .version_and_flags(self.version, self.flags)
            .header_times(self.creation_time, self.modification_time)
            .number("track_id", self.track_id)
            .number("duration", self.duration)
            .signed("layer", i64::from(signed(self.layer)))
            .signed("alternate_group", i64::from(signed(self.alternate_group)))
            .fixed_8("volume", self.volume)
            .all_fixed("matrix", &numbers_of(self.matrix))
            .fixed_16("width", self.width)
            .fixed_16("height", self.height)
    }
}

impl LeafFields for MdhdBox {
    fn fields(&self, fields: FieldList) -> FieldList {
        fields
            .version_and_flags(self.version, self.flags)
            .header_times(self.creation_time, self.modification_time)
            .number("timescale", self.timescale)
            .number("duration", self.duration)
            .text("language", self.language.as_str().as_bytes())
    }
}

impl LeafFields for HdlrBox {
    fn fields(&self, fields: FieldList) -> FieldList {
        fields
            .version_and_flags(self.version, self.flags)
            .code("handler_type", self.handler_type)
            .text("name", self.name.as_slice())
    }
}

impl LeafFields for VmhdBox {
    fn fields(&self, fields: FieldList) -> FieldList {
        fields
            .version_and_flags(self.version, self.flags)
            .number("graphics_mode", self.graphics_mode)
            .number("red", self.op_color.red)
            .number("green", self.op_color.green)
            .number("blue", self.op_color.blue)
    }
}

impl LeafFields for SmhdBox {
    fn fields(&self, fields: FieldList) -> FieldList {
        fields
            .version_and_flags(self.version, self.flags)
            .fixed("balance", signed_8(self.balance))
    }
}

/// The signed number of 16 bits that these bits are.
#[tactic(auto, using(crate::proofs::Numbers::casts))]
fn signed(bits: u16) -> i16
    ensures { result ≡ twos_complement 16 bits }
{
    bits.cast_signed()
}

/// The signed number that a media time is: of 32 bits in version 0, else of 64 (ISO/IEC 14496-12, 8.6.6).
#[tactic(auto, using(crate::proofs::Numbers::casts))]
fn signed_time(media_time: u64, version: u8) -> i128
    ensures { result ≡ signed_time media_time version }
{
    match (version, u32::try_from(media_time)) {
        (0, Ok(bits)) => i128::from(bits.cast_signed()),
        _ => i128::from(media_time.cast_signed()),
    }
}

impl TableRow for ElstEntry {
    const NAMES: &'static [&'static str] = &[
        "segment_duration",
        "media_time",
        "media_rate",
        "media_rate_fraction",
    ];

    #[tactic(auto, unfolding(crate::specs::Numbers::elst_cells))]
    fn cells(&self, version: u8) -> Cells
        ensures { result ≡ elst_cells self.now version }
    {
        [
            i128::from(self.segment_duration),
            signed_time(self.media_time, version),
            i128::from(signed(self.media_rate)),
            i128::from(signed(self.media_rate_fraction)),
        ]
    }
}

impl LeafFields for ElstBox {
    fn fields(&self, fields: FieldList) -> FieldList {
        fields
            .version_and_flags(self.version, self.flags)
            .rows("entries", self.version, self.entries.as_slice())
    }
}
