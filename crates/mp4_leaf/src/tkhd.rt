//! The track header.

ghost use Rattle.mp4_codec.specs.ExactTest.{by_law, by_test, field_tests};
ghost use Rattle.mp4_leaf.specs.contracts.matrix.MatrixExactEq.TheImpl.Laws.{lawful as matrix_laws};
ghost use Rattle.std.specs.Prelude.{◌≡◌, ◌*◌};
ghost use Rattle.mp4_codec.specs.declared.box_type.BoxType.TheVariants.{TkhdBox as tkhd};
ghost use Rattle.mp4_codec.specs.Boxes.{size_around};
ghost use Rattle.mp4_leaf.specs.Tkhd.{presentation_at, tkhd_payload, default_tkhd, tkhd_of, tkhd_refusal};
ghost use Rattle.mp4_leaf.specs.Tkhd.{IsInRangeTkhd, IsWellFormedTkhd, header_times_of};
ghost use Rattle.mp4_leaf.specs.TkhdLaws.{tkhd_again};
ghost use Rattle.mp4_codec.specs.Cause.{Gives, Reads};
ghost use Rattle.mp4_codec.specs.Early.{at_once};

use crate::matrix::{Matrix, put_matrix, read_matrix};
use crate::times::{HeaderTimes, check_times, put_header_times, read_header_times};
use mp4_codec::{
    BoxType, ExactEq, Field, Fields, FixedPointU8, FixedPointU16, InRange, Mp4Box, Plain, Put,
    ReadBox, Result, WriteBox, put_u16, put_u32, put_versioned, put_zeros,
};
use std::alloc::Global;

/// The track header, `tkhd`: what holds of one track (ISO/IEC 14496-12, 8.3.2).
///
/// Version 1 has 64 bits for the times and the duration, version 0 has 32. Any other version is
/// `InvalidData`, both ways; a number past 32 bits isn't written in version 0, but `TooLarge(Value)`.
#[derive(Clone, Copy, Debug, PartialEq, Eq)]
pub struct TkhdBox {
    pub version: u8,
    /// 1 for a track that is enabled, 2 for one that is used in the movie, 4 in a preview. The low 24
    /// bits are written.
    pub flags: u32,
    /// Seconds since 1904-01-01 00:00 UTC.
    pub creation_time: u64,
    /// Seconds since 1904-01-01 00:00 UTC.
    pub modification_time: u64,
    /// The number that names the track, above 0.
    pub track_id: u32,
    /// Ticks of the movie's timescale.
    pub duration: u64,
    /// The bits of a signed number; tracks of lower ones are nearer to the viewer.
    pub layer: u16,
    /// Of the tracks that share such a number, one is played; 0 is shared with none.
    pub alternate_group: u16,
    /// The loudness to play at; 1.0 is full, and 0 is in tracks without sound.
    pub volume: FixedPointU8,
    pub matrix: Matrix,
    /// The width to show the track at, in pixels.
    pub width: FixedPointU16,
    /// The height to show the track at, in pixels.
    pub height: FixedPointU16,
}

impl ExactEq for TkhdBox {
    ghost exact = { by_test (Prim.hlevel (field_tests, by_law matrix_laws.exact)) };
}

/// How a track is presented: beside which others, how loud, where and how large.
#[derive(Clone, Copy)]
struct Presentation {
    layer: u16,
    alternate_group: u16,
    volume: FixedPointU8,
    matrix: Matrix,
    width: FixedPointU16,
    height: FixedPointU16,
}

/// The next such fields of a payload.
#[tactic(auto, unfolding(crate::specs::Tkhd::presentation_at))]
fn read_presentation(fields: &mut Fields) -> Field<Presentation>
    ensures { Reads (λ p. (p, fields.new)) result (presentation_at fields.old) }
{
    let layer = fields.u16()?;
    let alternate_group = fields.u16()?;
    let volume = fields.u16()?;
    fields.bytes(2)?;
    let matrix = read_matrix(fields)?;
    let width = fields.u32()?;
    let height = fields.u32()?;
    Ok(Presentation {
        layer,
        alternate_group,
        volume: FixedPointU8::new_raw(volume),
        matrix,
        width: FixedPointU16::new_raw(width),
        height: FixedPointU16::new_raw(height),
    })
}

impl TkhdBox {
    /// `tkhd`.
    pub fn get_type(&self) -> BoxType
        ensures { result ≡ tkhd }
    {
        BoxType::TkhdBox
    }

    /// What the header begins with.
    fn header_times(&self) -> HeaderTimes
        ensures { result ≡ header_times_of self.now }
    {
        HeaderTimes {
            version: self.version,
            flags: self.flags,
            creation_time: self.creation_time,
            modification_time: self.modification_time,
        }
    }

    /// The bytes of the box, its header included: 104 in version 1, else 92.
    #[tactic(auto, using(crate::proofs::Sizes::sizes))]
    pub fn get_size(&self) -> u64
        ensures { result ≡ size_around (tkhd_payload self.now) }
    {
        if self.version == 1 { 104 } else { 92 }
    }

    /// Sets a width of whole pixels.
    pub fn set_width(&mut self, width: u16)
        ensures { self.new ≡ record self.old { width = record { raw = width * 65536 } } }
    {
        self.width = FixedPointU16::new(width);
    }

    /// Sets a height of whole pixels.
    pub fn set_height(&mut self, height: u16)
        ensures { self.new ≡ record self.old { height = record { raw = height * 65536 } } }
    {
        self.height = FixedPointU16::new(height);
    }
}

impl Default for TkhdBox {
    ghost is_default = { λ b. b ≡ default_tkhd };

    fn default() -> Self {
        TkhdBox {
            version: 0,
            flags: 1,
            creation_time: 0,
            modification_time: 0,
            track_id: 0,
            duration: 0,
            layer: 0,
            alternate_group: 0,
            volume: FixedPointU8::new(1),
            matrix: Matrix::default(),
            width: FixedPointU16::new(0),
            height: FixedPointU16::new(0),
        }
    }
}

impl Plain for TkhdBox {}

impl InRange for TkhdBox {
    ghost IsInRange = { IsInRangeTkhd };

    fn in_range(&self) {
        self.version.in_range();
        self.creation_time.in_range();
        self.modification_time.in_range();
        self.track_id.in_range();
        self.duration.in_range();
        self.layer.in_range();
        self.alternate_group.in_range();
        self.volume.raw.in_range();
        self.matrix.in_range();
        self.width.raw.in_range();
        self.height.raw.in_range();
    }
}

impl Mp4Box for TkhdBox {
    ghost KIND = { tkhd };

    const KIND: BoxType = BoxType::TkhdBox;

    ghost payload = { tkhd_payload };

    fn box_size(&self) -> u64 {
        self.get_size()
    }
}

impl ReadBox for TkhdBox {
    ghost value = { tkhd_of };

    ghost early = { λ payload. at_once (tkhd_of payload) };

    #[tactic(auto, unfolding(crate::specs::Tkhd::tkhd_of))]
    fn read_payload(_alloc: Global, payload: &[u8]) -> Result<Self>
        ensures { Gives (λ x. x) result (tkhd_of payload.now) }
    {
        let mut fields = Fields::new(payload);
        let header_times = read_header_times(&mut fields)?;
        let track_id = fields.u32()?;
        fields.bytes(4)?;
        let duration = fields.versioned(header_times.version)?;
        fields.bytes(8)?;
        let presentation = read_presentation(&mut fields)?;
        Ok(TkhdBox {
            version: header_times.version,
            flags: header_times.flags,
            creation_time: header_times.creation_time,
            modification_time: header_times.modification_time,
            track_id,
            duration,
            layer: presentation.layer,
            alternate_group: presentation.alternate_group,
            volume: presentation.volume,
            matrix: presentation.matrix,
            width: presentation.width,
            height: presentation.height,
        })
    }
}

impl WriteBox for TkhdBox {
    ghost refusal = { tkhd_refusal };

    ghost IsWellFormed = { IsWellFormedTkhd };

    ghost reads_back = { tkhd_again };

    #[tactic(auto, unfolding(crate::specs::Tkhd::tkhd_refusal))]
    fn check(&self) -> Result<()> {
        check_times(
            self.version,
            self.creation_time,
            self.modification_time,
            self.duration,
        )?;
        Ok(())
    }

    fn put_payload(&self, out: &mut Vec<u8>) -> Put {
        put_header_times(out, self.header_times())?;
        put_u32(out, self.track_id)?;
        put_zeros(out, 4)?;
        put_versioned(out, self.version, self.duration)?;
        put_zeros(out, 8)?;
        put_u16(out, self.layer)?;
        put_u16(out, self.alternate_group)?;
        put_u16(out, self.volume.raw)?;
        put_zeros(out, 2)?;
        put_matrix(out, &self.matrix)?;
        put_u32(out, self.width.raw)?;
        put_u32(out, self.height.raw)?;
        Ok(())
    }
}
