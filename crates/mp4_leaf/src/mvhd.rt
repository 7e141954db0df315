//! The movie header.

ghost use Rattle.mp4_codec.specs.ExactTest.{by_law, by_test, field_tests};
ghost use Rattle.mp4_leaf.specs.contracts.matrix.MatrixExactEq.TheImpl.Laws.{lawful as matrix_laws};
ghost use Rattle.std.specs.Prelude.{◌≡◌};
ghost use Rattle.mp4_codec.specs.Cause.{Gives, Reads};
ghost use Rattle.mp4_codec.specs.declared.box_type.BoxType.TheVariants.{MvhdBox as mvhd};
ghost use Rattle.mp4_codec.specs.Boxes.{size_around};
ghost use Rattle.mp4_leaf.specs.Mvhd.{playback_at, mvhd_payload, default_mvhd, mvhd_of, mvhd_refusal, IsInRangeMvhd};
ghost use Rattle.mp4_leaf.specs.Mvhd.{IsWellFormedMvhd, header_times_of};
ghost use Rattle.mp4_leaf.specs.MvhdLaws.{mvhd_again};
ghost use Rattle.mp4_codec.specs.Early.{at_once};

use crate::matrix::{Matrix, put_matrix, read_matrix};
use crate::times::{HeaderTimes, check_times, put_header_times, read_header_times};
use mp4_codec::{
    BoxType, ExactEq, Field, Fields, FixedPointU8, FixedPointU16, InRange, Mp4Box, Plain, Put,
    ReadBox, Result, WriteBox, put_u16, put_u32, put_versioned, put_zeros,
};
use std::alloc::Global;

/// The movie header, `mvhd`: what holds of the whole presentation (ISO/IEC 14496-12, 8.2.2).
///
/// Version 1 has 64 bits for the times and the duration, version 0 has 32. Any other version is
/// `InvalidData`, both ways; a number past 32 bits isn't written in version 0, but `TooLarge(Value)`.
#[derive(Clone, Copy, Debug, PartialEq, Eq)]
pub struct MvhdBox {
    pub version: u8,
    /// The low 24 bits are written.
    pub flags: u32,
    /// Seconds since 1904-01-01 00:00 UTC.
    pub creation_time: u64,
    /// Seconds since 1904-01-01 00:00 UTC.
    pub modification_time: u64,
    /// Ticks in a second.
    pub timescale: u32,
    /// Ticks of `timescale`; the longest track's.
    pub duration: u64,
    /// The speed to play at; 1.0 is as recorded.
    pub rate: FixedPointU16,
    /// The loudness to play at; 1.0 is full.
    pub volume: FixedPointU8,
    pub matrix: Matrix,
    /// A number above all track ids, for the next track that is added.
    pub next_track_id: u32,
}

impl ExactEq for MvhdBox {
    ghost exact = { by_test (Prim.hlevel (field_tests, by_law matrix_laws.exact)) };
}

/// How a movie is played: how fast, how loud, and where it is shown.
#[derive(Clone, Copy)]
struct Playback {
    rate: FixedPointU16,
    volume: FixedPointU8,
    matrix: Matrix,
}

/// The next such fields of a payload.
#[tactic(auto, unfolding(crate::specs::Mvhd::playback_at))]
fn read_playback(fields: &mut Fields) -> Field<Playback>
    ensures { Reads (λ p. (p, fields.new)) result (playback_at fields.old) }
{
    let rate = fields.u32()?;
    let volume = fields.u16()?;
    fields.bytes(10)?;
    let matrix = read_matrix(fields)?;
    Ok(Playback {
        rate: FixedPointU16::new_raw(rate),
        volume: FixedPointU8::new_raw(volume),
        matrix,
    })
}

impl MvhdBox {
    /// `mvhd`.
    pub fn get_type(&self) -> BoxType
        ensures { result ≡ mvhd }
    {
        BoxType::MvhdBox
    }

    /// What the header begins with.
    fn header_times(&self) -> HeaderTimes
        ensures { result ≡ header_times_of self.now }
    {
        HeaderTimes {
            version: self.version,
            flags: self.flags,
            creation_time: self.creation_time,
            modification_time: self.modification_time,
        }
    }

    /// The bytes of the box, its header included: 120 in version 1, else 108.
    #[tactic(auto, using(crate::proofs::Sizes::sizes))]
    pub fn get_size(&self) -> u64
        ensures { result ≡ size_around (mvhd_payload self.now) }
    {
        if self.version == 1 { 120 } else { 108 }
    }
}

impl Default for MvhdBox {
    ghost is_default = { λ b. b ≡ default_mvhd };

    fn default() -> Self {
        MvhdBox {
            version: 0,
            flags: 0,
            creation_time: 0,
            modification_time: 0,
            timescale: 1000,
            duration: 0,
            rate: FixedPointU16::new(1),
            volume: FixedPointU8::new(1),
            matrix: Matrix::default(),
            next_track_id: 1,
        }
    }
}

impl Plain for MvhdBox {}

impl InRange for MvhdBox {
    ghost IsInRange = { IsInRangeMvhd };

    fn in_range(&self) {
        self.version.in_range();
        self.creation_time.in_range();
        self.modification_time.in_range();
        self.timescale.in_range();
        self.duration.in_range();
        self.rate.raw.in_range();
        self.volume.raw.in_range();
        self.matrix.in_range();
        self.next_track_id.in_range();
    }
}

impl Mp4Box for MvhdBox {
    ghost KIND = { mvhd };

    const KIND: BoxType = BoxType::MvhdBox;

    ghost payload = { mvhd_payload };

    fn box_size(&self) -> u64 {
        self.get_size()
    }
}

impl ReadBox for MvhdBox {
    ghost value = { mvhd_of };

    ghost early = { λ payload. at_once (mvhd_of payload) };

    #[tactic(auto, unfolding(crate::specs::Mvhd::mvhd_of))]
    fn read_payload(_alloc: Global, payload: &[u8]) -> Result<Self>
        ensures { Gives (λ x. x) result (mvhd_of payload.now) }
    {
        let mut fields = Fields::new(payload);
        let header_times = read_header_times(&mut fields)?;
        let timescale = fields.u32()?;
        let duration = fields.versioned(header_times.version)?;
        let playback = read_playback(&mut fields)?;
        fields.bytes(24)?;
        let next_track_id = fields.u32()?;
        Ok(MvhdBox {
            version: header_times.version,
            flags: header_times.flags,
            creation_time: header_times.creation_time,
            modification_time: header_times.modification_time,
            timescale,
            duration,
            rate: playback.rate,
            volume: playback.volume,
            matrix: playback.matrix,
            next_track_id,
        })
    }
}

impl WriteBox for MvhdBox {
    ghost refusal = { mvhd_refusal };

    ghost IsWellFormed = { IsWellFormedMvhd };

    ghost reads_back = { mvhd_again };

    #[tactic(auto, unfolding(crate::specs::Mvhd::mvhd_refusal))]
    fn check(&self) -> Result<()> {
        check_times(
            self.version,
            self.creation_time,
            self.modification_time,
            self.duration,
        )?;
        Ok(())
    }

    fn put_payload(&self, out: &mut Vec<u8>) -> Put {
        put_header_times(out, self.header_times())?;
        put_u32(out, self.timescale)?;
        put_versioned(out, self.version, self.duration)?;
        put_u32(out, self.rate.raw)?;
        put_u16(out, self.volume.raw)?;
        put_zeros(out, 10)?;
        put_matrix(out, &self.matrix)?;
        put_zeros(out, 24)?;
        put_u32(out, self.next_track_id)?;
        Ok(())
    }
}
