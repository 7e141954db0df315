//! The media header.

ghost use Rattle.mp4_codec.specs.ExactTest.{by_test, field_tests};
ghost use Rattle.std.specs.Prelude.{◌≡◌, Ok};
ghost use Rattle.mp4_codec.specs.declared.box_type.BoxType.TheVariants.{MdhdBox as mdhd};
ghost use Rattle.mp4_codec.specs.Boxes.{size_around};
ghost use Rattle.mp4_codec.specs.Cause.{Answers};
ghost use Rattle.mp4_leaf.specs.Mdhd.{mdhd_payload, default_mdhd, mdhd_of, mdhd_refusal, IsInRangeMdhd};
ghost use Rattle.mp4_leaf.specs.Mdhd.{IsWellFormedMdhd, header_times_of};
ghost use Rattle.mp4_leaf.specs.MdhdLaws.{mdhd_again};
ghost use Rattle.mp4_codec.specs.Early.{refused_at_once};

use crate::language::{check_language, pack_language, unpack_language};
use crate::times::{HeaderTimes, check_times, put_header_times, read_header_times};
use mp4_codec::{
    BoxType, ExactEq, Fields, InRange, Mp4Box, Put, ReadBox, Result, Text, TryClone, WriteBox,
    put_u16, put_u32, put_versioned, put_zeros,
};
use std::alloc::Global;

/// The media header, `mdhd`: the clock and the language of one track's media (ISO/IEC 14496-12, 8.4.2).
///
/// Version 1 has 64 bits for the times and the duration, version 0 has 32. Any other version is
/// `InvalidData`, both ways; a number past 32 bits isn't written in version 0, but `TooLarge(Value)`.
#[derive(Debug, PartialEq, Eq, Drop)]
pub struct MdhdBox {
    pub version: u8,
    /// The low 24 bits are written.
    pub flags: u32,
    /// Seconds since 1904-01-01 00:00 UTC.
    pub creation_time: u64,
    /// Seconds since 1904-01-01 00:00 UTC.
    pub modification_time: u64,
    /// Ticks in a second.
    pub timescale: u32,
    /// Ticks of `timescale`.
    pub duration: u64,
    /// The ISO 639-2/T code, as `eng`, or `und` where there is none. What isn't three characters of
    /// U+0060 to U+007F is not written, but `Unrepresentable`.
    pub language: Text,
}

impl ExactEq for MdhdBox {
    ghost exact = { by_test (Prim.hlevel field_tests) };
}

impl MdhdBox {
    /// 1000 ticks a second, and the language `und`.
    pub fn default(alloc: Global) -> Result<Self>
        ensures { Answers (λ b. b) result (Ok default_mdhd) }
    {
        Ok(MdhdBox {
            version: 0,
            flags: 0,
            creation_time: 0,
            modification_time: 0,
            timescale: 1000,
            duration: 0,
            language: Text::from_str(alloc, "und")?,
        })
    }

    /// `mdhd`.
    pub fn get_type(&self) -> BoxType
        ensures { result ≡ mdhd }
    {
        BoxType::MdhdBox
    }

    /// What the header begins with.
    fn header_times(&self) -> HeaderTimes
        ensures { result ≡ header_times_of self.now }
    {
        HeaderTimes {
            version: self.version,
            flags: self.flags,
            creation_time: self.creation_time,
            modification_time: self.modification_time,
        }
    }

    /// The bytes of the box, its header included: 44 in version 1, else 32.
    #[tactic(auto, using(crate::proofs::Sizes::sizes))]
    pub fn get_size(&self) -> u64
        ensures { result ≡ size_around (mdhd_payload self.now) }
    {
        if self.version == 1 { 44 } else { 32 }
    }
}

impl TryClone for MdhdBox {
    fn try_clone(&self) -> Result<Self> {
        Ok(MdhdBox {
            version: self.version,
            flags: self.flags,
            creation_time: self.creation_time,
            modification_time: self.modification_time,
            timescale: self.timescale,
            duration: self.duration,
            language: self.language.try_clone()?,
        })
    }
}

impl InRange for MdhdBox {
    ghost IsInRange = { IsInRangeMdhd };

    fn in_range(&self) {
        self.version.in_range();
        self.creation_time.in_range();
        self.modification_time.in_range();
        self.timescale.in_range();
        self.duration.in_range();
    }
}

impl Mp4Box for MdhdBox {
    ghost KIND = { mdhd };

    const KIND: BoxType = BoxType::MdhdBox;

    ghost payload = { mdhd_payload };

    fn box_size(&self) -> u64 {
        self.get_size()
    }
}

impl ReadBox for MdhdBox {
    ghost value = { mdhd_of };

    ghost early = { λ payload. refused_at_once (mdhd_of payload) };

    #[tactic(auto, unfolding(crate::specs::Mdhd::mdhd_of))]
    fn read_payload(alloc: Global, payload: &[u8]) -> Result<Self> {
        let mut fields = Fields::new(payload);
        let header_times = read_header_times(&mut fields)?;
        let timescale = fields.u32()?;
        let duration = fields.versioned(header_times.version)?;
        let code = fields.u16()?;
        fields.bytes(2)?;
        let language = unpack_language(alloc, code)?;
        Ok(MdhdBox {
            version: header_times.version,
            flags: header_times.flags,
            creation_time: header_times.creation_time,
            modification_time: header_times.modification_time,
            timescale,
            duration,
            language,
        })
    }
}

impl WriteBox for MdhdBox {
    ghost refusal = { mdhd_refusal };

    ghost IsWellFormed = { IsWellFormedMdhd };

    ghost reads_back = { mdhd_again };

    #[tactic(auto, unfolding(crate::specs::Mdhd::mdhd_refusal))]
    fn check(&self) -> Result<()> {
        check_times(
            self.version,
            self.creation_time,
            self.modification_time,
            self.duration,
        )?;
        check_language(&self.language)?;
        Ok(())
    }

    fn put_payload(&self, out: &mut Vec<u8>) -> Put {
        put_header_times(out, self.header_times())?;
        put_u32(out, self.timescale)?;
        put_versioned(out, self.version, self.duration)?;
        put_u16(out, pack_language(&self.language))?;
        put_zeros(out, 2)?;
        Ok(())
    }
}
