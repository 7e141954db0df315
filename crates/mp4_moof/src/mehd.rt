//! How long a movie with its fragments is.

ghost use Rattle.mp4_codec.specs.ExactTest.{by_test, field_tests};
ghost use Rattle.std.specs.Prelude.{◌≡◌};
ghost use Rattle.mp4_codec.specs.declared.box_type.BoxType.TheVariants.{MehdBox as mehd};
ghost use Rattle.mp4_codec.specs.Cause.{Gives};
ghost use Rattle.mp4_codec.specs.Boxes.{size_around};
ghost use Rattle.mp4_moof.specs.Mehd.{mehd_payload, default_mehd, mehd_of, mehd_refusal, IsInRangeMehd};
ghost use Rattle.mp4_moof.specs.Mehd.{IsWellFormedMehd};
ghost use Rattle.mp4_moof.specs.MehdLaws.{mehd_again};
ghost use Rattle.mp4_codec.specs.Early.{at_once};

use mp4_codec::{
    BoxType, ExactEq, Fields, InRange, Mp4Box, Plain, Put, ReadBox, Result, WriteBox, check_value,
    check_version, put_u8, put_u24, put_versioned,
};
use std::alloc::Global;

/// The movie extends header, `mehd`: how long the movie is with all its fragments (ISO/IEC 14496-12, 8.8.2).
///
/// Version 1 has 64 bits for the duration, version 0 has 32. Any other version is `InvalidData`, both ways; a
/// duration past 32 bits isn't written in version 0, but `TooLarge(Value)`.
#[derive(Clone, Copy, Debug, PartialEq, Eq)]
pub struct MehdBox {
    pub version: u8,
    /// The low 24 bits are written.
    pub flags: u32,
    /// Ticks of the movie's timescale; the longest track's.
    pub fragment_duration: u64,
}

impl ExactEq for MehdBox {
    ghost exact = { by_test (Prim.hlevel field_tests) };
}

impl MehdBox {
    /// `mehd`.
    pub fn get_type(&self) -> BoxType
        ensures { result ≡ mehd }
    {
        BoxType::MehdBox
    }

    /// The bytes of the box, its header included: 20 in version 1, else 16.
    #[tactic(auto, using(crate::proofs::LeafSizes::sizes))]
    pub fn get_size(&self) -> u64
        ensures { result ≡ size_around (mehd_payload self.now) }
    {
        if self.version == 1 { 20 } else { 16 }
    }
}

impl Default for MehdBox {
    ghost is_default = { λ b. b ≡ default_mehd };

    fn default() -> Self {
        MehdBox {
            version: 0,
            flags: 0,
            fragment_duration: 0,
        }
    }
}

impl Plain for MehdBox {}

impl InRange for MehdBox {
    ghost IsInRange = { IsInRangeMehd };

    fn in_range(&self) {
        self.version.in_range();
        self.fragment_duration.in_range();
    }
}

impl Mp4Box for MehdBox {
    ghost KIND = { mehd };

    const KIND: BoxType = BoxType::MehdBox;

    ghost payload = { mehd_payload };

    fn box_size(&self) -> u64 {
        self.get_size()
    }
}

impl ReadBox for MehdBox {
    ghost value = { mehd_of };

    ghost early = { λ payload. at_once (mehd_of payload) };

    #[tactic(auto, unfolding(crate::specs::Mehd::mehd_of))]
    fn read_payload(_alloc: Global, payload: &[u8]) -> Result<Self>
        ensures { Gives (λ x. x) result (mehd_of payload.now) }
    {
        let mut fields = Fields::new(payload);
        let version = fields.u8()?;
        let flags = fields.u24()?;
        let fragment_duration = fields.versioned(version)?;
        Ok(MehdBox {
            version,
            flags,
            fragment_duration,
        })
    }
}

impl WriteBox for MehdBox {
    ghost refusal = { mehd_refusal };

    ghost IsWellFormed = { IsWellFormedMehd };

    ghost reads_back = { mehd_again };

    #[tactic(auto, unfolding(crate::specs::Mehd::mehd_refusal))]
    fn check(&self) -> Result<()> {
        check_version(self.version)?;
        check_value(self.version, self.fragment_duration)?;
        Ok(())
    }

    fn put_payload(&self, out: &mut Vec<u8>) -> Put {
        put_u8(out, self.version)?;
        put_u24(out, self.flags)?;
        put_versioned(out, self.version, self.fragment_duration)?;
        Ok(())
    }
}
