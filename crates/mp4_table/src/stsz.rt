//! How long samples are.

ghost use Rattle.mp4_codec.specs.ExactTest.{by_test, field_tests};
ghost use Rattle.std.specs.Prelude.{◌≡◌, Ok};
ghost use Rattle.mp4_codec.specs.Cause.{Checks, Gives};
ghost use Rattle.mp4_codec.specs.Boxes.{size_around};
ghost use Rattle.mp4_codec.specs.declared.box_type.BoxType.TheVariants.{StszBox as stsz};
ghost use Rattle.mp4_table.specs.Stsz.{stsz_payload, stsz_refusal, default_stsz, stsz_of, IsInRangeStsz};
ghost use Rattle.mp4_table.specs.Stsz.{IsWellFormedStsz};
ghost use Rattle.mp4_table.specs.StszLaws.{stsz_again};
ghost use Rattle.mp4_codec.specs.Early.{refused_at_once};

use mp4_codec::{
    BoxType, Error, ExactEq, Fields, InRange, Mp4Box, Put, ReadBox, Result, SharedItems, TryClone,
    WriteBox, list_size, put_list, put_u8, put_u24, put_u32,
};
use std::alloc::Global;

/// The sample size table, `stsz`: how many bytes each sample of a track has, one size for all or a list
/// (ISO/IEC 14496-12, 8.7.3.2).
///
/// It is written where the list is just as long as the other fields say, else it is `InvalidData`.
#[derive(Debug, PartialEq, Eq, Drop)]
pub struct StszBox {
    /// Any version is read and written.
    pub version: u8,
    /// The low 24 bits are written.
    pub flags: u32,
    /// The bytes of each sample, or 0 where they are listed.
    pub sample_size: u32,
    /// How many samples there are.
    pub sample_count: u32,
    /// The bytes of each sample, where `sample_size` is 0; else none.
    pub sample_sizes: SharedItems<u32>,
}

impl ExactEq for StszBox {
    ghost exact = { by_test (Prim.hlevel field_tests) };
}

impl StszBox {
    /// No samples.
    pub fn default(alloc: Global) -> Result<Self>
        ensures { Gives (λ b. b) result (Ok default_stsz) }
    {
        Ok(StszBox {
            version: 0,
            flags: 0,
            sample_size: 0,
            sample_count: 0,
            sample_sizes: SharedItems::new(alloc),
        })
    }

    /// `stsz`.
    pub fn get_type(&self) -> BoxType
        ensures { result ≡ stsz }
    {
        BoxType::StszBox
    }

    /// The bytes of the box, its header included: 20, and 4 for each size that is listed.
    #[tactic(auto, using(crate::proofs::Sizes::sizes))]
    pub fn get_size(&self) -> u64
        ensures { result ≡ size_around (stsz_payload self.now) }
    {
        list_size(self.version, self.sample_sizes.as_slice()).saturating_add(20)
    }
}

impl TryClone for StszBox {
    fn try_clone(&self) -> Result<Self> {
        Ok(StszBox {
            version: self.version,
            flags: self.flags,
            sample_size: self.sample_size,
            sample_count: self.sample_count,
            sample_sizes: self.sample_sizes.try_clone()?,
        })
    }
}

impl InRange for StszBox {
    ghost IsInRange = { IsInRangeStsz };

    fn in_range(&self) {
        self.version.in_range();
        self.sample_size.in_range();
        self.sample_count.in_range();
        self.sample_sizes.in_range();
    }
}

impl Mp4Box for StszBox {
    ghost KIND = { stsz };

    const KIND: BoxType = BoxType::StszBox;

    ghost payload = { stsz_payload };

    fn box_size(&self) -> u64 {
        self.get_size()
    }
}

impl ReadBox for StszBox {
    ghost value = { stsz_of };

    ghost early = { λ payload. refused_at_once (stsz_of payload) };

    #[tactic(auto, unfolding(crate::specs::Stsz::stsz_of))]
    fn read_payload(alloc: Global, payload: &[u8]) -> Result<Self> {
        let mut fields = Fields::new(payload);
        let version = fields.u8()?;
        let flags = fields.u24()?;
        let sample_size = fields.u32()?;
        let sample_count = fields.u32()?;
        let listed = if sample_size == 0 { sample_count } else { 0 };
        let sample_sizes = fields.list(alloc, version, listed as usize)?;
        let sample_sizes = SharedItems::from_items(sample_sizes)?;
        Ok(StszBox {
            version,
            flags,
            sample_size,
            sample_count,
            sample_sizes,
        })
    }
}

impl WriteBox for StszBox {
    ghost refusal = { stsz_refusal };

    ghost IsWellFormed = { IsWellFormedStsz };

    ghost reads_back = { stsz_again };

    #[tactic(auto, unfolding(crate::specs::Stsz::stsz_refusal))]
    fn check(&self) -> Result<()> {
        let listed = if self.sample_size == 0 {
            self.sample_count as usize
        } else {
            0
        };
        if self.sample_sizes.len() != listed {
            return Err(Error::InvalidData("the list of sample sizes"));
        }
        Ok(())
    }

    fn put_payload(&self, out: &mut Vec<u8>) -> Put {
        put_u8(out, self.version)?;
        put_u24(out, self.flags)?;
        put_u32(out, self.sample_size)?;
        put_u32(out, self.sample_count)?;
        put_list(out, self.version, self.sample_sizes.as_slice())?;
        Ok(())
    }
}
