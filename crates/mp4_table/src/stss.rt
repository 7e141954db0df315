//! Which samples are sync samples.

ghost use Rattle.mp4_codec.specs.ExactTest.{by_test, field_tests};
ghost use Rattle.std.specs.Prelude.{◌≡◌, Ok};
ghost use Rattle.mp4_codec.specs.Cause.{Gives};
ghost use Rattle.mp4_codec.specs.Boxes.{size_around, no_refusal};
ghost use Rattle.mp4_codec.specs.declared.box_type.BoxType.TheVariants.{StssBox as stss};
ghost use Rattle.mp4_table.specs.Stss.{stss_payload, default_stss, stss_of, IsInRangeStss, IsWellFormedStss};
ghost use Rattle.mp4_table.specs.StssLaws.{stss_again};
ghost use Rattle.mp4_codec.specs.Early.{refused_at_once};

use crate::table::{put_table, read_table, table_size};
use mp4_codec::{
    BoxType, ExactEq, InRange, Mp4Box, Put, ReadBox, Result, SharedItems, TryClone, WriteBox,
};
use std::alloc::Global;

/// The sync sample table, `stss`: from which samples a track can be played (ISO/IEC 14496-12, 8.6.2).
///
/// Without the box each sample is one.
#[derive(Debug, PartialEq, Eq, Drop)]
pub struct StssBox {
    /// Any version is read and written.
    pub version: u8,
    /// The low 24 bits are written.
    pub flags: u32,
    /// The numbers of the sync samples, counted from 1. They rise, which is not tested.
    pub entries: SharedItems<u32>,
}

impl ExactEq for StssBox {
    ghost exact = { by_test (Prim.hlevel field_tests) };
}

impl StssBox {
    /// No entries.
    pub fn default(alloc: Global) -> Result<Self>
        ensures { Gives (λ b. b) result (Ok default_stss) }
    {
        Ok(StssBox {
            version: 0,
            flags: 0,
            entries: SharedItems::new(alloc),
        })
    }

    /// `stss`.
    pub fn get_type(&self) -> BoxType
        ensures { result ≡ stss }
    {
        BoxType::StssBox
    }

    /// The bytes of the box, its header included: 16, and 4 for each entry.
    #[tactic(auto, unfolding(crate::specs::Stss::stss_payload))]
    pub fn get_size(&self) -> u64
        ensures { result ≡ size_around (stss_payload self.now) }
    {
        table_size(self.version, self.flags, self.entries.as_slice())
    }
}

impl TryClone for StssBox {
    fn try_clone(&self) -> Result<Self> {
        Ok(StssBox {
            version: self.version,
            flags: self.flags,
            entries: self.entries.try_clone()?,
        })
    }
}

impl InRange for StssBox {
    ghost IsInRange = { IsInRangeStss };

    fn in_range(&self) {
        self.version.in_range();
        self.entries.in_range();
    }
}

impl Mp4Box for StssBox {
    ghost KIND = { stss };

    const KIND: BoxType = BoxType::StssBox;

    ghost payload = { stss_payload };

    fn box_size(&self) -> u64 {
        self.get_size()
    }
}

impl ReadBox for StssBox {
    ghost value = { stss_of };

    ghost early = { λ payload. refused_at_once (stss_of payload) };

    #[tactic(auto, unfolding(crate::specs::Stss::stss_of))]
    fn read_payload(alloc: Global, payload: &[u8]) -> Result<Self> {
        let (version, flags, entries) = read_table(alloc, payload)?;
        Ok(StssBox {
            version,
            flags,
            entries,
        })
    }
}

impl WriteBox for StssBox {
    ghost refusal = { no_refusal };

    ghost IsWellFormed = { IsWellFormedStss };

    ghost reads_back = { stss_again };

    fn check(&self) -> Result<()> {
        Ok(())
    }

    #[tactic(auto, using(crate::proofs::Sizes::sizes), unfolding(crate::specs::Stss::stss_payload))]
    fn put_payload(&self, out: &mut Vec<u8>) -> Put {
        put_table(out, self.version, self.flags, self.entries.as_slice())?;
        Ok(())
    }
}
