//! Where chunks lie, in large files.

ghost use Rattle.mp4_codec.specs.ExactTest.{by_test, field_tests};
ghost use Rattle.std.specs.Prelude.{◌≡◌, Ok};
ghost use Rattle.mp4_codec.specs.Cause.{Gives};
ghost use Rattle.mp4_codec.specs.Boxes.{size_around, no_refusal};
ghost use Rattle.mp4_codec.specs.declared.box_type.BoxType.TheVariants.{Co64Box as co64};
ghost use Rattle.mp4_table.specs.Co64.{co64_payload, default_co64, co64_of, IsInRangeCo64, IsWellFormedCo64};
ghost use Rattle.mp4_table.specs.Co64Laws.{co64_again};
ghost use Rattle.mp4_codec.specs.Early.{refused_at_once};

use crate::table::{put_table, read_table, table_size};
use mp4_codec::{
    BoxType, ExactEq, InRange, Mp4Box, Put, ReadBox, Result, SharedItems, TryClone, WriteBox,
};
use std::alloc::Global;

/// The chunk offset table of large files, `co64`: where each chunk of a track lies, in 64 bits
/// (ISO/IEC 14496-12, 8.7.5).
#[derive(Debug, PartialEq, Eq, Drop)]
pub struct Co64Box {
    /// Any version is read and written.
    pub version: u8,
    /// The low 24 bits are written.
    pub flags: u32,
    /// The bytes of the file before each chunk.
    pub entries: SharedItems<u64>,
}

impl ExactEq for Co64Box {
    ghost exact = { by_test (Prim.hlevel field_tests) };
}

impl Co64Box {
    /// No entries.
    pub fn default(alloc: Global) -> Result<Self>
        ensures { Gives (λ b. b) result (Ok default_co64) }
    {
        Ok(Co64Box {
            version: 0,
            flags: 0,
            entries: SharedItems::new(alloc),
        })
    }

    /// `co64`.
    pub fn get_type(&self) -> BoxType
        ensures { result ≡ co64 }
    {
        BoxType::Co64Box
    }

    /// The bytes of the box, its header included: 16, and 8 for each entry.
    #[tactic(auto, unfolding(crate::specs::Co64::co64_payload))]
    pub fn get_size(&self) -> u64
        ensures { result ≡ size_around (co64_payload self.now) }
    {
        table_size(self.version, self.flags, self.entries.as_slice())
    }
}

impl TryClone for Co64Box {
    fn try_clone(&self) -> Result<Self> {
        Ok(Co64Box {
            version: self.version,
            flags: self.flags,
            entries: self.entries.try_clone()?,
        })
    }
}

impl InRange for Co64Box {
    ghost IsInRange = { IsInRangeCo64 };

    fn in_range(&self) {
        self.version.in_range();
        self.entries.in_range();
    }
}

impl Mp4Box for Co64Box {
    ghost KIND = { co64 };

    const KIND: BoxType = BoxType::Co64Box;

    ghost payload = { co64_payload };

    fn box_size(&self) -> u64 {
        self.get_size()
    }
}

impl ReadBox for Co64Box {
    ghost value = { co64_of };

    ghost early = { λ payload. refused_at_once (co64_of payload) };

    #[tactic(auto, unfolding(crate::specs::Co64::co64_of))]
    fn read_payload(alloc: Global, payload: &[u8]) -> Result<Self> {
        let (version, flags, entries) = read_table(alloc, payload)?;
        Ok(Co64Box {
            version,
            flags,
            entries,
        })
    }
}

impl WriteBox for Co64Box {
    ghost refusal = { no_refusal };

    ghost IsWellFormed = { IsWellFormedCo64 };

    ghost reads_back = { co64_again };

    fn check(&self) -> Result<()> {
        Ok(())
    }

    #[tactic(auto, using(crate::proofs::Sizes::sizes), unfolding(crate::specs::Co64::co64_payload))]
    fn put_payload(&self, out: &mut Vec<u8>) -> Put {
        put_table(out, self.version, self.flags, self.entries.as_slice())?;
        Ok(())
    }
}
