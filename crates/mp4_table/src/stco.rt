//! Where chunks lie.

ghost use Rattle.mp4_codec.specs.ExactTest.{by_test, field_tests};
ghost use Rattle.std.specs.Prelude.{◌≡◌, ◌-◌, ◌^◌, Ok, IfOk, nat_lt};
ghost use Rattle.std.specs.List.{list_any};
ghost use Rattle.mp4_codec.specs.Cause.{Answers, AnswersCause, Gives};
ghost use Rattle.mp4_codec.specs.Boxes.{size_around, no_refusal};
ghost use Rattle.mp4_codec.specs.declared.box_type.BoxType.TheVariants.{StcoBox as stco};
ghost use Rattle.mp4_table.specs.Stco.{stco_payload, default_stco, offsets_refusal, narrowed, narrowed_refusal};
ghost use Rattle.mp4_table.specs.Stco.{stco_of, IsInRangeStco, IsWellFormedStco};
ghost use Rattle.mp4_table.specs.StcoLaws.{stco_again};
ghost use Rattle.mp4_codec.specs.Early.{refused_at_once};

use crate::co64::Co64Box;
use crate::table::{put_table, read_table, table_size};
use mp4_codec::{
    BoxType, Error, ExactEq, InRange, Items, Mp4Box, Put, ReadBox, Result, SharedItems, TryClone,
    WriteBox,
};
use std::alloc::Global;

/// Whether an offset passes 2^32 - 1.
fn any_passes(offsets: &[u64]) -> bool
    ensures { result ≡ list_any (λ offset. nat_lt (2 ^ 32 - 1) offset) offsets.now }
{
    offsets.iter().any(|offset| *offset > u64::from(u32::MAX))
}

/// The same offsets in 32 bits. `InvalidData` where one passes 2^32 - 1.
fn narrowed(alloc: Global, offsets: &[u64]) -> Result<Items<u32>>
    ensures refused { AnswersCause (offsets_refusal offsets.now) result }
    ensures value { IfOk result (λ narrow. narrow ≡ offsets.now) }
{
    if any_passes(offsets) {
        return Err(Error::InvalidData("a chunk offset past 32 bits"));
    }
    let mut narrow = Items::with_capacity(alloc, offsets.len())?;
    for offset in offsets {
        narrow.push(*offset as u32)?;
    }
    Ok(narrow)
}

/// The chunk offset table, `stco`: where each chunk of a track lies, in 32 bits (ISO/IEC 14496-12,
/// 8.7.5).
#[derive(Debug, PartialEq, Eq, Drop)]
pub struct StcoBox {
    /// Any version is read and written.
    pub version: u8,
    /// The low 24 bits are written.
    pub flags: u32,
    /// The bytes of the file before each chunk.
    pub entries: SharedItems<u32>,
}

impl ExactEq for StcoBox {
    ghost exact = { by_test (Prim.hlevel field_tests) };
}

impl StcoBox {
    /// No entries.
    pub fn default(alloc: Global) -> Result<Self>
        ensures { Gives (λ b. b) result (Ok default_stco) }
    {
        Ok(StcoBox {
            version: 0,
            flags: 0,
            entries: SharedItems::new(alloc),
        })
    }

    /// The same offsets in 32 bits, with the same version and flags. `InvalidData` where an offset
    /// passes 2^32 - 1, before any memory is taken.
    pub fn try_from(alloc: Global, co64: &Co64Box) -> Result<Self>
        ensures refused { AnswersCause (narrowed_refusal co64.now) result }
        ensures value { IfOk result (λ b. b ≡ narrowed co64.now) }
    {
        Ok(StcoBox {
            version: co64.version,
            flags: co64.flags,
            entries: SharedItems::from_items(narrowed(alloc, co64.entries.as_slice())?)?,
        })
    }

    /// `stco`.
    pub fn get_type(&self) -> BoxType
        ensures { result ≡ stco }
    {
        BoxType::StcoBox
    }

    /// The bytes of the box, its header included: 16, and 4 for each entry.
    #[tactic(auto, unfolding(crate::specs::Stco::stco_payload))]
    pub fn get_size(&self) -> u64
        ensures { result ≡ size_around (stco_payload self.now) }
    {
        table_size(self.version, self.flags, self.entries.as_slice())
    }
}

impl TryClone for StcoBox {
    fn try_clone(&self) -> Result<Self> {
        Ok(StcoBox {
            version: self.version,
            flags: self.flags,
            entries: self.entries.try_clone()?,
        })
    }
}

impl InRange for StcoBox {
    ghost IsInRange = { IsInRangeStco };

    fn in_range(&self) {
        self.version.in_range();
        self.entries.in_range();
    }
}

impl Mp4Box for StcoBox {
    ghost KIND = { stco };

    const KIND: BoxType = BoxType::StcoBox;

    ghost payload = { stco_payload };

    fn box_size(&self) -> u64 {
        self.get_size()
    }
}

impl ReadBox for StcoBox {
    ghost value = { stco_of };

    ghost early = { λ payload. refused_at_once (stco_of payload) };

    #[tactic(auto, unfolding(crate::specs::Stco::stco_of))]
    fn read_payload(alloc: Global, payload: &[u8]) -> Result<Self> {
        let (version, flags, entries) = read_table(alloc, payload)?;
        Ok(StcoBox {
            version,
            flags,
            entries,
        })
    }
}

impl WriteBox for StcoBox {
    ghost refusal = { no_refusal };

    ghost IsWellFormed = { IsWellFormedStco };

    ghost reads_back = { stco_again };

    fn check(&self) -> Result<()> {
        Ok(())
    }

    #[tactic(auto, using(crate::proofs::Sizes::sizes), unfolding(crate::specs::Stco::stco_payload))]
    fn put_payload(&self, out: &mut Vec<u8>) -> Put {
        put_table(out, self.version, self.flags, self.entries.as_slice())?;
        Ok(())
    }
}
