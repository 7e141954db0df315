//! How long samples last.

ghost use Rattle.mp4_codec.specs.ExactTest.{by_test, field_tests};
ghost use Rattle.std.specs.Prelude.{◌≡◌, Ok};
ghost use Rattle.mp4_codec.specs.Cause.{Gives};
ghost use Rattle.mp4_codec.specs.Boxes.{size_around, no_refusal};
ghost use Rattle.mp4_codec.specs.declared.box_type.BoxType.TheVariants.{SttsBox as stts};
ghost use Rattle.mp4_table.specs.Stts.{stts_payload, default_stts, stts_entry_in, stts_entry_at, stts_entry};
ghost use Rattle.mp4_table.specs.Stts.{stts_of, IsInRangeSttsEntry, IsInRangeStts, IsWellFormedStts};
ghost use Rattle.mp4_table.specs.SttsLaws.{stts_entry_again, length-stts_entry, stts_again};
ghost use Rattle.mp4_codec.specs.Blocks.{block-is_block};
ghost use Rattle.mp4_codec.specs.Early.{refused_at_once};

use crate::table::{put_table, read_table, table_size};
use mp4_codec::{
    Block, BoxType, DebugItem, ExactEq, InRange, Mp4Box, Plain, Put, ReadBox, Result, SharedItem,
    SharedItems, TryClone, WriteBox, put_u32,
};
use std::alloc::Global;
use std::slice;

/// A run of samples of one duration.
#[derive(Debug, Clone, Copy, PartialEq, Eq)]
pub struct SttsEntry {
    /// How many samples there are.
    pub sample_count: u32,
    /// How long each lasts, in ticks of the media's timescale.
    pub sample_delta: u32,
}

impl ExactEq for SttsEntry {
    ghost exact = { by_test (Prim.hlevel field_tests) };
}

impl DebugItem for SttsEntry {}

impl Plain for SttsEntry {}

impl SharedItem for SttsEntry {
    fn as_one(&self) -> &[SttsEntry] {
        slice::from_ref(self)
    }
}

impl InRange for SttsEntry {
    ghost IsInRange = { IsInRangeSttsEntry };

    fn in_range(&self) {
        self.sample_count.in_range();
        self.sample_delta.in_range();
    }
}

impl Block for SttsEntry {
    ghost SIZE = { 8 };

    const SIZE: usize = 8;

    ghost in_block = { stts_entry_in };

    ghost at = { stts_entry_at };

    ghost encoded = { stts_entry };

    ghost Fits = { IsInRangeSttsEntry };

    ghost is_block = { block-is_block 8 stts_entry_in };

    ghost again = { stts_entry_again };

    ghost length_encoded = { length-stts_entry };

    fn from_block(block: &[u8]) -> Self {
        SttsEntry {
            sample_count: u32::from_block(&block[..4]),
            sample_delta: u32::from_block(&block[4..]),
        }
    }

    fn put_block(self, out: &mut Vec<u8>) -> Put {
        put_u32(out, self.sample_count)?;
        put_u32(out, self.sample_delta)?;
        Ok(())
    }
}

/// The time-to-sample table, `stts`: how long each sample of a track lasts, in decoding order
/// (ISO/IEC 14496-12, 8.6.1.2).
#[derive(Debug, PartialEq, Eq, Drop)]
pub struct SttsBox {
    /// Any version is read and written.
    pub version: u8,
    /// The low 24 bits are written.
    pub flags: u32,
    /// The samples in runs of one duration.
    pub entries: SharedItems<SttsEntry>,
}

impl ExactEq for SttsBox {
    ghost exact = { by_test (Prim.hlevel field_tests) };
}

impl SttsBox {
    /// No entries.
    pub fn default(alloc: Global) -> Result<Self>
        ensures { Gives (λ b. b) result (Ok default_stts) }
    {
        Ok(SttsBox {
            version: 0,
            flags: 0,
            entries: SharedItems::new(alloc),
        })
    }

    /// `stts`.
    pub fn get_type(&self) -> BoxType
        ensures { result ≡ stts }
    {
        BoxType::SttsBox
    }

    /// The bytes of the box, its header included: 16, and 8 for each entry.
    #[tactic(auto, unfolding(crate::specs::Stts::stts_payload))]
    pub fn get_size(&self) -> u64
        ensures { result ≡ size_around (stts_payload self.now) }
    {
        table_size(self.version, self.flags, self.entries.as_slice())
    }
}

impl TryClone for SttsBox {
    fn try_clone(&self) -> Result<Self> {
        Ok(SttsBox {
            version: self.version,
            flags: self.flags,
            entries: self.entries.try_clone()?,
        })
    }
}

impl InRange for SttsBox {
    ghost IsInRange = { IsInRangeStts };

    fn in_range(&self) {
        self.version.in_range();
        self.entries.in_range();
    }
}

impl Mp4Box for SttsBox {
    ghost KIND = { stts };

    const KIND: BoxType = BoxType::SttsBox;

    ghost payload = { stts_payload };

    fn box_size(&self) -> u64 {
        self.get_size()
    }
}

impl ReadBox for SttsBox {
    ghost value = { stts_of };

    ghost early = { λ payload. refused_at_once (stts_of payload) };

    #[tactic(auto, unfolding(crate::specs::Stts::stts_of))]
    fn read_payload(alloc: Global, payload: &[u8]) -> Result<Self> {
        let (version, flags, entries) = read_table(alloc, payload)?;
        Ok(SttsBox {
            version,
            flags,
            entries,
        })
    }
}

impl WriteBox for SttsBox {
    ghost refusal = { no_refusal };

    ghost IsWellFormed = { IsWellFormedStts };

    ghost reads_back = { stts_again };

    fn check(&self) -> Result<()> {
        Ok(())
    }

    #[tactic(auto, using(crate::proofs::Sizes::sizes), unfolding(crate::specs::Stts::stts_payload))]
    fn put_payload(&self, out: &mut Vec<u8>) -> Put {
        put_table(out, self.version, self.flags, self.entries.as_slice())?;
        Ok(())
    }
}
