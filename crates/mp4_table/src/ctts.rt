//! How much later than it is decoded a sample is shown.

ghost use Rattle.mp4_codec.specs.ExactTest.{by_test, field_tests};
ghost use Rattle.std.specs.Prelude.{◌≡◌, Ok};
ghost use Rattle.mp4_codec.specs.Cause.{Gives};
ghost use Rattle.mp4_codec.specs.Boxes.{size_around, no_refusal};
ghost use Rattle.mp4_codec.specs.declared.box_type.BoxType.TheVariants.{CttsBox as ctts};
ghost use Rattle.mp4_table.specs.Ctts.{ctts_payload, default_ctts, ctts_entry_in, ctts_entry_at, ctts_entry};
ghost use Rattle.mp4_table.specs.Ctts.{ctts_of, IsInRangeCttsEntry, IsInRangeCtts, IsWellFormedCtts};
ghost use Rattle.mp4_table.specs.CttsLaws.{ctts_entry_again, length-ctts_entry, ctts_again};
ghost use Rattle.mp4_codec.specs.Blocks.{block-is_block};
ghost use Rattle.mp4_codec.specs.Early.{refused_at_once};

use crate::table::{put_table, read_table, table_size};
use mp4_codec::{
    Block, BoxType, DebugItem, ExactEq, InRange, Mp4Box, Plain, Put, ReadBox, Result, SharedItem,
    SharedItems, TryClone, WriteBox, put_i32, put_u32,
};
use std::alloc::Global;
use std::slice;

/// A run of samples of one offset.
#[derive(Debug, Clone, Copy, PartialEq, Eq)]
pub struct CttsEntry {
    /// How many samples there are.
    pub sample_count: u32,
    /// The composition time of each less its decode time, in ticks of the media's timescale; signed in
    /// version 0 too.
    pub sample_offset: i32,
}

impl ExactEq for CttsEntry {
    ghost exact = { by_test (Prim.hlevel field_tests) };
}

impl DebugItem for CttsEntry {}

impl Plain for CttsEntry {}

impl SharedItem for CttsEntry {
    fn as_one(&self) -> &[CttsEntry] {
        slice::from_ref(self)
    }
}

impl InRange for CttsEntry {
    ghost IsInRange = { IsInRangeCttsEntry };

    fn in_range(&self) {
        self.sample_count.in_range();
        self.sample_offset.in_range();
    }
}

impl Block for CttsEntry {
    ghost SIZE = { 8 };

    const SIZE: usize = 8;

    ghost in_block = { ctts_entry_in };

    ghost at = { ctts_entry_at };

    ghost encoded = { ctts_entry };

    ghost Fits = { IsInRangeCttsEntry };

    ghost is_block = { block-is_block 8 ctts_entry_in };

    ghost again = { ctts_entry_again };

    ghost length_encoded = { length-ctts_entry };

    fn from_block(block: &[u8]) -> Self {
        CttsEntry {
            sample_count: u32::from_block(&block[..4]),
            sample_offset: i32::from_block(&block[4..]),
        }
    }

    fn put_block(self, out: &mut Vec<u8>) -> Put {
        put_u32(out, self.sample_count)?;
        put_i32(out, self.sample_offset)?;
        Ok(())
    }
}

/// The composition offset table, `ctts`: how much later than it is decoded each sample of a track is
/// shown, in decoding order (ISO/IEC 14496-12, 8.6.1.3).
#[derive(Debug, PartialEq, Eq, Drop)]
pub struct CttsBox {
    /// Any version is read and written.
    pub version: u8,
    /// The low 24 bits are written.
    pub flags: u32,
    /// The samples in runs of one offset.
    pub entries: SharedItems<CttsEntry>,
}

impl ExactEq for CttsBox {
    ghost exact = { by_test (Prim.hlevel field_tests) };
}

impl CttsBox {
    /// No entries.
    pub fn default(alloc: Global) -> Result<Self>
        ensures { Gives (λ b. b) result (Ok default_ctts) }
    {
        Ok(CttsBox {
            version: 0,
            flags: 0,
            entries: SharedItems::new(alloc),
        })
    }

    /// `ctts`.
    pub fn get_type(&self) -> BoxType
        ensures { result ≡ ctts }
    {
        BoxType::CttsBox
    }

    /// The bytes of the box, its header included: 16, and 8 for each entry.
    #[tactic(auto, unfolding(crate::specs::Ctts::ctts_payload))]
    pub fn get_size(&self) -> u64
        ensures { result ≡ size_around (ctts_payload self.now) }
    {
        table_size(self.version, self.flags, self.entries.as_slice())
    }
}

impl TryClone for CttsBox {
    fn try_clone(&self) -> Result<Self> {
        Ok(CttsBox {
            version: self.version,
            flags: self.flags,
            entries: self.entries.try_clone()?,
        })
    }
}

impl InRange for CttsBox {
    ghost IsInRange = { IsInRangeCtts };

    fn in_range(&self) {
        self.version.in_range();
        self.entries.in_range();
    }
}

impl Mp4Box for CttsBox {
    ghost KIND = { ctts };

    const KIND: BoxType = BoxType::CttsBox;

    ghost payload = { ctts_payload };

    fn box_size(&self) -> u64 {
        self.get_size()
    }
}

impl ReadBox for CttsBox {
    ghost value = { ctts_of };

    ghost early = { λ payload. refused_at_once (ctts_of payload) };

    #[tactic(auto, unfolding(crate::specs::Ctts::ctts_of))]
    fn read_payload(alloc: Global, payload: &[u8]) -> Result<Self> {
        let (version, flags, entries) = read_table(alloc, payload)?;
        Ok(CttsBox {
            version,
            flags,
            entries,
        })
    }
}

impl WriteBox for CttsBox {
    ghost refusal = { no_refusal };

    ghost IsWellFormed = { IsWellFormedCtts };

    ghost reads_back = { ctts_again };

    fn check(&self) -> Result<()> {
        Ok(())
    }

    #[tactic(auto, using(crate::proofs::Sizes::sizes), unfolding(crate::specs::Ctts::ctts_payload))]
    fn put_payload(&self, out: &mut Vec<u8>) -> Put {
        put_table(out, self.version, self.flags, self.entries.as_slice())?;
        Ok(())
    }
}
