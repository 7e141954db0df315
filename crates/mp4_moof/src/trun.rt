//! The track fragment run.

ghost use Rattle.mp4_codec.specs.ExactTest.{by_test, field_tests};
ghost use Rattle.std.specs.Prelude.{◌≡◌, ◌-◌, ◌^◌, length, min, Ok, OnOk};
ghost use Rattle.std.specs.List.{flat_map};
ghost use Rattle.mp4_codec.specs.declared.box_type.BoxType.TheVariants.{TrunBox as trun};
ghost use Rattle.mp4_codec.specs.Cause.{Answers, Checks, Gives};
ghost use Rattle.mp4_codec.specs.Bytes.{Appends};
ghost use Rattle.mp4_codec.specs.Boxes.{size_around};
ghost use Rattle.mp4_moof.specs.Rows.{row, rows, row_of, longest};
ghost use Rattle.mp4_moof.specs.Trun.{trun_payload, columns_of, ListsNothing, default_trun, trun_of, trun_refusal};
ghost use Rattle.mp4_moof.specs.Trun.{IsInRangeTrun, IsWellFormedTrun};
ghost use Rattle.mp4_moof.specs.TrunLaws.{listed_values, trun_again};
ghost use Rattle.mp4_codec.specs.Early.{Shows, refused_at_once};

use crate::optional::{check_flagged, how_many, put_flagged, read_flagged};
use crate::rows::{
    COMPOSITION_OFFSETS, Columns, DURATIONS, Row, SAMPLE_FLAGS, SIZES, check_column,
};
use mp4_codec::{
    BoxType, DebugItem, ExactEq, Fields, InRange, Items, Mp4Box, Put, ReadBox, Result, SharedItem,
    TryClone, WriteBox, put_u8, put_u24, put_u32,
};
use std::alloc::Global;
use std::slice;

/// The flag of `data_offset`.
const DATA_OFFSET: u32 = 0x1;

/// The flag of `first_sample_flags`.
const FIRST_SAMPLE_FLAGS: u32 = 0x4;

/// The track fragment run, `trun`: samples that lie one after the other (ISO/IEC 14496-12, 8.8.8).
///
/// Any version is read and written. Each field and list that may be missing has a flag: it is read where its flag is
/// set, and written where it is there. More samples than the payload has room for are `InvalidData`, before memory is
/// requested; without any of the lists samples take no bytes and no memory, however many they are. Where a flag and
/// its field disagree, or a list hasn't `sample_count` values where its flag is set or isn't empty where it isn't,
/// the box isn't written, but `InvalidData`.
#[derive(Debug, PartialEq, Eq, Drop)]
pub struct TrunBox {
    pub version: u8,
    /// The low 24 bits are written.
    pub flags: u32,
    /// How many samples there are.
    pub sample_count: u32,
    /// By flag 0x1: where the first sample lies, in bytes from the base data offset of the track fragment.
    pub data_offset: Option<i32>,
    /// By flag 0x4: the first sample's flags, in place of all others.
    pub first_sample_flags: Option<u32>,
    /// By flag 0x100: the duration of each sample, in ticks of the media's timescale.
    pub sample_durations: Items<u32>,
    /// By flag 0x200: the bytes of each sample.
    pub sample_sizes: Items<u32>,
    /// By flag 0x400: the sample flags of each (ISO/IEC 14496-12, 8.8.3.1); bit 0x10000 is set where the sample is no
    /// sync sample.
    pub sample_flags: Items<u32>,
    /// By flag 0x800: the composition offset of each sample, in ticks of the media's timescale, as its 32 bits are.
    pub sample_cts: Items<u32>,
}

impl ExactEq for TrunBox {
    ghost exact = { by_test (Prim.hlevel field_tests) };
}

impl DebugItem for TrunBox {}

impl SharedItem for TrunBox {
    fn as_one(&self) -> &[TrunBox] {
        slice::from_ref(self)
    }
}

impl TrunBox {
    /// No samples.
    pub fn default(alloc: Global) -> Result<Self>
        ensures { Gives (λ b. b) result (Ok default_trun) }
    {
        Ok(TrunBox {
            version: 0,
            flags: 0,
            sample_count: 0,
            data_offset: None,
            first_sample_flags: None,
            sample_durations: Items::new(alloc),
            sample_sizes: Items::new(alloc),
            sample_flags: Items::new(alloc),
            sample_cts: Items::new(alloc),
        })
    }

    /// `trun`.
    pub fn get_type(&self) -> BoxType
        ensures { result ≡ trun }
    {
        BoxType::TrunBox
    }

    /// The bytes of the box, its header included: 16, and 4 for each field that is there and each value of the lists.
    #[tactic(auto, using(crate::proofs::LeafSizes::sizes))]
    pub fn get_size(&self) -> u64
        ensures { result ≡ size_around (trun_payload self.now) }
    {
        let fields = 4 * how_many(&self.data_offset) + 4 * how_many(&self.first_sample_flags);
        self.listed_values()
            .saturating_mul(4)
            .saturating_add(16 + fields)
    }

    /// The values of the four lists; it stops at 2^64 - 1.
    fn listed_values(&self) -> u64
        ensures { result ≡ min (listed_values self.now) (2 ^ 64 - 1) }
    {
        let front = self.sample_durations.len() as u64 + self.sample_sizes.len() as u64;
        let rest = self.sample_flags.len() as u64 + self.sample_cts.len() as u64;
        front.saturating_add(rest)
    }

    /// How many values the longest of the four lists has.
    fn longest(&self) -> usize
        ensures { result ≡ longest (columns_of self.now) }
    {
        self.sample_durations
            .len()
            .max(self.sample_sizes.len())
            .max(self.sample_flags.len())
            .max(self.sample_cts.len())
    }

    /// What the lists say of a sample, by its index, which counts from 0.
    fn row(&self, k: usize) -> Row
        ensures { result ≡ row_of (columns_of self.now) k }
    {
        Row {
            duration: self.sample_durations.get(k).copied(),
            size: self.sample_sizes.get(k).copied(),
            flags: self.sample_flags.get(k).copied(),
            cts: self.sample_cts.get(k).copied(),
        }
    }

    /// Adds what the lists say, sample by sample.
    fn put_rows(&self, out: &mut Vec<u8>) -> Put
        ensures { OnOk result (Appends out.old.items out.new.items
            (flat_map row (rows (columns_of self.now) (longest (columns_of self.now))))) }
    {
        for k in 0..self.longest() {
            self.row(k).put(out)?;
        }
        Ok(())
    }
}

impl TryClone for TrunBox {
    fn try_clone(&self) -> Result<Self> {
        Ok(TrunBox {
            version: self.version,
            flags: self.flags,
            sample_count: self.sample_count,
            data_offset: self.data_offset,
            first_sample_flags: self.first_sample_flags,
            sample_durations: self.sample_durations.try_clone()?,
            sample_sizes: self.sample_sizes.try_clone()?,
            sample_flags: self.sample_flags.try_clone()?,
            sample_cts: self.sample_cts.try_clone()?,
        })
    }
}

impl InRange for TrunBox {
    ghost IsInRange = { IsInRangeTrun };

    fn in_range(&self) {
        self.version.in_range();
        self.sample_count.in_range();
        self.data_offset.in_range();
        self.first_sample_flags.in_range();
        self.sample_durations.in_range();
        self.sample_sizes.in_range();
        self.sample_flags.in_range();
        self.sample_cts.in_range();
    }
}

impl Mp4Box for TrunBox {
    ghost KIND = { trun };

    const KIND: BoxType = BoxType::TrunBox;

    ghost payload = { trun_payload };

    fn box_size(&self) -> u64 {
        self.get_size()
    }
}

impl ReadBox for TrunBox {
    ghost value = { trun_of };

    ghost early = { λ payload. refused_at_once (trun_of payload) };

    /// The run of a payload; it takes memory for lists alone.
    #[tactic(auto, unfolding(crate::specs::Trun::trun_of))]
    fn read_payload(alloc: Global, payload: &[u8]) -> Result<Self>
        ensures value { Answers (λ x. x) result (trun_of payload.now) }
        ensures early { Shows (refused_at_once (trun_of payload.now)) result }
        ensures nothing { ListsNothing payload.now → Gives (λ x. x) result (trun_of payload.now) }
    {
        let mut fields = Fields::new(payload);
        let version = fields.u8()?;
        let flags = fields.u24()?;
        let sample_count = fields.u32()?;
        let data_offset = read_flagged(&mut fields, DATA_OFFSET, flags)?;
        let first_sample_flags = read_flagged(&mut fields, FIRST_SAMPLE_FLAGS, flags)?;
        let samples = Columns::read(alloc, &mut fields, flags, sample_count)?;
        let Columns {
            durations,
            sizes,
            flags: sample_flags,
            cts,
        } = samples;
        Ok(TrunBox {
            version,
            flags,
            sample_count,
            data_offset,
            first_sample_flags,
            sample_durations: durations,
            sample_sizes: sizes,
            sample_flags,
            sample_cts: cts,
        })
    }
}

impl WriteBox for TrunBox {
    ghost refusal = { trun_refusal };

    ghost IsWellFormed = { IsWellFormedTrun };

    ghost reads_back = { trun_again };

    #[tactic(auto, unfolding(crate::specs::Trun::trun_refusal))]
    fn check(&self) -> Result<()> {
        let (flags, count) = (self.flags, self.sample_count);
        check_flagged(DATA_OFFSET, flags, &self.data_offset)?;
        check_flagged(FIRST_SAMPLE_FLAGS, flags, &self.first_sample_flags)?;
        check_column(DURATIONS, flags, count, &self.sample_durations)?;
        check_column(SIZES, flags, count, &self.sample_sizes)?;
        check_column(SAMPLE_FLAGS, flags, count, &self.sample_flags)?;
        check_column(COMPOSITION_OFFSETS, flags, count, &self.sample_cts)?;
        Ok(())
    }

    fn put_payload(&self, out: &mut Vec<u8>) -> Put {
        put_u8(out, self.version)?;
        put_u24(out, self.flags)?;
        put_u32(out, self.sample_count)?;
        put_flagged(out, self.data_offset)?;
        put_flagged(out, self.first_sample_flags)?;
        self.put_rows(out)?;
        Ok(())
    }
}
