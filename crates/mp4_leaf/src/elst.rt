//! The edit list.

ghost use Rattle.mp4_codec.specs.ExactTest.{by_test, field_tests};
ghost use Rattle.std.specs.Prelude.{◌≡◌, Ok};
ghost use Rattle.mp4_codec.specs.Cause.{Checks, Gives};
ghost use Rattle.mp4_leaf.specs.Elst.{elst_entry_refusal, elst_entry_at, elst_entry, FitsElstEntry, elst_entry_length};
ghost use Rattle.mp4_leaf.specs.Elst.{elst_payload, elst_refusal, default_elst, elst_of, IsInRangeElst};
ghost use Rattle.mp4_leaf.specs.Elst.{IsWellFormedElst, IsInRangeElstEntry};
ghost use Rattle.mp4_leaf.specs.ElstLaws.{elst_entry_again, length-elst_entry, elst_entry-has_length, elst_again};
ghost use Rattle.mp4_codec.specs.declared.box_type.BoxType.TheVariants.{ElstBox as elst};
ghost use Rattle.mp4_codec.specs.Boxes.{size_around, all_refusal};
ghost use Rattle.mp4_codec.specs.Early.{refused_at_once};

use mp4_codec::{
    BoxType, DebugItem, Entry, ExactEq, Field, Fields, InRange, Items, Mp4Box, Plain, Put, ReadBox,
    Result, TryClone, WriteBox, check_value, check_version, list_size, put_list, put_u8, put_u16,
    put_u24, put_u32, put_versioned,
};
use std::alloc::Global;

/// One edit: a part of the media that the track shows.
#[derive(Clone, Copy, Debug, PartialEq, Eq)]
pub struct ElstEntry {
    /// Ticks of the movie's timescale.
    pub segment_duration: u64,
    /// Where the part begins, in ticks of the media's timescale. All ones, of 32 bits in version 0 and
    /// of 64 in version 1, stand for an empty edit.
    pub media_time: u64,
    /// The speed to play at, 1 as recorded; the bits of a signed number. 0 dwells on one picture.
    pub media_rate: u16,
    /// 65536ths of the speed.
    pub media_rate_fraction: u16,
}

impl ExactEq for ElstEntry {
    ghost exact = { by_test (Prim.hlevel field_tests) };
}

impl DebugItem for ElstEntry {}

impl ElstEntry {
    /// Whether a version has room for the edit.
    #[tactic(auto, unfolding(crate::specs::Elst::elst_entry_refusal))]
    fn check(&self, version: u8) -> Result<()>
        ensures { Checks result (elst_entry_refusal version self.now) }
    {
        check_value(version, self.segment_duration)?;
        check_value(version, self.media_time)?;
        Ok(())
    }
}

impl Plain for ElstEntry {}

impl InRange for ElstEntry {
    ghost IsInRange = { IsInRangeElstEntry };

    fn in_range(&self) {
        self.segment_duration.in_range();
        self.media_time.in_range();
        self.media_rate.in_range();
        self.media_rate_fraction.in_range();
    }
}

impl Entry for ElstEntry {
    ghost at = { elst_entry_at };

    ghost encoded = { elst_entry };

    ghost Fits = { FitsElstEntry };

    ghost bytes_each = { elst_entry_length };

    ghost again = { elst_entry_again };

    ghost length_encoded = { length-elst_entry };

    ghost has_length = { elst_entry-has_length };

    fn size(version: u8) -> u64 {
        if version == 1 { 20 } else { 12 }
    }

    #[tactic(auto, unfolding(crate::specs::Elst::elst_entry_at))]
    fn read(fields: &mut Fields, version: u8) -> Field<ElstEntry> {
        let segment_duration = fields.sized(version)?;
        let media_time = fields.sized(version)?;
        let media_rate = fields.u16()?;
        let media_rate_fraction = fields.u16()?;
        Ok(ElstEntry {
            segment_duration,
            media_time,
            media_rate,
            media_rate_fraction,
        })
    }

    fn put(self, out: &mut Vec<u8>, version: u8) -> Put {
        put_versioned(out, version, self.segment_duration)?;
        put_versioned(out, version, self.media_time)?;
        put_u16(out, self.media_rate)?;
        put_u16(out, self.media_rate_fraction)?;
        Ok(())
    }
}

/// The edit list, `elst`: how a track's media lies on the movie's time (ISO/IEC 14496-12, 8.6.6).
///
/// Version 1 has 64 bits for the durations and times, version 0 has 32. Any other version is
/// `InvalidData`, both ways; a number past 32 bits isn't written in version 0, but `TooLarge(Value)`.
#[derive(Debug, PartialEq, Eq, Drop)]
pub struct ElstBox {
    pub version: u8,
    /// The low 24 bits are written.
    pub flags: u32,
    /// The edits, in the order in which they are shown. A count past the payload is `InvalidData`.
    pub entries: Items<ElstEntry>,
}

impl ExactEq for ElstBox {
    ghost exact = { by_test (Prim.hlevel field_tests) };
}

impl ElstBox {
    /// No edits.
    pub fn default(alloc: Global) -> Result<Self>
        ensures { Gives (λ b. b) result (Ok default_elst) }
    {
        Ok(ElstBox {
            version: 0,
            flags: 0,
            entries: Items::new(alloc),
        })
    }

    /// `elst`.
    pub fn get_type(&self) -> BoxType
        ensures { result ≡ elst }
    {
        BoxType::ElstBox
    }

    /// The bytes of the box, its header included: 16, and for each edit 20 in version 1, else 12.
    #[tactic(auto, using(crate::proofs::Sizes::sizes))]
    pub fn get_size(&self) -> u64
        ensures { result ≡ size_around (elst_payload self.now) }
    {
        list_size(self.version, self.entries.as_slice()).saturating_add(16)
    }

    /// Whether the version has room for all edits.
    fn check_entries(&self) -> Result<()>
        ensures { Checks result (all_refusal (elst_entry_refusal self.now.version) self.now.entries) }
    {
        for entry in self.entries.as_slice() {
            entry.check(self.version)?;
        }
        Ok(())
    }
}

impl TryClone for ElstBox {
    fn try_clone(&self) -> Result<Self> {
        Ok(ElstBox {
            version: self.version,
            flags: self.flags,
            entries: self.entries.try_clone()?,
        })
    }
}

impl InRange for ElstBox {
    ghost IsInRange = { IsInRangeElst };

    fn in_range(&self) {
        self.version.in_range();
        self.entries.in_range();
    }
}

impl Mp4Box for ElstBox {
    ghost KIND = { elst };

    const KIND: BoxType = BoxType::ElstBox;

    ghost payload = { elst_payload };

    fn box_size(&self) -> u64 {
        self.get_size()
    }
}

impl ReadBox for ElstBox {
    ghost value = { elst_of };

    ghost early = { λ payload. refused_at_once (elst_of payload) };

    #[tactic(auto, unfolding(crate::specs::Elst::elst_of))]
    fn read_payload(alloc: Global, payload: &[u8]) -> Result<Self> {
        let mut fields = Fields::new(payload);
        let version = fields.u8()?;
        let flags = fields.u24()?;
        check_version(version)?;
        let count = fields.u32()?;
        let entries = fields.list(alloc, version, count as usize)?;
        Ok(ElstBox {
            version,
            flags,
            entries,
        })
    }
}

impl WriteBox for ElstBox {
    ghost refusal = { elst_refusal };

    ghost IsWellFormed = { IsWellFormedElst };

    ghost reads_back = { elst_again };

    #[tactic(auto, unfolding(crate::specs::Elst::elst_refusal))]
    fn check(&self) -> Result<()> {
        check_version(self.version)?;
        self.check_entries()?;
        Ok(())
    }

    fn put_payload(&self, out: &mut Vec<u8>) -> Put {
        put_u8(out, self.version)?;
        put_u24(out, self.flags)?;
        put_u32(out, self.entries.len() as u32)?;
        put_list(out, self.version, self.entries.as_slice())?;
        Ok(())
    }
}
