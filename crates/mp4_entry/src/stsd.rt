//! The sample description.

ghost use Rattle.mp4_codec.specs.ExactTest.{by_law, by_test, field_tests};
ghost use Rattle.mp4_codec.specs.contracts.box_type.BoxTypeExactEq.TheImpl.Laws.{lawful as box_type_laws};
ghost use Rattle.mp4_entry.specs.contracts.avc1.Avc1BoxExactEq.TheImpl.Laws.{lawful as avc1_laws};
ghost use Rattle.mp4_entry.specs.contracts.hev1.Hev1BoxExactEq.TheImpl.Laws.{lawful as hev1_laws};
ghost use Rattle.mp4_entry.specs.contracts.vp09.Vp09BoxExactEq.TheImpl.Laws.{lawful as vp09_laws};
ghost use Rattle.mp4_entry.specs.contracts.mp4a.Mp4aBoxExactEq.TheImpl.Laws.{lawful as mp4a_laws};
ghost use Rattle.mp4_entry.specs.contracts.tx3g.Tx3gBoxExactEq.TheImpl.Laws.{lawful as tx3g_laws};
ghost use Rattle.std.specs.Prelude.{◌≡◌, Ok};
ghost use Rattle.mp4_codec.specs.declared.box_type.BoxType.TheVariants.{StsdBox as stsd};
ghost use Rattle.mp4_codec.specs.Boxes.{size_around};
ghost use Rattle.mp4_codec.specs.Cause.{Answers};
ghost use Rattle.mp4_entry.specs.Stsd.{stsd_payload, default_stsd, stsd_of, stsd_early, stsd_of_config, stsd_refusal};
ghost use Rattle.mp4_entry.specs.Stsd.{IsInRangeStsd, IsWellFormedStsd, no_entry, with_entry};
ghost use Rattle.mp4_entry.specs.Stsd.{first_entry, borrowed_entry};
ghost use Rattle.mp4_entry.specs.StsdLaws.{stsd_again};

use crate::avc1::Avc1Box;
use crate::config::MediaConfig;
use crate::hev1::Hev1Box;
use crate::mp4a::Mp4aBox;
use crate::sample_entry::{EntryRef, SampleEntry};
use crate::tx3g::Tx3gBox;
use crate::vp09::Vp09Box;
use mp4_codec::{
    BoxType, Children, ExactEq, Fields, InRange, Mp4Box, Put, ReadBox, Result, TryClone, WriteBox,
    four_copies, put_u8, put_u24, put_u32,
};
use std::alloc::Global;

/// The sample description, `stsd`: the sample entry of a track (ISO/IEC 14496-12, 8.5.2).
///
/// Any version is read and written. Of what is read the first entry alone is looked at, whatever the count says. Where
/// fewer than 8 bytes are left there is none; else a box has to begin there and to lie within the payload, or it is
/// `InvalidData`. Of an entry of another type than the five that type alone is kept, and what follows the first is
/// skipped. Of what is written the first of the five that is there counts, in the order of the fields, with a count of
/// 1, or 0 where none is there; its refusal is that of the box.
#[derive(Debug, PartialEq, Eq, Drop)]
pub struct StsdBox {
    pub version: u8,
    /// The low 24 bits are written.
    pub flags: u32,
    /// AVC video.
    pub avc1: Option<Avc1Box>,
    /// HEVC video.
    pub hev1: Option<Hev1Box>,
    /// VP9 video.
    pub vp09: Option<Vp09Box>,
    /// AAC sound.
    pub mp4a: Option<Mp4aBox>,
    /// Timed text.
    pub tx3g: Option<Tx3gBox>,
    /// The type of an entry that isn't read. It isn't written.
    pub other: Option<BoxType>,
}

impl ExactEq for StsdBox {
    ghost exact = { by_test (Prim.hlevel (
      field_tests,
      by_law avc1_laws.exact,
      by_law hev1_laws.exact,
      by_law vp09_laws.exact,
      by_law mp4a_laws.exact,
      by_law tx3g_laws.exact,
      by_law box_type_laws.exact,
    )) };
}

impl StsdBox {
    /// The description of a track that is begun with this configuration: version and flags 0, and its entry.
    pub fn new(alloc: Global, config: &MediaConfig) -> Result<Self>
        ensures { Answers (λ b. b) result (Ok (stsd_of_config config.now)) }
    {
        let entry = SampleEntry::of_config(alloc, config)?;
        Ok(Self::with_entry(0, 0, entry))
    }

    /// `stsd`.
    pub fn get_type(&self) -> BoxType
        ensures { result ≡ stsd }
    {
        BoxType::StsdBox
    }

    /// The bytes of the box, its header included: 16, and those of the entry that is written.
    #[tactic(auto, using(crate::proofs::Sizes::sizes))]
    pub fn get_size(&self) -> u64
        ensures { result ≡ size_around (stsd_payload self.now) }
    {
        self.first_entry().size().saturating_add(16)
    }

    /// No entry.
    fn without_entry(version: u8, flags: u32) -> Self
        ensures { result ≡ no_entry version flags }
    {
        StsdBox {
            version,
            flags,
            avc1: None,
            hev1: None,
            vp09: None,
            mp4a: None,
            tx3g: None,
            other: None,
        }
    }

    /// This entry alone.
    fn with_entry(version: u8, flags: u32, entry: SampleEntry) -> Self
        ensures { result ≡ with_entry version flags entry }
    {
        let mut description = Self::without_entry(version, flags);
        match entry {
            SampleEntry::AvcVideo(entry) => description.avc1 = Some(entry),
            SampleEntry::HevcVideo(entry) => description.hev1 = Some(entry),
            SampleEntry::Vp9Video(entry) => description.vp09 = Some(entry),
            SampleEntry::AacSound(entry) => description.mp4a = Some(entry),
            SampleEntry::Text(entry) => description.tx3g = Some(entry),
            SampleEntry::Other(name) => description.other = Some(name),
            SampleEntry::NoKnown => {}
        }
        description
    }

    /// The entry that is written.
    fn first_entry(&self) -> EntryRef
        ensures { borrowed_entry result ≡ first_entry self.now }
    {
        if let Some(entry) = &self.avc1 {
            return EntryRef::AvcVideo(entry);
        }
        if let Some(entry) = &self.hev1 {
            return EntryRef::HevcVideo(entry);
        }
        if let Some(entry) = &self.vp09 {
            return EntryRef::Vp9Video(entry);
        }
        if let Some(entry) = &self.mp4a {
            return EntryRef::AacSound(entry);
        }
        if let Some(entry) = &self.tx3g {
            return EntryRef::Text(entry);
        }
        EntryRef::NoKnown
    }
}

impl Default for StsdBox {
    ghost is_default = { λ b. b ≡ default_stsd };

    /// No entry.
    fn default() -> Self {
        Self::without_entry(0, 0)
    }
}

impl TryClone for StsdBox {
    fn try_clone(&self) -> Result<Self> {
        let tx3g = self.tx3g.try_clone()?;
        let (avc1, hev1, vp09, mp4a) = four_copies(&self.avc1, &self.hev1, &self.vp09, &self.mp4a)?;
        Ok(StsdBox {
            version: self.version,
            flags: self.flags,
            avc1,
            hev1,
            vp09,
            mp4a,
            tx3g,
            other: self.other,
        })
    }
}

impl InRange for StsdBox {
    ghost IsInRange = { IsInRangeStsd };

    fn in_range(&self) {
        self.version.in_range();
        self.avc1.in_range();
        self.hev1.in_range();
        self.vp09.in_range();
        self.mp4a.in_range();
        self.tx3g.in_range();
    }
}

impl Mp4Box for StsdBox {
    ghost KIND = { stsd };

    const KIND: BoxType = BoxType::StsdBox;

    ghost payload = { stsd_payload };

    fn box_size(&self) -> u64 {
        self.get_size()
    }
}

impl ReadBox for StsdBox {
    ghost value = { stsd_of };

    ghost early = { stsd_early };

    #[tactic(auto, unfolding(crate::specs::Stsd::stsd_of, crate::specs::Stsd::stsd_early))]
    fn read_payload(alloc: Global, payload: &[u8]) -> Result<Self> {
        let mut fields = Fields::new(payload);
        let version = fields.u8()?;
        let flags = fields.u24()?;
        fields.u32()?;
        let mut entries = Children::new(fields.rest());
        match entries.next_child()? {
            None => Ok(Self::without_entry(version, flags)),
            Some(child) => {
                let entry = SampleEntry::read(alloc, &child)?;
                Ok(Self::with_entry(version, flags, entry))
            }
        }
    }
}

impl WriteBox for StsdBox {
    ghost refusal = { stsd_refusal };

    ghost IsWellFormed = { IsWellFormedStsd };

    ghost reads_back = { stsd_again };

    fn check(&self) -> Result<()> {
        self.first_entry().check()
    }

    #[tactic(auto, using(crate::proofs::Sizes::sizes))]
    fn put_payload(&self, out: &mut Vec<u8>) -> Put {
        put_u8(out, self.version)?;
        put_u24(out, self.flags)?;
        let entry = self.first_entry();
        put_u32(out, entry.count())?;
        entry.put(out)?;
        Ok(())
    }
}
