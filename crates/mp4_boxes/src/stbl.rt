//! The sample table of a track.

ghost use Rattle.mp4_codec.specs.ExactTest.{by_law, by_test, field_tests};
ghost use Rattle.mp4_entry.specs.contracts.stsd.StsdBoxExactEq.TheImpl.Laws.{lawful as stsd_laws};
ghost use Rattle.mp4_table.specs.contracts.stts.SttsBoxExactEq.TheImpl.Laws.{lawful as stts_laws};
ghost use Rattle.mp4_table.specs.contracts.ctts.CttsBoxExactEq.TheImpl.Laws.{lawful as ctts_laws};
ghost use Rattle.mp4_table.specs.contracts.stss.StssBoxExactEq.TheImpl.Laws.{lawful as stss_laws};
ghost use Rattle.mp4_table.specs.contracts.stsc.StscBoxExactEq.TheImpl.Laws.{lawful as stsc_laws};
ghost use Rattle.mp4_table.specs.contracts.stsz.StszBoxExactEq.TheImpl.Laws.{lawful as stsz_laws};
ghost use Rattle.mp4_table.specs.contracts.stco.StcoBoxExactEq.TheImpl.Laws.{lawful as stco_laws};
ghost use Rattle.mp4_table.specs.contracts.co64.Co64BoxExactEq.TheImpl.Laws.{lawful as co64_laws};
ghost use Rattle.std.specs.Prelude.{◌≡◌, Ok};
ghost use Rattle.mp4_codec.specs.declared.box_type.BoxType.TheVariants.{StblBox as stbl};
ghost use Rattle.mp4_codec.specs.Cause.{Gives};
ghost use Rattle.mp4_codec.specs.Boxes.{size_around};
ghost use Rattle.mp4_boxes.specs.Stbl.{stbl_payload, default_stbl, stbl_fault, stbl_child_early, stbl_taken};
ghost use Rattle.mp4_boxes.specs.Stbl.{stbl_added, stbl_of, stbl_early, stbl_refusal, needed_places, IsInRangeStbl};
ghost use Rattle.mp4_boxes.specs.Stbl.{IsWellFormedStbl, sample_count};
ghost use Rattle.mp4_boxes.specs.StblLaws.{stbl_adds, stbl_again};

use crate::parts::required_four;
use mp4_codec::{
    BoxType, Child, Error, ExactEq, Gather, HEADER_SIZE, InRange, Mp4Box, Put, ReadBox, Result,
    TryClone, WriteBox, four_copies, gather_children, keep_last, optional_size, put_optional,
};
use mp4_entry::StsdBox;
use mp4_table::{Co64Box, CttsBox, StcoBox, StscBox, StssBox, StszBox, SttsBox};
use std::alloc::Global;

/// The sample table of a track, `stbl`: how long each sample lasts, how long it is, and where it lies
/// (ISO/IEC 14496-12, 8.5.1).
///
/// Its children may come in any order, and types that it doesn't name are skipped. Of a type the last
/// child counts. The first refused child in file order is the answer, then `InvalidData` for a broken
/// tail, then `BoxNotFound` for the first that is missing of stsd, stts, stsc, stsz, then
/// `Box2NotFound(StcoBox, Co64Box)` where neither is there.
///
/// One that reads back equal has an stco or a co64; a default one has neither.
#[derive(Debug, PartialEq, Eq, Drop)]
pub struct StblBox {
    /// What the samples are, which is required.
    pub stsd: StsdBox,
    /// How long samples last, in ticks of the media's timescale, which is required.
    pub stts: SttsBox,
    /// How long after its decoding time a sample is shown: where it is missing, at that time.
    pub ctts: Option<CttsBox>,
    /// Which samples are sync samples: where it is missing, all are.
    pub stss: Option<StssBox>,
    /// How many samples each chunk has, which is required.
    pub stsc: StscBox,
    /// How many bytes samples have, which is required.
    pub stsz: StszBox,
    /// Where chunks lie, in 32 bits.
    pub stco: Option<StcoBox>,
    /// Where chunks lie, in 64 bits.
    pub co64: Option<Co64Box>,
}

impl ExactEq for StblBox {
    ghost exact = { by_test (Prim.hlevel (
      field_tests,
      by_law stsd_laws.exact,
      by_law stts_laws.exact,
      by_law ctts_laws.exact,
      by_law stss_laws.exact,
      by_law stsc_laws.exact,
      by_law stsz_laws.exact,
      by_law stco_laws.exact,
      by_law co64_laws.exact,
    )) };
}

/// Both tables of the places of chunks, of which one has to be there; `Box2NotFound(StcoBox, Co64Box)`
/// where neither is.
fn required_places(
    stco: Option<StcoBox>,
    co64: Option<Co64Box>,
) -> Result<(Option<StcoBox>, Option<Co64Box>)>
    ensures { Gives (λ both. both) result (needed_places stco co64) }
{
    match stco {
        Some(places) => Ok((Some(places), co64)),
        None => match co64 {
            Some(places) => Ok((None, Some(places))),
            None => Err(Error::Box2NotFound(BoxType::StcoBox, BoxType::Co64Box)),
        },
    }
}

impl StblBox {
    /// A table of defaults, without ctts, stss, stco and co64: it is written, but not read again.
    pub fn default(alloc: Global) -> Result<Self>
        ensures { Gives (λ b. b) result (Ok default_stbl) }
    {
        let stts = SttsBox::default(alloc)?;
        let stsc = StscBox::default(alloc)?;
        let stsz = StszBox::default(alloc)?;
        Ok(StblBox {
            stsd: StsdBox::default(),
            stts,
            ctts: None,
            stss: None,
            stsc,
            stsz,
            stco: None,
            co64: None,
        })
    }

    /// How many samples the tables describe, as the sample sizes say it (ISO/IEC 14496-12, 8.7.3).
    #[inline(always)]
    pub fn sample_count(&self) -> u32
        ensures { result ≡ sample_count self.now }
    {
        self.stsz.sample_count
    }

    /// `stbl`.
    pub fn get_type(&self) -> BoxType
        ensures { result ≡ stbl }
    {
        BoxType::StblBox
    }

    /// The bytes of the box, its header included; they stop at 2^64 - 1.
    #[tactic(auto, using(crate::proofs::Sizes::sizes), unfolding(crate::specs::Stbl::stbl_payload))]
    pub fn get_size(&self) -> u64
        ensures { result ≡ size_around (stbl_payload self.now) }
    {
        HEADER_SIZE
            .saturating_add(self.stsd.box_size())
            .saturating_add(self.stts.box_size())
            .saturating_add(optional_size(&self.ctts))
            .saturating_add(optional_size(&self.stss))
            .saturating_add(self.stsc.box_size())
            .saturating_add(self.stsz.box_size())
            .saturating_add(optional_size(&self.stco))
            .saturating_add(optional_size(&self.co64))
    }
}

impl TryClone for StblBox {
    fn try_clone(&self) -> Result<Self> {
        let (ctts, stss, stco, co64) = four_copies(&self.ctts, &self.stss, &self.stco, &self.co64)?;
        let (stsd, stts, stsc, stsz) = four_copies(&self.stsd, &self.stts, &self.stsc, &self.stsz)?;
        Ok(StblBox {
            stsd,
            stts,
            ctts,
            stss,
            stsc,
            stsz,
            stco,
            co64,
        })
    }
}

/// What the children of a sample table give.
#[derive(Drop)]
struct StblParts {
    stsd: Option<StsdBox>,
    stts: Option<SttsBox>,
    ctts: Option<CttsBox>,
    stss: Option<StssBox>,
    stsc: Option<StscBox>,
    stsz: Option<StszBox>,
    stco: Option<StcoBox>,
    co64: Option<Co64Box>,
}

impl Gather for StblParts {
    ghost fault = { stbl_fault };

    ghost early = { stbl_child_early };

    ghost taken = { stbl_taken };

    ghost added = { stbl_added };

    ghost adds = { stbl_adds };

    #[tactic(auto, unfolding(crate::specs::Stbl::stbl_taken, mp4_codec::specs::Children::last_of, mp4_codec::specs::Children::all_of))]
    fn none(_alloc: Global) -> Self {
        StblParts {
            stsd: None,
            stts: None,
            ctts: None,
            stss: None,
            stsc: None,
            stsz: None,
            stco: None,
            co64: None,
        }
    }

    #[tactic(auto, unfolding(crate::specs::Stbl::stbl_added, crate::specs::Stbl::stbl_child_early))]
    fn add(&mut self, alloc: Global, child: &Child) -> Result<()> {
        keep_last(alloc, child, &mut self.stsd)?;
        keep_last(alloc, child, &mut self.stts)?;
        keep_last(alloc, child, &mut self.ctts)?;
        keep_last(alloc, child, &mut self.stss)?;
        keep_last(alloc, child, &mut self.stsc)?;
        keep_last(alloc, child, &mut self.stsz)?;
        keep_last(alloc, child, &mut self.stco)?;
        keep_last(alloc, child, &mut self.co64)?;
        Ok(())
    }
}

impl InRange for StblBox {
    ghost IsInRange = { IsInRangeStbl };

    fn in_range(&self) {
        self.stsd.in_range();
        self.stts.in_range();
        self.ctts.in_range();
        self.stss.in_range();
        self.stsc.in_range();
        self.stsz.in_range();
        self.stco.in_range();
        self.co64.in_range();
    }
}

impl Mp4Box for StblBox {
    ghost KIND = { stbl };

    const KIND: BoxType = BoxType::StblBox;

    ghost payload = { stbl_payload };

    fn box_size(&self) -> u64 {
        self.get_size()
    }
}

impl ReadBox for StblBox {
    ghost value = { stbl_of };

    ghost early = { stbl_early };

    #[tactic(auto, using(crate::proofs::Tables::stbl_of_steps), unfolding(crate::specs::Stbl::stbl_early))]
    fn read_payload(alloc: Global, payload: &[u8]) -> Result<Self> {
        let StblParts {
            stsd,
            stts,
            ctts,
            stss,
            stsc,
            stsz,
            stco,
            co64,
        } = gather_children(alloc, payload)?;
        let (stsd, stts, stsc, stsz) = required_four(stsd, stts, stsc, stsz)?;
        match required_places(stco, co64) {
            Ok((stco, co64)) => Ok(StblBox {
                stsd,
                stts,
                ctts,
                stss,
                stsc,
                stsz,
                stco,
                co64,
            }),
            Err(error) => {
                drop(stsd);
                drop((stts, ctts, stss, stsc, stsz));
                Err(error)
            }
        }
    }
}

impl WriteBox for StblBox {
    ghost refusal = { stbl_refusal };

    ghost IsWellFormed = { IsWellFormedStbl };

    ghost reads_back = { stbl_again };

    #[tactic(auto, unfolding(crate::specs::Stbl::stbl_refusal))]
    fn check(&self) -> Result<()> {
        self.stsd.check()?;
        self.stsz.check()?;
        Ok(())
    }

    #[tactic(auto, using(crate::proofs::Sizes::sizes), unfolding(crate::specs::Stbl::stbl_payload))]
    fn put_payload(&self, out: &mut Vec<u8>) -> Put {
        self.stsd.put_box(out)?;
        self.stts.put_box(out)?;
        put_optional(out, &self.ctts)?;
        put_optional(out, &self.stss)?;
        self.stsc.put_box(out)?;
        self.stsz.put_box(out)?;
        put_optional(out, &self.stco)?;
        put_optional(out, &self.co64)?;
        Ok(())
    }
}
