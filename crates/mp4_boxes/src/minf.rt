//! The information of a track's media.

ghost use Rattle.mp4_codec.specs.ExactTest.{by_law, by_test, field_tests};
ghost use Rattle.mp4_leaf.specs.contracts.vmhd.VmhdBoxExactEq.TheImpl.Laws.{lawful as vmhd_laws};
ghost use Rattle.mp4_leaf.specs.contracts.smhd.SmhdBoxExactEq.TheImpl.Laws.{lawful as smhd_laws};
ghost use Rattle.mp4_leaf.specs.contracts.dinf.DinfBoxExactEq.TheImpl.Laws.{lawful as dinf_laws};
ghost use Rattle.mp4_boxes.specs.contracts.stbl.StblBoxExactEq.TheImpl.Laws.{lawful as stbl_laws};
ghost use Rattle.std.specs.Prelude.{◌≡◌, Ok};
ghost use Rattle.mp4_codec.specs.declared.box_type.BoxType.TheVariants.{MinfBox as minf};
ghost use Rattle.mp4_codec.specs.Cause.{Gives};
ghost use Rattle.mp4_codec.specs.Boxes.{size_around};
ghost use Rattle.mp4_boxes.specs.Minf.{minf_payload, default_minf, minf_fault, minf_child_early, minf_taken};
ghost use Rattle.mp4_boxes.specs.Minf.{minf_added, minf_of, minf_early, minf_refusal, IsInRangeMinf, IsWellFormedMinf};
ghost use Rattle.mp4_boxes.specs.MinfLaws.{minf_adds, minf_again};

use crate::parts::required_two;
use crate::stbl::StblBox;
use mp4_codec::{
    BoxType, Child, ExactEq, Gather, HEADER_SIZE, InRange, Mp4Box, Put, ReadBox, Result, TryClone,
    WriteBox, four_copies, gather_children, keep_last, optional_size, put_optional,
};
use mp4_leaf::{DinfBox, SmhdBox, VmhdBox};
use std::alloc::Global;

/// The information of a track's media, `minf` (ISO/IEC 14496-12, 8.4.4).
///
/// Its children may come in any order, and types that it doesn't name are skipped. Of a type the last
/// child counts. The first refused child in file order is the answer, then `InvalidData` for a broken
/// tail, then `BoxNotFound` for the first that is missing of dinf and stbl.
#[derive(Debug, PartialEq, Eq, Drop)]
pub struct MinfBox {
    /// The header of video.
    pub vmhd: Option<VmhdBox>,
    /// The header of sound.
    pub smhd: Option<SmhdBox>,
    /// Where the media lie, which is required.
    pub dinf: DinfBox,
    /// The samples, which are required.
    pub stbl: StblBox,
}

impl ExactEq for MinfBox {
    ghost exact = { by_test (Prim.hlevel (
      field_tests,
      by_law vmhd_laws.exact,
      by_law smhd_laws.exact,
      by_law dinf_laws.exact,
      by_law stbl_laws.exact,
    )) };
}

impl MinfBox {
    /// The defaults of dinf and stbl, without vmhd and smhd: it is written, but not read again.
    pub fn default(alloc: Global) -> Result<Self>
        ensures { Gives (λ b. b) result (Ok default_minf) }
    {
        Ok(MinfBox {
            vmhd: None,
            smhd: None,
            dinf: DinfBox::default(alloc)?,
            stbl: StblBox::default(alloc)?,
        })
    }

    /// `minf`.
    pub fn get_type(&self) -> BoxType
        ensures { result ≡ minf }
    {
        BoxType::MinfBox
    }

    /// The bytes of the box, its header included; they stop at 2^64 - 1.
    #[tactic(auto, using(crate::proofs::Sizes::sizes), unfolding(crate::specs::Minf::minf_payload))]
    pub fn get_size(&self) -> u64
        ensures { result ≡ size_around (minf_payload self.now) }
    {
        HEADER_SIZE
            .saturating_add(optional_size(&self.vmhd))
            .saturating_add(optional_size(&self.smhd))
            .saturating_add(self.dinf.box_size())
            .saturating_add(self.stbl.box_size())
    }
}

impl TryClone for MinfBox {
    fn try_clone(&self) -> Result<Self> {
        let (vmhd, smhd, dinf, stbl) = four_copies(&self.vmhd, &self.smhd, &self.dinf, &self.stbl)?;
        Ok(MinfBox {
            vmhd,
            smhd,
            dinf,
            stbl,
        })
    }
}

/// What the children of media information give.
#[derive(Drop)]
struct MinfParts {
    vmhd: Option<VmhdBox>,
    smhd: Option<SmhdBox>,
    dinf: Option<DinfBox>,
    stbl: Option<StblBox>,
}

impl Gather for MinfParts {
    ghost fault = { minf_fault };

    ghost early = { minf_child_early };

    ghost taken = { minf_taken };

    ghost added = { minf_added };

    ghost adds = { minf_adds };

    #[tactic(auto, unfolding(crate::specs::Minf::minf_taken, mp4_codec::specs::Children::last_of, mp4_codec::specs::Children::all_of))]
    fn none(_alloc: Global) -> Self {
        MinfParts {
            vmhd: None,
            smhd: None,
            dinf: None,
            stbl: None,
        }
    }

    #[tactic(auto, unfolding(crate::specs::Minf::minf_added, crate::specs::Minf::minf_child_early))]
    fn add(&mut self, alloc: Global, child: &Child) -> Result<()> {
        keep_last(alloc, child, &mut self.vmhd)?;
        keep_last(alloc, child, &mut self.smhd)?;
        keep_last(alloc, child, &mut self.dinf)?;
        keep_last(alloc, child, &mut self.stbl)?;
        Ok(())
    }
}

impl InRange for MinfBox {
    ghost IsInRange = { IsInRangeMinf };

    fn in_range(&self) {
        self.vmhd.in_range();
        self.smhd.in_range();
        self.dinf.in_range();
        self.stbl.in_range();
    }
}

impl Mp4Box for MinfBox {
    ghost KIND = { minf };

    const KIND: BoxType = BoxType::MinfBox;

    ghost payload = { minf_payload };

    fn box_size(&self) -> u64 {
        self.get_size()
    }
}

impl ReadBox for MinfBox {
    ghost value = { minf_of };

    ghost early = { minf_early };

    #[tactic(auto, using(crate::proofs::Tables::minf_of_steps), unfolding(crate::specs::Minf::minf_early))]
    fn read_payload(alloc: Global, payload: &[u8]) -> Result<Self> {
        let MinfParts {
            vmhd,
            smhd,
            dinf,
            stbl,
        } = gather_children(alloc, payload)?;
        let (dinf, stbl) = required_two(dinf, stbl)?;
        Ok(MinfBox {
            vmhd,
            smhd,
            dinf,
            stbl,
        })
    }
}

impl WriteBox for MinfBox {
    ghost refusal = { minf_refusal };

    ghost IsWellFormed = { IsWellFormedMinf };

    ghost reads_back = { minf_again };

    #[tactic(auto, unfolding(crate::specs::Minf::minf_refusal))]
    fn check(&self) -> Result<()> {
        self.stbl.check()?;
        Ok(())
    }

    #[tactic(auto, using(crate::proofs::Sizes::sizes), unfolding(crate::specs::Minf::minf_payload))]
    fn put_payload(&self, out: &mut Vec<u8>) -> Put {
        put_optional(out, &self.vmhd)?;
        put_optional(out, &self.smhd)?;
        self.dinf.put_box(out)?;
        self.stbl.put_box(out)?;
        Ok(())
    }
}
