//! The media of a track.

ghost use Rattle.mp4_codec.specs.ExactTest.{by_law, by_test, field_tests};
ghost use Rattle.mp4_leaf.specs.contracts.mdhd.MdhdBoxExactEq.TheImpl.Laws.{lawful as mdhd_laws};
ghost use Rattle.mp4_leaf.specs.contracts.hdlr.HdlrBoxExactEq.TheImpl.Laws.{lawful as hdlr_laws};
ghost use Rattle.mp4_boxes.specs.contracts.minf.MinfBoxExactEq.TheImpl.Laws.{lawful as minf_laws};
ghost use Rattle.std.specs.Prelude.{◌≡◌, Ok};
ghost use Rattle.mp4_codec.specs.declared.box_type.BoxType.TheVariants.{MdiaBox as mdia};
ghost use Rattle.mp4_codec.specs.Cause.{Answers};
ghost use Rattle.mp4_codec.specs.Boxes.{size_around};
ghost use Rattle.mp4_boxes.specs.Mdia.{mdia_payload, default_mdia, mdia_fault, mdia_child_early, mdia_taken};
ghost use Rattle.mp4_boxes.specs.Mdia.{mdia_added, mdia_of, mdia_early, mdia_refusal, IsInRangeMdia, IsWellFormedMdia};
ghost use Rattle.mp4_boxes.specs.MdiaLaws.{mdia_adds, mdia_again};

use crate::minf::MinfBox;
use crate::parts::required_three;
use mp4_codec::{
    BoxType, Child, ExactEq, Gather, HEADER_SIZE, InRange, Mp4Box, Put, ReadBox, Result, TryClone,
    WriteBox, gather_children, keep_last,
};
use mp4_leaf::{HdlrBox, MdhdBox};
use std::alloc::Global;

/// The media of a track, `mdia` (ISO/IEC 14496-12, 8.4.1).
///
/// Its children may come in any order, and types that it doesn't name are skipped. Of a type the last
/// child counts. The first refused child in file order is the answer, then `InvalidData` for a broken
/// tail, then `BoxNotFound` for the first that is missing of mdhd, hdlr, minf.
#[derive(Debug, PartialEq, Eq, Drop)]
pub struct MdiaBox {
    /// The header, with the timescale of the samples' times, which is required.
    pub mdhd: MdhdBox,
    /// Of which kind the media are, which is required.
    pub hdlr: HdlrBox,
    /// What the media are made of, which is required.
    pub minf: MinfBox,
}

impl ExactEq for MdiaBox {
    ghost exact = { by_test (Prim.hlevel
        (field_tests, by_law mdhd_laws.exact, by_law hdlr_laws.exact, by_law minf_laws.exact)) };
}

impl MdiaBox {
    /// The defaults of its children: it is written, but not read again.
    pub fn default(alloc: Global) -> Result<Self>
        ensures { Answers (λ b. b) result (Ok default_mdia) }
    {
        Ok(MdiaBox {
            mdhd: MdhdBox::default(alloc)?,
            hdlr: HdlrBox::default(alloc)?,
            minf: MinfBox::default(alloc)?,
        })
    }

    /// `mdia`.
    pub fn get_type(&self) -> BoxType
        ensures { result ≡ mdia }
    {
        BoxType::MdiaBox
    }

    /// The bytes of the box, its header included; they stop at 2^64 - 1.
    #[tactic(auto, using(crate::proofs::Sizes::sizes), unfolding(crate::specs::Mdia::mdia_payload))]
    pub fn get_size(&self) -> u64
        ensures { result ≡ size_around (mdia_payload self.now) }
    {
        HEADER_SIZE
            .saturating_add(self.mdhd.box_size())
            .saturating_add(self.hdlr.box_size())
            .saturating_add(self.minf.box_size())
    }
}

impl TryClone for MdiaBox {
    fn try_clone(&self) -> Result<Self> {
        Ok(MdiaBox {
            mdhd: self.mdhd.try_clone()?,
            hdlr: self.hdlr.try_clone()?,
            minf: self.minf.try_clone()?,
        })
    }
}

/// What the children of media give.
#[derive(Drop)]
struct MdiaParts {
    mdhd: Option<MdhdBox>,
    hdlr: Option<HdlrBox>,
    minf: Option<MinfBox>,
}

impl Gather for MdiaParts {
    ghost fault = { mdia_fault };

    ghost early = { mdia_child_early };

    ghost taken = { mdia_taken };

    ghost added = { mdia_added };

    ghost adds = { mdia_adds };

    #[tactic(auto, unfolding(crate::specs::Mdia::mdia_taken, mp4_codec::specs::Children::last_of, mp4_codec::specs::Children::all_of))]
    fn none(_alloc: Global) -> Self {
        MdiaParts {
            mdhd: None,
            hdlr: None,
            minf: None,
        }
    }

    #[tactic(auto, unfolding(crate::specs::Mdia::mdia_added, crate::specs::Mdia::mdia_child_early))]
    fn add(&mut self, alloc: Global, child: &Child) -> Result<()> {
        keep_last(alloc, child, &mut self.mdhd)?;
        keep_last(alloc, child, &mut self.hdlr)?;
        keep_last(alloc, child, &mut self.minf)?;
        Ok(())
    }
}

impl InRange for MdiaBox {
    ghost IsInRange = { IsInRangeMdia };

    fn in_range(&self) {
        self.mdhd.in_range();
        self.hdlr.in_range();
        self.minf.in_range();
    }
}

impl Mp4Box for MdiaBox {
    ghost KIND = { mdia };

    const KIND: BoxType = BoxType::MdiaBox;

    ghost payload = { mdia_payload };

    fn box_size(&self) -> u64 {
        self.get_size()
    }
}

impl ReadBox for MdiaBox {
    ghost value = { mdia_of };

    ghost early = { mdia_early };

    #[tactic(auto, using(crate::proofs::Media::mdia_of_steps), unfolding(crate::specs::Mdia::mdia_early))]
    fn read_payload(alloc: Global, payload: &[u8]) -> Result<Self> {
        let MdiaParts { mdhd, hdlr, minf } = gather_children(alloc, payload)?;
        let (mdhd, hdlr, minf) = required_three(mdhd, hdlr, minf)?;
        Ok(MdiaBox { mdhd, hdlr, minf })
    }
}

impl WriteBox for MdiaBox {
    ghost refusal = { mdia_refusal };

    ghost IsWellFormed = { IsWellFormedMdia };

    ghost reads_back = { mdia_again };

    #[tactic(auto, unfolding(crate::specs::Mdia::mdia_refusal))]
    fn check(&self) -> Result<()> {
        self.mdhd.check()?;
        self.minf.check()?;
        Ok(())
    }

    #[tactic(auto, using(crate::proofs::Sizes::sizes), unfolding(crate::specs::Mdia::mdia_payload))]
    fn put_payload(&self, out: &mut Vec<u8>) -> Put {
        self.mdhd.put_box(out)?;
        self.hdlr.put_box(out)?;
        self.minf.put_box(out)?;
        Ok(())
    }
}
