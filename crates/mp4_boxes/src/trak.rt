//! A track of a movie.

ghost use Rattle.mp4_codec.specs.ExactTest.{by_law, by_test, field_tests};
ghost use Rattle.mp4_leaf.specs.contracts.tkhd.TkhdBoxExactEq.TheImpl.Laws.{lawful as tkhd_laws};
ghost use Rattle.mp4_boxes.specs.contracts.edts.EdtsBoxExactEq.TheImpl.Laws.{lawful as edts_laws};
ghost use Rattle.mp4_meta.specs.contracts.meta.MetaBoxExactEq.TheImpl.Laws.{lawful as meta_laws};
ghost use Rattle.mp4_boxes.specs.contracts.mdia.MdiaBoxExactEq.TheImpl.Laws.{lawful as mdia_laws};
ghost use Rattle.std.specs.Prelude.{◌≡◌, Ok};
ghost use Rattle.mp4_codec.specs.declared.box_type.BoxType.TheVariants.{TrakBox as trak};
ghost use Rattle.mp4_codec.specs.Cause.{Answers};
ghost use Rattle.mp4_codec.specs.Boxes.{size_around};
ghost use Rattle.mp4_boxes.specs.Trak.{trak_payload, default_trak, trak_fault, trak_child_early, trak_taken};
ghost use Rattle.mp4_boxes.specs.Trak.{trak_added, trak_of, trak_early, trak_refusal, IsInRangeTrak, IsWellFormedTrak};
ghost use Rattle.mp4_boxes.specs.TrakLaws.{trak_adds, trak_again};

use crate::edts::EdtsBox;
use crate::mdia::MdiaBox;
use crate::parts::required_two;
use mp4_codec::{
    BoxType, Child, DebugItem, ExactEq, Gather, HEADER_SIZE, InRange, Mp4Box, Put, ReadBox, Result,
    TryClone, WriteBox, check_optional, four_copies, gather_children, keep_last, optional_size,
    put_optional,
};
use mp4_leaf::TkhdBox;
use mp4_meta::MetaBox;
use std::alloc::Global;

/// A track, `trak` (ISO/IEC 14496-12, 8.3.1).
///
/// Its children may come in any order, and types that it doesn't name are skipped. Of a type the last
/// child counts. The first refused child in file order is the answer, then `InvalidData` for a broken
/// tail, then `BoxNotFound` of the first missing box, in the order `tkhd`, `mdia`.
#[derive(Debug, PartialEq, Eq, Drop)]
pub struct TrakBox {
    /// The track header, which is required.
    pub tkhd: TkhdBox,
    /// The edits. Times of samples don't follow them.
    pub edts: Option<EdtsBox>,
    /// The metadata of the track.
    pub meta: Option<MetaBox>,
    /// The media: its kind, and where its samples lie; it is required.
    pub mdia: MdiaBox,
}

impl ExactEq for TrakBox {
    ghost exact = { by_test (Prim.hlevel (
      field_tests,
      by_law tkhd_laws.exact,
      by_law edts_laws.exact,
      by_law meta_laws.exact,
      by_law mdia_laws.exact,
    )) };
}

impl DebugItem for TrakBox {}

impl TrakBox {
    /// A default header and default media, without edits and metadata.
    pub fn default(alloc: Global) -> Result<Self>
        ensures { Answers (λ b. b) result (Ok default_trak) }
    {
        Ok(TrakBox {
            tkhd: TkhdBox::default(),
            edts: None,
            meta: None,
            mdia: MdiaBox::default(alloc)?,
        })
    }

    /// `trak`.
    pub fn get_type(&self) -> BoxType
        ensures { result ≡ trak }
    {
        BoxType::TrakBox
    }

    /// The bytes of the box, its header included; they stop at 2^64 - 1.
    #[tactic(auto, using(crate::proofs::Sizes::sizes), unfolding(crate::specs::Trak::trak_payload))]
    pub fn get_size(&self) -> u64
        ensures { result ≡ size_around (trak_payload self.now) }
    {
        HEADER_SIZE
            .saturating_add(self.tkhd.box_size())
            .saturating_add(optional_size(&self.edts))
            .saturating_add(optional_size(&self.meta))
            .saturating_add(self.mdia.box_size())
    }
}

impl TryClone for TrakBox {
    fn try_clone(&self) -> Result<Self> {
        let (tkhd, edts, meta, mdia) = four_copies(&self.tkhd, &self.edts, &self.meta, &self.mdia)?;
        Ok(TrakBox {
            tkhd,
            edts,
            meta,
            mdia,
        })
    }
}

/// What the children of a track give.
#[derive(Drop)]
struct TrakParts {
    tkhd: Option<TkhdBox>,
    edts: Option<EdtsBox>,
    meta: Option<MetaBox>,
    mdia: Option<MdiaBox>,
}

impl Gather for TrakParts {
    ghost fault = { trak_fault };

    ghost early = { trak_child_early };

    ghost taken = { trak_taken };

    ghost added = { trak_added };

    ghost adds = { trak_adds };

    #[tactic(auto, unfolding(crate::specs::Trak::trak_taken, mp4_codec::specs::Children::last_of, mp4_codec::specs::Children::all_of))]
    fn none(_alloc: Global) -> Self {
        TrakParts {
            tkhd: None,
            edts: None,
            meta: None,
            mdia: None,
        }
    }

    #[tactic(auto, unfolding(crate::specs::Trak::trak_added, crate::specs::Trak::trak_child_early))]
    fn add(&mut self, alloc: Global, child: &Child) -> Result<()> {
        keep_last(alloc, child, &mut self.tkhd)?;
        keep_last(alloc, child, &mut self.edts)?;
        keep_last(alloc, child, &mut self.meta)?;
        keep_last(alloc, child, &mut self.mdia)?;
        Ok(())
    }
}

impl InRange for TrakBox {
    ghost IsInRange = { IsInRangeTrak };

    fn in_range(&self) {
        self.tkhd.in_range();
        self.edts.in_range();
        self.meta.in_range();
        self.mdia.in_range();
    }
}

impl Mp4Box for TrakBox {
    ghost KIND = { trak };

    const KIND: BoxType = BoxType::TrakBox;

    ghost payload = { trak_payload };

    fn box_size(&self) -> u64 {
        self.get_size()
    }
}

impl ReadBox for TrakBox {
    ghost value = { trak_of };

    ghost early = { trak_early };

    #[tactic(auto, using(crate::proofs::Media::trak_of_steps), unfolding(crate::specs::Trak::trak_early))]
    fn read_payload(alloc: Global, payload: &[u8]) -> Result<Self> {
        let TrakParts {
            tkhd,
            edts,
            meta,
            mdia,
        } = gather_children(alloc, payload)?;
        let (tkhd, mdia) = required_two(tkhd, mdia)?;
        Ok(TrakBox {
            tkhd,
            edts,
            meta,
            mdia,
        })
    }
}

impl WriteBox for TrakBox {
    ghost refusal = { trak_refusal };

    ghost IsWellFormed = { IsWellFormedTrak };

    ghost reads_back = { trak_again };

    #[tactic(auto, unfolding(crate::specs::Trak::trak_refusal))]
    fn check(&self) -> Result<()> {
        self.tkhd.check()?;
        check_optional(&self.edts)?;
        self.mdia.check()?;
        Ok(())
    }

    #[tactic(auto, using(crate::proofs::Sizes::sizes), unfolding(crate::specs::Trak::trak_payload))]
    fn put_payload(&self, out: &mut Vec<u8>) -> Put {
        self.tkhd.put_box(out)?;
        put_optional(out, &self.edts)?;
        put_optional(out, &self.meta)?;
        self.mdia.put_box(out)?;
        Ok(())
    }
}
