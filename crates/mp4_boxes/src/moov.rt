//! The movie.

ghost use Rattle.mp4_codec.specs.ExactTest.{by_law, by_test, field_tests};
ghost use Rattle.mp4_leaf.specs.contracts.mvhd.MvhdBoxExactEq.TheImpl.Laws.{lawful as mvhd_laws};
ghost use Rattle.mp4_boxes.specs.contracts.trak.TrakBoxExactEq.TheImpl.Laws.{lawful as trak_laws};
ghost use Rattle.mp4_moof.specs.contracts.mvex.MvexBoxExactEq.TheImpl.Laws.{lawful as mvex_laws};
ghost use Rattle.mp4_meta.specs.contracts.meta.MetaBoxExactEq.TheImpl.Laws.{lawful as meta_laws};
ghost use Rattle.mp4_meta.specs.contracts.udta.UdtaBoxExactEq.TheImpl.Laws.{lawful as udta_laws};
ghost use Rattle.std.specs.Prelude.{◌≡◌, Ok};
ghost use Rattle.mp4_codec.specs.declared.box_type.BoxType.TheVariants.{MoovBox as moov};
ghost use Rattle.mp4_codec.specs.Cause.{Gives};
ghost use Rattle.mp4_codec.specs.Boxes.{size_around};
ghost use Rattle.mp4_boxes.specs.Moov.{moov_payload, default_moov, moov_fault, moov_child_early, moov_taken};
ghost use Rattle.mp4_boxes.specs.Moov.{moov_added, moov_of, moov_early, moov_refusal, IsInRangeMoov, IsWellFormedMoov};
ghost use Rattle.mp4_boxes.specs.MoovLaws.{moov_adds, moov_again};

use crate::trak::TrakBox;
use mp4_codec::{
    BoxType, Child, ExactEq, Gather, HEADER_SIZE, InRange, Items, Mp4Box, Put, ReadBox, Result,
    TryClone, WriteBox, all_size, check_all, check_optional, four_copies, gather_children,
    keep_each, keep_last, optional_size, put_all, put_optional, required,
};
use mp4_leaf::MvhdBox;
use mp4_meta::{MetaBox, UdtaBox};
use mp4_moof::MvexBox;
use std::alloc::Global;

/// The movie, `moov`: what a file holds beside its samples (ISO/IEC 14496-12, 8.2.1).
///
/// Its children may come in any order, and types that it doesn't name are skipped. Of a type the last
/// child counts. The first refused child in file order is the answer, then `InvalidData` for a broken
/// tail, then `BoxNotFound(MvhdBox)`.
#[derive(Debug, PartialEq, Eq, Drop)]
pub struct MoovBox {
    /// The movie header, which is required.
    pub mvhd: MvhdBox,
    /// The tracks, in file order.
    pub traks: Items<TrakBox>,
    /// What is said of fragments that may follow.
    pub mvex: Option<MvexBox>,
    /// The metadata of the movie.
    pub meta: Option<MetaBox>,
    /// The user data, where a title and the like are.
    pub udta: Option<UdtaBox>,
}

impl ExactEq for MoovBox {
    ghost exact = { by_test (Prim.hlevel (
      field_tests,
      by_law mvhd_laws.exact,
      by_law trak_laws.exact,
      by_law mvex_laws.exact,
      by_law meta_laws.exact,
      by_law udta_laws.exact,
    )) };
}

impl MoovBox {
    /// A movie of a default header, without tracks.
    pub fn default(alloc: Global) -> Result<Self>
        ensures { Gives (λ b. b) result (Ok default_moov) }
    {
        Ok(MoovBox {
            mvhd: MvhdBox::default(),
            traks: Items::new(alloc),
            mvex: None,
            meta: None,
            udta: None,
        })
    }

    /// `moov`.
    pub fn get_type(&self) -> BoxType
        ensures { result ≡ moov }
    {
        BoxType::MoovBox
    }

    /// The bytes of the box, its header included; they stop at 2^64 - 1.
    #[tactic(auto, using(crate::proofs::Sizes::sizes), unfolding(crate::specs::Moov::moov_payload))]
    pub fn get_size(&self) -> u64
        ensures { result ≡ size_around (moov_payload self.now) }
    {
        HEADER_SIZE
            .saturating_add(self.mvhd.box_size())
            .saturating_add(all_size(self.traks.as_slice()))
            .saturating_add(optional_size(&self.mvex))
            .saturating_add(optional_size(&self.meta))
            .saturating_add(optional_size(&self.udta))
    }
}

impl TryClone for MoovBox {
    fn try_clone(&self) -> Result<Self> {
        let (traks, mvex, meta, udta) = four_copies(
            &self.traks,
            &self.mvex,
            &self.meta,
            &self.udta,
        )?;
        Ok(MoovBox {
            mvhd: self.mvhd,
            traks,
            mvex,
            meta,
            udta,
        })
    }
}

/// What the children of a movie give.
#[derive(Drop)]
struct MoovParts {
    mvhd: Option<MvhdBox>,
    traks: Items<TrakBox>,
    mvex: Option<MvexBox>,
    meta: Option<MetaBox>,
    udta: Option<UdtaBox>,
}

impl Gather for MoovParts {
    ghost fault = { moov_fault };

    ghost early = { moov_child_early };

    ghost taken = { moov_taken };

    ghost added = { moov_added };

    ghost adds = { moov_adds };

    #[tactic(auto, unfolding(crate::specs::Moov::moov_taken, mp4_codec::specs::Children::last_of, mp4_codec::specs::Children::all_of))]
    fn none(alloc: Global) -> Self {
        MoovParts {
            mvhd: None,
            traks: Items::new(alloc),
            mvex: None,
            meta: None,
            udta: None,
        }
    }

    #[tactic(auto, unfolding(crate::specs::Moov::moov_added, crate::specs::Moov::moov_child_early))]
    fn add(&mut self, alloc: Global, child: &Child) -> Result<()> {
        keep_last(alloc, child, &mut self.mvhd)?;
        keep_each(alloc, child, &mut self.traks)?;
        keep_last(alloc, child, &mut self.mvex)?;
        keep_last(alloc, child, &mut self.meta)?;
        keep_last(alloc, child, &mut self.udta)?;
        Ok(())
    }
}

impl InRange for MoovBox {
    ghost IsInRange = { IsInRangeMoov };

    fn in_range(&self) {
        self.mvhd.in_range();
        self.traks.in_range();
        self.mvex.in_range();
        self.meta.in_range();
        self.udta.in_range();
    }
}

impl Mp4Box for MoovBox {
    ghost KIND = { moov };

    const KIND: BoxType = BoxType::MoovBox;

    ghost payload = { moov_payload };

    fn box_size(&self) -> u64 {
        self.get_size()
    }
}

impl ReadBox for MoovBox {
    ghost value = { moov_of };

    ghost early = { moov_early };

    #[tactic(auto, unfolding(crate::specs::Moov::moov_of, crate::specs::Moov::moov_early))]
    fn read_payload(alloc: Global, payload: &[u8]) -> Result<Self> {
        let MoovParts {
            mvhd,
            traks,
            mvex,
            meta,
            udta,
        } = gather_children(alloc, payload)?;
        let mvhd = required(mvhd)?;
        Ok(MoovBox {
            mvhd,
            traks,
            mvex,
            meta,
            udta,
        })
    }
}

impl WriteBox for MoovBox {
    ghost refusal = { moov_refusal };

    ghost IsWellFormed = { IsWellFormedMoov };

    ghost reads_back = { moov_again };

    #[tactic(auto, unfolding(crate::specs::Moov::moov_refusal))]
    fn check(&self) -> Result<()> {
        self.mvhd.check()?;
        check_all(self.traks.as_slice())?;
        check_optional(&self.mvex)?;
        Ok(())
    }

    #[tactic(auto, using(crate::proofs::Sizes::sizes), unfolding(crate::specs::Moov::moov_payload))]
    fn put_payload(&self, out: &mut Vec<u8>) -> Put {
        self.mvhd.put_box(out)?;
        put_all(out, self.traks.as_slice())?;
        put_optional(out, &self.mvex)?;
        put_optional(out, &self.meta)?;
        put_optional(out, &self.udta)?;
        Ok(())
    }
}
