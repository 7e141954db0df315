//! The fragment of a movie.

ghost use Rattle.mp4_codec.specs.ExactTest.{by_law, by_test, field_tests};
ghost use Rattle.mp4_moof.specs.contracts.mfhd.MfhdBoxExactEq.TheImpl.Laws.{lawful as mfhd_laws};
ghost use Rattle.mp4_moof.specs.contracts.traf.TrafBoxExactEq.TheImpl.Laws.{lawful as traf_laws};
ghost use Rattle.std.specs.Prelude.{◌≡◌, Ok};
ghost use Rattle.mp4_codec.specs.declared.box_type.BoxType.TheVariants.{MoofBox as moof};
ghost use Rattle.mp4_codec.specs.Cause.{Gives};
ghost use Rattle.mp4_codec.specs.Boxes.{size_around};
ghost use Rattle.mp4_moof.specs.Moof.{moof_payload, default_moof, moof_fault, moof_child_early, moof_taken, moof_added};
ghost use Rattle.mp4_moof.specs.Moof.{moof_of, moof_early, moof_refusal, IsInRangeMoof, IsWellFormedMoof};
ghost use Rattle.mp4_moof.specs.MoofLaws.{moof_adds, moof_again};

use crate::MfhdBox;
use crate::traf::TrafBox;
use mp4_codec::{
    BoxType, Child, DebugItem, ExactEq, Gather, HEADER_SIZE, InRange, Items, Mp4Box, Put, ReadBox,
    Result, TryClone, WriteBox, all_size, check_all, gather_children, keep_each, keep_last,
    put_all, required,
};
use std::alloc::Global;

/// A movie fragment, `moof`: samples that are added after those of the movie (ISO/IEC 14496-12, 8.8.4).
///
/// Its children may come in any order, and types that it doesn't name are skipped. The first refused
/// child in file order is the answer, then `InvalidData` for a broken tail, then `BoxNotFound(MfhdBox)`.
#[derive(Debug, PartialEq, Eq, Drop)]
pub struct MoofBox {
    /// The number of the fragment: the last such child, which is required.
    pub mfhd: MfhdBox,
    /// The fragments of tracks, in file order.
    pub trafs: Items<TrafBox>,
}

impl ExactEq for MoofBox {
    ghost exact = { by_test (Prim.hlevel (field_tests, by_law mfhd_laws.exact, by_law traf_laws.exact)) };
}

impl DebugItem for MoofBox {}

impl MoofBox {
    /// A fragment of a default header, without tracks.
    pub fn default(alloc: Global) -> Result<Self>
        ensures { Gives (λ b. b) result (Ok default_moof) }
    {
        Ok(MoofBox {
            mfhd: MfhdBox::default(),
            trafs: Items::new(alloc),
        })
    }

    /// `moof`.
    pub fn get_type(&self) -> BoxType
        ensures { result ≡ moof }
    {
        BoxType::MoofBox
    }

    /// The bytes of the box, its header included; they stop at 2^64 - 1.
    #[tactic(auto, using(crate::proofs::Sizes::sizes), unfolding(crate::specs::Moof::moof_payload))]
    pub fn get_size(&self) -> u64
        ensures { result ≡ size_around (moof_payload self.now) }
    {
        HEADER_SIZE
            .saturating_add(self.mfhd.box_size())
            .saturating_add(all_size(self.trafs.as_slice()))
    }
}

impl TryClone for MoofBox {
    fn try_clone(&self) -> Result<Self> {
        Ok(MoofBox {
            mfhd: self.mfhd.try_clone()?,
            trafs: self.trafs.try_clone()?,
        })
    }
}

/// What the children of a movie fragment give.
#[derive(Drop)]
struct MoofParts {
    mfhd: Option<MfhdBox>,
    trafs: Items<TrafBox>,
}

impl Gather for MoofParts {
    ghost fault = { moof_fault };

    ghost early = { moof_child_early };

    ghost taken = { moof_taken };

    ghost added = { moof_added };

    ghost adds = { moof_adds };

    #[tactic(auto, unfolding(crate::specs::Moof::moof_taken, mp4_codec::specs::Children::last_of, mp4_codec::specs::Children::all_of))]
    fn none(alloc: Global) -> Self {
        MoofParts {
            mfhd: None,
            trafs: Items::new(alloc),
        }
    }

    #[tactic(auto, unfolding(crate::specs::Moof::moof_added, crate::specs::Moof::moof_child_early))]
    fn add(&mut self, alloc: Global, child: &Child) -> Result<()> {
        keep_last(alloc, child, &mut self.mfhd)?;
        keep_each(alloc, child, &mut self.trafs)?;
        Ok(())
    }
}

impl InRange for MoofBox {
    ghost IsInRange = { IsInRangeMoof };

    fn in_range(&self) {
        self.mfhd.in_range();
        self.trafs.in_range();
    }
}

impl Mp4Box for MoofBox {
    ghost KIND = { moof };

    const KIND: BoxType = BoxType::MoofBox;

    ghost payload = { moof_payload };

    fn box_size(&self) -> u64 {
        self.get_size()
    }
}

impl ReadBox for MoofBox {
    ghost value = { moof_of };

    ghost early = { moof_early };

    #[tactic(auto, unfolding(crate::specs::Moof::moof_of, crate::specs::Moof::moof_early))]
    fn read_payload(alloc: Global, payload: &[u8]) -> Result<Self> {
        let MoofParts { mfhd, trafs } = gather_children(alloc, payload)?;
        let mfhd = required(mfhd)?;
        Ok(MoofBox { mfhd, trafs })
    }
}

impl WriteBox for MoofBox {
    ghost refusal = { moof_refusal };

    ghost IsWellFormed = { IsWellFormedMoof };

    ghost reads_back = { moof_again };

    #[tactic(auto, unfolding(crate::specs::Moof::moof_refusal))]
    fn check(&self) -> Result<()> {
        check_all(self.trafs.as_slice())?;
        Ok(())
    }

    #[tactic(auto, using(crate::proofs::Sizes::sizes), unfolding(crate::specs::Moof::moof_payload))]
    fn put_payload(&self, out: &mut Vec<u8>) -> Put {
        self.mfhd.put_box(out)?;
        put_all(out, self.trafs.as_slice())?;
        Ok(())
    }
}
