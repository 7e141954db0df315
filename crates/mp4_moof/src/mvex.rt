//! What a movie says of its fragments.

ghost use Rattle.mp4_codec.specs.ExactTest.{by_law, by_test, field_tests};
ghost use Rattle.mp4_moof.specs.contracts.mehd.MehdBoxExactEq.TheImpl.Laws.{lawful as mehd_laws};
ghost use Rattle.mp4_moof.specs.contracts.trex.TrexBoxExactEq.TheImpl.Laws.{lawful as trex_laws};
ghost use Rattle.std.specs.Prelude.{◌≡◌, Ok};
ghost use Rattle.mp4_codec.specs.declared.box_type.BoxType.TheVariants.{MvexBox as mvex};
ghost use Rattle.mp4_codec.specs.Cause.{Gives};
ghost use Rattle.mp4_codec.specs.Boxes.{size_around};
ghost use Rattle.mp4_moof.specs.Mvex.{mvex_payload, default_mvex, mvex_fault, mvex_child_early, mvex_taken, mvex_added};
ghost use Rattle.mp4_moof.specs.Mvex.{mvex_of, mvex_early, mvex_refusal, IsInRangeMvex, IsWellFormedMvex};
ghost use Rattle.mp4_moof.specs.MvexLaws.{mvex_adds, mvex_again};

use crate::{MehdBox, TrexBox};
use mp4_codec::{
    BoxType, Child, ExactEq, Gather, HEADER_SIZE, InRange, Items, Mp4Box, Put, ReadBox, Result,
    TryClone, WriteBox, all_size, check_optional, gather_children, keep_each, keep_last,
    optional_size, put_all, put_optional, some_required,
};
use std::alloc::Global;

/// The movie extends box, `mvex`: it says that fragments may follow (ISO/IEC 14496-12, 8.8.1).
///
/// Its children may come in any order, and types that it doesn't name are skipped. The first refused
/// child in file order is the answer, then `InvalidData` for a broken tail, then `BoxNotFound(TrexBox)`
/// where no track has defaults. A value without them is written, but not read again.
#[derive(Debug, PartialEq, Eq, Drop)]
pub struct MvexBox {
    /// How long the movie is with its fragments: the last such child.
    pub mehd: Option<MehdBox>,
    /// The defaults of each track's fragments, in file order.
    pub trexs: Items<TrexBox>,
}

impl ExactEq for MvexBox {
    ghost exact = { by_test (Prim.hlevel (field_tests, by_law mehd_laws.exact, by_law trex_laws.exact)) };
}

impl MvexBox {
    /// No header and no defaults: it can be written, but not read again.
    pub fn default(alloc: Global) -> Result<Self>
        ensures { Gives (λ b. b) result (Ok default_mvex) }
    {
        Ok(MvexBox {
            mehd: None,
            trexs: Items::new(alloc),
        })
    }

    /// `mvex`.
    pub fn get_type(&self) -> BoxType
        ensures { result ≡ mvex }
    {
        BoxType::MvexBox
    }

    /// The bytes of the box, its header included; they stop at 2^64 - 1.
    #[tactic(auto, using(crate::proofs::Sizes::sizes), unfolding(crate::specs::Mvex::mvex_payload))]
    pub fn get_size(&self) -> u64
        ensures { result ≡ size_around (mvex_payload self.now) }
    {
        HEADER_SIZE
            .saturating_add(optional_size(&self.mehd))
            .saturating_add(all_size(self.trexs.as_slice()))
    }
}

impl TryClone for MvexBox {
    fn try_clone(&self) -> Result<Self> {
        Ok(MvexBox {
            mehd: self.mehd.try_clone()?,
            trexs: self.trexs.try_clone()?,
        })
    }
}

/// What the children of a movie extends box give.
#[derive(Drop)]
struct MvexParts {
    mehd: Option<MehdBox>,
    trexs: Items<TrexBox>,
}

impl Gather for MvexParts {
    ghost fault = { mvex_fault };

    ghost early = { mvex_child_early };

    ghost taken = { mvex_taken };

    ghost added = { mvex_added };

    ghost adds = { mvex_adds };

    #[tactic(auto, unfolding(crate::specs::Mvex::mvex_taken, mp4_codec::specs::Children::last_of, mp4_codec::specs::Children::all_of))]
    fn none(alloc: Global) -> Self {
        MvexParts {
            mehd: None,
            trexs: Items::new(alloc),
        }
    }

    #[tactic(auto, unfolding(crate::specs::Mvex::mvex_added, crate::specs::Mvex::mvex_child_early))]
    fn add(&mut self, alloc: Global, child: &Child) -> Result<()> {
        keep_last(alloc, child, &mut self.mehd)?;
        keep_each(alloc, child, &mut self.trexs)?;
        Ok(())
    }
}

impl InRange for MvexBox {
    ghost IsInRange = { IsInRangeMvex };

    fn in_range(&self) {
        self.mehd.in_range();
        self.trexs.in_range();
    }
}

impl Mp4Box for MvexBox {
    ghost KIND = { mvex };

    const KIND: BoxType = BoxType::MvexBox;

    ghost payload = { mvex_payload };

    fn box_size(&self) -> u64 {
        self.get_size()
    }
}

impl ReadBox for MvexBox {
    ghost value = { mvex_of };

    ghost early = { mvex_early };

    #[tactic(auto, unfolding(crate::specs::Mvex::mvex_of, crate::specs::Mvex::mvex_early))]
    fn read_payload(alloc: Global, payload: &[u8]) -> Result<Self> {
        let MvexParts { mehd, trexs } = gather_children(alloc, payload)?;
        let trexs = some_required(trexs)?;
        Ok(MvexBox { mehd, trexs })
    }
}

impl WriteBox for MvexBox {
    ghost refusal = { mvex_refusal };

    ghost IsWellFormed = { IsWellFormedMvex };

    ghost reads_back = { mvex_again };

    #[tactic(auto, unfolding(crate::specs::Mvex::mvex_refusal))]
    fn check(&self) -> Result<()> {
        check_optional(&self.mehd)?;
        Ok(())
    }

    #[tactic(auto, using(crate::proofs::Sizes::sizes), unfolding(crate::specs::Mvex::mvex_payload))]
    fn put_payload(&self, out: &mut Vec<u8>) -> Put {
        put_optional(out, &self.mehd)?;
        put_all(out, self.trexs.as_slice())?;
        Ok(())
    }
}
