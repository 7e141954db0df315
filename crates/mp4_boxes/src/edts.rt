//! The edits of a track.

ghost use Rattle.mp4_codec.specs.ExactTest.{by_law, by_test, field_tests};
ghost use Rattle.mp4_leaf.specs.contracts.elst.ElstBoxExactEq.TheImpl.Laws.{lawful as elst_laws};
ghost use Rattle.std.specs.Prelude.{◌≡◌, Ok};
ghost use Rattle.mp4_codec.specs.declared.box_type.BoxType.TheVariants.{EdtsBox as edts};
ghost use Rattle.mp4_codec.specs.Cause.{Gives};
ghost use Rattle.mp4_codec.specs.Boxes.{size_around};
ghost use Rattle.mp4_boxes.specs.Edts.{edts_payload, default_edts, edts_of, edts_early, edts_refusal, IsInRangeEdts};
ghost use Rattle.mp4_boxes.specs.Edts.{IsWellFormedEdts};
ghost use Rattle.mp4_boxes.specs.EdtsLaws.{edts_again};

use mp4_codec::{
    BoxType, Children, ExactEq, HEADER_SIZE, InRange, Mp4Box, Put, ReadBox, Result, TryClone,
    WriteBox, check_optional, keep_last, optional_size, put_optional,
};
use mp4_leaf::ElstBox;
use std::alloc::Global;

/// The edits of a track, `edts`: how its media lies on the movie's time (ISO/IEC 14496-12, 8.6.5).
///
/// The first child alone is looked at: it is the edit list, or else there is none. A first child that
/// doesn't end within the payload is `InvalidData`; what is after the first child is skipped, whatever
/// it is.
#[derive(Debug, PartialEq, Eq, Drop)]
pub struct EdtsBox {
    /// The edit list.
    pub elst: Option<ElstBox>,
}

impl ExactEq for EdtsBox {
    ghost exact = { by_test (Prim.hlevel (field_tests, by_law elst_laws.exact)) };
}

impl EdtsBox {
    /// `edts`.
    pub fn get_type(&self) -> BoxType
        ensures { result ≡ edts }
    {
        BoxType::EdtsBox
    }

    /// The bytes of the box, its header included; they stop at 2^64 - 1.
    #[tactic(auto, using(crate::proofs::Sizes::sizes), unfolding(crate::specs::Edts::edts_payload))]
    pub fn get_size(&self) -> u64
        ensures { result ≡ size_around (edts_payload self.now) }
    {
        HEADER_SIZE.saturating_add(optional_size(&self.elst))
    }
}

impl Default for EdtsBox {
    ghost is_default = { λ b. b ≡ default_edts };

    fn default() -> Self {
        EdtsBox { elst: None }
    }
}

impl TryClone for EdtsBox {
    fn try_clone(&self) -> Result<Self> {
        Ok(EdtsBox {
            elst: self.elst.try_clone()?,
        })
    }
}

impl InRange for EdtsBox {
    ghost IsInRange = { IsInRangeEdts };

    fn in_range(&self) {
        self.elst.in_range();
    }
}

impl Mp4Box for EdtsBox {
    ghost KIND = { edts };

    const KIND: BoxType = BoxType::EdtsBox;

    ghost payload = { edts_payload };

    fn box_size(&self) -> u64 {
        self.get_size()
    }
}

impl ReadBox for EdtsBox {
    ghost value = { edts_of };

    ghost early = { edts_early };

    #[tactic(auto, unfolding(crate::specs::Edts::edts_of, crate::specs::Edts::edts_early))]
    fn read_payload(alloc: Global, payload: &[u8]) -> Result<Self> {
        match Children::new(payload).next_child()? {
            None => Ok(EdtsBox { elst: None }),
            Some(child) => {
                let mut elst = None;
                keep_last(alloc, &child, &mut elst)?;
                Ok(EdtsBox { elst })
            }
        }
    }
}

impl WriteBox for EdtsBox {
    ghost refusal = { edts_refusal };

    ghost IsWellFormed = { IsWellFormedEdts };

    ghost reads_back = { edts_again };

    #[tactic(auto, unfolding(crate::specs::Edts::edts_refusal))]
    fn check(&self) -> Result<()> {
        check_optional(&self.elst)?;
        Ok(())
    }

    #[tactic(auto, unfolding(crate::specs::Edts::edts_payload))]
    fn put_payload(&self, out: &mut Vec<u8>) -> Put {
        put_optional(out, &self.elst)?;
        Ok(())
    }
}
