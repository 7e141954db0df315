//! The fragment of a track.

ghost use Rattle.mp4_codec.specs.ExactTest.{by_law, by_test, field_tests};
ghost use Rattle.mp4_moof.specs.contracts.tfhd.TfhdBoxExactEq.TheImpl.Laws.{lawful as tfhd_laws};
ghost use Rattle.mp4_moof.specs.contracts.tfdt.TfdtBoxExactEq.TheImpl.Laws.{lawful as tfdt_laws};
ghost use Rattle.mp4_moof.specs.contracts.trun.TrunBoxExactEq.TheImpl.Laws.{lawful as trun_laws};
ghost use Rattle.std.specs.Prelude.{◌≡◌, Ok};
ghost use Rattle.mp4_codec.specs.declared.box_type.BoxType.TheVariants.{TrafBox as traf};
ghost use Rattle.mp4_codec.specs.Cause.{Gives};
ghost use Rattle.mp4_codec.specs.Boxes.{size_around};
ghost use Rattle.mp4_moof.specs.Traf.{traf_payload, default_traf, traf_fault, traf_child_early, traf_taken, traf_added};
ghost use Rattle.mp4_moof.specs.Traf.{traf_of, traf_early, traf_refusal, IsInRangeTraf, IsWellFormedTraf};
ghost use Rattle.mp4_moof.specs.TrafLaws.{traf_adds, traf_again};

use crate::{TfdtBox, TfhdBox, TrunBox};
use mp4_codec::{
    BoxType, Child, DebugItem, ExactEq, Gather, HEADER_SIZE, InRange, Items, Mp4Box, Put, ReadBox,
    Result, SharedItems, TryClone, WriteBox, all_size, check_all, check_optional, gather_children,
    keep_each, keep_last, optional_size, put_all, put_optional, required,
};
use std::alloc::Global;

/// The track fragment, `traf`: the part of a movie fragment that adds samples to one track (ISO/IEC 14496-12, 8.8.6).
///
/// Its children may come in any order, and types that it doesn't name are skipped. The first refused
/// child in file order is the answer, then `InvalidData` for a broken tail, then `BoxNotFound(TfhdBox)`.
#[derive(Debug, PartialEq, Eq, Drop)]
pub struct TrafBox {
    /// The track and its defaults: the last such child, which is required.
    pub tfhd: TfhdBox,
    /// The decoding time of the first sample, in ticks of the media's timescale: the last such child.
    pub tfdt: Option<TfdtBox>,
    /// The runs of samples, in file order. The fragments of a track share them with those of the file.
    pub truns: SharedItems<TrunBox>,
}

impl ExactEq for TrafBox {
    ghost exact = { by_test (Prim.hlevel
        (field_tests, by_law tfhd_laws.exact, by_law tfdt_laws.exact, by_law trun_laws.exact)) };
}

impl DebugItem for TrafBox {}

impl TrafBox {
    /// A fragment of a default header, without a time and without runs.
    pub fn default(alloc: Global) -> Result<Self>
        ensures { Gives (λ b. b) result (Ok default_traf) }
    {
        Ok(TrafBox {
            tfhd: TfhdBox::default(),
            tfdt: None,
            truns: SharedItems::new(alloc),
        })
    }

    /// `traf`.
    pub fn get_type(&self) -> BoxType
        ensures { result ≡ traf }
    {
        BoxType::TrafBox
    }

    /// The bytes of the box, its header included; they stop at 2^64 - 1.
    #[tactic(auto, using(crate::proofs::Sizes::sizes), unfolding(crate::specs::Traf::traf_payload))]
    pub fn get_size(&self) -> u64
        ensures { result ≡ size_around (traf_payload self.now) }
    {
        HEADER_SIZE
            .saturating_add(self.tfhd.box_size())
            .saturating_add(optional_size(&self.tfdt))
            .saturating_add(all_size(self.truns.as_slice()))
    }
}

impl TryClone for TrafBox {
    fn try_clone(&self) -> Result<Self> {
        Ok(TrafBox {
            tfhd: self.tfhd.try_clone()?,
            tfdt: self.tfdt.try_clone()?,
            truns: self.truns.try_clone()?,
        })
    }
}

/// What the children of a track's fragment give.
#[derive(Drop)]
struct TrafParts {
    tfhd: Option<TfhdBox>,
    tfdt: Option<TfdtBox>,
    truns: Items<TrunBox>,
}

impl Gather for TrafParts {
    ghost fault = { traf_fault };

    ghost early = { traf_child_early };

    ghost taken = { traf_taken };

    ghost added = { traf_added };

    ghost adds = { traf_adds };

    #[tactic(auto, unfolding(crate::specs::Traf::traf_taken, mp4_codec::specs::Children::last_of, mp4_codec::specs::Children::all_of))]
    fn none(alloc: Global) -> Self {
        TrafParts {
            tfhd: None,
            tfdt: None,
            truns: Items::new(alloc),
        }
    }

    #[tactic(auto, unfolding(crate::specs::Traf::traf_added, crate::specs::Traf::traf_child_early))]
    fn add(&mut self, alloc: Global, child: &Child) -> Result<()> {
        keep_last(alloc, child, &mut self.tfhd)?;
        keep_last(alloc, child, &mut self.tfdt)?;
        keep_each(alloc, child, &mut self.truns)?;
        Ok(())
    }
}

impl InRange for TrafBox {
    ghost IsInRange = { IsInRangeTraf };

    fn in_range(&self) {
        self.tfhd.in_range();
        self.tfdt.in_range();
        self.truns.in_range();
    }
}

impl Mp4Box for TrafBox {
    ghost KIND = { traf };

    const KIND: BoxType = BoxType::TrafBox;

    ghost payload = { traf_payload };

    fn box_size(&self) -> u64 {
        self.get_size()
    }
}

impl ReadBox for TrafBox {
    ghost value = { traf_of };

    ghost early = { traf_early };

    #[tactic(auto, unfolding(crate::specs::Traf::traf_of, crate::specs::Traf::traf_early))]
    fn read_payload(alloc: Global, payload: &[u8]) -> Result<Self> {
        let TrafParts { tfhd, tfdt, truns } = gather_children(alloc, payload)?;
        let tfhd = required(tfhd)?;
        let truns = SharedItems::from_items(truns)?;
        Ok(TrafBox { tfhd, tfdt, truns })
    }
}

impl WriteBox for TrafBox {
    ghost refusal = { traf_refusal };

    ghost IsWellFormed = { IsWellFormedTraf };

    ghost reads_back = { traf_again };

    #[tactic(auto, unfolding(crate::specs::Traf::traf_refusal))]
    fn check(&self) -> Result<()> {
        self.tfhd.check()?;
        check_optional(&self.tfdt)?;
        check_all(self.truns.as_slice())?;
        Ok(())
    }

    #[tactic(auto, using(crate::proofs::Sizes::sizes), unfolding(crate::specs::Traf::traf_payload))]
    fn put_payload(&self, out: &mut Vec<u8>) -> Put {
        self.tfhd.put_box(out)?;
        put_optional(out, &self.tfdt)?;
        put_all(out, self.truns.as_slice())?;
        Ok(())
    }
}
