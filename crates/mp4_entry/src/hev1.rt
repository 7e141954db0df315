//! The sample entry of HEVC video.

ghost use Rattle.mp4_codec.specs.ExactTest.{by_law, by_test, field_tests};
ghost use Rattle.mp4_entry.specs.contracts.hvcc.HvcCBoxExactEq.TheImpl.Laws.{lawful as hvcc_laws};
ghost use Rattle.std.specs.Prelude.{◌≡◌, ◌+◌, length, Ok, IfOk};
ghost use Rattle.mp4_codec.specs.declared.box_type.BoxType.TheVariants.{Hev1Box as hev1};
ghost use Rattle.mp4_codec.specs.Cause.{Gives, Answers};
ghost use Rattle.mp4_codec.specs.Boxes.{size_around, no_refusal};
ghost use Rattle.mp4_entry.specs.declared.visual.Visual.{Visual};
ghost use Rattle.mp4_entry.specs.Hev1.{hev1_of, hev1_early, hev1_payload, hev1_with, hev1_of_config, default_hev1};
ghost use Rattle.mp4_entry.specs.Hev1.{visual_of, IsInRangeHev1, IsWellFormedHev1, IsInRangeHevcConfig};
ghost use Rattle.mp4_entry.specs.Hev1.{hev1_config_length};
ghost use Rattle.mp4_entry.specs.Hev1Laws.{hev1_again};

use crate::hvcc::HvcCBox;
use crate::visual::{VISUAL_SIZE, Visual, put_visual_entry, read_visual_entry};
use mp4_codec::{
    BoxType, ExactEq, FixedPointU16, InRange, Mp4Box, Put, ReadBox, Result, TryClone, WriteBox,
};
use std::alloc::Global;

/// The bytes of the entry of a configuration, its header included.
pub(crate) const HEV1_SIZE: u64 = 117;

/// The sample entry of HEVC video, `hev1` (ISO/IEC 14496-15, 8.4.1).
///
/// Its children may come in any order. The last `hvcC` counts, and other types are skipped. The first `hvcC` that is
/// refused, a child that passes the end and an entry without `hvcC` are `InvalidData`. Fewer than 8 bytes after the
/// last child are skipped.
#[derive(Debug, PartialEq, Eq, Drop)]
pub struct Hev1Box {
    /// Which data reference of the track holds the samples; they count from 1.
    pub data_reference_index: u16,
    /// Pixels.
    pub width: u16,
    /// Pixels.
    pub height: u16,
    /// Pixels an inch.
    pub horizresolution: FixedPointU16,
    /// Pixels an inch.
    pub vertresolution: FixedPointU16,
    /// How many pictures a sample has.
    pub frame_count: u16,
    /// Bits of a pixel; 24 is colour without an alpha channel.
    pub depth: u16,
    pub hvcc: HvcCBox,
}

impl ExactEq for Hev1Box {
    ghost exact = { by_test (Prim.hlevel (field_tests, by_law hvcc_laws.exact)) };
}

/// What the entry of a track of HEVC video is made from.
#[derive(Debug, PartialEq, Eq, Drop)]
pub struct HevcConfig {
    /// Pixels.
    pub width: u16,
    /// Pixels.
    pub height: u16,
}

impl ExactEq for HevcConfig {
    ghost exact = { by_test (Prim.hlevel field_tests) };
}

impl TryClone for HevcConfig {
    fn try_clone(&self) -> Result<Self>
        ensures { Gives (λ x. x) result (Ok self.now) }
    {
        Ok(HevcConfig {
            width: self.width,
            height: self.height,
        })
    }
}

impl InRange for HevcConfig {
    ghost IsInRange = { IsInRangeHevcConfig };

    fn in_range(&self) {
        self.width.in_range();
        self.height.in_range();
    }
}

impl Hev1Box {
    /// What an entry begins with, and what its decoder is started with.
    fn with(visual: Visual, hvcc: HvcCBox) -> Self
        ensures { result ≡ hev1_with visual hvcc }
    {
        Hev1Box {
            data_reference_index: visual.data_reference_index,
            width: visual.width,
            height: visual.height,
            horizresolution: visual.horizresolution,
            vertresolution: visual.vertresolution,
            frame_count: visual.frame_count,
            depth: visual.depth,
            hvcc,
        }
    }

    /// What the entry begins with.
    fn visual(&self) -> Visual
        ensures { result ≡ visual_of self.now }
    {
        Visual {
            data_reference_index: self.data_reference_index,
            width: self.width,
            height: self.height,
            horizresolution: self.horizresolution,
            vertresolution: self.vertresolution,
            frame_count: self.frame_count,
            depth: self.depth,
        }
    }

    /// The entry of a configuration: that of the default, with its width and height.
    #[tactic(auto, using(crate::specs::Hev1Laws::hev1_of_config_size))]
    pub fn new(alloc: Global, config: &HevcConfig) -> Result<Self>
        ensures value { Answers (λ b. b) result (Ok (hev1_of_config config.now)) }
        ensures size { IfOk result (λ b. 8 + length (hev1_payload b) ≡ hev1_config_length config.now) }
    {
        let hvcc = HvcCBox::default(alloc)?;
        Ok(Hev1Box::with(Visual::of_size(config.width, config.height), hvcc))
    }

    /// One picture of no size in each sample, in the first data reference: 72 pixels an inch, 24 bits a pixel, and the
    /// default `hvcC`.
    pub fn default(alloc: Global) -> Result<Self>
        ensures { Answers (λ b. b) result (Ok default_hev1) }
    {
        let hvcc = HvcCBox::default(alloc)?;
        Ok(Hev1Box::with(Visual::of_size(0, 0), hvcc))
    }

    /// `hev1`.
    pub fn get_type(&self) -> BoxType
        ensures { result ≡ hev1 }
    {
        BoxType::Hev1Box
    }

    /// The bytes of the box, its header included: 86, and those of `hvcC`.
    #[tactic(auto, using(crate::proofs::Sizes::sizes))]
    pub fn get_size(&self) -> u64
        ensures { result ≡ size_around (hev1_payload self.now) }
    {
        self.hvcc.get_size().saturating_add(VISUAL_SIZE)
    }
}

impl TryClone for Hev1Box {
    fn try_clone(&self) -> Result<Self> {
        let hvcc = self.hvcc.try_clone()?;
        Ok(Hev1Box::with(self.visual(), hvcc))
    }
}

impl InRange for Hev1Box {
    ghost IsInRange = { IsInRangeHev1 };

    fn in_range(&self) {
        self.visual().in_range();
    }
}

impl Mp4Box for Hev1Box {
    ghost KIND = { hev1 };

    const KIND: BoxType = BoxType::Hev1Box;

    ghost payload = { hev1_payload };

    fn box_size(&self) -> u64 {
        self.get_size()
    }
}

impl ReadBox for Hev1Box {
    ghost value = { hev1_of };

    ghost early = { hev1_early };

    #[tactic(auto, unfolding(crate::specs::Hev1::hev1_of, crate::specs::Hev1::hev1_early))]
    fn read_payload(alloc: Global, payload: &[u8]) -> Result<Self> {
        let (visual, hvcc) = read_visual_entry(alloc, payload, "an entry without its hvcC")?;
        Ok(Hev1Box::with(visual, hvcc))
    }
}

impl WriteBox for Hev1Box {
    ghost refusal = { no_refusal };

    ghost IsWellFormed = { IsWellFormedHev1 };

    ghost reads_back = { hev1_again };

    fn check(&self) -> Result<()> {
        Ok(())
    }

    #[tactic(auto, unfolding(crate::specs::Hev1::hev1_payload))]
    fn put_payload(&self, out: &mut Vec<u8>) -> Put {
        put_visual_entry(out, self.visual(), &self.hvcc)?;
        Ok(())
    }
}
