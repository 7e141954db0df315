//! The sample entry of VP9 video.

ghost use Rattle.mp4_codec.specs.ExactTest.{by_law, by_test, field_tests};
ghost use Rattle.mp4_entry.specs.contracts.vpcc.VpccBoxExactEq.TheImpl.Laws.{lawful as vpcc_laws};
ghost use Rattle.std.specs.Prelude.{◌≡◌, ◌+◌, length, Ok, IfOk};
ghost use Rattle.mp4_codec.specs.declared.box_type.BoxType.TheVariants.{Vp09Box as vp09};
ghost use Rattle.mp4_codec.specs.Cause.{Gives, Answers};
ghost use Rattle.mp4_codec.specs.Boxes.{size_around, no_refusal};
ghost use Rattle.mp4_entry.specs.declared.visual.Visual.{Visual};
ghost use Rattle.mp4_entry.specs.Vp09.{vp09_of, vp09_early, vp09_payload, vp09_with, vp09_of_config, default_vp09};
ghost use Rattle.mp4_entry.specs.Vp09.{visual_of, IsInRangeVp09, IsWellFormedVp09, IsInRangeVp9Config};
ghost use Rattle.mp4_entry.specs.Vp09.{vp09_config_length};
ghost use Rattle.mp4_entry.specs.Vp09Laws.{vp09_again};

use crate::visual::{VISUAL_SIZE, Visual, put_visual_entry, read_visual_entry};
use crate::vpcc::VpccBox;
use mp4_codec::{
    BoxType, ExactEq, FixedPointU16, InRange, Mp4Box, Put, ReadBox, Result, TryClone, WriteBox,
};
use std::alloc::Global;

/// The bytes of the entry of a configuration, its header included.
pub(crate) const VP09_SIZE: u64 = 106;

/// The sample entry of VP9 video, `vp09` (the VP codec binding to ISO media files).
///
/// Its children may come in any order. The last `vpcC` counts, and other types are skipped. The first `vpcC` that is
/// refused, a child that passes the end and an entry without `vpcC` are `InvalidData`. Fewer than 8 bytes after the
/// last child are skipped.
#[derive(Debug, PartialEq, Eq, Drop)]
pub struct Vp09Box {
    /// Which data reference of the track holds the samples; they count from 1.
    pub data_reference_index: u16,
    /// Pixels.
    pub width: u16,
    /// Pixels.
    pub height: u16,
    /// Pixels an inch.
    pub horizresolution: FixedPointU16,
    /// Pixels an inch.
    pub vertresolution: FixedPointU16,
    /// How many pictures a sample has.
    pub frame_count: u16,
    /// Bits of a pixel; 24 is colour without an alpha channel.
    pub depth: u16,
    pub vpcc: VpccBox,
}

impl ExactEq for Vp09Box {
    ghost exact = { by_test (Prim.hlevel (field_tests, by_law vpcc_laws.exact)) };
}

/// What the entry of a track of VP9 video is made from.
#[derive(Debug, PartialEq, Eq, Drop)]
pub struct Vp9Config {
    /// Pixels.
    pub width: u16,
    /// Pixels.
    pub height: u16,
}

impl ExactEq for Vp9Config {
    ghost exact = { by_test (Prim.hlevel field_tests) };
}

impl TryClone for Vp9Config {
    fn try_clone(&self) -> Result<Self>
        ensures { Gives (λ x. x) result (Ok self.now) }
    {
        Ok(Vp9Config {
            width: self.width,
            height: self.height,
        })
    }
}

impl InRange for Vp9Config {
    ghost IsInRange = { IsInRangeVp9Config };

    fn in_range(&self) {
        self.width.in_range();
        self.height.in_range();
    }
}

impl Vp09Box {
    /// What an entry begins with, and what its decoder is started with.
    fn with(visual: Visual, vpcc: VpccBox) -> Self
        ensures { result ≡ vp09_with visual vpcc }
    {
        Vp09Box {
            data_reference_index: visual.data_reference_index,
            width: visual.width,
            height: visual.height,
            horizresolution: visual.horizresolution,
            vertresolution: visual.vertresolution,
            frame_count: visual.frame_count,
            depth: visual.depth,
            vpcc,
        }
    }

    /// What the entry begins with.
    fn visual(&self) -> Visual
        ensures { result ≡ visual_of self.now }
    {
        Visual {
            data_reference_index: self.data_reference_index,
            width: self.width,
            height: self.height,
            horizresolution: self.horizresolution,
            vertresolution: self.vertresolution,
            frame_count: self.frame_count,
            depth: self.depth,
        }
    }

    /// The entry of a configuration: that of the default, with its width and height.
    #[tactic(auto, using(crate::specs::Vp09Laws::vp09_of_config_size))]
    pub fn new(alloc: Global, config: &Vp9Config) -> Result<Self>
        ensures value { Answers (λ b. b) result (Ok (vp09_of_config config.now)) }
        ensures size { IfOk result (λ b. 8 + length (vp09_payload b) ≡ vp09_config_length config.now) }
    {
        let vpcc = VpccBox::default(alloc)?;
        Ok(Vp09Box::with(Visual::of_size(config.width, config.height), vpcc))
    }

    /// One picture of no size in each sample, in the first data reference: 72 pixels an inch, 24 bits a pixel, and the
    /// default `vpcC`.
    pub fn default(alloc: Global) -> Result<Self>
        ensures { Answers (λ b. b) result (Ok default_vp09) }
    {
        let vpcc = VpccBox::default(alloc)?;
        Ok(Vp09Box::with(Visual::of_size(0, 0), vpcc))
    }

    /// `vp09`.
    pub fn get_type(&self) -> BoxType
        ensures { result ≡ vp09 }
    {
        BoxType::Vp09Box
    }

    /// The bytes of the box, its header included: 86, and those of `vpcC`.
    #[tactic(auto, using(crate::proofs::Sizes::sizes))]
    pub fn get_size(&self) -> u64
        ensures { result ≡ size_around (vp09_payload self.now) }
    {
        self.vpcc.get_size().saturating_add(VISUAL_SIZE)
    }
}

impl TryClone for Vp09Box {
    fn try_clone(&self) -> Result<Self> {
        let vpcc = self.vpcc.try_clone()?;
        Ok(Vp09Box::with(self.visual(), vpcc))
    }
}

impl InRange for Vp09Box {
    ghost IsInRange = { IsInRangeVp09 };

    fn in_range(&self) {
        self.visual().in_range();
    }
}

impl Mp4Box for Vp09Box {
    ghost KIND = { vp09 };

    const KIND: BoxType = BoxType::Vp09Box;

    ghost payload = { vp09_payload };

    fn box_size(&self) -> u64 {
        self.get_size()
    }
}

impl ReadBox for Vp09Box {
    ghost value = { vp09_of };

    ghost early = { vp09_early };

    #[tactic(auto, unfolding(crate::specs::Vp09::vp09_of, crate::specs::Vp09::vp09_early))]
    fn read_payload(alloc: Global, payload: &[u8]) -> Result<Self> {
        let (visual, vpcc) = read_visual_entry(alloc, payload, "an entry without its vpcC")?;
        Ok(Vp09Box::with(visual, vpcc))
    }
}

impl WriteBox for Vp09Box {
    ghost refusal = { no_refusal };

    ghost IsWellFormed = { IsWellFormedVp09 };

    ghost reads_back = { vp09_again };

    fn check(&self) -> Result<()> {
        Ok(())
    }

    #[tactic(auto, unfolding(crate::specs::Vp09::vp09_payload))]
    fn put_payload(&self, out: &mut Vec<u8>) -> Put {
        put_visual_entry(out, self.visual(), &self.vpcc)?;
        Ok(())
    }
}
