//! The sample entry of AVC video.

ghost use Rattle.mp4_codec.specs.ExactTest.{by_law, by_test, field_tests};
ghost use Rattle.mp4_entry.specs.contracts.avcc.AvcCBoxExactEq.TheImpl.Laws.{lawful as avcc_laws};
ghost use Rattle.std.specs.Prelude.{◌≡◌, ◌+◌, length, Ok, IfOk};
ghost use Rattle.mp4_codec.specs.declared.box_type.BoxType.TheVariants.{Avc1Box as avc1};
ghost use Rattle.mp4_codec.specs.Cause.{Gives, Answers};
ghost use Rattle.mp4_codec.specs.Boxes.{size_around};
ghost use Rattle.mp4_entry.specs.declared.visual.Visual.{Visual};
ghost use Rattle.mp4_entry.specs.Avc1.{avc1_of, avc1_early, avc1_payload, avc1_refusal, avc1_with, avc1_of_config};
ghost use Rattle.mp4_entry.specs.Avc1.{default_avc1, visual_of, IsInRangeAvc1, IsWellFormedAvc1, IsInRangeAvcConfig};
ghost use Rattle.mp4_entry.specs.Avc1.{avc1_config_length};
ghost use Rattle.mp4_entry.specs.Avc1Laws.{avc1_again};

use crate::avcc::AvcCBox;
use crate::visual::{VISUAL_SIZE, Visual, put_visual_entry, read_visual_entry};
use mp4_codec::{
    BoxType, ExactEq, FixedPointU16, InRange, Items, Mp4Box, Put, ReadBox, Result, TryClone,
    WriteBox,
};
use std::alloc::Global;

/// The bytes of the entry of a configuration, its header included, without its parameter sets.
pub(crate) const AVC1_SIZE: u64 = 105;

/// The sample entry of AVC video, `avc1` (ISO/IEC 14496-15, 5.4.2).
///
/// Its children may come in any order. The last `avcC` counts, and other types are skipped. The first `avcC` that is
/// refused, a child that passes the end and an entry without `avcC` are `InvalidData`. Fewer than 8 bytes after the
/// last child are skipped. Where its `avcC` isn't written the entry isn't, for the same cause.
#[derive(Debug, PartialEq, Eq, Drop)]
pub struct Avc1Box {
    /// Which data reference of the track holds the samples; they count from 1.
    pub data_reference_index: u16,
    /// Pixels.
    pub width: u16,
    /// Pixels.
    pub height: u16,
    /// Pixels an inch.
    pub horizresolution: FixedPointU16,
    /// Pixels an inch.
    pub vertresolution: FixedPointU16,
    /// How many pictures a sample has.
    pub frame_count: u16,
    /// Bits of a pixel; 24 is colour without an alpha channel.
    pub depth: u16,
    pub avcc: AvcCBox,
}

impl ExactEq for Avc1Box {
    ghost exact = { by_test (Prim.hlevel (field_tests, by_law avcc_laws.exact)) };
}

/// What the entry of a track of AVC video is made from.
#[derive(Debug, PartialEq, Eq, Drop)]
pub struct AvcConfig {
    /// Pixels.
    pub width: u16,
    /// Pixels.
    pub height: u16,
    /// A sequence parameter set, a NAL unit without a start code.
    pub seq_param_set: Items<u8>,
    /// A picture parameter set, a NAL unit without a start code.
    pub pic_param_set: Items<u8>,
}

impl ExactEq for AvcConfig {
    ghost exact = { by_test (Prim.hlevel field_tests) };
}

impl TryClone for AvcConfig {
    fn try_clone(&self) -> Result<Self> {
        Ok(AvcConfig {
            width: self.width,
            height: self.height,
            seq_param_set: self.seq_param_set.try_clone()?,
            pic_param_set: self.pic_param_set.try_clone()?,
        })
    }
}

impl InRange for AvcConfig {
    ghost IsInRange = { IsInRangeAvcConfig };

    fn in_range(&self) {
        self.width.in_range();
        self.height.in_range();
        self.seq_param_set.in_range();
        self.pic_param_set.in_range();
    }
}

impl Avc1Box {
    /// What an entry begins with, and what its decoder is started with.
    fn with(visual: Visual, avcc: AvcCBox) -> Self
        ensures { result ≡ avc1_with visual avcc }
    {
        Avc1Box {
            data_reference_index: visual.data_reference_index,
            width: visual.width,
            height: visual.height,
            horizresolution: visual.horizresolution,
            vertresolution: visual.vertresolution,
            frame_count: visual.frame_count,
            depth: visual.depth,
            avcc,
        }
    }

    /// What the entry begins with.
    fn visual(&self) -> Visual
        ensures { result ≡ visual_of self.now }
    {
        Visual {
            data_reference_index: self.data_reference_index,
            width: self.width,
            height: self.height,
            horizresolution: self.horizresolution,
            vertresolution: self.vertresolution,
            frame_count: self.frame_count,
            depth: self.depth,
        }
    }

    /// The entry of a configuration: that of the default, with its width and height and one parameter set of each kind.
    /// The profile, its constraints and the level are the second, third and fourth byte of the sequence parameter set;
    /// a byte that it hasn't counts as 0.
    #[tactic(auto, using(crate::specs::Avc1Laws::avc1_of_config_size))]
    pub fn new(alloc: Global, config: &AvcConfig) -> Result<Self>
        ensures value { Answers (λ b. b) result (Ok (avc1_of_config config.now)) }
        ensures size { IfOk result (λ b. 8 + length (avc1_payload b) ≡ avc1_config_length config.now) }
    {
        let avcc = AvcCBox::of_sets(alloc, &config.seq_param_set, &config.pic_param_set)?;
        Ok(Avc1Box::with(Visual::of_size(config.width, config.height), avcc))
    }

    /// One picture of no size in each sample, in the first data reference: 72 pixels an inch, 24 bits a pixel, and the
    /// default `avcC`.
    pub fn default(alloc: Global) -> Result<Self>
        ensures { Gives (λ b. b) result (Ok default_avc1) }
    {
        let avcc = AvcCBox::default(alloc)?;
        Ok(Avc1Box::with(Visual::of_size(0, 0), avcc))
    }

    /// `avc1`.
    pub fn get_type(&self) -> BoxType
        ensures { result ≡ avc1 }
    {
        BoxType::Avc1Box
    }

    /// The bytes of the box, its header included: 86, and those of `avcC`.
    #[tactic(auto, using(crate::proofs::Sizes::sizes))]
    pub fn get_size(&self) -> u64
        ensures { result ≡ size_around (avc1_payload self.now) }
    {
        self.avcc.get_size().saturating_add(VISUAL_SIZE)
    }
}

impl TryClone for Avc1Box {
    fn try_clone(&self) -> Result<Self> {
        let avcc = self.avcc.try_clone()?;
        Ok(Avc1Box::with(self.visual(), avcc))
    }
}

impl InRange for Avc1Box {
    ghost IsInRange = { IsInRangeAvc1 };

    fn in_range(&self) {
        self.visual().in_range();
        self.avcc.in_range();
    }
}

impl Mp4Box for Avc1Box {
    ghost KIND = { avc1 };

    const KIND: BoxType = BoxType::Avc1Box;

    ghost payload = { avc1_payload };

    fn box_size(&self) -> u64 {
        self.get_size()
    }
}

impl ReadBox for Avc1Box {
    ghost value = { avc1_of };

    ghost early = { avc1_early };

    #[tactic(auto, unfolding(crate::specs::Avc1::avc1_of, crate::specs::Avc1::avc1_early))]
    fn read_payload(alloc: Global, payload: &[u8]) -> Result<Self> {
        let (visual, avcc) = read_visual_entry(alloc, payload, "an entry without its avcC")?;
        Ok(Avc1Box::with(visual, avcc))
    }
}

impl WriteBox for Avc1Box {
    ghost refusal = { avc1_refusal };

    ghost IsWellFormed = { IsWellFormedAvc1 };

    ghost reads_back = { avc1_again };

    #[tactic(auto, unfolding(crate::specs::Avc1::avc1_refusal))]
    fn check(&self) -> Result<()> {
        self.avcc.check()?;
        Ok(())
    }

    #[tactic(auto, unfolding(crate::specs::Avc1::avc1_payload))]
    fn put_payload(&self, out: &mut Vec<u8>) -> Put {
        put_visual_entry(out, self.visual(), &self.avcc)?;
        Ok(())
    }
}
