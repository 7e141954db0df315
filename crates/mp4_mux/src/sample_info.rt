//! What the tables of a track say of a sample.

ghost use Rattle.mp4_codec.specs.ExactTest.{by_test, field_tests};
ghost use Rattle.mp4_mux.specs.SampleInfos.{IsInRangeSampleInfo};

use mp4_codec::{ExactEq, InRange};

/// What the tables of a track say of a sample, but for where it lies (ISO/IEC 14496-12, 8.6 and 8.7.3).
#[derive(Clone, Copy, Debug, PartialEq, Eq)]
pub struct SampleInfo {
    /// How many bytes it has.
    pub size: u32,
    /// How long it lasts, in ticks of its track.
    pub duration: u32,
    /// How many ticks later than it is decoded it is shown.
    pub rendering_offset: i32,
    /// Whether it is a sync sample.
    pub is_sync: bool,
}

impl ExactEq for SampleInfo {
    ghost exact = { by_test (Prim.hlevel field_tests) };
}

impl InRange for SampleInfo {
    ghost IsInRange = { IsInRangeSampleInfo };

    fn in_range(&self) {
        self.size.in_range();
        self.duration.in_range();
        self.rendering_offset.in_range();
    }
}
