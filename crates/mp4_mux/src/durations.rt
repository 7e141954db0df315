//! How long a track is.

ghost use Rattle.mp4_codec.specs.ExactTest.{by_test, field_tests};

use mp4_codec::ExactEq;

/// How long a track is: the sum of its samples' durations.
#[derive(Clone, Copy, Debug, PartialEq, Eq)]
pub struct Durations {
    /// In ticks of its media.
    pub media: u64,
    /// In ticks of the movie, where each duration is converted by itself and rounded down.
    pub movie: u64,
}

impl ExactEq for Durations {
    ghost exact = { by_test (Prim.hlevel field_tests) };
}
