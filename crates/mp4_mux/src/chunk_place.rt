//! Where a chunk of a track lies, and which chunk is where among those of all tracks.

ghost use Rattle.mp4_codec.specs.ExactTest.{by_test, field_tests};

use mp4_codec::ExactEq;

/// Where a chunk of a track lies, and which samples of the track it has (ISO/IEC 14496-12, 8.7.4 and 8.7.5).
#[derive(Clone, Copy, Debug, PartialEq, Eq)]
pub struct ChunkPlace {
    /// How many samples of the track are in chunks before it.
    pub first: u32,
    /// How many samples it has.
    pub count: u32,
    /// Where it begins, in bytes from the first of the sink.
    pub offset: u64,
}

impl ExactEq for ChunkPlace {
    ghost exact = { by_test (Prim.hlevel field_tests) };
}

/// A chunk of the movie: which one it is of which track. Both count from 0.
#[derive(Clone, Copy, Debug, PartialEq, Eq)]
pub struct ChunkRef {
    pub track: u32,
    pub index: u32,
}

impl ExactEq for ChunkRef {
    ghost exact = { by_test (Prim.hlevel field_tests) };
}
