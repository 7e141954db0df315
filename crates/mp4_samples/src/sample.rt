//! Samples, and where they lie (ISO/IEC 14496-12, 8.6 and 8.7).

ghost use Rattle.mp4_codec.specs.ExactTest.{by_test, field_tests};
ghost use Rattle.std.specs.Prelude.{◌≡◌, ◌↔◌, IsTrue};
ghost use Rattle.mp4_samples.specs.Places.{place_of};
ghost use Rattle.mp4_samples.specs.Samples.{borrowed_sample};

use bytes::Bytes;
use mp4_codec::ExactEq;

/// A sample that holds its bytes.
///
/// Times are in ticks of the track's timescale.
#[derive(Debug, PartialEq, Eq, Drop)]
pub struct Mp4Sample {
    /// When it is decoded: when the samples before it have lasted, counted from the last `tfdt` at or before it of a
    /// track fragment with samples, where there is one (ISO/IEC 14496-12, 8.6.1.2 and 8.8.12).
    pub start_time: u64,
    /// How long it lasts, until the next is decoded.
    pub duration: u32,
    /// How much later than it is decoded it is shown.
    pub rendering_offset: i32,
    /// Whether it can be decoded without the samples before it.
    pub is_sync: bool,
    /// What it is made of.
    pub bytes: Bytes,
}

impl ExactEq for Mp4Sample {
    ghost exact = { by_test (Prim.hlevel field_tests) };
}

/// A sample whose bytes are borrowed from the file that it was found in.
///
/// Times are in ticks of the track's timescale.
#[derive(Debug, Clone, Copy, PartialEq, Eq)]
pub struct SampleRef<'a> {
    /// Where its first byte is, counted from the first byte of the bytes or the source that the file is read from,
    /// also where the file begins later in them.
    pub offset: u64,
    /// When it is decoded: when the samples before it have lasted, counted from the last `tfdt` at or before it of a
    /// track fragment with samples, where there is one (ISO/IEC 14496-12, 8.6.1.2 and 8.8.12).
    pub start_time: u64,
    /// How long it lasts, until the next is decoded.
    pub duration: u32,
    /// How much later than it is decoded it is shown.
    pub rendering_offset: i32,
    /// Whether it can be decoded without the samples before it.
    pub is_sync: bool,
    /// What it is made of.
    pub bytes: &'a [u8],
}

/// Whether two samples are the same in each field and hold the same bytes, as `==` answers, wherever these lie in
/// memory.
#[tactic(auto, using(crate::proofs::BorrowedSamples::borrowed_samples_compare))]
pub fn is_equal_sample(first: &SampleRef, second: &SampleRef) -> bool
    ensures { IsTrue result
        ↔ ((first.now.offset ≡ second.now.offset) × (borrowed_sample first.now ≡ borrowed_sample second.now)) }
{
    first == second
}

/// Where a sample lies in the file, and when it is decoded and shown.
///
/// Times are in ticks of the track's timescale.
#[derive(Debug, Clone, Copy, PartialEq, Eq)]
pub struct Place {
    /// Where its first byte is, counted from the first byte of the bytes or the source that the file is read from,
    /// also where the file begins later in them.
    pub offset: u64,
    /// When it is decoded: when the samples before it have lasted, counted from the last `tfdt` at or before it of a
    /// track fragment with samples, where there is one (ISO/IEC 14496-12, 8.6.1.2 and 8.8.12).
    pub start_time: u64,
    /// How many bytes it has.
    pub size: u32,
    /// How long it lasts, until the next is decoded.
    pub duration: u32,
    /// How much later than it is decoded it is shown.
    pub rendering_offset: i32,
    /// Whether it can be decoded without the samples before it.
    pub is_sync: bool,
}

impl ExactEq for Place {
    ghost exact = { by_test (Prim.hlevel field_tests) };
}

/// The [`Place`] of a sample, and what it cost to find it.
///
/// Times are in ticks of the track's timescale.
#[derive(Debug, Clone, Copy, PartialEq, Eq)]
pub struct SamplePlace {
    /// Where its first byte is, counted from the first byte of the bytes or the source that the file is read from,
    /// also where the file begins later in them.
    pub offset: u64,
    /// How many bytes it has.
    pub size: u32,
    /// When it is decoded: when the samples before it have lasted, counted from the last `tfdt` at or before it of a
    /// track fragment with samples, where there is one (ISO/IEC 14496-12, 8.6.1.2 and 8.8.12).
    pub start_time: u64,
    /// How long it lasts, until the next is decoded.
    pub duration: u32,
    /// How much later than it is decoded it is shown.
    pub rendering_offset: i32,
    /// Whether it can be decoded without the samples before it.
    pub is_sync: bool,
    /// How many numbers were compared in each table.
    pub comparisons: Comparisons,
    /// How many running sums of sizes were read: none where all samples have one size, else 2.
    pub size_reads: u32,
}

impl ExactEq for SamplePlace {
    ghost exact = { by_test (Prim.hlevel field_tests) };
}

impl SamplePlace {
    /// Where the sample lies and when it is decoded and shown, without what it cost.
    pub fn place(&self) -> Place
        ensures { result ≡ place_of self.now }
    {
        Place {
            offset: self.offset,
            start_time: self.start_time,
            size: self.size,
            duration: self.duration,
            rendering_offset: self.rendering_offset,
            is_sync: self.is_sync,
        }
    }
}

/// How many numbers each search compared with the sample's, 0 for a table that isn't there.
#[derive(Debug, Clone, Copy, PartialEq, Eq)]
pub struct Comparisons {
    /// First samples of the entries of stsc.
    pub stsc: u32,
    /// Running counts of stts.
    pub stts: u32,
    /// Running counts of ctts.
    pub ctts: u32,
    /// Numbers of stss; 0 where they don't strictly rise, since all are then looked at. A lookup by a guess looks at
    /// one bit there, which counts as 1.
    pub stss: u32,
    /// Running counts of the runs of fragments, 0 for a sample of the movie box.
    pub runs: u32,
}

impl ExactEq for Comparisons {
    ghost exact = { by_test (Prim.hlevel field_tests) };
}
