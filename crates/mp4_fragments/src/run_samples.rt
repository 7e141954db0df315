//! The samples of a run.

// The steps of a lookup are kept inline: docs/PERF.md, "Why these are calls".

ghost use Rattle.mp4_codec.specs.ExactTest.{by_test, field_tests};
ghost use Rattle.std.specs.Prelude.{◌≡◌};
ghost use Rattle.mp4_fragments.specs.RunSamples.{at_run_sample, run_sample_of, flags_of, is_sync_in, values_of};

use crate::defaults::SampleDefaults;
use crate::values::value_at;
use mp4_codec::{DebugItem, ExactEq};
use mp4_moof::TrunBox;

/// The flag of a sample that can't be decoded without those before it (ISO/IEC 14496-12, 8.8.3.1).
pub(crate) const IS_NO_SYNC_SAMPLE: u32 = 0x10000;

/// Where a sample of a run begins: the place of its first byte in the file, and its decoding time in ticks of the
/// track's timescale. None is a number below 0 or past 64 bits, or one that depends on such a number.
#[derive(Clone, Copy, Debug, PartialEq, Eq)]
pub struct RunStart {
    pub place: Option<u64>,
    pub time: Option<u64>,
}

impl ExactEq for RunStart {
    ghost exact = { by_test (Prim.hlevel field_tests) };
}

impl DebugItem for RunStart {}

/// A sample of a run: a sample that a fragment adds to a track.
#[derive(Clone, Copy, Debug, PartialEq, Eq)]
pub struct RunSample {
    /// Where and when it begins.
    pub at: RunStart,
    /// How many bytes it has.
    pub size: u32,
    /// How long it lasts, in ticks of the track's timescale.
    pub duration: u32,
    /// How much later than it is decoded it is shown, in ticks of the track's timescale.
    pub rendering_offset: i32,
    /// Whether it can be decoded without the samples before it.
    pub is_sync: bool,
}

impl ExactEq for RunSample {
    ghost exact = { by_test (Prim.hlevel field_tests) };
}

/// What a sample of a run has beside where it begins.
#[derive(Clone, Copy, Debug)]
pub(crate) struct SampleValues {
    /// How many bytes it has.
    pub size: u32,
    /// How long it lasts, in ticks of the track's timescale.
    pub duration: u32,
    /// How much later than it is decoded it is shown, in ticks of the track's timescale.
    pub rendering_offset: i32,
    /// Whether it can be decoded without the samples before it.
    pub is_sync: bool,
}

impl SampleValues {
    /// The sample that has them and begins there.
    #[inline(always)]
    pub(crate) fn begin_at(self, at: RunStart) -> RunSample
        ensures { result ≡ record {
          at = at;
          size = self.size;
          duration = self.duration;
          rendering_offset = self.rendering_offset;
          is_sync = self.is_sync;
        } }
    {
        RunSample {
            at,
            size: self.size,
            duration: self.duration,
            rendering_offset: self.rendering_offset,
            is_sync: self.is_sync,
        }
    }
}

/// The sample flags of sample `j`.
fn flags(run: &TrunBox, defaults: SampleDefaults, j: u32) -> u32
    ensures { result ≡ flags_of run.now defaults j }
{
    let own = value_at(run.sample_flags.as_slice(), defaults.flags, j);
    if j == 0 {
        run.first_sample_flags.unwrap_or(own)
    } else {
        own
    }
}

/// Whether sample `j` of a run can be decoded without the samples before it.
#[inline(always)]
pub(crate) fn is_sync(run: &TrunBox, defaults: SampleDefaults, j: u32) -> bool
    ensures { result ≡ is_sync_in run.now defaults j }
{
    flags(run, defaults, j) & IS_NO_SYNC_SAMPLE == 0
}

/// What sample `j` of a run has beside where it begins.
#[inline(always)]
#[tactic(auto, unfolding(crate::specs::RunSamples::values_of))]
pub(crate) fn values_of(run: &TrunBox, defaults: SampleDefaults, j: u32) -> SampleValues
    ensures { (first : RunStart) → result ≡ values_of (record { at = first; run = run.now; defaults = defaults }) j }
{
    SampleValues {
        size: value_at(run.sample_sizes.as_slice(), defaults.size, j),
        duration: value_at(run.sample_durations.as_slice(), defaults.duration, j),
        rendering_offset: value_at(run.sample_cts.as_slice(), 0, j).cast_signed(),
        is_sync: is_sync(run, defaults, j),
    }
}

/// Sample `j` of a run, by its index, which counts from 0, where it begins there.
#[inline(always)]
pub(crate) fn run_sample_run_start(
    run: &TrunBox,
    defaults: SampleDefaults,
    at: RunStart,
    j: u32,
) -> RunSample
    ensures { (first : RunStart) → at ≡ at_run_sample run.now defaults first j
        → result ≡ run_sample_of (record { at = first; run = run.now; defaults = defaults }) j }
{
    values_of(run, defaults, j).begin_at(at)
}
