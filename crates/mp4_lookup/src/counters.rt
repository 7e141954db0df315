//! The counters of a lookup.

// The steps of a lookup are kept inline: docs/PERF.md, "Why these are calls".

ghost use Rattle.std.specs.Prelude.{◌≡◌};
ghost use Rattle.mp4_samples.specs.Places.{place_of};
ghost use Rattle.mp4_lookup.specs.Costs.{AreFresh, comparisons_counted};

use mp4_samples::{Comparisons, Place, SamplePlace};
use mp4_search::{LookedUp, Readings};

/// What one lookup has read: a counter for each table that it searches, one for the runs of fragments, and one for the
/// running sums of sizes. Each step borrows its own.
#[derive(Debug, Drop)]
pub struct Counters {
    pub stsc: Readings,
    pub stts: Readings,
    pub ctts: Readings,
    pub stss: Readings,
    pub runs: Readings,
    pub sizes: Readings,
}

impl Counters {
    /// The counters of a lookup in this, before its first step.
    pub fn of<T: LookedUp>(whole: &T) -> Self
        ensures { AreFresh result }
    {
        Counters {
            stsc: Readings::of(whole),
            stts: Readings::of(whole),
            ctts: Readings::of(whole),
            stss: Readings::of(whole),
            runs: Readings::of(whole),
            sizes: Readings::of(whole),
        }
    }

    /// How many numbers were compared so far.
    pub fn comparisons(&self) -> Comparisons
        ensures { result ≡ comparisons_counted self.now }
    {
        Comparisons {
            stsc: self.stsc.count(),
            stts: self.stts.count(),
            ctts: self.ctts.count(),
            stss: self.stss.count(),
            runs: self.runs.count(),
        }
    }
    /// A place, and what its lookup has counted.
    #[inline(always)]
    pub fn counted(&self, place: Place) -> SamplePlace
        ensures place { place_of result ≡ place }
        ensures comparisons { result.comparisons ≡ comparisons_counted self.now }
        ensures size_reads { result.size_reads ≡ self.now.sizes }
    {
        SamplePlace {
            offset: place.offset,
            size: place.size,
            start_time: place.start_time,
            duration: place.duration,
            rendering_offset: place.rendering_offset,
            is_sync: place.is_sync,
            comparisons: self.comparisons(),
            size_reads: self.sizes.count(),
        }
    }
}
