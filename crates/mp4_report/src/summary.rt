//! What the samples of a track are together, by the runs of its tables and fragments.

ghost use Rattle.std.specs.Prelude.{◌≡◌, ◌-◌, if◌then◌else◌};
ghost use Rattle.mp4_report.specs.Summaries.{longest_ms, mean_ms, with_span, with_sync};

use crate::past_end::PastEnd;
use crate::rate::milliseconds_each;
use crate::spans::{Span, Spans};
use mp4_media::Mp4Track;
use std::alloc::{AllocError, Global};

/// What the samples of a track are together: those up to the first that is refused.
#[derive(Clone, Copy, Debug, Default, PartialEq, Eq)]
pub struct SampleSummary {
    pub count: u64,
    /// The bytes of all samples.
    pub bytes: u64,
    pub sync: u64,
    /// When the first sync sample is decoded, in ticks.
    pub first_sync: u64,
    /// When the last sync sample is decoded, in ticks.
    pub last_sync: u64,
    /// The most ticks from a sync sample to the next.
    pub longest: u64,
    /// Those that lie past the end of the file.
    pub past_end: Option<PastEnd>,
}

impl SampleSummary {
    /// Counts sync samples, each of which is decoded when the one before it has lasted.
    #[tactic(auto, unfolding(crate::specs::Summaries::with_sync))]
    fn add_sync(&mut self, span: Span)
        ensures { self.new ≡ with_sync self.old span }
    {
        if self.sync == 0 {
            self.first_sync = span.first.start_time;
        } else {
            let gap = span.first.start_time.saturating_sub(self.last_sync);
            self.longest = self.longest.max(gap);
        }
        if span.count > 1 {
            self.longest = self.longest.max(u64::from(span.first.duration));
        }
        self.last_sync = span.last_time();
        self.sync = self.sync.saturating_add(u64::from(span.count));
    }

    /// Counts samples as sync samples, if they are.
    fn add_if_sync(&mut self, span: Span)
        ensures { self.new ≡ (if span.first.is_sync then with_sync self.old span else self.old) }
    {
        if span.first.is_sync {
            self.add_sync(span);
        }
    }

    /// Counts samples of a file of so many bytes.
    #[tactic(auto, unfolding(crate::specs::Summaries::with_span))]
    fn add(&mut self, span: Span, file_size: u64)
        ensures { self.new ≡ with_span self.old span file_size }
    {
        let count = u64::from(span.count);
        self.count = self.count.saturating_add(count);
        self.bytes = self
            .bytes
            .saturating_add(count.saturating_mul(u64::from(span.first.size)));
        self.past_end = PastEnd::with_span(self.past_end, span, file_size);
        self.add_if_sync(span);
    }

    /// How many times a sync sample follows another.
    fn gaps(&self) -> u64
        ensures { result ≡ self.now.sync - 1 }
    {
        self.sync.saturating_sub(1)
    }

    /// The milliseconds from a sync sample to the next on average, to the nearest; `None` where there are
    /// fewer than two.
    pub fn mean_ms(&self, timescale: u32) -> Option<u64>
        ensures { result ≡ mean_ms self.now timescale }
    {
        let ticks = self.last_sync.saturating_sub(self.first_sync);
        milliseconds_each(ticks, self.gaps(), timescale)
    }

    /// The most milliseconds from a sync sample to the next, to the nearest; `None` where there are fewer
    /// than two.
    pub fn longest_ms(&self, timescale: u32) -> Option<u64>
        ensures { result ≡ longest_ms self.now timescale }
    {
        if self.gaps() == 0 {
            return None;
        }
        milliseconds_each(self.longest, 1, timescale)
    }
}

/// The numbers of stss where all samples of the movie box have one size, in their order; else none.
fn sync_numbers_of(alloc: Global, track: &Mp4Track) -> Result<Vec<u32>, AllocError> {
    let stbl = &track.trak.mdia.minf.stbl;
    match &stbl.stss {
        Some(stss) if stbl.stsz.sample_size > 0 => {
            let mut numbers = Vec::from_slice(alloc, stss.entries.as_slice())?;
            numbers.sort()?;
            Ok(numbers)
        }
        _ => Ok(Vec::new(alloc)),
    }
}

/// What the samples of a track are together, in a file of so many bytes. It looks at each chunk and each run,
/// but at each sample only where the file lists what these have.
pub fn summary_of(
    alloc: Global,
    track: &Mp4Track,
    file_size: u64,
) -> Result<SampleSummary, AllocError> {
    let sync_numbers = sync_numbers_of(alloc, track)?;
    let mut spans = Spans::new(track, 1, sync_numbers.as_slice());
    let mut summary = SampleSummary::default();
    for _ in 0..u32::MAX {
        let Some(Ok(span)) = spans.next_span() else {
            break;
        };
        summary.add(span, file_size);
    }
    Ok(summary)
}
