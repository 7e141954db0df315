//! Where the samples of a track lie, by their numbers: those of the movie box first, then those that fragments add
//! (ISO/IEC 14496-12, 8.6, 8.7 and 8.8).

// The steps of a lookup are kept inline: docs/PERF.md, "Why these are calls".

ghost use Rattle.std.specs.Prelude.{◌≡◌, ◌-◌, ◌^◌, ◌<◌, false, Some, length, min, option_map, slice_get};
ghost use Rattle.std.specs.Prelude.{IsTrue};
ghost use Rattle.mp4_codec.specs.Cause.{Gives};
ghost use Rattle.mp4_boxes.specs.Stbl.{sample_count};
ghost use Rattle.mp4_fragments.specs.RunSamples.{all_run_samples};
ghost use Rattle.mp4_samples.specs.Places.{place_of};
ghost use Rattle.mp4_samples.specs.Plain.{Consistent, plain_at};
ghost use Rattle.mp4_lookup.specs.Costs.{AreFew, AreFewForRunSample, AreFewSizeReads, comparisons_of};
ghost use Rattle.mp4_lookup.specs.Costs.{AreFewByGuess, AreFewForRunSampleByGuess, AreTrackCountsByGuess};
ghost use Rattle.mp4_lookup.specs.Costs.{AreFresh, AreRunSampleCounts, AreTrackCounts, IfPlace, comparisons_counted};
ghost use Rattle.mp4_samples.specs.Tables.{tables_of};
ghost use Rattle.mp4_lookup.specs.Tracks.{is_of_movie, run_sample_place, answer_at};
ghost use Rattle.mp4_lookup.specs.TrackRuns.{track_runs};

use crate::counters::Counters;
use crate::place::place_at;
use crate::track::Mp4Track;
use mp4_codec::{Error, Result};
use mp4_fragments::RunSample;
use mp4_samples::{Place, SamplePlace};
use mp4_search::{ByGuess, ByHalves, LookedUp, Search};

/// Where a sample lies that a fragment adds. A place or a time that is overflowed is refused.
#[inline(always)]
pub(crate) fn run_sample_placed(run_sample: &RunSample) -> Result<Place>
    ensures { Gives (λ p. Some p) result (run_sample_place (Some run_sample.now)) }
{
    let (Some(offset), Some(start_time)) = (run_sample.at.place, run_sample.at.time) else {
        return Err(Error::InvalidData("a sample of a fragment has no place or no time"));
    };
    Ok(Place {
        offset,
        size: run_sample.size,
        start_time,
        duration: run_sample.duration,
        rendering_offset: run_sample.rendering_offset,
        is_sync: run_sample.is_sync,
    })
}

/// Only what is asked of a whole track begins with counters of its own.
impl LookedUp for Mp4Track {}

impl Mp4Track {
    /// Where sample `k` of the track lies, and when it is decoded and shown; samples are numbered from 1: first those
    /// of the movie box, as many as stsz says, then those that fragments add, in file order (ISO/IEC 14496-12, 8.8.8).
    /// In a track that no fragment names, all numbers belong to the movie box.
    ///
    /// A sample of the movie box: `Ok(None)` where its chunk or its size isn't there, as past the last sample.
    /// `InvalidData` for number 0, where stsc has no entry for it or one without samples, where its chunk's number is 0
    /// or passes 32 bits, and where its place passes 64 bits; then `EntryInStblNotFound` where stts ends before it.
    ///
    /// A sample that a fragment adds: `Ok(None)` past the last, and `InvalidData` where its place or its time is below
    /// 0 or passes 64 bits, or follows from one that does.
    pub fn locate(&self, k: u32) -> Result<Option<SamplePlace>>
        ensures rule { Gives (λ p. option_map place_of p) result
            (answer_at self.now.trak self.now.trafs (track_runs self.now) k) }
        ensures plain { IsTrue (is_of_movie self.now.trak self.now.trafs k) → Consistent (tables_of self.now.trak)
            → Gives (λ p. option_map place_of p) result (plain_at (tables_of self.now.trak) k) }
        ensures counted { IfPlace result (λ p. p.comparisons ≡ comparisons_of self.now k) }
        ensures comparisons { IsTrue (is_of_movie self.now.trak self.now.trafs k)
            → IfPlace result (λ p. AreFew (tables_of self.now.trak) p.comparisons) }
        ensures size_reads { IsTrue (is_of_movie self.now.trak self.now.trafs k)
            → IfPlace result (λ p. AreFewSizeReads (tables_of self.now.trak) p.size_reads) }
        ensures added { is_of_movie self.now.trak self.now.trafs k ≡ false
            → IfPlace result (λ p. AreFewForRunSample (track_runs self.now) p.comparisons × (p.size_reads ≡ 0)) }
    {
        self.answer::<ByHalves>(k)
    }

    /// What [`locate`](Mp4Track::locate) answers, mostly found faster: in a table of more than a few entries, which
    /// stand for about as many samples each, the search begins at the entry in which the sample is expected.
    ///
    /// The comparisons are those of the search that was made: in each table at least one where it has an entry, and at
    /// most four more than the number of its entries has binary digits. Where the numbers of stss don't strictly rise,
    /// a bit says whether the sample is one of them, which counts as one comparison. Where `k` has no bit, it is above
    /// all of them; or, where one of them lies past all bits, all are looked at, as `locate` does. Neither counts as a
    /// comparison.
    ///
    /// Refused as `locate`, with the same errors.
    pub fn locate_by_guess(&self, k: u32) -> Result<Option<SamplePlace>>
        ensures rule { Gives (λ p. option_map place_of p) result
            (answer_at self.now.trak self.now.trafs (track_runs self.now) k) }
        ensures plain { IsTrue (is_of_movie self.now.trak self.now.trafs k) → Consistent (tables_of self.now.trak)
            → Gives (λ p. option_map place_of p) result (plain_at (tables_of self.now.trak) k) }
        ensures counted { IfPlace result (λ p. AreTrackCountsByGuess self.now k p.comparisons) }
        ensures comparisons { IsTrue (is_of_movie self.now.trak self.now.trafs k)
            → IfPlace result (λ p. AreFewByGuess (tables_of self.now.trak) p.comparisons) }
        ensures size_reads { IsTrue (is_of_movie self.now.trak self.now.trafs k)
            → IfPlace result (λ p. AreFewSizeReads (tables_of self.now.trak) p.size_reads) }
        ensures added { is_of_movie self.now.trak self.now.trafs k ≡ false
            → IfPlace result (λ p. AreFewForRunSampleByGuess (track_runs self.now) p.comparisons × (p.size_reads ≡ 0)) }
    {
        self.answer::<ByGuess>(k)
    }

    /// The answer at a number, by a way of searching; the two calls above are this one, each with its own bounds.
    #[inline(always)]
    #[tactic(auto, unfolding(crate::specs::Tracks::answer_at))]
    fn answer<S: Search>(&self, k: u32) -> Result<Option<SamplePlace>>
        ensures rule { Gives (λ p. option_map place_of p) result
            (answer_at self.now.trak self.now.trafs (track_runs self.now) k) }
        ensures counted { IfPlace result (λ p. AreTrackCounts S.Counts S.looks self.now k p.comparisons) }
        ensures size_reads { IsTrue (is_of_movie self.now.trak self.now.trafs k)
            → IfPlace result (λ p. AreFewSizeReads (tables_of self.now.trak) p.size_reads) }
        ensures added { is_of_movie self.now.trak self.now.trafs k ≡ false
            → IfPlace result (λ p. (0 < length (track_runs self.now)) × (p.size_reads ≡ 0)) }
    {
        let mut counters = Counters::of(self);
        let stbl = &self.trak.mdia.minf.stbl;
        if self.is_of_movie(k) {
            place_at::<S>(stbl, &self.index, self.trak.tkhd.track_id, k, &mut counters)
        } else {
            self.added_at::<S>(k - stbl.sample_count() - 1, &mut counters)
        }
    }

    /// Whether number `k` belongs to the movie box: any does in a track that no fragment names.
    #[inline(always)]
    pub(crate) fn is_of_movie(&self, k: u32) -> bool
        ensures value { result ≡ is_of_movie self.now.trak self.now.trafs k }
        ensures past { result ≡ false → sample_count (tables_of self.now.trak) < k }
    {
        self.trafs.is_empty() || k <= self.trak.mdia.minf.stbl.sample_count()
    }

    /// Where the sample with this number lies among those that fragments add; it counts from 0.
    #[inline(always)]
    fn added_at<S: Search>(
        &self,
        number: u32,
        counters: &mut Counters,
    ) -> Result<Option<SamplePlace>>
        requires number { number < 2 ^ 32 - 1 }
        requires fresh { AreFresh counters.old }
        ensures rule { Gives (λ p. option_map place_of p) result
            (run_sample_place (slice_get (all_run_samples (track_runs self.now)) number)) }
        ensures counted { IfPlace result (λ p. AreRunSampleCounts S.Counts self.now.runs number p.comparisons) }
        ensures some_runs { IfPlace result (λ p. 0 < length (track_runs self.now)) }
        ensures size_reads { IfPlace result (λ p. p.size_reads ≡ 0) }
    {
        let trafs = self.trafs.as_slice();
        let Some(run_sample) = self
            .runs
            .find::<S>(trafs, self.defaults, number, &mut counters.runs)
        else {
            return Ok(None);
        };
        Ok(Some(counters.counted(run_sample_placed(&run_sample)?)))
    }

    /// How many samples the fragments add; it stops at 2^64 - 1.
    pub(crate) fn added_samples(&self) -> u64
        ensures { result ≡ min (2 ^ 64 - 1) (length (all_run_samples (track_runs self.now))) }
    {
        self.runs.count()
    }
}
