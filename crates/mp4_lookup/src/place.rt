//! The lookup of a sample by its number, in the tables of a track.

ghost use Rattle.std.specs.Prelude.{◌≡◌, option_map};
ghost use Rattle.mp4_codec.specs.Cause.{Gives};
ghost use Rattle.mp4_table.specs.Stsc.{HasFirstSamples};
ghost use Rattle.mp4_samples.specs.Places.{place_of};
ghost use Rattle.mp4_lookup.specs.Index.{IsIndexOf};
ghost use Rattle.mp4_lookup.specs.Costs.{AreCounts, AreFewSizeReads, AreFresh, IfPlace};
ghost use Rattle.mp4_lookup.specs.Rule.{rule};

use crate::counters::Counters;
use crate::index::{TrackIndex, runs_of_ctts};
use crate::located::located_at;
use crate::timing::{is_sync, rendering_offset_at, time_at};
use mp4_boxes::StblBox;
use mp4_codec::Result;
use mp4_samples::{Place, SamplePlace};
use mp4_search::Search;

/// Where sample `k` of a track lies, and when it is decoded and shown, as the tables of the track say.
// Kept inline: docs/PERF.md, "Why these are calls".
#[inline(always)]
#[tactic(auto, unfolding(crate::specs::Rule::rule))]
pub fn place_at<S: Search>(
    stbl: &StblBox,
    index: &TrackIndex,
    track_id: u32,
    k: u32,
    counters: &mut Counters,
) -> Result<Option<SamplePlace>>
    requires firsts { HasFirstSamples stbl.now.stsc.entries }
    requires index { IsIndexOf stbl.now index.now }
    requires fresh { AreFresh counters.old }
    ensures rule { Gives (λ p. option_map place_of p) result (rule stbl.now track_id k) }
    ensures counted { IfPlace result (λ p. AreCounts S.Counts S.looks index.now k p.comparisons) }
    ensures size_reads { IfPlace result (λ p. AreFewSizeReads stbl.now p.size_reads) }
{
    let Some(located) = located_at::<S>(stbl, index, k, &mut counters.stsc, &mut counters.sizes)?
    else {
        return Ok(None);
    };
    let (duration, start_time) = time_at::<S>(
        stbl.stts.entries.as_slice(),
        &index.stts_counts,
        &index.stts_times,
        track_id,
        k,
        &mut counters.stts,
    )?;
    let rendering_offset = rendering_offset_at::<S>(
        runs_of_ctts(&stbl.ctts),
        &index.ctts_counts,
        k,
        &mut counters.ctts,
    );
    let is_sync = is_sync::<S>(&stbl.stss, index, k, &mut counters.stss);
    Ok(Some(counters.counted(Place {
        offset: located.offset,
        size: located.size,
        start_time,
        duration,
        rendering_offset,
        is_sync,
    })))
}
