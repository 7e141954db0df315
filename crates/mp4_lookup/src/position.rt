//! Where a walk over the samples of a track is in its tables.

// The steps of a lookup are kept inline: docs/PERF.md, "Why these are calls".

ghost use Rattle.std.specs.Prelude.{◌+◌, IfOk, IfSome};
ghost use Rattle.mp4_codec.specs.Cause.{Gives};
ghost use Rattle.mp4_lookup.specs.Rule.{rule};
ghost use Rattle.mp4_lookup.specs.Tables.{AreTables, walked};
ghost use Rattle.mp4_lookup.specs.Walk.{AreIn};

use crate::chunk_run::{ChunkRun, located_in_order};
use crate::tables::Tables;
use crate::timing::{
    OffsetRun, SyncGap, TimeRun, is_sync_in_order, rendering_offset_in_order, time_in_order,
};
use mp4_codec::Result;
use mp4_samples::Place;

/// Where a walk is in each table of a track, before a sample: what is left there from that sample on.
#[derive(Clone, Copy, Debug)]
pub struct Position {
    pub chunk: ChunkRun,
    pub time: TimeRun,
    pub rendering: OffsetRun,
    pub sync: SyncGap,
}

impl Position {
    /// Before sample `k`.
    #[inline(always)]
    pub fn before(tables: &Tables, k: u32) -> Self
        requires tables { AreTables tables.now }
        ensures { AreIn (walked tables.now) k result }
    {
        Position {
            chunk: ChunkRun::none(),
            time: TimeRun::before(tables.durations, k),
            rendering: OffsetRun::before(tables.rendering_offsets, k),
            sync: SyncGap::none(),
        }
    }

    /// Where sample `k` of a track lies, and when it is decoded and shown, as the tables of the track say: the next
    /// sample of the walk. A table is searched only where the sample is neither in the entry that the walk is in nor
    /// the first of the entry after it.
    #[inline(always)]
    #[tactic(auto, unfolding(crate::specs::Rule::rule))]
    pub fn place(&mut self, tables: &Tables, k: u32) -> Result<Option<Place>>
        requires tables { AreTables tables.now }
        requires here { AreIn (walked tables.now) k self.old }
        ensures rule { Gives (λ p. p) result (rule (walked tables.now) tables.now.track.now.trak.tkhd.track_id k) }
        ensures here { IfOk result (λ p. IfSome p (λ p. AreIn (walked tables.now) (k + 1) self.new)) }
    {
        let Some(located) = located_in_order(tables, k, &mut self.chunk)? else {
            return Ok(None);
        };
        let (duration, start_time) = time_in_order(tables, k, &mut self.time)?;
        let rendering_offset = rendering_offset_in_order(tables, k, &mut self.rendering);
        let is_sync = is_sync_in_order(tables, k, &mut self.sync);
        Ok(Some(Place {
            offset: located.offset,
            size: located.size,
            start_time,
            duration,
            rendering_offset,
            is_sync,
        }))
    }
}
