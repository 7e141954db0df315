//! What is kept of the runs of a track so that its samples are found by their times, and the sync samples among them.

ghost use Rattle.std.specs.Prelude.{◌≡◌, IfOk};
ghost use Rattle.mp4_fragments.specs.Index.{Indexes, run_at, runs_of};
ghost use Rattle.mp4_fragments.specs.Seek.{IsSeekIndex};

use crate::defaults::SampleDefaults;
use crate::index::RunIndex;
use crate::sync::{SyncSpans, spans_of};
use crate::times::{RunTimes, times_of};
use mp4_moof::TrafBox;
use std::alloc::{AllocError, Global};

/// When runs begin, and which of their samples are sync samples.
#[derive(Debug, Drop)]
pub struct SeekIndex {
    pub times: RunTimes,
    pub sync: SyncSpans,
}

/// What is kept of the runs of an index, as far as their samples have numbers below `end`, which count from 0 over all
/// fragments of the track. The index stays as it is.
pub fn seek_index_of(
    alloc: Global,
    trafs: &[TrafBox],
    track: SampleDefaults,
    index: &mut RunIndex,
    end: u32,
) -> Result<SeekIndex, AllocError>
    requires { Indexes (run_at trafs.now track) (runs_of trafs.now track index.old) index.old }
    ensures made { IfOk result (IsSeekIndex (runs_of trafs.now track index.old) end) }
    ensures kept { index.new ≡ index.old }
{
    let times = times_of(alloc, trafs, track, index, end)?;
    let sync = spans_of(alloc, trafs, track, index, end)?;
    Ok(SeekIndex { times, sync })
}
