//! What a lookup is made of: the counted search in a table, and the runs that movie fragments add to a track.

pub use mp4_fragments::{
    RunCursor, RunEnd, RunIndex, RunPosition, RunSample, RunStart, RunTimes, SampleDefaults,
    SeekIndex, SyncSpans, index_of, seek_index_of, traf_base_data_offset, traf_end,
};
pub use mp4_search::{
    ByGuess, ByHalves, CappedSums, LookedUp, Parted, Readings, Search, SearchHit, SearchedNumbers,
    partition_point,
};
