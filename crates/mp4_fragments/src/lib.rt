//! The samples that movie fragments add to a track: where each lies and when it is decoded (ISO/IEC 14496-12, 8.8).
#![tactic(auto)]

mod base_data_offsets;
mod by_time;
mod cursor;
mod defaults;
mod entry;
mod index;
mod lookup;
mod placing;
mod run_samples;
mod run_starts;
mod seek;
mod sync;
mod times;
mod values;

pub use base_data_offsets::{counts_from_data_before, traf_base_data_offset, traf_end};
pub use cursor::{RunCursor, RunEnd, RunPosition};
pub use defaults::SampleDefaults;
pub use index::RunIndex;
pub use placing::index_of;
pub use run_samples::{RunSample, RunStart};
pub use seek::{SeekIndex, seek_index_of};
pub use sync::SyncSpans;
pub use times::RunTimes;
