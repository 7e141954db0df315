//! The samples of a track by their numbers: where each lies, when it is decoded and shown, and whether it is
//! a sync sample (ISO/IEC 14496-12, 8.6 and 8.7). And what else a track says: its headers, its kind, how its samples
//! are coded, and how many there are in a second (8.3 to 8.5).
#![tactic(auto)]

mod by_time;
mod chunk_run;
mod codec;
mod counters;
mod headers;
mod in_order;
mod index;
mod kind;
mod laws;
mod locate;
mod located;
mod place;
mod position;
mod rates;
mod runs;
mod sample_cursor;
mod samples;
mod seek;
mod tables;
mod time;
mod timing;
mod track;

pub use by_time::{FoundNumber, TimeRange};
pub use laws::{decode_times_are_start_times, rule_is_plain_expansion};
pub use sample_cursor::SampleCursor;
pub use samples::Samples;
pub use time::time_of;
pub use track::Mp4Track;
