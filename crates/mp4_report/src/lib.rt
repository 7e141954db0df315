//! What is said of the movie of a file: its tracks, their samples, and what it says of its work. Each report is a value
//! that is printed as a text for people (`Display`) or as JSON for programs (`Serialize`).
#![tactic(auto)]

mod boxes_within;
mod codec_name;
mod equal_samples;
mod language;
mod metadata;
mod milliseconds;
mod past_end;
mod print;
mod rate;
mod samples;
mod sound;
mod spans;
mod summary;
mod tag_names;
mod tag_value;
mod tags;
mod tracks;
mod user_data;

pub use codec_name::{CodecName, HevcName};
pub use metadata::{CoverReport, MetadataReport, cover_of, metadata_of};
pub use past_end::{PastEnd, TrackPastEnd, samples_past_end, tracks_past_end};
pub use print::{PrintError, write_samples};
pub use samples::{First, SampleColumns, SampleLine, SampleReport, SampleRows, SamplesRequest};
pub use sound::Sound;
pub use summary::{SampleSummary, summary_of};
pub use tags::{Tag, tags_of};
pub use tracks::{PictureSize, TrackKind, TrackReport, TracksReport, tracks_of};
