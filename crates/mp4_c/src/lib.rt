//! MP4 files from C and from any language that calls C: one call does one job.
//!
//! A file is a slice of bytes that the caller holds. Nothing is kept between calls. The header is
//! `bindings/c/mp4.h`: there a slice is a pointer and a length, and `alloc` is left out.
#![tactic(auto)]

mod answer;
mod by_time;
mod configs;
mod copied;
mod metadata;
mod movie;
mod opened_file;
mod remuxed;
mod rows;
mod samples;
mod text;
mod tracks;
mod version;
mod written;

pub use answer::{Answer, NOT_PRESENT, NULL_POINTER, UNKNOWN_CHOICE};
pub use by_time::{mp4_c_sample_at, mp4_c_sync_sample_at_or_before};
pub use configs::{Brand, NewMovie, NewTrack};
pub use metadata::{mp4_c_metadata, mp4_c_parameter_set};
pub use movie::{MovieInfo, mp4_c_brands, mp4_c_open};
pub use remuxed::{mp4_c_choose, mp4_c_gather, mp4_c_move_to_front};
pub use rows::{mp4_c_row_at, mp4_c_sync_row_at_or_before};
pub use samples::{SampleRow, mp4_c_samples};
pub use text::{mp4_c_error_text, mp4_c_open_error_text};
pub use tracks::{TrackInfo, mp4_c_tracks};
pub use version::mp4_c_version;
pub use written::mp4_c_write;
