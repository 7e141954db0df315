//! The samples of a track out of a file: their bytes as they are stored, or as players of video and sound take them,
//! and the texts of subtitles.
#![tactic(auto)]

mod adts;
mod annex_b;
mod clock;
mod coding;
mod descriptions;
mod edits;
mod error;
mod form;
mod format;
mod neighbours;
mod parameter_sets;
mod samples;
mod srt;
mod text;
mod text_track;
mod times;

pub use adts::AdtsConfig;
pub use annex_b::AnnexB;
pub use coding::VideoCoding;
pub use descriptions::OtherSample;
pub use edits::{SubtitleTimes, TextShift};
pub use error::ExtractError;
pub use form::SampleForm;
pub use format::SampleFormat;
pub use samples::{SampleWriter, extract};
pub use srt::{write_line, write_srt};
pub use text_track::{Subtitle, SubtitleReader, subtitles};
