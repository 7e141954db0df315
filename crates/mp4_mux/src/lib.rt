//! The parts of a writer of movies (ISO/IEC 14496-12).
#![tactic(auto)]

mod beginning;
mod chunk_place;
mod column;
mod column_tables;
mod config;
mod description;
mod durations;
mod ending;
mod laws;
mod mdat;
mod media;
mod runs;
mod sample_info;
mod sample_infos;
mod table_sizes;
mod tables;
mod track_headers;
mod track_writer;
mod trak;

pub use beginning::{begin, check_file_type, file_type, file_type_size};
pub use chunk_place::{ChunkPlace, ChunkRef};
pub use config::{Mp4Config, TrackConfig};
pub use durations::Durations;
pub use ending::{check_movie, finish, movie_size, pending_bytes, put_movie};
pub use laws::{
    an_end_closes_one_chunk_a_track, an_end_writes_the_accepted_samples,
    calls_accept_their_samples, chunks_are_just_full, described_samples_are_found,
    interleavings_accept_the_same,
};
pub use mdat::mdat_header;
pub use media::Media;
pub use sample_info::SampleInfo;
pub use sample_infos::SampleInfos;
pub use tables::{ctts, stss, stsz, stts};
pub use track_writer::TrackWriter;
