//! What a writer is made of: the tracks that it keeps, its chunks, and the steps of its calls.

pub use mp4_mux::{
    ChunkPlace, ChunkRef, Durations, Media, SampleInfo, TrackWriter, begin, check_file_type,
    check_movie, file_type, file_type_size, finish, movie_size, pending_bytes, put_movie,
};
