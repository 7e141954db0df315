//! What tests compare with: calls of a writer as plain data, the movie that they make and tables of tracks encoded byte
//! by byte, without the library's boxes; bytes encoded as text, boxes that are no box of a file, numbers at random, and
//! whether values are equal. Nothing here knows the writer, the lookup or the reader.
#![tactic(auto)]

pub mod calls;
pub mod encoded;
pub mod equality;
pub mod listed_calls;
pub mod movie_bytes;
pub mod plain_bytes;
pub mod plain_entries;
pub mod plain_movie;
pub mod plain_tables;
pub mod plain_tracks;
pub mod random;
pub mod random_tables;
pub mod sample_boxes;
pub mod sides;
