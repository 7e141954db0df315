//! What no case of `mp4_vectors` can say of movies: random calls of the writer beside a plain model, what it wrote when
//! it is read back, random tables and files beside plain ones, and a million samples. What a contract says isn't tested
//! again.
#![tactic(auto)]

#[cfg(test)]
mod asserts;
#[cfg(test)]
mod equality;
#[cfg(test)]
mod guessed_numbers;
#[cfg(test)]
mod large_sample;
#[cfg(test)]
mod listed;
#[cfg(test)]
mod long_lists;
#[cfg(test)]
mod million_run_samples;
#[cfg(test)]
mod million_samples;
#[cfg(test)]
mod plain_files;
#[cfg(test)]
mod plain_fragments;
#[cfg(test)]
mod plain_lists;
#[cfg(test)]
mod puts;
#[cfg(test)]
mod queries;
#[cfg(test)]
mod random_columns;
#[cfg(test)]
mod random_cursors;
#[cfg(test)]
mod random_files;
#[cfg(test)]
mod random_fragment_files;
#[cfg(test)]
mod random_fragments;
#[cfg(test)]
mod random_movies;
#[cfg(test)]
mod random_tracks;
#[cfg(test)]
mod read_back;
#[cfg(test)]
mod round_trip;
#[cfg(test)]
mod taste;
#[cfg(test)]
mod tracks;
#[cfg(test)]
mod walked_lookup;
#[cfg(test)]
mod writer_calls;
#[cfg(test)]
mod written;
#[cfg(test)]
mod written_files;
