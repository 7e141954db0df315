//! What no text of a case says of the crates that `mp4_inspect` depends on: that the samples of random tracks are
//! summed up and found by their times as a plain walk over them finds.
#![tactic(auto)]

#[cfg(test)]
mod plain_summary;
#[cfg(test)]
mod random_files;
#[cfg(test)]
mod summaries;
