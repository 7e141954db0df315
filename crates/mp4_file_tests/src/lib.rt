//! What the contracts of `mp4_source` and `mp4_media` don't say of files: how often a source is asked; sources that
//! refuse a call, give less than is asked for or change their length; and that a file is opened and read alike whatever
//! its bytes are read from. And callers that any source or any sink serves.
#![tactic(auto)]

#[cfg(test)]
mod answers;
#[cfg(test)]
mod asserts;
pub mod caller;
#[cfg(test)]
mod calls;
#[cfg(test)]
mod changed_lengths;
#[cfg(test)]
mod cuts;
#[cfg(test)]
mod disk;
#[cfg(test)]
mod every_source;
#[cfg(test)]
mod files;
#[cfg(test)]
mod movies;
#[cfg(test)]
mod parts;
#[cfg(test)]
mod refused_reads;
#[cfg(test)]
mod sinks;
#[cfg(test)]
mod slices;
#[cfg(test)]
mod windows;
#[cfg(test)]
mod written_disk;
