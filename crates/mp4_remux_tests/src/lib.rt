//! What the contracts of `mp4_remux` don't say: that a movie is rewritten at all, and as what, byte for byte; what is
//! refused; and sources and sinks that refuse a call.
#![tactic(auto)]

#[cfg(test)]
mod asserts;
#[cfg(test)]
mod checked;
#[cfg(test)]
mod files;
#[cfg(test)]
mod front;
#[cfg(test)]
mod gathered;
#[cfg(test)]
mod indexes;
#[cfg(test)]
mod references;
#[cfg(test)]
mod refused;
#[cfg(test)]
mod sinks;
#[cfg(test)]
mod sources;
