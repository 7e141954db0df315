//! The tables of a track's samples in MP4 files (ISO/IEC 14496-12, 8.6 and 8.7): how long each sample
//! lasts, which can be played from, how long each is, and where each lies.
#![tactic(auto)]

mod co64;
mod ctts;
mod laws;
mod stco;
mod stsc;
mod stss;
mod stsz;
mod stts;
mod table;

pub use co64::Co64Box;
pub use ctts::{CttsBox, CttsEntry};
pub use laws::{
    entries_are_no_fewer_than_changes, entries_have_first_samples, runs_are_no_fewer_than_changes,
};
pub use stco::StcoBox;
pub use stsc::{StscBox, StscEntry};
pub use stss::StssBox;
pub use stsz::StszBox;
pub use stts::{SttsBox, SttsEntry};
