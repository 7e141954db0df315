//! Where a file is broken: the first fault of a file that doesn't open, with the boxes that it is in, its place and its
//! error.
#![tactic(auto)]

mod box_fault;
mod child;
mod containers;
mod fault_place;
mod first_fault;
mod ids;
mod innermost;
mod refusal;
mod top_level;
mod wrong_id;

pub use box_fault::first_fault_in;
pub use containers::{bytes_before_children, looks_at_first_alone, reads_child, reads_items};
pub use fault_place::{BoxPath, FaultPlace, PathStep};
pub use first_fault::first_fault_of;
pub use refusal::refusal_of;
