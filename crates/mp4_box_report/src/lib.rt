//! What is said of the boxes of a file, whether it opens or not: where they lie, what they hold, and which of them the
//! file is refused for.
#![tactic(auto)]

mod boxes;
mod listing;
mod path;
mod said;
mod walk;
mod wave;
mod why;

pub use boxes::{BoxFields, BoxReport, Boxes, BoxesRequest};
pub use listing::{BoxesError, write_boxes};
pub use path::path_at;
pub use why::{WhyReport, why_of};
