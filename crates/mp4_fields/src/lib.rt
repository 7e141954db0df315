//! The fields of boxes, by their names: those of each kind of box, and how their values are printed.
#![tactic(auto)]

mod fragment;
mod header;
mod leaf;
mod list;
mod media;
mod table;
mod value;

pub use leaf::{fields_of, has_fields};
pub use list::Listing;
pub use value::{Field, List, Table, Value};
