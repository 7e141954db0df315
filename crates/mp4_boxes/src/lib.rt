//! The containers of movies and tracks (ISO/IEC 14496-12): boxes of boxes.
#![tactic(auto)]

mod edts;
mod laws;
mod mdia;
mod minf;
mod moov;
mod parts;
mod stbl;
mod trak;

pub use edts::EdtsBox;
pub use laws::read_tables_have_first_samples;
pub use mdia::MdiaBox;
pub use minf::MinfBox;
pub use moov::MoovBox;
pub use parts::required_two;
pub use stbl::StblBox;
pub use trak::TrakBox;
