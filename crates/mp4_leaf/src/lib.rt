//! The leaf boxes of movies, tracks and metadata (ISO/IEC 14496-12).
#![tactic(auto)]

mod data;
mod dinf;
mod elst;
mod ftyp;
mod hdlr;
mod language;
mod matrix;
mod mdhd;
mod mvhd;
mod smhd;
mod times;
mod tkhd;
mod vmhd;

pub use data::{DataBox, DataType};
pub use dinf::{DinfBox, DrefBox, UrlBox};
pub use elst::{ElstBox, ElstEntry};
pub use ftyp::FtypBox;
pub use hdlr::HdlrBox;
pub use language::check_language;
pub use matrix::Matrix;
pub use mdhd::MdhdBox;
pub use mvhd::MvhdBox;
pub use smhd::SmhdBox;
pub use tkhd::TkhdBox;
pub use vmhd::{RgbColor, VmhdBox};
