//! The boxes of movie fragments (ISO/IEC 14496-12, 8.8): `moof`, `traf`, `mvex` of the movie box and the leaves in
//! them, and the event message (ISO/IEC 23009-1, 5.10.3).
#![tactic(auto)]

mod emsg;
mod mehd;
mod mfhd;
mod moof;
mod mvex;
mod optional;
mod rows;
mod tfdt;
mod tfhd;
mod traf;
mod trex;
mod trun;

pub use emsg::EmsgBox;
pub use mehd::MehdBox;
pub use mfhd::MfhdBox;
pub use moof::MoofBox;
pub use mvex::MvexBox;
pub use tfdt::TfdtBox;
pub use tfhd::TfhdBox;
pub use traf::TrafBox;
pub use trex::TrexBox;
pub use trun::TrunBox;
