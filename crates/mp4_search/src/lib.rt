//! Search in numbers that rise, with each reading counted.
#![tactic(auto)]

mod bit_set;
mod counted;
mod line;
mod near;
mod partition;
mod search;

pub use bit_set::BitSet;
pub use counted::{CappedSums, LookedUp, Readings, SearchedNumbers};
pub use partition::{Parted, partition_point};
pub use search::{ByGuess, ByHalves, Search, SearchHit};
