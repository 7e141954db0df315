//! Samples as the tables of a track describe them: what a sample is, where each lies and when it is decoded and shown
//! (ISO/IEC 14496-12, 8.6 and 8.7). What reads samples and what writes them both use these definitions.
#![tactic(auto)]

mod sample;

pub use sample::{Comparisons, Mp4Sample, Place, SamplePlace, SampleRef, is_equal_sample};
