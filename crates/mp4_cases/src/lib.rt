//! What programs that run cases share: the language of cases (bytes, changes of bytes, expected answers), and what
//! boxes, their fields, headers, codes and configurations answer. What files, scripts and writers answer is in
//! `mp4_vectors`, so this is proved beside the crates that open and write files.
#![tactic(auto)]

pub mod boxes;
pub mod changes;
pub mod codecs;
pub mod codes;
pub mod configs;
pub mod cuts;
pub mod defaults;
pub mod encoded;
pub mod expected;
pub mod fields;
pub mod fixed_point;
pub mod framing;
pub mod items;
pub mod kinds;
pub mod languages;
pub mod media;
pub mod metadata;
pub mod refusals;
