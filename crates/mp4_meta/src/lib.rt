//! Metadata and user data of movies and tracks (ISO/IEC 14496-12, 8.10 and 8.11; Apple's metadata).
#![tactic(auto)]

mod ilst;
mod meta;
mod metadata;
mod metadata_key;
mod udta;

pub use ilst::{IlstBox, IlstItemBox};
pub use meta::MetaBox;
pub use metadata::Metadata;
pub use metadata_key::{MetadataKey, equal_keys_hash_alike};
pub use udta::UdtaBox;
