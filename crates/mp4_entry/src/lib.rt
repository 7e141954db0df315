//! Sample entries and the boxes inside them: which codec a track's samples have, and what a decoder is started with
//! (ISO/IEC 14496-12, 8.5.2).
#![tactic(auto)]

mod audio_object_type;
mod avc1;
mod avc_profile;
mod avcc;
mod channel_config;
mod config;
mod descriptor;
mod esds;
mod hev1;
mod hvcc;
mod laws;
mod media_type;
mod mp4a;
mod narrow;
mod sample_entry;
mod sample_freq_index;
mod stsd;
mod track_type;
mod tx3g;
mod visual;
mod vp09;
mod vpcc;

pub use audio_object_type::AudioObjectType;
pub use avc_profile::AvcProfile;
pub use avc1::{Avc1Box, AvcConfig};
pub use avcc::{AvcCBox, NalUnit};
pub use channel_config::ChannelConfig;
pub use config::{MediaConfig, entry_size};
pub use esds::{
    DecoderConfigDescriptor, DecoderSpecificDescriptor, ESDescriptor, EsdsBox, SLConfigDescriptor,
};
pub use hev1::{Hev1Box, HevcConfig};
pub use hvcc::HvcCBox;
pub use laws::{configurations_are_written, numbers_have_one_value, values_have_their_numbers};
pub use media_type::MediaType;
pub use mp4a::{AacConfig, Mp4aBox};
pub use sample_freq_index::SampleFreqIndex;
pub use stsd::StsdBox;
pub use track_type::TrackType;
pub use tx3g::{TtxtConfig, Tx3gBox};
pub use vp09::{Vp09Box, Vp9Config};
pub use vpcc::VpccBox;
