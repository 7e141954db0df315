//! What a sample entry says of sound.

ghost use Rattle.std.specs.Prelude.{◌≡◌, ◌≤◌, IfSome};
ghost use Rattle.mp4_report.specs.Sounds.{channel_count, channels_by_number, channels_of_type, decoder_sound};
ghost use Rattle.mp4_report.specs.Sounds.{entry_sound, frequency_by_index, sound_of};

use crate::codec_name::MPEG4_AUDIO;
use mp4_entry::{ChannelConfig, DecoderSpecificDescriptor, Mp4aBox, SampleFreqIndex};
use mp4_readable::Grouped;
use serde::Serialize;
use std::fmt;
use std::fmt::Write;

/// The type of sound whose upper half of frequencies is replicated from the lower (ISO/IEC 14496-3, 1.5.1.2):
/// SBR.
const SPECTRAL_BAND_REPLICATION: u8 = 5;

/// The type of the same sound, whose two channels are made of one: PS.
const PARAMETRIC_STEREO: u8 = 29;

/// What is known of the sound of a track.
#[derive(Clone, Copy, Debug, PartialEq, Eq, Serialize)]
pub struct Sound {
    /// Samples of sound in a second, as they are played.
    pub sampling_frequency: u32,
    /// Those that are encoded, where a decoder makes more of them: half as many.
    pub core_frequency: Option<u32>,
    pub channels: u16,
}

/// How many channels an arrangement of them has (ISO/IEC 14496-3, 1.6.3.5).
#[tactic(auto, unfolding(crate::specs::Sounds::channel_count))]
fn channels_of(config: ChannelConfig) -> u16
    ensures { result ≡ channel_count config }
{
    match config {
        ChannelConfig::SevenOne => 8,
        other => u16::from(other.number()),
    }
}

/// The channels that the number of an arrangement says, if it is that of one.
#[tactic(auto, unfolding(crate::specs::Sounds::channels_by_number))]
fn channels_by_number(number: u8) -> Option<u16>
    ensures { result ≡ channels_by_number number }
{
    match ChannelConfig::try_from(number) {
        Ok(config) => Some(channels_of(config)),
        Err(_) => None,
    }
}

/// The frequency that an index says, if it is that of one.
#[tactic(auto, using(crate::proofs::Sounds::hertz_small), unfolding(crate::specs::Sounds::frequency_by_index))]
fn frequency_by_index(index: u8) -> Option<u32>
    ensures hertz { result ≡ frequency_by_index index }
    ensures small { IfSome result (λ frequency. frequency ≤ 96000) }
{
    match SampleFreqIndex::try_from(index) {
        Ok(index) => Some(index.freq()),
        Err(_) => None,
    }
}

/// How many channels sound of a type has that a decoder is started with so many of.
#[tactic(auto, unfolding(crate::specs::Sounds::channels_of_type))]
fn channels_of_type(profile: u8, channels: u16) -> u16
    ensures { result ≡ channels_of_type profile channels }
{
    if profile == PARAMETRIC_STEREO && channels == 1 {
        2
    } else {
        channels
    }
}

impl Sound {
    /// The sound that the entry itself says.
    fn of_entry(entry: &Mp4aBox) -> Self
        ensures { result ≡ entry_sound entry.now }
    {
        Sound {
            sampling_frequency: u32::from(entry.samplerate.value()),
            core_frequency: None,
            channels: entry.channelcount,
        }
    }

    /// The sound that a decoder is started with; what that doesn't say is as the entry says.
    #[tactic(auto, unfolding(crate::specs::Sounds::decoder_sound))]
    fn of_decoder(decoder: DecoderSpecificDescriptor, said: Sound) -> Self
        ensures { result ≡ decoder_sound decoder said }
    {
        let profile = decoder.profile;
        let channels = channels_by_number(decoder.chan_conf).unwrap_or(said.channels);
        let channels = channels_of_type(profile, channels);
        let Some(frequency) = frequency_by_index(decoder.freq_index) else {
            return Sound { channels, ..said };
        };
        if profile == SPECTRAL_BAND_REPLICATION || profile == PARAMETRIC_STEREO {
            return Sound {
                sampling_frequency: frequency.saturating_mul(2),
                core_frequency: Some(frequency),
                channels,
            };
        }
        Sound {
            sampling_frequency: frequency,
            core_frequency: None,
            channels,
        }
    }

    /// The sound of an entry: as its `esds` says, where that is of MPEG-4 audio and says a type of sound, or
    /// else as the entry itself does.
    #[tactic(auto, unfolding(crate::specs::Sounds::sound_of))]
    pub fn of(entry: &Mp4aBox) -> Self
        ensures { result ≡ sound_of entry.now }
    {
        let said = Sound::of_entry(entry);
        let Some(esds) = &entry.esds else {
            return said;
        };
        let config = esds.es_desc.dec_config;
        if config.object_type_indication != MPEG4_AUDIO || config.dec_specific.profile == 0 {
            return said;
        }
        Sound::of_decoder(config.dec_specific, said)
    }
}

impl fmt::Display for Sound {
    fn fmt<W: fmt::Write>(&self, f: &mut fmt::Formatter<W>) -> fmt::Result {
        let frequency = Grouped(u64::from(self.sampling_frequency));
        let channels = self.channels;
        let noun = if channels == 1 { "channel" } else { "channels" };
        match self.core_frequency {
            Some(core) => {
                let core = Grouped(u64::from(core));
                write!(f, "{frequency} Hz of {core} Hz encoded, {channels} {noun}")
            }
            None => write!(f, "{frequency} Hz, {channels} {noun}"),
        }
    }
}
