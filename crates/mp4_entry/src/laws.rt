//! Laws of the numbers that types of tracks and of sound have, and of what is made of configurations.
//!
//! Each function here does nothing; its contract is a law.

ghost use Rattle.std.specs.Prelude.{◌≡◌, ◌+◌, ℕ, Ok, None, length};
ghost use Rattle.mp4_codec.specs.declared.four_cc.FourCC.{FourCC};
ghost use Rattle.mp4_codec.specs.Bytes.{coded};
ghost use Rattle.mp4_codec.specs.Boxes.{write_cause};
ghost use Rattle.mp4_entry.specs.declared.config.MediaConfig.{MediaConfig};
ghost use Rattle.mp4_entry.specs.declared.track_type.TrackType.{TrackType};
ghost use Rattle.mp4_entry.specs.declared.sample_freq_index.SampleFreqIndex.{SampleFreqIndex};
ghost use Rattle.mp4_entry.specs.declared.channel_config.ChannelConfig.{ChannelConfig};
ghost use Rattle.mp4_entry.specs.TrackType.{handler_number, track_type_of};
ghost use Rattle.mp4_entry.specs.SampleFreqIndex.{freq_number, freq_index_of};
ghost use Rattle.mp4_entry.specs.ChannelConfig.{channel_number, channel_config_of};
ghost use Rattle.mp4_entry.specs.Config.{media_refusal, entry_length};
ghost use Rattle.mp4_entry.specs.Stsd.{stsd_payload, stsd_refusal, stsd_of_config};
ghost use Rattle.mp4_entry.specs.AudioObjectType.{IsObjectType, object_type_of};

/// Each value is what its number, or its handler, is read as.
pub fn values_have_their_numbers()
    ensures track_type { (t : TrackType) → track_type_of (coded (handler_number t)) ≡ Ok t }
    ensures frequency { (index : SampleFreqIndex) → freq_index_of (freq_number index) ≡ Ok index }
    ensures channels { (config : ChannelConfig) → channel_config_of (channel_number config) ≡ Ok config }
    ensures object_type { (n : ℕ) → IsObjectType n → object_type_of n ≡ Ok n }
{}

/// A number that is read as a value is the number of that value and of no other.
pub fn numbers_have_one_value()
    ensures frequency { (n : ℕ) (index : SampleFreqIndex) → freq_index_of n ≡ Ok index → n ≡ freq_number index }
    ensures channels { (n : ℕ) (config : ChannelConfig) → channel_config_of n ≡ Ok config → n ≡ channel_number config }
    ensures object_type { (n type : ℕ) → object_type_of n ≡ Ok type → n ≡ type }
{}

/// The sample description of a configuration has 16 bytes and those of its entry, its headers included. It is written
/// where the configuration isn't refused.
pub fn configurations_are_written()
    ensures size { (c : MediaConfig) → length (stsd_payload (stsd_of_config c)) ≡ 8 + entry_length c }
    ensures written { (c : MediaConfig) → media_refusal c ≡ None
        → write_cause (stsd_payload (stsd_of_config c)) (stsd_refusal (stsd_of_config c)) ≡ None }
{}
