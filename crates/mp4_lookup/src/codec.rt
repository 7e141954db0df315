//! What the decoder of a track is started with (ISO/IEC 14496-12, 8.5.2).

ghost use Rattle.mp4_codec.specs.Cause.{Gives};
ghost use Rattle.mp4_lookup.specs.Codec.{sound_decoder_of, sample_freq_index_of, channels_of, audio_profile_of};
ghost use Rattle.mp4_lookup.specs.Codec.{video_decoder_of, video_profile_of, first_set, sequence_set_of};
ghost use Rattle.mp4_lookup.specs.Codec.{picture_set_of};

use crate::track::Mp4Track;
use mp4_codec::{BoxType, Error, Result, SharedItems};
use mp4_entry::{
    AudioObjectType, AvcCBox, AvcProfile, ChannelConfig, DecoderSpecificDescriptor, NalUnit,
    SampleFreqIndex,
};

impl Mp4Track {
    /// The sampling frequency of a track of sound, as the esds of its sample entry mp4a says (ISO/IEC 14496-12, 8.5.2).
    ///
    /// `BoxInStblNotFound` of `Mp4aBox` without mp4a, then of `EsdsBox` without esds, then `InvalidData` for an index
    /// of no frequency.
    #[tactic(auto, unfolding(crate::specs::Codec::sample_freq_index_of))]
    pub fn sample_freq_index(&self) -> Result<SampleFreqIndex>
        ensures { Gives (λ index. index) result (sample_freq_index_of self.now.trak) }
    {
        let decoder = self.sound_decoder()?;
        SampleFreqIndex::try_from(decoder.freq_index)
    }

    /// The channels of a track of sound, as the esds of its sample entry mp4a says (ISO/IEC 14496-12, 8.5.2).
    ///
    /// `BoxInStblNotFound` of `Mp4aBox` without mp4a, then of `EsdsBox` without esds, then `InvalidData` for a number
    /// of no channels.
    #[tactic(auto, unfolding(crate::specs::Codec::channels_of))]
    pub fn channel_config(&self) -> Result<ChannelConfig>
        ensures { Gives (λ config. config) result (channels_of self.now.trak) }
    {
        let decoder = self.sound_decoder()?;
        ChannelConfig::try_from(decoder.chan_conf)
    }

    /// The type of the sound of a track, as the esds of its sample entry mp4a says (ISO/IEC 14496-12, 8.5.2).
    ///
    /// `BoxInStblNotFound` of `Mp4aBox` without mp4a, then of `EsdsBox` without esds, then `InvalidData` for a number
    /// of no type of sound.
    #[tactic(auto, unfolding(crate::specs::Codec::audio_profile_of))]
    pub fn audio_profile(&self) -> Result<AudioObjectType>
        ensures { Gives (λ t. t.number) result (audio_profile_of self.now.trak) }
    {
        let decoder = self.sound_decoder()?;
        AudioObjectType::try_from(decoder.profile)
    }

    /// The profile of a track of AVC video, as the avcC of its sample entry avc1 says (ISO/IEC 14496-12, 8.5.2).
    ///
    /// `BoxInStblNotFound` of `Avc1Box` without avc1, then `InvalidData` for a number of no profile.
    #[tactic(auto, unfolding(crate::specs::Codec::video_profile_of))]
    pub fn video_profile(&self) -> Result<AvcProfile>
        ensures { Gives (λ profile. profile) result (video_profile_of self.now.trak) }
    {
        let decoder = self.video_decoder()?;
        AvcProfile::try_from((
            decoder.avc_profile_indication,
            decoder.profile_compatibility,
        ))
    }

    /// The bytes of the first sequence parameter set of a track of AVC video, as the avcC of its sample entry avc1 has
    /// it (ISO/IEC 14496-12, 8.5.2).
    ///
    /// `BoxInStblNotFound` of `Avc1Box` without avc1, then `EntryInStblNotFound` of `AvcCBox` and 0 where there is
    /// none.
    #[tactic(auto, unfolding(crate::specs::Codec::sequence_set_of))]
    pub fn sequence_parameter_set(&self) -> Result<&[u8]>
        ensures { Gives (λ set. set.now) result (sequence_set_of self.now.trak) }
    {
        let decoder = self.video_decoder()?;
        first_of(self.track_id(), &decoder.sequence_parameter_sets)
    }

    /// The bytes of the first picture parameter set of a track of AVC video, as the avcC of its sample entry avc1 has
    /// it (ISO/IEC 14496-12, 8.5.2).
    ///
    /// `BoxInStblNotFound` of `Avc1Box` without avc1, then `EntryInStblNotFound` of `AvcCBox` and 0 where there is
    /// none.
    #[tactic(auto, unfolding(crate::specs::Codec::picture_set_of))]
    pub fn picture_parameter_set(&self) -> Result<&[u8]>
        ensures { Gives (λ set. set.now) result (picture_set_of self.now.trak) }
    {
        let decoder = self.video_decoder()?;
        first_of(self.track_id(), &decoder.picture_parameter_sets)
    }

    /// What the decoder of sound is started with.
    #[tactic(auto, unfolding(crate::specs::Codec::sound_decoder_of))]
    fn sound_decoder(&self) -> Result<DecoderSpecificDescriptor>
        ensures { Gives (λ decoder. decoder) result (sound_decoder_of self.now.trak) }
    {
        let track_id = self.track_id();
        let Some(entry) = &self.trak.mdia.minf.stbl.stsd.mp4a else {
            return Err(Error::BoxInStblNotFound(track_id, BoxType::Mp4aBox));
        };
        let Some(stream) = &entry.esds else {
            return Err(Error::BoxInStblNotFound(track_id, BoxType::EsdsBox));
        };
        Ok(stream.es_desc.dec_config.dec_specific)
    }

    /// What the decoder of AVC video is started with.
    #[tactic(auto, unfolding(crate::specs::Codec::video_decoder_of))]
    fn video_decoder(&self) -> Result<&AvcCBox>
        ensures { Gives (λ decoder. decoder.now) result (video_decoder_of self.now.trak) }
    {
        let Some(entry) = &self.trak.mdia.minf.stbl.stsd.avc1 else {
            return Err(Error::BoxInStblNotFound(self.track_id(), BoxType::Avc1Box));
        };
        Ok(&entry.avcc)
    }
}

/// The bytes of the first of these parameter sets of a track.
#[tactic(auto, unfolding(crate::specs::Codec::first_set))]
fn first_of(track_id: u32, sets: &SharedItems<NalUnit>) -> Result<&[u8]>
    ensures { Gives (λ set. set.now) result (first_set track_id sets.now) }
{
    match sets.get(0) {
        Some(set) => Ok(set.bytes.as_slice()),
        None => Err(Error::EntryInStblNotFound(track_id, BoxType::AvcCBox, 0)),
    }
}
