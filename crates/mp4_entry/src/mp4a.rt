//! The sample entry of MPEG-4 audio.

ghost use Rattle.mp4_codec.specs.ExactTest.{by_law, by_test, field_tests};
ghost use Rattle.mp4_entry.specs.contracts.esds.EsdsBoxExactEq.TheImpl.Laws.{lawful as esds_laws};
ghost use Rattle.mp4_entry.specs.AudioObjectTypeLaws.{exact_object_type};
ghost use Rattle.mp4_entry.specs.contracts.sample_freq_index.SampleFreqIndexExactEq.TheImpl.Laws.{lawful as sample_freq_index_laws};
ghost use Rattle.mp4_entry.specs.contracts.channel_config.ChannelConfigExactEq.TheImpl.Laws.{lawful as channel_config_laws};
ghost use Rattle.std.specs.Prelude.{◌≡◌, ◌+◌, length, Ok};
ghost use Rattle.std.specs.Option.{option_map};
ghost use Rattle.mp4_codec.specs.declared.box_type.BoxType.TheVariants.{EsdsBox as esds, Mp4aBox as mp4a};
ghost use Rattle.mp4_codec.specs.Cause.{Gives};
ghost use Rattle.mp4_codec.specs.Children.{child_box, with_last};
ghost use Rattle.mp4_codec.specs.Boxes.{size_around};
ghost use Rattle.mp4_entry.specs.Mp4a.{as_it_is, last_payload, found_esds, direct_esds, child_esds, versioned_esds};
ghost use Rattle.mp4_entry.specs.Mp4a.{mp4a_of, mp4a_payload, mp4a_refusal, IsInRangeMp4a, IsWellFormedMp4a};
ghost use Rattle.mp4_entry.specs.Mp4a.{default_mp4a, samplerate_of, esds_of_config, mp4a_of_config, IsInRangeAacConfig};
ghost use Rattle.mp4_entry.specs.Mp4a.{mp4a_config_length};
ghost use Rattle.mp4_entry.specs.Mp4aLaws.{mp4a_again};
ghost use Rattle.mp4_codec.specs.Early.{at_once};

use crate::audio_object_type::AudioObjectType;
use crate::channel_config::ChannelConfig;
use crate::esds::{
    DecoderConfigDescriptor, DecoderSpecificDescriptor, ESDescriptor, EsdsBox, SLConfigDescriptor,
};
use crate::sample_freq_index::SampleFreqIndex;
use mp4_codec::{
    BoxType, Child, Children, ExactEq, Fields, FixedPointU16, InRange, Mp4Box, Plain, Put, ReadBox,
    Result, WriteBox, check_optional, last_child, optional_size, put_optional, put_u16, put_u32,
    put_zeros,
};
use std::alloc::Global;

/// The bytes of the entry of a configuration, its header included.
pub(crate) const MP4A_SIZE: u64 = 75;

/// The sample entry of MPEG-4 audio, `mp4a` (ISO/IEC 14496-14, 5.6; ISO/IEC 14496-12, 12.2.3).
///
/// After the fields of sound version 0 are children. In version 1, QuickTime's, 16 more bytes are before them;
/// less than 16 are `InvalidData`. In any other version children aren't looked at. It is written in version 0.
///
/// The last `esds` among the children counts; each of them is read, and the first fault in file order, of framing too,
/// is the answer. Where there is none, the last `esds` of the last `wave` counts, and it alone is read there; a `wave`
/// whose children are no boxes has none. An entry isn't written where its `esds` isn't, for the same cause.
#[derive(Clone, Copy, Debug, PartialEq, Eq)]
pub struct Mp4aBox {
    /// Which of the track's data references has the samples, counted from 1.
    pub data_reference_index: u16,
    pub channelcount: u16,
    /// Bits of a sample of sound; 16 as a rule.
    pub samplesize: u16,
    /// Samples of sound in a second.
    pub samplerate: FixedPointU16,
    /// What the decoder is started with.
    pub esds: Option<EsdsBox>,
}

impl ExactEq for Mp4aBox {
    ghost exact = { by_test (Prim.hlevel (field_tests, by_law esds_laws.exact)) };
}

/// What the entry of a track of AAC sound is made from.
#[derive(Clone, Copy, Debug, PartialEq, Eq)]
pub struct AacConfig {
    /// Bits in a second.
    pub bitrate: u32,
    /// The type of the coded sound; 2 is AAC LC.
    pub profile: AudioObjectType,
    pub freq_index: SampleFreqIndex,
    pub chan_conf: ChannelConfig,
}

impl ExactEq for AudioObjectType {
    ghost exact = { exact_object_type };
}

impl ExactEq for AacConfig {
    ghost exact = { by_test (Prim.hlevel (
      field_tests,
      by_law exact_object_type,
      by_law sample_freq_index_laws.exact,
      by_law channel_config_laws.exact,
    )) };
}

impl Plain for AacConfig {}

impl InRange for AacConfig {
    ghost IsInRange = { IsInRangeAacConfig };

    fn in_range(&self) {
        self.bitrate.in_range();
        self.profile.in_range();
    }
}

/// Samples of sound in a second; 0 where they pass the 16 bits of the whole part.
fn samplerate(index: SampleFreqIndex) -> FixedPointU16
    ensures { result ≡ samplerate_of index }
{
    let hertz = index.freq();
    if hertz > 65_535 {
        return FixedPointU16::new_raw(0);
    }
    FixedPointU16::new(hertz as u16)
}

/// What the decoder of a configuration is started with.
fn esds_of(config: &AacConfig) -> EsdsBox
    ensures { result ≡ esds_of_config config.now }
{
    EsdsBox {
        version: 0,
        flags: 0,
        es_desc: ESDescriptor {
            es_id: 1,
            dec_config: DecoderConfigDescriptor {
                object_type_indication: 0x40,
                stream_type: 5,
                up_stream: 0,
                buffer_size_db: 0,
                max_bitrate: config.bitrate,
                avg_bitrate: config.bitrate,
                dec_specific: DecoderSpecificDescriptor {
                    profile: config.profile.number(),
                    freq_index: config.freq_index.number(),
                    chan_conf: config.chan_conf.number(),
                },
            },
            sl_config: SLConfigDescriptor {},
        },
    }
}

/// The payload of the last child of a type, with one child more.
fn with_child<'a>(kind: BoxType, child: &Child<'a>, last: Option<&'a [u8]>) -> Option<&'a [u8]>
    ensures { with_last kind as_it_is (child_box child.now) (option_map (λ x. x.now) last.entry)
        ≡ Ok (option_map (λ x. x.now) result) }
{
    if u32::from(child.name) == u32::from(kind) {
        return Some(child.payload);
    }
    last
}

/// The payload of the last child of a type; `InvalidData` where a tail is broken.
fn last_payload(bytes: &[u8], kind: BoxType) -> Result<Option<&[u8]>>
    ensures { Gives (λ p. option_map (λ x. x.now) p) result (last_payload kind bytes.now) }
{
    let mut last = None;
    let mut children = Children::new(bytes);
    while let Some(child) = children.next_child()? {
        last = with_child(kind, &child, last);
    }
    Ok(last)
}

/// The last `esds` among the children of a `wave`; None where they are no boxes.
fn wave_esds(alloc: Global, wave: &[u8]) -> Result<Option<EsdsBox>>
    ensures { Gives (λ b. b) result (found_esds (last_payload esds wave.now)) }
{
    match last_payload(wave, BoxType::EsdsBox) {
        Ok(Some(payload)) => {
            let esds = EsdsBox::read_payload(alloc, payload)?;
            Ok(Some(esds))
        }
        Ok(None) => Ok(None),
        Err(_) => Ok(None),
    }
}

/// The last `esds` among children, which takes no memory.
#[tactic(auto, using(crate::proofs::DirectEsds::direct_gives))]
fn direct_esds(alloc: Global, bytes: &[u8]) -> Result<Option<EsdsBox>>
    ensures { Gives (λ b. b) result (direct_esds bytes.now) }
{
    last_child::<EsdsBox>(alloc, bytes)
}

/// The `esds` among children: the last, or else that of the last `wave`.
#[tactic(auto, unfolding(crate::specs::Mp4a::child_esds))]
fn child_esds(alloc: Global, bytes: &[u8]) -> Result<Option<EsdsBox>>
    ensures { Gives (λ b. b) result (child_esds bytes.now) }
{
    if let Some(direct) = direct_esds(alloc, bytes)? {
        return Ok(Some(direct));
    }
    match last_payload(bytes, BoxType::WaveBox)? {
        None => Ok(None),
        Some(wave) => wave_esds(alloc, wave),
    }
}

/// The `esds` after the fields of an entry of this sound version.
#[tactic(auto, unfolding(crate::specs::Mp4a::versioned_esds))]
fn versioned_esds(alloc: Global, version: u16, fields: &mut Fields) -> Result<Option<EsdsBox>>
    ensures { Gives (λ b. b) result (versioned_esds version fields.old) }
{
    match version {
        0 => child_esds(alloc, fields.rest()),
        1 => {
            fields.bytes(16)?;
            child_esds(alloc, fields.rest())
        }
        _ => Ok(None),
    }
}

impl Mp4aBox {
    /// The entry of a configuration: in the first data reference, with samples of 16 bits, as many channels as the
    /// number of `chan_conf`, and a decoder for MPEG-4 audio of that bit rate. The sampling rate is 0 where it passes
    /// 65,535. The entry of a profile over 30 isn't written.
    #[tactic(auto, using(crate::specs::Mp4aLaws::mp4a_of_config_size))]
    pub fn new(config: &AacConfig) -> Self
        ensures value { result ≡ mp4a_of_config config.now }
        ensures size { 8 + length (mp4a_payload result) ≡ mp4a_config_length config.now }
    {
        Mp4aBox {
            data_reference_index: 1,
            channelcount: config.chan_conf.number() as u16,
            samplesize: 16,
            samplerate: samplerate(config.freq_index),
            esds: Some(esds_of(config)),
        }
    }

    /// `mp4a`.
    pub fn get_type(&self) -> BoxType
        ensures { result ≡ mp4a }
    {
        BoxType::Mp4aBox
    }

    /// The bytes of the box, its header included: 36, and those of its `esds`.
    #[tactic(auto, using(crate::proofs::Sizes::sizes))]
    pub fn get_size(&self) -> u64
        ensures { result ≡ size_around (mp4a_payload self.now) }
    {
        optional_size(&self.esds).saturating_add(36)
    }
}

impl Default for Mp4aBox {
    ghost is_default = { λ b. b ≡ default_mp4a };

    /// All zero, without an `esds`.
    fn default() -> Self {
        Mp4aBox {
            data_reference_index: 0,
            channelcount: 0,
            samplesize: 0,
            samplerate: FixedPointU16::new_raw(0),
            esds: None,
        }
    }
}

impl Plain for Mp4aBox {}

impl InRange for Mp4aBox {
    ghost IsInRange = { IsInRangeMp4a };

    fn in_range(&self) {
        self.data_reference_index.in_range();
        self.channelcount.in_range();
        self.samplesize.in_range();
        self.samplerate.raw.in_range();
        self.esds.in_range();
    }
}

impl Mp4Box for Mp4aBox {
    ghost KIND = { mp4a };

    const KIND: BoxType = BoxType::Mp4aBox;

    ghost payload = { mp4a_payload };

    fn box_size(&self) -> u64 {
        self.get_size()
    }
}

impl ReadBox for Mp4aBox {
    ghost value = { mp4a_of };

    ghost early = { λ payload. at_once (mp4a_of payload) };

    #[tactic(auto, unfolding(crate::specs::Mp4a::mp4a_of))]
    fn read_payload(alloc: Global, payload: &[u8]) -> Result<Self>
        ensures { Gives (λ x. x) result (mp4a_of payload.now) }
    {
        let mut fields = Fields::new(payload);
        fields.bytes(6)?;
        let data_reference_index = fields.u16()?;
        let version = fields.u16()?;
        fields.bytes(6)?;
        let channelcount = fields.u16()?;
        let samplesize = fields.u16()?;
        fields.bytes(4)?;
        let samplerate = fields.u32()?;
        let esds = versioned_esds(alloc, version, &mut fields)?;
        Ok(Mp4aBox {
            data_reference_index,
            channelcount,
            samplesize,
            samplerate: FixedPointU16::new_raw(samplerate),
            esds,
        })
    }
}

impl WriteBox for Mp4aBox {
    ghost refusal = { mp4a_refusal };

    ghost IsWellFormed = { IsWellFormedMp4a };

    ghost reads_back = { mp4a_again };

    #[tactic(auto, unfolding(crate::specs::Mp4a::mp4a_refusal))]
    fn check(&self) -> Result<()> {
        check_optional(&self.esds)
    }

    #[tactic(auto, using(crate::proofs::Sizes::sizes))]
    fn put_payload(&self, out: &mut Vec<u8>) -> Put {
        put_zeros(out, 6)?;
        put_u16(out, self.data_reference_index)?;
        put_u16(out, 0)?;
        put_zeros(out, 6)?;
        put_u16(out, self.channelcount)?;
        put_u16(out, self.samplesize)?;
        put_zeros(out, 4)?;
        put_u32(out, self.samplerate.raw)?;
        put_optional(out, &self.esds)?;
        Ok(())
    }
}
