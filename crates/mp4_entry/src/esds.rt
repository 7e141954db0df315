//! What an MPEG-4 audio decoder is started with.

ghost use Rattle.mp4_codec.specs.ExactTest.{by_law, by_test, field_tests};
ghost use Rattle.mp4_entry.specs.declared.esds.SLConfigDescriptor.{SLConfigDescriptor};
ghost use Rattle.std.specs.Prelude.{◌≡◌, ◌≤◌, ◌+◌, ◌^◌, OnOk, refl, true};
ghost use Rattle.mp4_codec.specs.declared.box_type.BoxType.TheVariants.{EsdsBox as esds};
ghost use Rattle.mp4_codec.specs.Cause.{Checks, Gives};
ghost use Rattle.mp4_codec.specs.Bytes.{Appends, number};
ghost use Rattle.mp4_codec.specs.Boxes.{size_around};
ghost use Rattle.mp4_entry.specs.Descriptor.{descriptor};
ghost use Rattle.mp4_entry.specs.Esds.{bits, profile_in, profile_end, frequency_in, frequency_end, decoder_specific_of};
ghost use Rattle.mp4_entry.specs.Esds.{decoder_config_of, es_descriptor_of, is_set, after_id, after_url};
ghost use Rattle.mp4_entry.specs.Esds.{after_options};
ghost use Rattle.mp4_entry.specs.Esds.{esds_of, esds_payload, esds_refusal, specific_word, stream_byte, decoder_config};
ghost use Rattle.mp4_entry.specs.Esds.{es_descriptor, specific_refusal, config_refusal, IsInRangeEsds};
ghost use Rattle.mp4_entry.specs.Esds.{IsWellFormedEsds, default_esds};
ghost use Rattle.mp4_entry.specs.EsdsLaws.{esds_again};
ghost use Rattle.mp4_codec.specs.Early.{at_once};

use crate::descriptor::{Padded, first_body};
use crate::narrow::{check_most, put_low_u8, put_low_u16};
use mp4_codec::{
    BoxType, ExactEq, Fields, InRange, Mp4Box, Plain, Put, ReadBox, Result, WriteBox, put_u8,
    put_u16, put_u24, put_u32,
};
use std::alloc::Global;

/// The configuration of a decoder for MPEG-4 audio (ISO/IEC 14496-3, 1.6.2.1).
#[derive(Clone, Copy, Debug, PartialEq, Eq)]
pub struct DecoderSpecificDescriptor {
    /// The audio object type, 0 to 95; 2 is AAC LC. It is written up to 30.
    pub profile: u8,
    /// The place of the sampling frequency in the standard's table, 0 to 12; 15 says that the frequency itself was
    /// there, which isn't kept. It is written up to 14.
    pub freq_index: u8,
    /// The number of the channels' arrangement, 1 to 7; 0 says that it is elsewhere. It is written up to 15.
    pub chan_conf: u8,
}

impl ExactEq for DecoderSpecificDescriptor {
    ghost exact = { by_test (Prim.hlevel field_tests) };
}

/// The decoder of a stream (ISO/IEC 14496-1, 7.2.6.6).
#[derive(Clone, Copy, Debug, PartialEq, Eq)]
pub struct DecoderConfigDescriptor {
    /// What is decoded; 0x40 is MPEG-4 audio.
    pub object_type_indication: u8,
    /// What kind of stream it is; 5 is audio. It is written up to 63.
    pub stream_type: u8,
    /// 1 where the stream goes back to its sender. It is written up to 1.
    pub up_stream: u8,
    /// The decoder's buffer, in bytes. It is written up to 2^24 - 1.
    pub buffer_size_db: u32,
    /// Bits in the second that has the most of them.
    pub max_bitrate: u32,
    /// Bits in a second, or 0 where that isn't constant.
    pub avg_bitrate: u32,
    pub dec_specific: DecoderSpecificDescriptor,
}

impl ExactEq for DecoderConfigDescriptor {
    ghost exact = { by_test (Prim.hlevel field_tests) };
}

/// The synchronization layer of a stream (ISO/IEC 14496-1, 7.3.2.3). It isn't looked at; written is the one that is
/// predefined for MP4 files.
#[derive(Clone, Copy, Debug, PartialEq, Eq)]
pub struct SLConfigDescriptor {}

impl ExactEq for SLConfigDescriptor {
    ghost exact = { λ x y h. refl };
}

/// An elementary stream (ISO/IEC 14496-1, 7.2.6.5).
#[derive(Clone, Copy, Debug, PartialEq, Eq)]
pub struct ESDescriptor {
    /// The number of the stream among those of its presentation.
    pub es_id: u16,
    pub dec_config: DecoderConfigDescriptor,
    pub sl_config: SLConfigDescriptor,
}

impl ExactEq for ESDescriptor {
    ghost exact = { by_test (Prim.hlevel
        (field_tests, by_law {K = SLConfigDescriptor} {E = λ x y. true} (λ x y h. refl))) };
}

/// The elementary stream descriptor of a sound track, `esds` (ISO/IEC 14496-14, 5.6).
///
/// Any version is read and written. A payload of less than four bytes is `InvalidData`. After its version and flags
/// are descriptors, which are always read: of a tag the first counts, others are skipped, a body that passes the end
/// of its parent is cut there, and what is missing reads as zeros, byte by byte. A number past what its field says
/// isn't written, but `Unrepresentable`; such a profile or frequency index can have been read.
#[derive(Clone, Copy, Debug, PartialEq, Eq)]
pub struct EsdsBox {
    pub version: u8,
    /// The low 24 bits are written.
    pub flags: u32,
    pub es_desc: ESDescriptor,
}

impl ExactEq for EsdsBox {
    ghost exact = { by_test (Prim.hlevel
        (field_tests, by_law {K = SLConfigDescriptor} {E = λ x y. true} (λ x y h. refl))) };
}

/// Of a word of 48 bits, so many after the first ones.
fn bits(word: u64, before: u32, count: u32) -> u8
    requires within { before + count ≤ 48 }
    requires few { count ≤ 6 }
    ensures { result ≡ bits before count word }
{
    (word / 2u64.pow(48 - before - count) % 2u64.pow(count)) as u8
}

/// Where the object type ends in the word of a configuration.
fn profile_end(word: u64) -> u32
    ensures value { result ≡ profile_end word }
    ensures within { result ≤ 11 }
{
    if bits(word, 0, 5) == 31 { 11 } else { 5 }
}

/// Where the frequency ends in the word of a configuration.
fn frequency_end(word: u64) -> u32
    ensures value { result ≡ frequency_end word }
    ensures within { result ≤ 39 }
{
    let start = profile_end(word);
    if bits(word, start, 4) == 15 {
        start + 28
    } else {
        start + 4
    }
}

/// The object type in the word of a configuration.
fn profile(word: u64) -> u8
    ensures { result ≡ profile_in word }
{
    if bits(word, 0, 5) == 31 {
        32 + bits(word, 5, 6)
    } else {
        bits(word, 0, 5)
    }
}

/// Whether a flag, a number of one bit, is set.
#[tactic(auto, unfolding(crate::specs::Esds::is_set))]
fn is_set(flags: u8, flag: u8) -> bool
    ensures { result ≡ is_set flags flag }
{
    flags & flag != 0
}

/// Passes over the id of another stream, where it is there.
fn skip_id(fields: &mut Padded, there: bool)
    ensures { fields.new ≡ after_id there fields.old }
{
    if there {
        fields.skip(2);
    }
}

/// Passes over a URL with its length, where it is there.
fn skip_url(fields: &mut Padded, there: bool)
    ensures { fields.new ≡ after_url there fields.old }
{
    if there {
        let length = fields.u8();
        fields.skip(length as usize);
    }
}

/// Passes over the fields that the flags of a stream ask for.
fn skip_options(fields: &mut Padded, flags: u8)
    ensures { fields.new ≡ after_options flags fields.old }
{
    skip_id(fields, is_set(flags, 0x80));
    skip_url(fields, is_set(flags, 0x40));
    skip_id(fields, is_set(flags, 0x20));
}

impl DecoderSpecificDescriptor {
    /// The configuration that a body holds.
    #[tactic(auto, unfolding(crate::specs::Esds::decoder_specific_of))]
    fn of(body: &[u8]) -> Self
        ensures { result ≡ decoder_specific_of body.now }
    {
        let word = Padded::new(body).u48();
        DecoderSpecificDescriptor {
            profile: profile(word),
            freq_index: bits(word, profile_end(word), 4),
            chan_conf: bits(word, frequency_end(word), 4),
        }
    }

    /// Whether each number fits its bits.
    fn check(&self) -> Result<()>
        ensures { Checks result (specific_refusal self.now) }
    {
        check_most(self.profile as u64, 30)?;
        check_most(self.freq_index as u64, 14)?;
        check_most(self.chan_conf as u64, 15)?;
        Ok(())
    }

    /// Adds the configuration's descriptor.
    fn put(&self, out: &mut Vec<u8>) -> Put
        ensures { OnOk result (Appends out.old.items out.new.items (descriptor 5 (number 2 (specific_word self.now)))) }
    {
        put_u8(out, 5)?;
        put_u8(out, 2)?;
        put_low_u16(
            out,
            self.profile as u64 * 2048 + self.freq_index as u64 * 128 + self.chan_conf as u64 * 8,
        )?;
        Ok(())
    }
}

impl DecoderConfigDescriptor {
    /// The decoder that a body describes.
    #[tactic(auto, unfolding(crate::specs::Esds::decoder_config_of))]
    fn of(body: &[u8]) -> Self
        ensures { result ≡ decoder_config_of body.now }
    {
        let mut fields = Padded::new(body);
        let object_type_indication = fields.u8();
        let stream = fields.u8();
        let buffer_size_db = fields.u24();
        let max_bitrate = fields.u32();
        let avg_bitrate = fields.u32();
        DecoderConfigDescriptor {
            object_type_indication,
            stream_type: stream / 4,
            up_stream: stream / 2 % 2,
            buffer_size_db,
            max_bitrate,
            avg_bitrate,
            dec_specific: DecoderSpecificDescriptor::of(first_body(fields.rest(), 5)),
        }
    }

    /// Whether each number fits its bits.
    fn check(&self) -> Result<()>
        ensures { Checks result (config_refusal self.now) }
    {
        self.dec_specific.check()?;
        check_most(self.stream_type as u64, 63)?;
        check_most(self.up_stream as u64, 1)?;
        check_most(self.buffer_size_db as u64, 0xffffff)?;
        Ok(())
    }

    /// Adds the decoder's descriptor.
    fn put(&self, out: &mut Vec<u8>) -> Put
        ensures { OnOk result (Appends out.old.items out.new.items (descriptor 4 (decoder_config self.now))) }
    {
        put_u8(out, 4)?;
        put_u8(out, 17)?;
        put_u8(out, self.object_type_indication)?;
        put_low_u8(
            out,
            self.stream_type as u64 * 4 + self.up_stream as u64 * 2 + 1,
        )?;
        put_u24(out, self.buffer_size_db)?;
        put_u32(out, self.max_bitrate)?;
        put_u32(out, self.avg_bitrate)?;
        self.dec_specific.put(out)?;
        Ok(())
    }
}

impl ESDescriptor {
    /// The stream that a body describes.
    #[tactic(auto, unfolding(crate::specs::Esds::es_descriptor_of))]
    fn of(body: &[u8]) -> Self
        ensures { result ≡ es_descriptor_of body.now }
    {
        let mut fields = Padded::new(body);
        let es_id = fields.u16();
        let flags = fields.u8();
        skip_options(&mut fields, flags);
        ESDescriptor {
            es_id,
            dec_config: DecoderConfigDescriptor::of(first_body(fields.rest(), 4)),
            sl_config: SLConfigDescriptor {},
        }
    }

    /// Adds the stream's descriptor.
    fn put(&self, out: &mut Vec<u8>) -> Put
        ensures { OnOk result (Appends out.old.items out.new.items (descriptor 3 (es_descriptor self.now))) }
    {
        put_u8(out, 3)?;
        put_u8(out, 25)?;
        put_u16(out, self.es_id)?;
        put_u8(out, 0)?;
        self.dec_config.put(out)?;
        put_u8(out, 6)?;
        put_u8(out, 1)?;
        put_u8(out, 2)?;
        Ok(())
    }
}

impl EsdsBox {
    /// `esds`.
    pub fn get_type(&self) -> BoxType
        ensures { result ≡ esds }
    {
        BoxType::EsdsBox
    }

    /// The bytes of the box, its header included: 39.
    #[tactic(auto, using(crate::proofs::Sizes::sizes))]
    pub fn get_size(&self) -> u64
        ensures { result ≡ size_around (esds_payload self.now) }
    {
        39
    }
}

impl Default for EsdsBox {
    ghost is_default = { λ b. b ≡ default_esds };

    /// All zero.
    fn default() -> Self {
        EsdsBox {
            version: 0,
            flags: 0,
            es_desc: ESDescriptor {
                es_id: 0,
                dec_config: DecoderConfigDescriptor {
                    object_type_indication: 0,
                    stream_type: 0,
                    up_stream: 0,
                    buffer_size_db: 0,
                    max_bitrate: 0,
                    avg_bitrate: 0,
                    dec_specific: DecoderSpecificDescriptor {
                        profile: 0,
                        freq_index: 0,
                        chan_conf: 0,
                    },
                },
                sl_config: SLConfigDescriptor {},
            },
        }
    }
}

impl Plain for DecoderSpecificDescriptor {}

impl Plain for DecoderConfigDescriptor {}

impl Plain for SLConfigDescriptor {}

impl Plain for ESDescriptor {}

impl Plain for EsdsBox {}

impl InRange for EsdsBox {
    ghost IsInRange = { IsInRangeEsds };

    fn in_range(&self) {
        self.version.in_range();
        self.es_desc.es_id.in_range();
        self.es_desc.dec_config.object_type_indication.in_range();
        self.es_desc.dec_config.max_bitrate.in_range();
        self.es_desc.dec_config.avg_bitrate.in_range();
    }
}

impl Mp4Box for EsdsBox {
    ghost KIND = { esds };

    const KIND: BoxType = BoxType::EsdsBox;

    ghost payload = { esds_payload };

    fn box_size(&self) -> u64 {
        self.get_size()
    }
}

impl ReadBox for EsdsBox {
    ghost value = { esds_of };

    ghost early = { λ payload. at_once (esds_of payload) };

    #[tactic(auto, unfolding(crate::specs::Esds::esds_of))]
    fn read_payload(_alloc: Global, payload: &[u8]) -> Result<Self>
        ensures { Gives (λ x. x) result (esds_of payload.now) }
    {
        let mut fields = Fields::new(payload);
        let version = fields.u8()?;
        let flags = fields.u24()?;
        Ok(EsdsBox {
            version,
            flags,
            es_desc: ESDescriptor::of(first_body(fields.rest(), 3)),
        })
    }
}

impl WriteBox for EsdsBox {
    ghost refusal = { esds_refusal };

    ghost IsWellFormed = { IsWellFormedEsds };

    ghost reads_back = { esds_again };

    #[tactic(auto, unfolding(crate::specs::Esds::esds_refusal))]
    fn check(&self) -> Result<()> {
        self.es_desc.dec_config.check()
    }

    fn put_payload(&self, out: &mut Vec<u8>) -> Put {
        put_u8(out, self.version)?;
        put_u24(out, self.flags)?;
        self.es_desc.put(out)?;
        Ok(())
    }
}
