//! Samples of sound with a header each (ISO/IEC 14496-3, 1.A.2.2.1).

ghost use Rattle.std.specs.Prelude.{◌≡◌, ◌≤◌};
ghost use Rattle.std.proofs.Props.{props};

use byteorder::{BigEndian, ByteOrder};
use mp4_codec::{Error, Limit, Result};
use mp4_entry::DecoderSpecificDescriptor;

/// The bytes of a header.
const HEADER_LENGTH: usize = 7;

/// The most bytes of a frame, header included, that the 13 bits of its length can say.
const MAX_FRAME_LENGTH: usize = 8191;

/// What all headers of a track of sound say.
#[derive(Clone, Copy, Debug, PartialEq, Eq)]
pub struct AdtsConfig {
    /// The audio object type, 1 to 4.
    object_type: u8,
    /// The place of the sampling frequency in the standard's table, 0 to 12.
    freq_index: u8,
    /// The number of the channels' arrangement, 1 to 7.
    chan_conf: u8,
    ghost has_type: { 1 ≤ object_type } by { Prim.hlevel props },
    ghost type_fits: { object_type ≤ 4 } by { Prim.hlevel props },
    ghost frequency_fits: { freq_index ≤ 12 } by { Prim.hlevel props },
    ghost channels_fit: { chan_conf ≤ 7 } by { Prim.hlevel props },
}

impl AdtsConfig {
    ghost use Rattle.std.specs.Prelude.{option_map, ◌+◌, ◌<◌, length, IfErr, vec_capacity, vec_len};
    ghost use Rattle.mp4_codec.specs.Cause.{Answers};
    ghost use Rattle.mp4_codec.specs.declared.error.Error.TheVariants.{OutOfMemory};
    ghost use Rattle.mp4_extract.specs.Adts.{adts_of, frame_of, header, numbers_of, with_front};

    /// The configuration of a decoder, where a header can say it: an object type of 1 to 4, a frequency of the
    /// standard's table and an arrangement of the channels that isn't said elsewhere.
    #[tactic(auto, unfolding(crate::specs::Adts::adts_of))]
    pub(crate) fn of(decoder: DecoderSpecificDescriptor) -> Option<Self>
        ensures { option_map numbers_of result ≡ adts_of decoder }
    {
        let has_type = 1 <= decoder.profile && decoder.profile <= 4;
        let has_frequency = decoder.freq_index <= 12;
        let has_channels = 1 <= decoder.chan_conf && decoder.chan_conf <= 7;
        if !has_type || !has_frequency || !has_channels {
            return None;
        }
        Some(AdtsConfig {
            object_type: decoder.profile,
            freq_index: decoder.freq_index,
            chan_conf: decoder.chan_conf,
        })
    }

    /// The header of a frame of so many bytes, header included.
    #[tactic(auto, unfolding(crate::specs::Adts::header, mp4_codec::specs::Bytes::number))]
    fn header(&self, frame_length: usize) -> [u8; HEADER_LENGTH]
        requires { frame_length ≤ 8191 }
        ensures { result ≡ header self.now frame_length }
    {
        let bits = 0xFFF1 * (1 << 40)
            + u64::from(self.object_type - 1) * (1 << 38)
            + u64::from(self.freq_index) * (1 << 34)
            + u64::from(self.chan_conf) * (1 << 30)
            + frame_length as u64 * (1 << 13)
            + 0x7FF * (1 << 2);
        let mut header = [0; HEADER_LENGTH];
        BigEndian::write_uint(&mut header, bits, HEADER_LENGTH);
        header
    }

    /// Adds a sample with its header.
    ///
    /// `TooLarge(SampleBytes)` where it has more bytes than the header can say.
    #[tactic(auto, unfolding(crate::specs::Adts::frame_of))]
    pub(crate) fn put_sample(&self, sample: &[u8], out: &mut Vec<u8>) -> Result<()>
        ensures frame { Answers (λ _. out.new.items) result
            (with_front out.old.items (frame_of self.now sample.now)) }
        ensures memory { IfErr result (λ e. e ≡ OutOfMemory → (7 + length sample.now ≤ 8191)
            × (vec_capacity out.old < vec_len out.old + (7 + length sample.now))) }
    {
        if sample.len() > MAX_FRAME_LENGTH - HEADER_LENGTH {
            return Err(Error::TooLarge(Limit::SampleBytes));
        }
        out.extend_from_slice(&self.header(HEADER_LENGTH + sample.len()))?;
        out.extend_from_slice(sample)?;
        Ok(())
    }
}
