//! The sampling frequencies of sound.

ghost use denote.Enum.Bare.{same_true};
ghost use Rattle.mp4_entry.specs.contracts.sample_freq_index.SampleFreqIndex.{the_type as sample_freq_indexes};
ghost use Rattle.std.specs.Prelude.{◌≡◌};
ghost use Rattle.mp4_codec.specs.Cause.{Gives};
ghost use Rattle.mp4_entry.specs.SampleFreqIndex.{freq_number, freq_index_of, hertz};

use mp4_codec::{Error, ExactEq, Result};

/// A sampling frequency that has an index (ISO/IEC 14496-3, 1.6.3.4). Each is named by its hertz.
#[derive(Clone, Copy, Debug, PartialEq, Eq)]
pub enum SampleFreqIndex {
    Freq96000,
    Freq88200,
    Freq64000,
    Freq48000,
    Freq44100,
    Freq32000,
    Freq24000,
    Freq22050,
    Freq16000,
    Freq12000,
    Freq11025,
    Freq8000,
    Freq7350,
}

impl ExactEq for SampleFreqIndex {
    ghost exact = { same_true sample_freq_indexes tt };
}

impl SampleFreqIndex {
    /// The index, 0 for 96,000 hertz to 12 for 7,350.
    pub fn number(self) -> u8
        ensures { result ≡ freq_number self }
    {
        match self {
            SampleFreqIndex::Freq96000 => 0,
            SampleFreqIndex::Freq88200 => 1,
            SampleFreqIndex::Freq64000 => 2,
            SampleFreqIndex::Freq48000 => 3,
            SampleFreqIndex::Freq44100 => 4,
            SampleFreqIndex::Freq32000 => 5,
            SampleFreqIndex::Freq24000 => 6,
            SampleFreqIndex::Freq22050 => 7,
            SampleFreqIndex::Freq16000 => 8,
            SampleFreqIndex::Freq12000 => 9,
            SampleFreqIndex::Freq11025 => 10,
            SampleFreqIndex::Freq8000 => 11,
            SampleFreqIndex::Freq7350 => 12,
        }
    }

    /// The frequency in hertz: samples in a second.
    pub fn freq(self) -> u32
        ensures { result ≡ hertz self }
    {
        match self {
            SampleFreqIndex::Freq96000 => 96000,
            SampleFreqIndex::Freq88200 => 88200,
            SampleFreqIndex::Freq64000 => 64000,
            SampleFreqIndex::Freq48000 => 48000,
            SampleFreqIndex::Freq44100 => 44100,
            SampleFreqIndex::Freq32000 => 32000,
            SampleFreqIndex::Freq24000 => 24000,
            SampleFreqIndex::Freq22050 => 22050,
            SampleFreqIndex::Freq16000 => 16000,
            SampleFreqIndex::Freq12000 => 12000,
            SampleFreqIndex::Freq11025 => 11025,
            SampleFreqIndex::Freq8000 => 8000,
            SampleFreqIndex::Freq7350 => 7350,
        }
    }
}

impl TryFrom<u8> for SampleFreqIndex {
    type Error = Error;

    ghost try_from_gives = { λ n result. Gives (λ index. index) result (freq_index_of n) };

    /// The frequency with this index; `InvalidData` from 13 on.
    fn try_from(number: u8) -> Result<SampleFreqIndex> {
        match number {
            0 => Ok(SampleFreqIndex::Freq96000),
            1 => Ok(SampleFreqIndex::Freq88200),
            2 => Ok(SampleFreqIndex::Freq64000),
            3 => Ok(SampleFreqIndex::Freq48000),
            4 => Ok(SampleFreqIndex::Freq44100),
            5 => Ok(SampleFreqIndex::Freq32000),
            6 => Ok(SampleFreqIndex::Freq24000),
            7 => Ok(SampleFreqIndex::Freq22050),
            8 => Ok(SampleFreqIndex::Freq16000),
            9 => Ok(SampleFreqIndex::Freq12000),
            10 => Ok(SampleFreqIndex::Freq11025),
            11 => Ok(SampleFreqIndex::Freq8000),
            12 => Ok(SampleFreqIndex::Freq7350),
            _ => Err(Error::InvalidData("an index of no frequency")),
        }
    }
}
