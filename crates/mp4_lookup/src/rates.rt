//! How many samples a track has, and how many samples and bits in a second (ISO/IEC 14496-12, 8.4.2, 8.5.2 and 8.7.3).

ghost use Rattle.std.specs.Prelude.{◌≡◌, ◌<◌, ◌^◌, IfOk};
ghost use Rattle.mp4_codec.specs.Cause.{Gives};
ghost use Rattle.mp4_lookup.specs.Rates.{sample_count_of, frame_rate_of, total_size_of, measured_bitrate_of};
ghost use Rattle.mp4_lookup.specs.Rates.{declared_bitrate, bitrate_of};
ghost use Rattle.mp4_lookup.specs.TrackRuns.{track_runs};

use crate::headers::MICROSECONDS;
use crate::track::Mp4Track;
use mp4_codec::{Error, Limit, Result};
use mp4_entry::Mp4aBox;

/// Milliseconds in a second.
const MILLISECONDS: u64 = 1000;

/// Microseconds in a millisecond.
const MICROSECONDS_OF_A_MILLISECOND: u64 = 1000;

/// Bits in a byte.
const BITS: u128 = 8;

impl Mp4Track {
    /// How many samples the track has: those of stsz (ISO/IEC 14496-12, 8.7.3), and those that fragments add (8.8.8).
    ///
    /// `TooLarge(Value)` where they pass 32 bits, which those of stsz alone never do.
    #[tactic(auto, unfolding(crate::specs::Rates::sample_count_of))]
    pub fn sample_count(&self) -> Result<u32>
        ensures { Gives (λ count. count) result (sample_count_of self.now.trak (track_runs self.now)) }
    {
        let count = u64::from(self.trak.mdia.minf.stbl.sample_count());
        u32::try_from(count.saturating_add(self.added_samples())).map_err(|_| Error::TooLarge(
            Limit::Value,
        ))
    }

    /// Samples in a second, rounded down: the count of samples over the duration in whole milliseconds.
    ///
    /// The refusals of `duration`; then 0 where that is less than a millisecond, whatever the count of samples; else
    /// the refusals of `sample_count`.
    #[tactic(auto, unfolding(crate::specs::Rates::frame_rate_of))]
    pub fn frame_rate(&self) -> Result<u64>
        ensures { Gives (λ rate. rate) result (frame_rate_of self.now.trak (track_runs self.now)) }
    {
        let milliseconds = self.duration()? / MICROSECONDS_OF_A_MILLISECOND;
        if milliseconds == 0 {
            return Ok(0);
        }
        let count = self.sample_count()?;
        Ok(u64::from(count) * MILLISECONDS / milliseconds)
    }

    /// Bits in a second. Where the sample entry mp4a is there (ISO/IEC 14496-12, 8.5.2), the average that its esds
    /// says, and 0 without esds. Else that of the samples, rounded down: their bits over the duration in whole seconds,
    /// where stsz lists sizes of those that it lists, and else of all, those of fragments too.
    ///
    /// Without mp4a the refusals of `duration`; then 0 where that is less than a second, whatever the samples are;
    /// else the refusals of `sample_count` where stsz says one size for all (8.7.3), then `TooLarge(Value)` where the
    /// answer passes 32 bits.
    #[tactic(auto, unfolding(crate::specs::Rates::bitrate_of))]
    pub fn bitrate(&self) -> Result<u32>
        ensures { Gives (λ bits. bits) result (bitrate_of self.now.trak (track_runs self.now)) }
    {
        match &self.trak.mdia.minf.stbl.stsd.mp4a {
            Some(entry) => Ok(average_of(entry)),
            None => self.measured_bitrate(),
        }
    }

    /// The bits of all samples in a second of the track.
    #[tactic(auto, unfolding(crate::specs::Rates::measured_bitrate_of))]
    fn measured_bitrate(&self) -> Result<u32>
        ensures { Gives (λ bits. bits) result (measured_bitrate_of self.now.trak (track_runs self.now)) }
    {
        let seconds = self.duration()? / u64::from(MICROSECONDS);
        if seconds == 0 {
            return Ok(0);
        }
        let bits = self.total_size()? * BITS / u128::from(seconds);
        if bits > u128::from(u32::MAX) {
            return Err(Error::TooLarge(Limit::Value));
        }
        Ok(bits as u32)
    }

    /// The bytes of all samples.
    #[tactic(auto, unfolding(crate::specs::Rates::total_size_of))]
    fn total_size(&self) -> Result<u128>
        ensures size { Gives (λ bytes. bytes) result (total_size_of self.now.trak (track_runs self.now)) }
        ensures small { IfOk result (λ bytes. bytes < 2 ^ 95) }
    {
        let stsz = &self.trak.mdia.minf.stbl.stsz;
        if stsz.sample_size > 0 {
            let count = self.sample_count()?;
            return Ok(u128::from(stsz.sample_size) * u128::from(count));
        }
        Ok(self.index.size_total)
    }
}

/// Bits in a second on average, as the entry of a track of sound says.
fn average_of(entry: &Mp4aBox) -> u32
    ensures { result ≡ declared_bitrate entry.now }
{
    match &entry.esds {
        Some(esds) => esds.es_desc.dec_config.avg_bitrate,
        None => 0,
    }
}
