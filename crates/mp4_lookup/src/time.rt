//! Times, whose unit is the tick of a movie or of a track.

ghost use Rattle.mp4_codec.specs.Cause.{Gives};
ghost use Rattle.mp4_lookup.specs.Time.{time_of};

use mp4_codec::{Error, Limit, Result};

/// A time in so many parts of a second, rounded down: 1000 parts are milliseconds, 1000000 are microseconds.
/// The time is given in ticks, of which the timescale is the number in a second (ISO/IEC 14496-12, 8.2.2 and 8.4.2).
///
/// `ZeroTimescale` where the timescale is 0, then `TooLarge(Value)` where the answer passes 64 bits.
#[tactic(auto, unfolding(crate::specs::Time::time_of))]
pub fn time_of(parts: u32, ticks: u64, timescale: u32) -> Result<u64>
    ensures { Gives (λ time. time) result (time_of parts ticks timescale) }
{
    if timescale == 0 {
        return Err(Error::ZeroTimescale);
    }
    let time = ticks as u128 * parts as u128 / timescale as u128;
    if time > u64::MAX as u128 {
        return Err(Error::TooLarge(Limit::Value));
    }
    Ok(time as u64)
}
