//! Times of subtitles.

ghost use Rattle.mp4_codec.specs.Cause.{Gives};
ghost use Rattle.mp4_extract.specs.Texts.{milliseconds_of};

use mp4_codec::{Error, Limit, Result};

/// A time in whole milliseconds, rounded to the nearest, and halves up. It is given in ticks, of which the timescale is
/// the number in a second (ISO/IEC 14496-12, 8.4.2).
///
/// `ZeroTimescale` where the timescale is 0, then `TooLarge(Value)` where the answer passes 64 bits.
#[tactic(auto, unfolding(crate::specs::Texts::milliseconds_of))]
pub(crate) fn milliseconds(ticks: u64, timescale: u32) -> Result<u64>
    ensures { Gives (λ time. time) result (milliseconds_of ticks timescale) }
{
    if timescale == 0 {
        return Err(Error::ZeroTimescale);
    }
    let time = (ticks as u128 * 2000 + timescale as u128) / (2 * timescale as u128);
    if time > u64::MAX as u128 {
        return Err(Error::TooLarge(Limit::Value));
    }
    Ok(time as u64)
}
