//! Times in milliseconds.

ghost use Rattle.std.specs.Prelude.{◌≡◌};
ghost use Rattle.std.specs.Result.{result_ok};
ghost use Rattle.mp4_lookup.specs.Time.{time_of};

use mp4_media::time_of;

/// So many ticks in milliseconds, rounded down; `None` where a second has no ticks or the answer passes 64 bits.
pub(crate) fn milliseconds_of(ticks: u64, timescale: u32) -> Option<u64>
    ensures { result ≡ result_ok (time_of 1000 ticks timescale) }
{
    match time_of(1000, ticks, timescale) {
        Ok(time) => Some(time),
        Err(_) => None,
    }
}
