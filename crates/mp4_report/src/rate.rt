//! How many there are in a second.

ghost use Rattle.std.specs.Prelude.{◌≡◌};
ghost use Rattle.mp4_report.specs.Rates.{milliseconds_each, rate_of, thousandths_rate_of, within_64_bits};

/// A number, if it is within 64 bits.
fn within_64_bits(number: u128) -> Option<u64>
    ensures { result ≡ within_64_bits number }
{
    if number > u64::MAX as u128 {
        return None;
    }
    Some(number as u64)
}

/// So many of something in a second, where they are spread over these ticks, rounded down; `None` where there are no
/// ticks, and past 64 bits.
#[tactic(auto, unfolding(crate::specs::Rates::rate_of))]
pub(crate) fn rate_of(number: u64, ticks: u64, timescale: u32) -> Option<u64>
    ensures { result ≡ rate_of number ticks timescale }
{
    if ticks == 0 {
        return None;
    }
    within_64_bits(number as u128 * timescale as u128 / ticks as u128)
}

/// The same in thousandths, to the nearest, and halves up.
#[tactic(auto, unfolding(crate::specs::Rates::thousandths_rate_of))]
pub(crate) fn thousandths_rate_of(number: u64, ticks: u64, timescale: u32) -> Option<u64>
    ensures { result ≡ thousandths_rate_of number ticks timescale }
{
    if ticks == 0 {
        return None;
    }
    let halves = number as u128 * 2000 * timescale as u128;
    within_64_bits((halves + ticks as u128) / (2 * ticks as u128))
}

/// How many milliseconds each of so many times lasts that are so many ticks together, to the nearest, and
/// halves up; `None` where there are none, where a second has no ticks, and past 64 bits.
#[tactic(auto, unfolding(crate::specs::Rates::milliseconds_each))]
pub(crate) fn milliseconds_each(ticks: u64, times: u64, timescale: u32) -> Option<u64>
    ensures { result ≡ milliseconds_each ticks times timescale }
{
    let second = times as u128 * timescale as u128;
    if second == 0 {
        return None;
    }
    within_64_bits((ticks as u128 * 2000 + second) / (2 * second))
}
