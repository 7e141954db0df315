//! Times that people write.

ghost use Rattle.std.specs.Prelude.{◌≡◌, ◌≤◌};
ghost use Rattle.mp4_readable.specs.DecimalTime.{decimal_ticks, digit_of, ticks_of};

/// A time of so many seconds and decimals of a second, however many these are.
#[derive(Clone, Copy, Debug, PartialEq, Eq)]
pub struct DecimalTime<'a> {
    seconds: u64,
    /// Digits alone.
    decimals: &'a str,
}

/// Whether a text has nothing but decimal digits.
fn are_digits(text: &str) -> bool {
    text.bytes().all(|byte| byte.is_ascii_digit())
}

/// The number that digits say, if it has 64 bits; `None` without a digit, and for anything else.
fn number_in(text: &str) -> Option<u64> {
    if !are_digits(text) {
        return None;
    }
    match text.parse::<u64>() {
        Ok(number) => Some(number),
        Err(_) => None,
    }
}

/// The minutes of an hour, or the seconds of a minute, in two digits.
fn sixtieths_in(text: &str) -> Option<u64> {
    match number_in(text) {
        Some(number) if text.len() == 2 && number < 60 => Some(number),
        _ => None,
    }
}

/// The whole seconds of hours, and of minutes and seconds with a colon between them.
fn clock_seconds_in(hours: &str, rest: &str) -> Option<u64> {
    let (minutes, seconds) = rest.split_once(':')?;
    let minutes = sixtieths_in(minutes)?;
    let seconds = sixtieths_in(seconds)?;
    number_in(hours)?
        .checked_mul(3600)?
        .checked_add(minutes.saturating_mul(60).saturating_add(seconds))
}

/// The whole seconds of a number of them, or of hours, minutes and seconds.
fn seconds_in(text: &str) -> Option<u64> {
    match text.split_once(':') {
        None => number_in(text),
        Some((hours, rest)) => clock_seconds_in(hours, rest),
    }
}

/// The digit of a character, which is one.
fn digit_of(character: u8) -> u64
    ensures value { result ≡ digit_of character }
    ensures small { result ≤ 9 }
{
    u64::from(character.saturating_sub(b'0')).min(9)
}

/// How many ticks the decimals of a second are, rounded down: exactly, since a whole number and a fraction
/// that is rounded down, divided by 10, are rounded down to the same as with the fraction itself.
#[tactic(auto, unfolding(crate::specs::DecimalTime::decimal_ticks))]
fn decimal_ticks(digits: &[u8], timescale: u32) -> u64
    ensures { result ≡ decimal_ticks digits.now timescale }
{
    let count = digits.len();
    let mut ticks: u64 = 0;
    for i in 0..count {
        let digit = digit_of(digits[count - 1 - i]);
        ticks = (digit * u64::from(timescale) + ticks) / 10;
    }
    ticks
}

impl<'a> DecimalTime<'a> {
    /// The time that a text says: a decimal number of seconds, as `12.5`, or hours, minutes and seconds, as
    /// `0:00:12.5`. `None` for another text, and where the seconds pass 64 bits.
    pub fn parse(text: &'a str) -> Option<Self> {
        let (seconds, decimals) = text.split_once('.').unwrap_or((text, ""));
        if !are_digits(decimals) {
            return None;
        }
        Some(DecimalTime {
            seconds: seconds_in(seconds)?,
            decimals,
        })
    }

    /// The number of the last tick at or before the time, of which a second has so many; the largest of 64
    /// bits where it passes them.
    pub fn ticks(&self, timescale: u32) -> u64
        ensures { result ≡ ticks_of self.now timescale }
    {
        self.seconds
            .saturating_mul(u64::from(timescale))
            .saturating_add(decimal_ticks(self.decimals.as_bytes(), timescale))
    }
}
