//! Times of a file, as a clock shows them.

ghost use Rattle.mp4_codec.specs.ExactTest.{by_test, field_tests};
ghost use Rattle.std.specs.Prelude.{◌≡◌, ℕ, ◌*◌, ◌/◌, ◌^◌, ◌<◌, ◌≤◌};
ghost use Rattle.mp4_readable.specs.Clock.{AreDecimals, IsReading, parts_up};

use crate::fraction::{Fraction, fraction_of};
use mp4_codec::ExactEq;
use std::fmt;
use std::fmt::Write;

/// Milliseconds in a second.
const MILLISECONDS: u64 = 1000;

/// What a clock shows of a time that is given in parts of a second.
#[derive(Clone, Copy)]
struct Reading {
    hours: u128,
    minutes: u128,
    seconds: u128,
    parts: u128,
}

/// What a clock shows of a time in parts of a second, of which a second has so many.
fn reading_of(time: u128, second: u64) -> Reading
    requires { 0 < second }
    ensures { IsReading result time second }
{
    let second = second as u128;
    let seconds = time / second;
    let minutes = seconds / 60;
    Reading {
        hours: minutes / 60,
        minutes: minutes % 60,
        seconds: seconds % 60,
        parts: time % second,
    }
}

/// Writes a reading with so many decimals.
fn write_reading<W: fmt::Write>(
    f: &mut fmt::Formatter<W>,
    reading: Reading,
    decimals: usize,
) -> fmt::Result {
    let Reading {
        hours,
        minutes,
        seconds,
        parts,
    } = reading;
    write!(f, "{hours}:{minutes:02}:{seconds:02}.{parts:0decimals$}")
}

/// A time in milliseconds as hours, minutes, seconds and thousandths: `0:01:02.345`.
#[derive(Clone, Copy, Debug, PartialEq, Eq)]
pub struct Clock(pub u64);

impl ExactEq for Clock {
    ghost exact = { by_test (Prim.hlevel field_tests) };
}

impl fmt::Display for Clock {
    fn fmt<W: fmt::Write>(&self, f: &mut fmt::Formatter<W>) -> fmt::Result {
        write_reading(f, reading_of(self.0 as u128, MILLISECONDS), 3)
    }
}

/// How many decimals a time has that is counted in ticks.
#[derive(Clone, Copy)]
struct Decimals {
    count: usize,
    /// How many units of the last decimal a second has.
    second: u64,
}

/// The decimals of times in ticks, of which a second has so many: at least three, and so many that each tick
/// has a text of its own.
fn decimals_of(timescale: u32) -> Decimals
    ensures apart { timescale ≤ result.second }
    ensures least { 1000 ≤ result.second }
    ensures power { result.second ≡ 10 ^ result.count }
    ensures fewest { AreDecimals timescale result.count }
{
    let (count, second) = match timescale {
        0..=1_000 => (3, 1_000),
        1_001..=10_000 => (4, 10_000),
        10_001..=100_000 => (5, 100_000),
        100_001..=1_000_000 => (6, 1_000_000),
        1_000_001..=10_000_000 => (7, 10_000_000),
        10_000_001..=100_000_000 => (8, 100_000_000),
        100_000_001..=1_000_000_000 => (9, 1_000_000_000),
        _ => (10, 10_000_000_000),
    };
    Decimals { count, second }
}

/// How many decimals [`TickClock`] and [`TickSeconds`] show of times in ticks, of which a second has so many.
pub fn tick_decimals(timescale: u32) -> usize
    ensures { AreDecimals timescale result }
{
    decimals_of(timescale).count
}

/// So many ticks in parts of a second, of which a second has so many, rounded down.
fn parts_down(ticks: u64, timescale: u32, second: u64) -> u128
    requires { 0 < timescale }
    ensures { result ≡ ticks * second / timescale }
{
    ticks as u128 * second as u128 / timescale as u128
}

/// The same rounded up.
fn parts_up(ticks: u64, timescale: u32, second: u64) -> u128
    requires { 0 < timescale }
    ensures { result ≡ parts_up ticks timescale second }
{
    (ticks as u128 * second as u128 + (timescale as u128 - 1)) / timescale as u128
}

/// The last tick that isn't after a time in parts of a second is the one of which these were made, where a
/// second has no fewer parts than ticks: so a time that [`TickClock`] shows leads back to its tick. The
/// function does nothing; its contract is the law.
pub fn shown_ticks_come_back()
    ensures { (ticks timescale second : ℕ) → 0 < timescale → timescale ≤ second
        → parts_up ticks timescale second * timescale / second ≡ ticks }
{}

/// A time in ticks as hours, minutes, seconds and decimals: `0:01:02.04171`. There are at least three
/// decimals, and so many that each tick has a text of its own. They are rounded up, towards what is later, so
/// that the last tick that isn't after the time that is shown is this one.
#[derive(Clone, Copy, Debug, PartialEq, Eq)]
pub struct TickClock {
    pub ticks: i128,
    /// Ticks in a second. Where it is 0, the time isn't known, and `-` is shown.
    pub timescale: u32,
}

impl ExactEq for TickClock {
    ghost exact = { by_test (Prim.hlevel field_tests) };
}

impl fmt::Display for TickClock {
    fn fmt<W: fmt::Write>(&self, f: &mut fmt::Formatter<W>) -> fmt::Result {
        let timescale = self.timescale;
        if timescale == 0 {
            return f.write_str("-");
        }
        let Decimals { count, second } = decimals_of(timescale);
        let ticks = u64::try_from(self.ticks.unsigned_abs()).unwrap_or(u64::MAX);
        if self.ticks < 0 {
            f.write_str("-")?;
            return write_reading(
                f,
                reading_of(parts_down(ticks, timescale, second), second),
                count,
            );
        }
        write_reading(
            f,
            reading_of(parts_up(ticks, timescale, second), second),
            count,
        )
    }
}

/// A time in ticks as seconds and decimals, as [`TickClock`] rounds them: `0.04171`.
#[derive(Clone, Copy, Debug, PartialEq, Eq)]
pub struct TickSeconds {
    pub ticks: u64,
    /// Ticks in a second. Where it is 0, the time isn't known, and `-` is shown.
    pub timescale: u32,
}

impl ExactEq for TickSeconds {
    ghost exact = { by_test (Prim.hlevel field_tests) };
}

impl fmt::Display for TickSeconds {
    fn fmt<W: fmt::Write>(&self, f: &mut fmt::Formatter<W>) -> fmt::Result {
        if self.timescale == 0 {
            return f.write_str("-");
        }
        let Decimals { count, second } = decimals_of(self.timescale);
        let time = parts_up(self.ticks, self.timescale, second);
        let Fraction { whole, parts } = fraction_of(time, second);
        write!(f, "{whole}.{parts:0count$}")
    }
}
