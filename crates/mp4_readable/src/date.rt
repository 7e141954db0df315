//! Times of boxes, as dates.

ghost use Rattle.mp4_codec.specs.ExactTest.{by_test, field_tests};
ghost use Rattle.std.specs.Prelude.{◌<◌, ◌^◌};
ghost use Rattle.mp4_readable.specs.Calendar.{IsDayAfter, IsMarchDayAfter, IsTimeAfter};

use mp4_codec::ExactEq;
use std::fmt;
use std::fmt::Write;

/// Seconds in a day.
const SECONDS: u64 = 86_400;

/// The days from the first of March of the year 0 to the beginning of 1904, as the Gregorian calendar counts.
const DAYS_TO_1904: u64 = 695_361;

/// Days in 400 years.
const DAYS_OF_ERA: u64 = 146_097;

/// Days in a century, but in the last of 400 years, which has one more.
const DAYS_OF_CENTURY: u64 = 36_524;

/// Days in four years, but in those that end a century, which mostly have one less.
const DAYS_OF_FOUR_YEARS: u64 = 1461;

/// A year, a month from 1 and a day from 1.
#[derive(Clone, Copy, Debug, PartialEq, Eq)]
struct Day {
    year: u64,
    month: u64,
    day: u64,
}

/// Hours, minutes and seconds of a day.
#[derive(Clone, Copy, Debug, PartialEq, Eq)]
struct TimeOfDay {
    hour: u64,
    minute: u64,
    second: u64,
}

/// A day of a year that is counted from March on, so that the day that a leap year has more is its last.
#[derive(Clone, Copy, Debug, PartialEq, Eq)]
struct MarchDay {
    /// The year in which it begins.
    year: u64,
    /// The days since the first of March.
    days: u64,
}

/// The day that is so many days after the first of March of the year 0.
fn march_day_of(days: u64) -> MarchDay
    requires { days < 2 ^ 63 }
    ensures { IsMarchDayAfter days result }
{
    let era = days / DAYS_OF_ERA;
    let in_era = days % DAYS_OF_ERA;
    let century = (in_era / DAYS_OF_CENTURY).min(3);
    let in_century = in_era - century * DAYS_OF_CENTURY;
    let four_years = in_century / DAYS_OF_FOUR_YEARS;
    let in_four_years = in_century % DAYS_OF_FOUR_YEARS;
    let year = (in_four_years / 365).min(3);
    MarchDay {
        year: era * 400 + century * 100 + four_years * 4 + year,
        days: in_four_years - year * 365,
    }
}

/// The day that is so many days after the beginning of 1904. Five months from March on have 153 days, and so have those
/// from August on.
fn day_of(days: u64) -> Day
    requires { days < 2 ^ 62 }
    ensures { IsDayAfter days result }
{
    let march = march_day_of(days + DAYS_TO_1904);
    let month = (5 * march.days + 2) / 153;
    let day = march.days - (153 * month + 2) / 5 + 1;
    if month < 10 {
        Day {
            year: march.year,
            month: month + 3,
            day,
        }
    } else {
        Day {
            year: march.year + 1,
            month: month - 9,
            day,
        }
    }
}

/// The time that is so many seconds after the beginning of a day.
fn time_of_day(seconds: u64) -> TimeOfDay
    requires { seconds < 86400 }
    ensures { IsTimeAfter seconds result }
{
    TimeOfDay {
        hour: seconds / 3600,
        minute: seconds / 60 % 60,
        second: seconds % 60,
    }
}

/// A time in seconds from the beginning of 1904 on, as boxes have it (ISO/IEC 14496-12, 8.2.2): a date and a time of
/// UTC. 0 is shown as `not set`.
#[derive(Clone, Copy, Debug, PartialEq, Eq)]
pub struct Date(pub u64);

impl ExactEq for Date {
    ghost exact = { by_test (Prim.hlevel field_tests) };
}

impl fmt::Display for Date {
    fn fmt<W: fmt::Write>(&self, f: &mut fmt::Formatter<W>) -> fmt::Result {
        if self.0 == 0 {
            return f.write_str("not set");
        }
        let Day { year, month, day } = day_of(self.0 / SECONDS);
        let TimeOfDay {
            hour,
            minute,
            second,
        } = time_of_day(self.0 % SECONDS);
        write!(
            f,
            "{year}-{month:02}-{day:02} {hour:02}:{minute:02}:{second:02} UTC"
        )
    }
}
