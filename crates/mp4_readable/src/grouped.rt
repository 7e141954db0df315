//! Numbers with a comma before each three digits.

ghost use Rattle.mp4_codec.specs.ExactTest.{by_test, field_tests};
ghost use Rattle.std.specs.Prelude.{◌≡◌, ◌<◌, All};
ghost use Rattle.mp4_readable.specs.Groups.{IsFirstWritten, IsGroupedLength, digits_in_group, number_of_groups};

use mp4_codec::ExactEq;
use std::fmt;
use std::fmt::Write;

/// The groups of three digits of a number, the highest first.
fn groups_of(number: u64) -> [u64; 7]
    ensures number { number_of_groups result ≡ number }
    ensures digits { All (λ group. group < 1000) result }
{
    let thousands = number / 1000;
    let millions = thousands / 1000;
    let billions = millions / 1000;
    let trillions = billions / 1000;
    let quadrillions = trillions / 1000;
    let quintillions = quadrillions / 1000;
    [
        quintillions,
        quadrillions % 1000,
        trillions % 1000,
        billions % 1000,
        millions % 1000,
        thousands % 1000,
        number % 1000,
    ]
}

/// How many decimal digits a number below 1000 has.
fn digits_of(number: u64) -> usize
    ensures { result ≡ digits_in_group number }
{
    match number {
        0..=9 => 1,
        10..=99 => 2,
        _ => 3,
    }
}

/// The index of the first group that is written: the highest that isn't 0, or the last.
fn first_group(groups: &[u64; 7]) -> usize
    ensures { IsFirstWritten groups.now result }
{
    let mut first = 0;
    while first < 6 && groups[first] == 0 {
        first += 1;
    }
    first
}

/// How many characters [`Grouped`] writes of a number.
pub fn grouped_length(number: u64) -> usize
    ensures { IsGroupedLength number result }
{
    let groups = groups_of(number);
    let first = first_group(&groups);
    digits_of(groups[first]) + 4 * (6 - first)
}

/// A number with a comma before each three digits, as `1,234,567`. A width that is asked for is filled in front.
#[derive(Clone, Copy, Debug, PartialEq, Eq)]
pub struct Grouped(pub u64);

impl ExactEq for Grouped {
    ghost exact = { by_test (Prim.hlevel field_tests) };
}

impl fmt::Display for Grouped {
    fn fmt<W: fmt::Write>(&self, f: &mut fmt::Formatter<W>) -> fmt::Result {
        let width = f.width().unwrap_or(0);
        f.write_repeated(" ", width.saturating_sub(grouped_length(self.0)))?;
        let groups = groups_of(self.0);
        let first = first_group(&groups);
        let head = groups[first];
        write!(f, "{head}")?;
        for group in &groups[first + 1..] {
            write!(f, ",{group:03}")?;
        }
        Ok(())
    }
}
