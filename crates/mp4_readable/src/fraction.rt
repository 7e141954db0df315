//! Numbers that are counted in parts of one.

ghost use Rattle.std.specs.Prelude.{◌<◌};
ghost use Rattle.mp4_readable.specs.Clock.{IsFraction};

/// Whole ones, and parts of one.
#[derive(Clone, Copy)]
pub(crate) struct Fraction {
    pub whole: u128,
    pub parts: u128,
}

/// A number of parts, of which a whole one has so many.
pub(crate) fn fraction_of(number: u128, unit: u64) -> Fraction
    requires { 0 < unit }
    ensures { IsFraction result number unit }
{
    let unit = unit as u128;
    Fraction {
        whole: number / unit,
        parts: number % unit,
    }
}
