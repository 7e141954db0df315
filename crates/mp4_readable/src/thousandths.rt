//! Numbers of thousandths, as decimal fractions.

ghost use Rattle.mp4_codec.specs.ExactTest.{by_test, field_tests};

use crate::fraction::{Fraction, fraction_of};
use crate::json::Whole;
use mp4_codec::ExactEq;
use serde::{Described, Serialize, Serializer};
use std::fmt;
use std::fmt::Write;

/// A number of thousandths as a decimal fraction of three digits: `29.970`.
#[derive(Clone, Copy, Debug, PartialEq, Eq)]
pub struct Thousandths(pub u64);

impl ExactEq for Thousandths {
    ghost exact = { by_test (Prim.hlevel field_tests) };
}

impl fmt::Display for Thousandths {
    fn fmt<W: fmt::Write>(&self, f: &mut fmt::Formatter<W>) -> fmt::Result {
        let Fraction { whole, parts } = fraction_of(self.0 as u128, 1000);
        write!(f, "{whole}.{parts:03}")
    }
}

impl Described for Thousandths {}

impl Serialize for Thousandths {
    /// Sends a fraction, or the whole part alone where it is past all that is met.
    fn serialize<S: Serializer>(&self, out: &mut S) -> Result<(), S::Error> {
        match u32::try_from(self.0) {
            Ok(thousandths) => out.f64(f64::from(thousandths) / 1000.0),
            Err(_) => Whole(self.0 / 1000).serialize(out),
        }
    }
}
