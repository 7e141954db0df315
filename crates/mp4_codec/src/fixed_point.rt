//! Fixed-point numbers.
//!
//! The high half of the bits is the whole part, and the low half counts fractions of it.

ghost use Rattle.mp4_codec.specs.ExactTest.{by_test, field_tests};
ghost use Rattle.std.specs.Prelude.{◌≡◌, ◌*◌, ◌/◌, pos, ◌*ℤ◌, ◌+ℤ◌, ◌≤ℤ◌, ◌<ℤ◌};

use crate::exact_eq::ExactEq;
use crate::try_clone::Plain;
use std::fmt;
use std::fmt::Debug;

/// An unsigned number of 8.8 bits.
#[derive(Clone, Copy, PartialEq, Eq)]
pub struct FixedPointU8 {
    /// How many 256ths it is.
    pub raw: u16,
}

impl ExactEq for FixedPointU8 {
    ghost exact = { by_test (Prim.hlevel field_tests) };
}

impl FixedPointU8 {
    /// A whole number.
    pub fn new(whole: u8) -> Self
        ensures { result.raw ≡ whole * 256 }
    {
        FixedPointU8 {
            raw: (whole as u16) << 8,
        }
    }

    /// So many 256ths.
    pub fn new_raw(raw: u16) -> Self
        ensures { result.raw ≡ raw }
    {
        FixedPointU8 { raw }
    }

    /// The whole part.
    pub fn value(self) -> u8
        ensures { result ≡ self.raw / 256 }
    {
        (self.raw >> 8) as u8
    }

    /// How many 256ths it is.
    pub fn raw_value(self) -> u16
        ensures { result ≡ self.raw }
    {
        self.raw
    }
}

impl Debug for FixedPointU8 {
    /// Writes the number as a decimal fraction, as `1.5`.
    fn fmt<W: fmt::Write>(&self, f: &mut fmt::Formatter<W>) -> fmt::Result {
        Debug::fmt(&(f64::from(self.raw) / 256.0), f)
    }
}

impl Plain for FixedPointU8 {}

/// A signed number of 8.8 bits.
#[derive(Clone, Copy, PartialEq, Eq)]
pub struct FixedPointI8 {
    /// How many 256ths it is.
    pub raw: i16,
}

impl ExactEq for FixedPointI8 {
    ghost exact = { by_test (Prim.hlevel field_tests) };
}

impl FixedPointI8 {
    /// A whole number.
    pub fn new(whole: i8) -> Self
        ensures { result.raw ≡ whole *ℤ pos 256 }
    {
        FixedPointI8 {
            raw: (whole as i16) * 256,
        }
    }

    /// So many 256ths.
    pub fn new_raw(raw: i16) -> Self
        ensures { result.raw ≡ raw }
    {
        FixedPointI8 { raw }
    }

    /// The whole part: the greatest whole number that isn't above it.
    pub fn value(self) -> i8
        ensures at_most { (result *ℤ pos 256) ≤ℤ self.raw }
        ensures greatest { self.raw <ℤ ((result +ℤ pos 1) *ℤ pos 256) }
    {
        (self.raw >> 8) as i8
    }

    /// How many 256ths it is.
    pub fn raw_value(self) -> i16
        ensures { result ≡ self.raw }
    {
        self.raw
    }
}

impl Debug for FixedPointI8 {
    /// Writes the number as a decimal fraction, as `1.5`.
    fn fmt<W: fmt::Write>(&self, f: &mut fmt::Formatter<W>) -> fmt::Result {
        Debug::fmt(&(f64::from(self.raw) / 256.0), f)
    }
}

impl Plain for FixedPointI8 {}

/// An unsigned number of 16.16 bits.
#[derive(Clone, Copy, PartialEq, Eq)]
pub struct FixedPointU16 {
    /// How many 65536ths it is.
    pub raw: u32,
}

impl ExactEq for FixedPointU16 {
    ghost exact = { by_test (Prim.hlevel field_tests) };
}

impl FixedPointU16 {
    /// A whole number.
    pub fn new(whole: u16) -> Self
        ensures { result.raw ≡ whole * 65536 }
    {
        FixedPointU16 {
            raw: (whole as u32) << 16,
        }
    }

    /// So many 65536ths.
    pub fn new_raw(raw: u32) -> Self
        ensures { result.raw ≡ raw }
    {
        FixedPointU16 { raw }
    }

    /// The whole part.
    pub fn value(self) -> u16
        ensures { result ≡ self.raw / 65536 }
    {
        (self.raw >> 16) as u16
    }

    /// How many 65536ths it is.
    pub fn raw_value(self) -> u32
        ensures { result ≡ self.raw }
    {
        self.raw
    }
}

impl Debug for FixedPointU16 {
    /// Writes the number as a decimal fraction, as `1.5`.
    fn fmt<W: fmt::Write>(&self, f: &mut fmt::Formatter<W>) -> fmt::Result {
        Debug::fmt(&(f64::from(self.raw) / 65536.0), f)
    }
}

impl Plain for FixedPointU16 {}
