//! Values whose numbers are within their types.

ghost use Rattle.std.specs.Prelude.{◌≡◌, ◌<◌, ◌^◌, FitsSigned, IfSome};
ghost use Rattle.std.specs.Int.{w16, w32};
ghost use Rattle.std.specs.List.{AllByRecursion};
ghost use Rattle.mp4_codec.specs.Bytes.{IsCode};

use crate::four_cc::FourCC;
use crate::items::Items;
use crate::shared_items::{SharedItem, SharedItems};

/// A value that knows the ranges of its numbers.
///
/// Contracts see a number as a whole number without bounds, and know its range only where code reads it. A type says
/// here once what holds of all its values, and a caller that needs it of one calls `in_range`, which does nothing else.
pub trait InRange {
    /// Each number of the value is within its type. Of a box it speaks neither of the flags, whose 24 bits are asked
    /// where it is written, nor of bytes that it holds as they are, whose range no contract needs.
    ghost IsInRange: { Self → Type 0 };

    /// Says that they are.
    fn in_range(&self)
        ensures { IsInRange self.now };
}

impl InRange for u8 {
    ghost IsInRange = { λ n. n < 2 ^ 8 };

    fn in_range(&self) {
        let _number = *self;
    }
}

impl InRange for u16 {
    ghost IsInRange = { λ n. n < 2 ^ 16 };

    fn in_range(&self) {
        let _number = *self;
    }
}

impl InRange for u32 {
    ghost IsInRange = { λ n. n < 2 ^ 32 };

    fn in_range(&self) {
        let _number = *self;
    }
}

impl InRange for u64 {
    ghost IsInRange = { λ n. n < 2 ^ 64 };

    fn in_range(&self) {
        let _number = *self;
    }
}

impl InRange for i16 {
    ghost IsInRange = { FitsSigned w16 };

    fn in_range(&self) {
        let _number = *self;
    }
}

impl InRange for i32 {
    ghost IsInRange = { FitsSigned w32 };

    fn in_range(&self) {
        let _number = *self;
    }
}

/// The code again, of which it is known that four bytes encode it.
fn encoded(code: FourCC) -> FourCC
    ensures same { result ≡ code }
    ensures encoded { IsCode result }
{
    FourCC::from(u32::from(code))
}

impl InRange for FourCC {
    ghost IsInRange = { IsCode };

    fn in_range(&self) {
        let _code = encoded(*self);
    }
}

impl<T: InRange> InRange for Option<T> {
    ghost IsInRange = { λ o. IfSome o T.IsInRange };

    fn in_range(&self) {
        if let Some(value) = self {
            value.in_range();
        }
    }
}

/// Says it of each value of a list.
fn all_in_range<T: InRange>(items: &[T])
    ensures { AllByRecursion T.IsInRange items.now }
{
    for item in items {
        item.in_range();
    }
}

impl<T: InRange> InRange for Items<T> {
    ghost IsInRange = { AllByRecursion T.IsInRange };

    fn in_range(&self) {
        all_in_range(self.as_slice());
    }
}

impl<T: InRange + SharedItem> InRange for SharedItems<T> {
    ghost IsInRange = { AllByRecursion T.IsInRange };

    fn in_range(&self) {
        all_in_range(self.as_slice());
    }
}
