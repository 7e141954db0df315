//! Copies that take memory.

ghost use Rattle.std.specs.Prelude.{◌≡◌, Ok};
ghost use Rattle.mp4_codec.specs.Cause.{Answers, Gives};

use crate::box_type::BoxType;
use crate::error::Result;
use crate::four_cc::FourCC;
use crate::items::Items;
use std::alloc::Global;

/// A value that is copied where there is memory for it. It stands for `Clone`.
pub trait TryClone: Sized + Drop {
    /// An equal value. It is refused by `OutOfMemory` alone.
    fn try_clone(&self) -> Result<Self>
        ensures { Answers (λ x. x) result (Ok self.now) };

    /// A list of equal values. It is refused by `OutOfMemory` alone. They are copied one after the other; those that
    /// are `Plain`, as numbers, codes and entries of tables, all at once.
    fn try_clone_all(alloc: Global, values: &[Self]) -> Result<Items<Self>>
        ensures { Answers (λ x. x) result (Ok values.now) }
    {
        let mut copies = Items::with_capacity(alloc, values.len())?;
        for value in values {
            copies.push(value.try_clone()?)?;
        }
        Ok(copies)
    }
}

/// A value that is copied by its bytes, which takes no memory.
pub trait Plain: Copy {}

impl<T: Plain> TryClone for T {
    fn try_clone(&self) -> Result<T>
        ensures { Gives (λ x. x) result (Ok self.now) }
    {
        Ok(*self)
    }

    fn try_clone_all(alloc: Global, values: &[T]) -> Result<Items<T>> {
        Ok(Items::from(Vec::from_slice(alloc, values)?))
    }
}

impl Plain for u8 {}

impl Plain for u16 {}

impl Plain for u32 {}

impl Plain for u64 {}

impl Plain for FourCC {}

impl Plain for BoxType {}

impl<A: TryClone, B: TryClone> TryClone for (A, B) {
    fn try_clone(&self) -> Result<(A, B)> {
        let first = self.0.try_clone()?;
        let second = self.1.try_clone()?;
        Ok((first, second))
    }
}

impl<T: TryClone> TryClone for Option<T> {
    fn try_clone(&self) -> Result<Option<T>> {
        match self {
            None => Ok(None),
            Some(value) => {
                let copy = value.try_clone()?;
                Ok(Some(copy))
            }
        }
    }
}

impl<T: TryClone> TryClone for Items<T> {
    fn try_clone(&self) -> Result<Items<T>> {
        T::try_clone_all(self.allocator(), self.as_slice())
    }
}

/// Copies of four values. It is refused by `OutOfMemory` alone.
pub fn four_copies<A: TryClone, B: TryClone, C: TryClone, D: TryClone>(
    first: &A,
    second: &B,
    third: &C,
    fourth: &D,
) -> Result<(A, B, C, D)>
    ensures { Answers (λ all. all) result (Ok (first.now, second.now, third.now, fourth.now)) }
{
    let first = first.try_clone()?;
    let second = second.try_clone()?;
    let third = third.try_clone()?;
    let fourth = fourth.try_clone()?;
    Ok((first, second, third, fourth))
}
