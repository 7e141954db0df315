//! Lists of values that copies share.

ghost use Rattle.std.specs.Prelude.{◌≡◌, ◌==◌, ◌<◌, ◌^◌, [], ◌∷◌, ◌++◌, List, length, slice_get};
ghost use Rattle.std.specs.Prelude.{OnOk, OnErr, IfOk, IsOk};
ghost use Rattle.std.specs.Option.{option_copied};
ghost use Rattle.std.specs.Slice.Iter.{iter_rest};
ghost use Rattle.std.specs.Iterator.Adapters.{IterYieldsInOrder};
ghost use Rattle.std.specs.Cmp.Lexicographic.{pointwise, lists_per, lists_equiv};
ghost use Rattle.mp4_codec.specs.SharedItems.{values_in};

use crate::error::Result;
use crate::items::{DebugItem, Items};
use crate::shared_values::SharedValues;
use crate::try_clone::TryClone;
use std::alloc::{AllocError, Global};
use std::fmt::Debug;
use std::marker::Model;
use std::slice::Iter;
use std::sync::Arc;
use std::{fmt, slice};

/// A list that its copies share: a copy holds the same values and takes no memory for them. Boxes that are in the
/// movie and in a track are held once so.
#[derive(Drop)]
pub struct SharedItems<T> {
    alloc: Global,
    values: SharedValues<T>,
}

/// What such a list holds.
pub trait SharedItem: Sized {
    /// The value as a slice of one, which `std::slice::from_ref` makes of it. A type says it for itself, since its size
    /// has to be known.
    fn as_one(&self) -> &[Self]
        ensures { result.now ≡ self.now ∷ [] };
}

impl SharedItem for u32 {
    fn as_one(&self) -> &[u32] {
        slice::from_ref(self)
    }
}

impl SharedItem for u64 {
    fn as_one(&self) -> &[u64] {
        slice::from_ref(self)
    }
}

/// The same values once more. Refused only where their owners are too many to count.
fn another_owner<T>(values: &SharedValues<T>) -> std::result::Result<SharedValues<T>, AllocError>
    ensures { IfOk result (λ same. values_in same ≡ values_in values.now) }
{
    match values {
        SharedValues::Empty => Ok(SharedValues::Empty),
        SharedValues::One(value) => {
            let value = Arc::try_clone(value)?;
            Ok(SharedValues::One(value))
        }
        SharedValues::Many(values) => {
            let values = Arc::try_clone(values)?;
            Ok(SharedValues::Many(values))
        }
    }
}

impl<T> Model for SharedItems<T> {
    ghost Value = { List T };

    ghost view = { λ s. values_in s.values };
}

impl<T: DebugItem + SharedItem> Debug for SharedItems<T> {
    fn fmt<W: fmt::Write>(&self, f: &mut fmt::Formatter<W>) -> fmt::Result {
        T::fmt_items(self.as_slice(), f)
    }
}

impl<T: SharedItem> SharedItems<T> {
    /// An empty list.
    pub fn new(alloc: Global) -> Self
        ensures { result ≡ [] }
    {
        SharedItems {
            alloc,
            values: SharedValues::Empty,
        }
    }

    /// A list of these values. Where there are any it takes memory, of a size that doesn't depend on them.
    pub fn from_items(items: Items<T>) -> std::result::Result<Self, AllocError>
    where
        T: Drop,
        ensures value { IfOk result (λ s. s ≡ items) }
        ensures none { items ≡ [] → IsOk result }
    {
        let alloc = items.allocator();
        if items.len() > 1 {
            let values = SharedValues::Many(Arc::new(alloc, items)?);
            return Ok(SharedItems { alloc, values });
        }
        let mut items: Vec<T> = items.into();
        let values = match items.pop() {
            None => SharedValues::Empty,
            Some(value) => SharedValues::One(Arc::new(alloc, value)?),
        };
        Ok(SharedItems { alloc, values })
    }

    /// Where the list takes its memory from.
    pub fn allocator(&self) -> Global {
        self.alloc
    }

    /// How many there are.
    pub fn len(&self) -> usize
        ensures value { result ≡ length self.now }
        ensures small { result < 2 ^ 63 }
    {
        match &self.values {
            SharedValues::Empty => 0,
            SharedValues::One(_) => 1,
            SharedValues::Many(values) => values.len(),
        }
    }

    /// Whether there is none.
    pub fn is_empty(&self) -> bool
        ensures { result ≡ (length self.now == 0) }
    {
        self.len() == 0
    }

    /// All of them.
    pub fn as_slice(&self) -> &[T]
        ensures { result.now ≡ self.now }
    {
        match &self.values {
            SharedValues::Empty => &[],
            SharedValues::One(value) => value.as_one(),
            SharedValues::Many(values) => values.as_slice(),
        }
    }

    /// The one at an index, which counts from 0.
    pub fn get(&self, index: usize) -> Option<&T>
        ensures { option_copied result ≡ slice_get self.now index }
    {
        self.as_slice().get(index)
    }

    /// One after the other.
    pub fn iter(&self) -> Iter<'_, T>
        ensures rest { iter_rest result ≡ self.now }
        ensures runs { IterYieldsInOrder T }
    {
        self.as_slice().iter()
    }

    /// Adds one at the end of this list alone. A list of one value, and values that others share, are copied first.
    pub fn push(&mut self, value: T) -> std::result::Result<(), AllocError>
    where
        T: TryClone,
        ensures ok { OnOk result (self.new ≡ self.old ++ value ∷ []) }
        ensures err { OnErr result (self.new ≡ self.old) }
    {
        if let SharedValues::Many(values) = &mut self.values {
            if let Some(values) = Arc::get_mut(values) {
                return values.push(value);
            }
        }
        let Ok(mut values) = T::try_clone_all(self.alloc, self.as_slice()) else {
            return Err(AllocError);
        };
        values.push(value)?;
        *self = SharedItems::from_items(values)?;
        Ok(())
    }
}

impl<T: PartialEq + SharedItem> PartialEq for SharedItems<T> {
    ghost eq = { pointwise T.eq };

    ghost laws = { lists_per T.laws };

    fn eq(&self, other: &Self) -> bool {
        self.as_slice() == other.as_slice()
    }
}

impl<T: Eq + SharedItem> Eq for SharedItems<T> {
    ghost laws = { lists_equiv T.Eq.laws };
}

impl<T: TryClone + SharedItem> TryClone for SharedItems<T> {
    /// The same list. Only where its copies are too many to count is it a list of copied values.
    fn try_clone(&self) -> Result<SharedItems<T>> {
        if let Ok(values) = another_owner(&self.values) {
            return Ok(SharedItems {
                alloc: self.alloc,
                values,
            });
        }
        let copies = T::try_clone_all(self.alloc, self.as_slice())?;
        Ok(SharedItems::from_items(copies)?)
    }
}
