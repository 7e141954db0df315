//! Lists of values, which contracts see as lists.

ghost use Rattle.std.specs.Prelude.{◌≡◌, ◌==◌, ◌<◌, ◌^◌, [], ◌∷◌, ◌++◌, length, slice_get, OnOk, OnErr, IfOk, List};
ghost use Rattle.std.specs.Prelude.{vec_len, vec_capacity};
ghost use Rattle.std.specs.Option.{option_copied};
ghost use Rattle.std.specs.Slice.Iter.{iter_rest};
ghost use Rattle.std.specs.Iterator.Adapters.{IterYieldsInOrder};
ghost use Rattle.std.specs.Cmp.Lexicographic.{pointwise, lists_per, lists_equiv};

use std::alloc::{AllocError, Global};
use std::fmt;
use std::fmt::{Debug, Write};
use std::marker::Model;
use std::slice::Iter;

/// A list, as the fields of boxes are. It is made from a `Vec` and gives it back, without taking memory.
#[derive(Drop)]
pub struct Items<T> {
    items: Vec<T>,
}

/// What lists hold, which says how `Debug` writes a list of it.
pub trait DebugItem: Debug + Sized {
    /// Writes a list: each value by its own `Debug`, as `[1, 2]`; bytes in hex, as `[6d 6f]`.
    fn fmt_items<W: fmt::Write>(items: &[Self], f: &mut fmt::Formatter<W>) -> fmt::Result {
        f.debug_list().entries(items).finish()
    }
}

impl DebugItem for u8 {
    fn fmt_items<W: fmt::Write>(items: &[u8], f: &mut fmt::Formatter<W>) -> fmt::Result {
        f.write_str("[")?;
        for (index, byte) in items.iter().enumerate() {
            if index > 0 {
                f.write_str(" ")?;
            }
            write!(f, "{byte:02x}")?;
        }
        f.write_str("]")
    }
}

impl DebugItem for u32 {}

impl DebugItem for u64 {}

impl<A: Debug, B: Debug> DebugItem for (A, B) {}

impl<T: DebugItem> Debug for Items<T> {
    fn fmt<W: fmt::Write>(&self, f: &mut fmt::Formatter<W>) -> fmt::Result {
        T::fmt_items(self.items.as_slice(), f)
    }
}

impl<T> Model for Items<T> {
    ghost Value = { List T };

    ghost view = { λ s. s.items.items };
}

impl<T> Items<T> {
    /// An empty list.
    pub fn new(alloc: Global) -> Self
        ensures { result ≡ [] }
    {
        Items {
            items: Vec::new(alloc),
        }
    }

    /// An empty list with room for so many.
    pub fn with_capacity(alloc: Global, capacity: usize) -> std::result::Result<Self, AllocError>
        ensures { IfOk result (λ s. s ≡ []) }
    {
        Ok(Items {
            items: Vec::with_capacity(alloc, capacity)?,
        })
    }

    /// Where the list takes its memory from.
    pub fn allocator(&self) -> Global {
        *self.items.allocator()
    }

    /// How many there are.
    pub fn len(&self) -> usize
        ensures value { result ≡ length self.now }
        ensures small { result < 2 ^ 63 }
    {
        self.items.len()
    }

    /// Whether there is none.
    pub fn is_empty(&self) -> bool
        ensures { result ≡ (length self.now == 0) }
    {
        self.items.is_empty()
    }

    /// All of them.
    pub fn as_slice(&self) -> &[T]
        ensures { result.now ≡ self.now }
    {
        self.items.as_slice()
    }

    /// The one at an index, which counts from 0.
    pub fn get(&self, index: usize) -> Option<&T>
        ensures { option_copied result ≡ slice_get self.now index }
    {
        self.items.as_slice().get(index)
    }

    /// One after the other.
    pub fn iter(&self) -> Iter<'_, T>
        ensures rest { iter_rest result ≡ self.now }
        ensures runs { IterYieldsInOrder T }
    {
        self.items.as_slice().iter()
    }

    /// Adds one at the end.
    // Kept inline: docs/PERF.md, "Why these are calls".
    #[inline]
    pub fn push(&mut self, value: T) -> std::result::Result<(), AllocError>
    where
        T: Drop,
        ensures ok { OnOk result (self.new ≡ self.old ++ value ∷ []) }
        ensures err { OnErr result (self.new ≡ self.old) }
    {
        if self.items.len() >= self.items.capacity() {
            grow(&mut self.items)?;
        }
        self.items.push_reserved(value);
        Ok(())
    }
}

/// Room for one more at the end of a full list. It grows by half of its length, and by one at least, so that a short
/// list, as most are, takes no more memory than its values need.
fn grow<T>(items: &mut Vec<T>) -> std::result::Result<(), AllocError>
    ensures same { items.new.items ≡ items.old.items }
    ensures room { OnOk result (vec_len items.new < vec_capacity items.new) }
{
    let len = items.len();
    items.reserve_exact((len / 2).max(1))
}

impl<T> From<Vec<T>> for Items<T> {
    ghost from_gives = { λ v s. s ≡ v.items };

    fn from(items: Vec<T>) -> Self {
        Items { items }
    }
}

impl<T> From<Items<T>> for Vec<T> {
    ghost from_gives = { λ s v. v.items ≡ s };

    fn from(s: Items<T>) -> Self {
        let Items { items } = s;
        items
    }
}

impl<T: PartialEq> PartialEq for Items<T> {
    ghost eq = { pointwise T.eq };

    ghost laws = { lists_per T.laws };

    fn eq(&self, other: &Self) -> bool {
        self.items == other.items
    }
}

impl<T: Eq> Eq for Items<T> {
    ghost laws = { lists_equiv T.Eq.laws };
}
