//! Values of which `==` compares every part.

ghost use Rattle.std.specs.Prelude.{◌≡◌, ◌↔◌, true, IsTrue};
ghost use Rattle.mp4_codec.specs.ExactTest.{by_law, list, number, option, pair, signed, flag};

use crate::items::Items;
use crate::keyed_items::{Key, KeyedItems};
use crate::shared_items::{SharedItem, SharedItems};

/// A type of which `==` compares every part: two values are equal where they are the same in each field.
pub trait ExactEq: Eq {
    /// Values that are equal are the same.
    ghost exact: { (x y : Self) → Self.eq x y ≡ true → x ≡ y };
}

/// Whether two values are the same in each field, as `==` answers.
pub fn is_equal<T: ExactEq>(first: &T, second: &T) -> bool
    ensures { IsTrue result ↔ (first.now ≡ second.now) }
{
    first == second
}

impl ExactEq for bool {
    ghost exact = { flag.exact };
}

impl ExactEq for u8 {
    ghost exact = { number.exact };
}

impl ExactEq for u16 {
    ghost exact = { number.exact };
}

impl ExactEq for u32 {
    ghost exact = { number.exact };
}

impl ExactEq for u64 {
    ghost exact = { number.exact };
}

impl ExactEq for i16 {
    ghost exact = { signed.exact };
}

impl ExactEq for i32 {
    ghost exact = { signed.exact };
}

impl<A: ExactEq, B: ExactEq> ExactEq for (A, B) {
    ghost exact = { (pair (by_law A.exact) (by_law B.exact)).exact };
}

impl<T: ExactEq> ExactEq for Option<T> {
    ghost exact = { (option (by_law T.exact)).exact };
}

impl<T: ExactEq> ExactEq for Items<T> {
    ghost exact = { (list (by_law T.exact)).exact };
}

impl<T: ExactEq + SharedItem> ExactEq for SharedItems<T> {
    ghost exact = { (list (by_law T.exact)).exact };
}

impl<K: Key, V: ExactEq> ExactEq for KeyedItems<K, V> {
    ghost exact = { (list (option (by_law V.exact))).exact };
}
