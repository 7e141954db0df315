//! Whether two values are unequal by `==` and by `is_equal` alike, in either order.

use mp4_codec::{ExactEq, is_equal};

/// Whether two values are unequal, and each is equal to itself.
fn are_apart<T: ExactEq>(one: &T, other: &T) -> bool {
    let is_itself = is_equal(one, one) && is_equal(other, other);
    is_itself && *one != *other && !is_equal(other, one)
}

/// Whether two values of the same fields are equal.
pub fn are_alike<T: ExactEq>(one: &T, other: &T) -> bool {
    is_equal(one, other) && *other == *one
}

/// Whether a value is equal to one of the same fields, and unequal to each of others, which differ from it in one
/// field.
pub fn tells_each<T: ExactEq>(one: &T, alike: &T, others: &[T]) -> bool {
    let mut all = are_alike(one, alike);
    for other in others {
        all = all && are_apart(one, other);
    }
    all
}

/// The same by `==` alone.
pub fn compares_each<T: PartialEq>(one: &T, alike: &T, others: &[T]) -> bool {
    let mut all = *one == *alike && *alike == *one;
    for other in others {
        all = all && *other == *other && *one != *other && *other != *one;
    }
    all
}
