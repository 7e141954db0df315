//! How the tests assert.

use std::fmt::{Debug, Display};
use std::process::Abort;

/// Ends the test and prints which case it is, unless the statement holds.
pub fn assert_that(rt: &impl Abort, case: impl Display + Drop, statement: bool) {
    assert!(rt; statement, "case {case}");
}

/// Ends the test and prints both values, unless they are equal.
pub fn assert_equal<T: PartialEq + Debug + Drop>(rt: &impl Abort, value: T, expected: T) {
    assert_eq!(rt; value, expected);
}
