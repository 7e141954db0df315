//! How the tests assert. A crate of tests has these functions of its own: no library may end the process.

use std::fmt::Display;
use std::process::Abort;

/// Ends the test and prints which case it is, unless the statement holds. A case has a name of its own in its test: a
/// text, or its number. The tests assert by these functions, since an assertion in the test itself is far slower to
/// prove.
pub fn assert_that(rt: &impl Abort, case: impl Display + Drop, statement: bool) {
    assert!(rt; statement, "case {case}");
}

/// Ends the test and prints how many there are of these, unless they are so many.
pub fn at_least(rt: &impl Abort, what: &str, count: u32, least: u32) {
    assert!(rt; count >= least, "{count} {what}, and not {least}");
}
