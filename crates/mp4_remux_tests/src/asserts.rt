//! How the tests assert.

use std::process::Abort;

/// Ends the test, unless the statement holds.
pub fn assert_that(rt: &impl Abort, statement: bool) {
    assert!(rt; statement);
}
