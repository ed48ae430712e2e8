//! The end of a test.

use std::process::Abort;

/// Ends the test unless this case passes, which has this name.
pub fn passes(rt: &impl Abort, name: &'static str, is_right: bool) {
    assert!(rt; is_right, "{name}");
}
