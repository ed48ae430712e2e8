//! The check that the tests share.

use std::fmt::Debug;
use std::process::Abort;

/// Ends the test if another answer came than was expected.
pub fn same<T: PartialEq + Debug + Drop>(rt: &impl Abort, came: T, expected: T) {
    assert_eq!(rt; came, expected);
}
