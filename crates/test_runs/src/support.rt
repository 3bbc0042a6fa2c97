//! What the tests compare by.

use std::fmt::Debug;
use std::process::Abort;

/// Aborts unless the value is the one that is wanted.
pub fn equals<T: PartialEq + Debug>(rt: &impl Abort, value: &T, wanted: &T) {
    assert_eq!(rt; value, wanted);
}

/// Aborts unless this is so, and says what was not.
pub fn holds(rt: &impl Abort, what: &str, is_so: bool) {
    assert!(rt; is_so, "{what}");
}

/// The two values are equal. Tests of many values call this for each.
pub fn same<T: Copy + PartialEq + Debug>(rt: &impl Abort, found: T, wanted: T) {
    assert_eq!(rt; found, wanted);
}
