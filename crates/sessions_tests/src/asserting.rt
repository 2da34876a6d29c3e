//! Assertions as functions: each is proved once, and not once more in every test that asserts.

use std::fmt::Debug;
use std::process::Abort;

/// Two answers are the same.
pub(crate) fn assert_same<T: PartialEq + Debug>(rt: &impl Abort, found: &T, wanted: &T) {
    assert_eq!(rt; found, wanted);
}

/// Two lists are the same.
pub(crate) fn assert_items<T: PartialEq + Debug>(rt: &impl Abort, found: &[T], wanted: &[T]) {
    assert_eq!(rt; found, wanted);
}
