//! The comparison that the tests share.

use std::fmt::Debug;
use std::process::Abort;

/// Checks that what was found is what is wanted.
pub(crate) fn check_equal<T: PartialEq + Debug + Drop>(rt: &impl Abort, found: T, wanted: T) {
    assert_eq!(rt; found, wanted);
}
