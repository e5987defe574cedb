//! What is found, compared with what is wanted: by a call, which costs a check less than an `assert_eq!` in its place.

use std::fmt::Debug;
use std::process::Abort;

/// Both are the same. A failure tells both, and the place where they differ.
pub(crate) fn same<T: Copy + PartialEq + Debug>(
    rt: &impl Abort,
    found: T,
    wanted: T,
    place: impl Copy + Debug,
) {
    assert_eq!(rt; found, wanted, "{place:?}");
}
