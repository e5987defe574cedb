//! What is found, compared with what is wanted. An `assert_eq!` costs a check some two seconds wherever it stands, a
//! call a tenth of that.

use std::alloc::Global;
use std::fmt::{Debug, Display};
use std::process::Abort;

/// Both are the same. A failure tells both, and the place where they differ.
pub(crate) fn same<T: Copy + PartialEq + Debug>(
    rt: &impl Abort,
    found: T,
    wanted: T,
    place: impl Copy + Debug,
) {
    assert_eq!(rt; found, wanted, "{place:?}");
}

/// What is shown has this text.
pub(crate) fn has_text(rt: &impl Abort, alloc: Global, shown: impl Copy + Display, text: &str) {
    match format!(in alloc; "{shown}") {
        Ok(written) => same(rt, written.as_str(), text, "text"),
        Err(_) => same(rt, None, Some(text), "memory for a text"),
    }
}
