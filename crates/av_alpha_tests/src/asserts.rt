//! What tests compare.

use std::process::Abort;

/// Both texts are one.
pub(crate) fn same(rt: &impl Abort, found: &str, wanted: &str) {
    assert_eq!(rt; found, wanted);
}
