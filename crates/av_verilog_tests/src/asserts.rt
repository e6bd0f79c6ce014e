//! What tests compare.

use av_base::MemSink;
use std::process::Abort;

/// Both texts are one.
pub(crate) fn same(rt: &impl Abort, found: &str, wanted: &str) {
    assert_eq!(rt; found, wanted);
}

/// The sink has these bytes.
pub(crate) fn assert_held(rt: &impl Abort, sink: &MemSink, wanted: &[u8]) {
    assert_eq!(rt; sink.held(), wanted);
}
