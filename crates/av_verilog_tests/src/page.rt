//! Pages, piece by piece.

use crate::asserts::assert_held;
use av_base::{List, MemSink, WriteFault};
use av_page::Page;
use std::alloc::Global;
use std::process::Abort;
use std::test::Fail;

// A sink that takes three bytes at a time, and whose calls of these numbers fail.
fn sink(alloc: Global, failing: &[u64]) -> Result<MemSink, Fail> {
    let mut calls = List::new(alloc);
    for call in failing {
        calls.push(*call)?;
    }
    Ok(MemSink::new(alloc, 100, 3, calls)?)
}

#[test]
fn pieces_and_numbers(rt: HostRuntime) -> Result<(), Fail> {
    let mut sink = sink(rt.alloc(), &[])?;
    let mut page = Page::new();
    page.put(&mut sink, "a=");
    page.put_number(&mut sink, -12i64);
    page.put(&mut sink, "");
    assert_held(&rt, &sink, b"");
    page.finish(&mut sink)?;
    assert_held(&rt, &sink, b"a=-12");
    page.put(&mut sink, ";");
    page.finish(&mut sink)?;
    assert_held(&rt, &sink, b"a=-12;");
    Ok(())
}

#[test]
fn after_a_fault_nothing_is_sent(rt: HostRuntime) -> Result<(), Fail> {
    let mut sink = sink(rt.alloc(), &[1])?;
    let mut page = Page::new();
    page.put(&mut sink, "abcde");
    let first = page.finish(&mut sink);
    page.put(&mut sink, "fg");
    let second = page.finish(&mut sink);
    assert_eq!(rt; [first, second], [Err(WriteFault), Err(WriteFault)]);
    assert_held(&rt, &sink, b"abc");
    Ok(())
}
