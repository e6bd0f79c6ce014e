//! The designs and faults of texts, and the texts of designs.

ghost use Rattle.std.specs.Prelude.{◌<◌, length, IfOk};
ghost use Rattle.av_net.specs.Designs.{IsSoundDesign};

use crate::asserts::same;
use av_base::{List, MemSink};
use av_net::Design;
use av_testing::{push_named, push_number, push_place, push_words};
use av_vread::{VFault, read_design};
use av_vtext::write_design;
use std::alloc::Global;
use std::fmt::Write;
use std::process::Abort;
use std::test::Fail;

/// The design of a text that is no longer than the reader asks.
pub(crate) fn read(alloc: Global, bytes: &[u8]) -> Result<Design, VFault>
    ensures { IfOk result IsSoundDesign }
{
    if bytes.len() >= 4_294_967_295 {
        return Err(VFault::Memory);
    }
    read_design(alloc, bytes)
}

/// The design of a text that spells one.
pub(crate) fn design(alloc: Global, text: &str) -> Result<Design, Fail>
    ensures { IfOk result IsSoundDesign }
{
    match read(alloc, text.as_bytes()) {
        Ok(design) => Ok(design),
        Err(_) => Err(Fail::new("a design")),
    }
}

/// The text of the design is this one.
pub(crate) fn assert_text(
    rt: &impl Abort,
    alloc: Global,
    design: &Design,
    wanted: &str,
) -> Result<(), Fail> {
    let mut sink = MemSink::new(alloc, 4096, 100, List::new(alloc))?;
    write_design(design, &mut sink)?;
    assert_eq!(rt; sink.held(), wanted.as_bytes());
    Ok(())
}

/// What is read of the first text is written as the second.
pub(crate) fn assert_written(
    rt: &impl Abort,
    alloc: Global,
    text: &str,
    wanted: &str,
) -> Result<(), Fail> {
    let read = design(alloc, text)?;
    assert_text(rt, alloc, &read, wanted)
}

/// A module with these ports, declarations and items.
pub(crate) fn around(alloc: Global, ports: &str, body: &str) -> Result<String, Fail> {
    let mut text = String::from_str(alloc, "module m(input clk, input rst")?;
    write!(text, "{ports});\n{body}\nendmodule\n")?;
    Ok(text)
}

fn push_fault(out: &mut String, fault: VFault) -> Result<(), Fail> {
    match &fault {
        VFault::VByte(place) => push_place(out, "byte", *place),
        VFault::VSyntax(place) => push_place(out, "syntax", *place),
        VFault::VListing(line) => push_number(out, "listing", u128::from(*line)),
        VFault::VTwice(name) => push_named(out, "twice", name),
        VFault::VName(name) => push_named(out, "name", name),
        VFault::VUnassigned(name) => push_named(out, "unassigned", name),
        VFault::VOrder(name) => push_named(out, "order", name),
        VFault::VWidth(name) => push_named(out, "width", name),
        VFault::Memory => push_words(out, "memory"),
    }
}

fn push_module(out: &mut String, read: Design) -> Result<(), Fail> {
    push_named(out, "module", &read.module.name)
}

fn push_told(out: &mut String, alloc: Global, bytes: &[u8]) -> Result<(), Fail> {
    match read(alloc, bytes) {
        Ok(read) => push_module(out, read),
        Err(fault) => push_fault(out, fault),
    }
}

// What the reader answers, as a line of text.
fn told(alloc: Global, bytes: &[u8]) -> Result<String, Fail> {
    let mut out = String::new(alloc);
    push_told(&mut out, alloc, bytes)?;
    Ok(out)
}

/// The reader answers this of the text.
pub(crate) fn assert_told(
    rt: &impl Abort,
    alloc: Global,
    text: &[u8],
    wanted: &str,
) -> Result<(), Fail> {
    same(rt, told(alloc, text)?.as_str(), wanted);
    Ok(())
}
