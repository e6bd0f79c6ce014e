//! What becomes of texts: the lines of their first schedules, and least offsets.

ghost use Rattle.std.specs.Prelude.{IfOk};
ghost use Rattle.av_flat.specs.Trees.{view_system};
ghost use Rattle.av_flat.specs.WellFormed.{IsWellFormed};
ghost use Rattle.av_flat.specs.Chained.{IsChained};
ghost use Rattle.av_flat.specs.Proper.{IsProper};

mod limits;
mod listed;
mod placed;
mod rows;

use crate::asserts::same;
use av_base::{Name, Point};
use av_check::check;
use av_depend::{Edge, edges};
use av_flat::{Flat, Pass, Reach, Time, Timed};
use av_normal::Normal;
use av_sched::{SchedFault, search};
use av_serial::Serial;
use av_testing::{push_named, push_words, system_with};
use std::alloc::Global;
use std::fmt::Write;
use std::process::Abort;
use std::test::Fail;

/// The serial form of a proper system.
pub(crate) fn serial_of(alloc: Global, flat: &Flat) -> Result<Flat, Fail>
    requires { IsWellFormed (view_system flat.now) }
    ensures chained { IfOk result (λ to. IsChained (view_system to)) }
    ensures proper { IfOk result (λ to. IsProper (view_system to)) }
{
    let Ok(normal) = Normal.run(alloc, flat) else {
        return Err(Fail::new("normal"));
    };
    if check(alloc, flat).is_err() {
        return Err(Fail::new("proper"));
    }
    match Serial.run(alloc, &normal) {
        Ok(serial) => Ok(serial),
        Err(_) => Err(Fail::new("serial")),
    }
}

/// The chained system of a short text with N, where that is not 0.
pub(crate) fn chained(alloc: Global, text: &str, n: i64) -> Result<Flat, Fail>
    ensures chained { IfOk result (λ to. IsChained (view_system to)) }
    ensures proper { IfOk result (λ to. IsProper (view_system to)) }
{
    let flat = system_with(alloc, text, n)?;
    serial_of(alloc, &flat)
}

/// Adds the entries with commas between them.
pub(crate) fn push_point(to: &mut String, point: &Point) -> Result<(), Fail> {
    let mut first = true;
    for entry in point.as_slice() {
        if !first {
            to.push_str(",")?;
        }
        first = false;
        write!(to, "{entry}")?;
    }
    Ok(())
}

fn push_time(to: &mut String, name: &Name, time: &Time) -> Result<(), Fail> {
    if !to.as_str().is_empty() {
        to.push_str("; ")?;
    }
    write!(to, "{} (", name.as_str())?;
    push_point(to, &time.linear)?;
    write!(to, ") {}", time.offset)?;
    Ok(())
}

/// The lines of a schedule, joined by semicolons.
pub(crate) fn lines(alloc: Global, timed: &Timed) -> Result<String, Fail> {
    let mut to = String::new(alloc);
    let mut node: usize = 0;
    for var in timed.flat.vars.as_slice() {
        if var.is_node() {
            let time = timed.times.as_slice().get(node).ok_or("time")?;
            push_time(&mut to, &var.name, time)?;
            node = node.wrapping_add(1);
        }
    }
    Ok(to)
}

fn push_edge(to: &mut String, edge: &Edge) -> Result<(), Fail> {
    if !to.as_str().is_empty() {
        to.push_str("; ")?;
    }
    write!(to, "{} reads {} at", edge.consumer, edge.producer)?;
    push_points(to, edge.points.as_slice())
}

/// Adds points in parentheses.
pub(crate) fn push_points(to: &mut String, points: &[Point]) -> Result<(), Fail> {
    for point in points {
        to.push_str(" (")?;
        push_point(to, point)?;
        to.push_str(")")?;
    }
    Ok(())
}

fn edges_of(alloc: Global, flat: &Flat) -> Result<String, Fail>
    requires chained { IsChained (view_system flat.now) }
    requires proper { IsProper (view_system flat.now) }
{
    let mut to = String::new(alloc);
    for edge in edges(alloc, flat)?.as_slice() {
        push_edge(&mut to, edge)?;
    }
    Ok(to)
}

/// The edges of a text as pairs of nodes with their points, joined by semicolons.
fn edge_lines(alloc: Global, text: &str, n: i64) -> Result<String, Fail> {
    let flat = chained(alloc, text, n)?;
    edges_of(alloc, &flat)
}

fn push_fault(out: &mut String, fault: &SchedFault) -> Result<(), Fail> {
    match fault {
        SchedFault::Candidates(many) => {
            write!(out, "candidates {many}")?;
            Ok(())
        }
        SchedFault::NoSchedule(name) => push_named(out, "no schedule", name),
        SchedFault::Memory => push_words(out, "memory"),
    }
}

fn fault_text(alloc: Global, fault: &SchedFault) -> Result<String, Fail> {
    let mut out = String::new(alloc);
    push_fault(&mut out, fault)?;
    Ok(out)
}

fn answer_text(alloc: Global, answer: Result<Timed, SchedFault>) -> Result<String, Fail> {
    match &answer {
        Ok(timed) => lines(alloc, timed),
        Err(fault) => fault_text(alloc, fault),
    }
}

/// What the search in a box says of a system.
fn found(alloc: Global, flat: &Flat, reach: Reach) -> Result<String, Fail>
    requires chained { IsChained (view_system flat.now) }
    requires proper { IsProper (view_system flat.now) }
{
    let edges = edges(alloc, flat)?;
    let answer = search(alloc, flat, edges.as_slice(), reach);
    answer_text(alloc, answer)
}

/// What the search in a box says of a text.
fn schedule(alloc: Global, text: &str, n: i64, size: u32) -> Result<String, Fail> {
    let reach = Reach::new(size).ok_or("reach")?;
    let flat = chained(alloc, text, n)?;
    found(alloc, &flat, reach)
}

fn assert_schedule(
    rt: &impl Abort,
    alloc: Global,
    text: &str,
    n: i64,
    size: u32,
    wanted: &str,
) -> Result<(), Fail> {
    same(rt, schedule(alloc, text, n, size)?.as_str(), wanted);
    Ok(())
}
