//! The lines of cycles and of results, as they are written.

ghost use Rattle.std.specs.Prelude.{◌≡◌, length, IfOk};

use crate::asserts::assert_held;
use av_base::{List, MemSink, Memory, Name, Point, Width, Word, WriteFault};
use av_data::{write_cycle, write_result};
use av_net::Port;
use av_testing::{port, sink_of};
use std::alloc::Global;
use std::process::Abort;
use std::test::Fail;

fn two_ports(alloc: Global) -> Result<List<Port>, Fail>
    ensures { IfOk result (λ ports. length ports ≡ 2) }
{
    let mut ports = List::new(alloc);
    ports.push(port(alloc, "i0", 8)?)?;
    ports.push(port(alloc, "o_1", 64)?)?;
    Ok(ports)
}

fn assert_fault(rt: &impl Abort, written: Result<(), WriteFault>) {
    assert_eq!(rt; written, Err(WriteFault));
}

const CYCLE: &[u8] = b"4095 i0=0 o_1=18446744073709551615\n";

#[test]
fn the_line_of_a_cycle(rt: HostRuntime) -> Result<(), Fail> {
    let alloc = rt.alloc();
    let ports = two_ports(alloc)?;
    let mut sink = sink_of(alloc, 100, 3)?;
    write_cycle(4095, ports.as_slice(), &[0, u64::MAX], &mut sink)?;
    assert_held(&rt, &sink, CYCLE);
    write_cycle(0, &[], &[], &mut sink)?;
    assert_held(&rt, &sink, b"4095 i0=0 o_1=18446744073709551615\n0\n");
    Ok(())
}

#[test]
fn a_sink_without_room_for_a_cycle(rt: HostRuntime) -> Result<(), Fail> {
    let alloc = rt.alloc();
    let ports = two_ports(alloc)?;
    for room in 0..CYCLE.len() {
        let mut sink = sink_of(alloc, room, 3)?;
        assert_fault(
            &rt,
            write_cycle(4095, ports.as_slice(), &[0, u64::MAX], &mut sink),
        );
        assert_held(&rt, &sink, &CYCLE[..room]);
    }
    Ok(())
}

#[test]
fn the_line_of_a_result(rt: HostRuntime) -> Result<(), Fail> {
    let mut sink = sink_of(rt.alloc(), 100, 3)?;
    let point = Point::from_slice(&[1, -20]);
    write_result("Y", &point, Word { bits: 255 }, &mut sink)?;
    let nowhere = Point::from_slice(&[]);
    write_result("Sum_1", &nowhere, Word { bits: 0 }, &mut sink)?;
    assert_held(&rt, &sink, b"Y (1,-20) = 255\nSum_1 () = 0\n");
    Ok(())
}

#[test]
fn a_sink_without_room_for_a_result(rt: HostRuntime) -> Result<(), Fail> {
    let mut sink = sink_of(rt.alloc(), 5, 3)?;
    let point = Point::from_slice(&[7]);
    assert_fault(
        &rt,
        write_result("Y", &point, Word { bits: 255 }, &mut sink),
    );
    assert_held(&rt, &sink, b"Y (7)");
    Ok(())
}
