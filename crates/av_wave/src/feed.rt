//! A clock whose ports are fed and read cycle by cycle.

ghost use Rattle.std.specs.Prelude.{◌≡◌, ◌<◌, ◌≤◌, ◌+◌, ◌++◌, ◌^◌, IsTrue, length, take, drop, replicate, slice_get, Some, Contains, IfOk, OnOk};
ghost use Rattle.av_net.specs.Names.{AreDistinct, names_of, targets_of};
ghost use Rattle.av_net.specs.Settled.{Agree};
ghost use Rattle.av_net.specs.Sound.{IsSound};
ghost use Rattle.av_clock.specs.Seen.{carried};
ghost use Rattle.av_wave.specs.Simulated.{header_ports, port_words};
ghost use Rattle.av_wave.specs.Clocking.{word_next, rest_next, AreLeft, ArePresented, AreWires};

use av_base::{List, Memory, Name};
use av_clock::Clock;
use av_data::Given;
use av_net::{Drive, Module, Port};
use av_table::NameSet;
use std::alloc::Global;

/// So many words that are 0.
pub fn zeros(alloc: Global, count: usize) -> Result<List<u64>, Memory>
    ensures zeros { IfOk result (λ words. words ≡ replicate count 0) }
    ensures count { IfOk result (λ words. length words ≡ count) }
{
    let mut words = List::new(alloc);
    for _ in 0..count {
        words.push(0)?;
    }
    Ok(words)
}

fn push_ports(alloc: Global, list: &mut List<Port>, ports: &[Port]) -> Result<(), Memory>
    ensures { OnOk result (list.new ≡ list.old ++ ports.now) }
{
    for port in ports {
        list.push(port.copied(alloc)?)?;
    }
    Ok(())
}

/// The ports of a module but `clk` and `rst`, in the order of the header.
pub fn header_ports(alloc: Global, of: &Module) -> Result<List<Port>, Memory>
    ensures { IfOk result (λ ports. ports ≡ header_ports of.now) }
{
    let mut ports = List::new(alloc);
    push_ports(alloc, &mut ports, of.inputs.as_slice())?;
    push_ports(alloc, &mut ports, of.outputs.as_slice())?;
    Ok(ports)
}

/// The targets of the drives, in order.
pub fn targets(alloc: Global, drives: &[Drive]) -> Result<NameSet<'_>, Memory>
    requires { AreDistinct (targets_of drives.now) }
    ensures { IfOk result (λ targets. targets ≡ targets_of drives.now) }
{
    let mut targets = NameSet::new(alloc);
    for drive in drives {
        targets.insert(drive.target.as_str().as_bytes())?;
    }
    Ok(targets)
}

/// 32 bits number the items of a list.
pub fn are_numbered<T>(items: &List<T>)
    ensures { length items.now < 2 ^ 32 }
{
    let _count = items.len();
}

/// The place of a name, as a number of 32 bits.
pub fn place_of(targets: &NameSet, name: &Name) -> u32
    requires among { Contains targets.now name.now }
    requires few { length targets.now < 2 ^ 32 }
    ensures { slice_get targets.now result ≡ Some name.now }
{
    match targets.find(name.as_str().as_bytes()) {
        Some(place) => place as u32,
        None => unreachable!(),
    }
}

/// The place of the drive of each output.
pub fn wires(alloc: Global, of: &Module) -> Result<List<u32>, Memory>
    requires { IsSound of.now }
    ensures { IfOk result (λ wires. AreWires of.now (length of.now.outputs) wires) }
{
    let targets = targets(alloc, of.drives.as_slice())?;
    are_numbered(&of.drives);
    let mut wires = List::new(alloc);
    for port in of.outputs.as_slice() {
        wires.push(place_of(&targets, &port.name))?;
    }
    Ok(wires)
}

/// What the next of the values gives to a port in a cycle, or 0, and where the values after it begin.
pub fn word_next(given: &[Given], next: usize, cycle: u32, port: u32) -> (u64, usize)
    requires { next ≤ length given.now }
    ensures word { result.0 ≡ word_next (drop next given.now) cycle port }
    ensures rest { drop result.1 given.now ≡ rest_next (drop next given.now) cycle port }
    ensures within { result.1 ≤ length given.now }
{
    if next < given.len() {
        let first = given[next];
        if first.cycle == cycle && first.port == port {
            return (first.value, next + 1);
        }
    }
    (0, next)
}

/// Presents at all input ports what is given to them in a cycle, and notes it. The values for it begin at
/// `first`, and where those for the next cycle begin is the answer.
pub fn present(
    clock: &mut Clock<'_>,
    inputs: u32,
    given: &[Given],
    first: usize,
    cycle: u32,
    words: &mut List<u64>,
) -> usize
    requires sound { IsSound clock.old.of }
    requires count { inputs ≡ length clock.old.of.inputs }
    requires room { inputs ≤ length words.old }
    requires first { first ≤ length given.now }
    requires left { AreLeft clock.old.of.inputs given.now cycle 0 (drop first given.now) }
    ensures of { clock.new.of ≡ clock.old.of }
    ensures ports { ArePresented clock.new.of given.now cycle inputs (carried clock.new) words.new }
    ensures registers { Agree (names_of clock.new.of.registers)
        (carried clock.old) (carried clock.new) }
    ensures left { AreLeft clock.new.of.inputs given.now (cycle + 1) 0 (drop result given.now) }
    ensures within { result ≤ length given.now }
    ensures room { length words.new ≡ length words.old }
{
    let mut next = first;
    for port in 0..inputs {
        let (word, rest) = word_next(given, next, cycle, port);
        clock.set(port, word);
        words.set(port as usize, word);
        next = rest;
    }
    next
}

/// Notes the words of the outputs behind those of the input ports.
pub fn show(clock: &Clock<'_>, inputs: u32, wires: &[u32], words: &mut List<u64>)
    requires settled { IsTrue clock.now.settled }
    requires wires { AreWires clock.now.of (length clock.now.of.outputs) wires.now }
    requires room { length words.old ≡ length (header_ports clock.now.of) }
    requires count { inputs ≡ length clock.now.of.inputs }
    requires inputs { take inputs words.old ≡ port_words (carried clock.now) clock.now.of.inputs }
    ensures { words.new ≡ port_words (carried clock.now) (header_ports clock.now.of) }
{
    let first = inputs as usize;
    for (i, wire) in wires.iter().enumerate() {
        words.set(first + i, clock.value(*wire));
    }
}
