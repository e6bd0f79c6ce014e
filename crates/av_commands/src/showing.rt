//! What a design shows of words that its inputs are given.

ghost use Rattle.std.specs.Prelude.{◌≡◌, ◌<◌, ◌≤◌, ◌+◌, ◌*◌, ◌^◌, ◌∷◌, [], map, length, drop, slice_get, Some, None, IsTrue, All, AllPairs, Contains, IfOk, OnOk, IfSome, IfNone};
ghost use Rattle.av_net.specs.Clocked.{Stream as Ports, Run as Clocked, IsRun};
ghost use Rattle.av_net.specs.Designs.{IsSoundDesign};
ghost use Rattle.av_net.specs.Names.{names_of, targets_of, wire_names, AreDistinct};
ghost use Rattle.av_net.specs.Presented.{AreApart, HaveFittingWords};
ghost use Rattle.av_net.specs.Shown.{Values};
ghost use Rattle.av_net.specs.Sound.{IsSound};
ghost use Rattle.av_clock.specs.Seen.{carried};
ghost use Rattle.av_stream.specs.Streams.{AreApartEach};
ghost use Rattle.av_data.specs.Inputs.{words_of};
ghost use Rattle.av_wave.specs.Simulated.{IsStimulated};
ghost use Rattle.av_wave.specs.Clocking.{AreLeft};
ghost use Rattle.av_commands.specs.Shown.{AreSmall, AreShown};
ghost use Rattle.av_commands.specs.inner.Feeding.{AreOfLines};
ghost use Rattle.av_commands.specs.inner.Streaming.{AreOfProblems};
ghost use Rattle.av_commands.specs.inner.Watching.{bits_of, AreTaps, noted, watched};

use av_base::{List, Memory, Name, Point, Word};
use av_clock::Clock;
use av_data::{Given, Inputs, Stimulus, Timeline};
use av_net::{Design, Entry, Module, Port};
use av_table::NameSet;
use av_wave::{are_numbered, place_of, present, targets, zeros};
use std::alloc::Global;

/// Words of the points of inputs: those of `Inputs`, or others that are not kept but computed.
pub trait Data {
    ghost words: { Self → Values };

    /// The word of a point of the input with this name, or `None` where it has none. No entry of the point is greater than 4,095 in
    /// absolute value.
    fn word(&self, variable: &Name, point: &Point) -> Option<Word>
        requires { AreSmall point.now }
        ensures some { IfSome result (λ word.
            words self.now variable.now point.now ≡ Some word.bits) }
        ensures none { IfNone result (words self.now variable.now point.now ≡ None) };
}

impl Data for Inputs {
    ghost words = { words_of };

    fn word(&self, variable: &Name, point: &Point) -> Option<Word> {
        Inputs::word(self, variable, point)
    }
}

/// Clocks a design on data: the word of each `at` line, in the order of the listing, which its wire has in its cycle.
///
/// The registers are 0 before the reset edge. In the cycle of each `in` line its port carries the word of its point, and every port
/// carries 0 in all other cycles and at the reset edge.
pub fn shown<D: Data>(alloc: Global, design: &Design, inputs: &D) -> Result<List<Word>, Memory>
    requires sound { IsSoundDesign design.now }
    requires apart { AreApart design.now.listing.ins }
    requires words { HaveFittingWords design.now (D.words inputs.now) }
    ensures { IfOk result (λ words.
        AreShown design.now (D.words inputs.now) (map (λ w. w.bits) words)) }
{
    let lines = design.listing.ats.as_slice();
    let stimulus = feed(alloc, design, inputs, cycles_of(lines))?;
    watch(alloc, &design.module, &stimulus, lines)
}

/// What the `in` lines of a design present, in so many cycles.
pub(crate) fn feed<D: Data>(
    alloc: Global,
    design: &Design,
    values: &D,
    cycles: u32,
) -> Result<Stimulus, Memory>
    requires sound { IsSoundDesign design.now }
    requires apart { AreApart design.now.listing.ins }
    requires words { HaveFittingWords design.now (D.words values.now) }
    ensures cycles { IfOk result (λ s. s.cycles ≡ cycles) }
    ensures values { IfOk result (λ s.
        AreOfLines design.now (D.words values.now) (length design.now.listing.ins) s.values) }
{
    let ports = port_places(alloc, design.module.inputs.as_slice())?;
    are_numbered(&design.module.inputs);
    let mut timeline = Timeline::new(alloc);
    for line in design.listing.ins.as_slice() {
        timeline.give(given_of(&ports, values, line))?;
    }
    Ok(Stimulus {
        cycles,
        values: timeline.list(alloc)?,
    })
}

/// What the `in` lines of a design present of each of these inputs, a period later than of the one before it, in so many cycles.
pub(crate) fn feed_each<D: Data>(
    alloc: Global,
    design: &Design,
    problems: &[D],
    period: u32,
    cycles: u32,
) -> Result<Stimulus, Memory>
    requires sound { IsSoundDesign design.now }
    requires apart { AreApartEach design.now.listing.ins period }
    requires words { All (λ x. HaveFittingWords design.now (D.words x)) problems.now }
    requires few { length problems.now * period ≤ 8192 }
    ensures cycles { IfOk result (λ s. s.cycles ≡ cycles) }
    ensures values { IfOk result (λ s.
        AreOfProblems design.now period (map D.words problems.now) s.values) }
{
    let ports = port_places(alloc, design.module.inputs.as_slice())?;
    are_numbered(&design.module.inputs);
    let mut timeline = Timeline::new(alloc);
    let mut start = 0;
    for values in problems {
        for line in design.listing.ins.as_slice() {
            let given = given_of(&ports, values, line);
            timeline.give(Given {
                cycle: given.cycle + start,
                port: given.port,
                value: given.value,
            })?;
        }
        start += period;
    }
    Ok(Stimulus {
        cycles,
        values: timeline.list(alloc)?,
    })
}

// The names of ports, each found by its bytes.
fn port_places(alloc: Global, ports: &[Port]) -> Result<NameSet<'_>, Memory>
    requires { AreDistinct (names_of ports.now) }
    ensures { IfOk result (λ places. places ≡ names_of ports.now) }
{
    let mut places = NameSet::new(alloc);
    for port in ports {
        places.insert(port.name.as_str().as_bytes())?;
    }
    Ok(places)
}

// What a line presents.
fn given_of<D: Data>(ports: &NameSet, values: &D, line: &Entry) -> Given
    requires port { Contains ports.now line.now.wire }
    requires few { length ports.now < 2 ^ 32 }
    requires small { AreSmall line.now.point }
    requires some { IfNone (D.words values.now line.now.variable line.now.point) ⊥ }
    ensures cycle { result.cycle ≡ line.now.cycle }
    ensures port { slice_get ports.now result.port ≡ Some line.now.wire }
    ensures word { D.words values.now line.now.variable line.now.point ≡ Some result.value }
{
    let port = place_of(ports, &line.wire);
    match values.word(&line.variable, &line.point) {
        Some(word) => Given {
            cycle: line.cycle,
            port,
            value: word.bits,
        },
        None => unreachable!(),
    }
}

/// One cycle more than the greatest cycle of the lines, or none.
pub(crate) fn cycles_of(lines: &[Entry]) -> u32
    requires { All (λ line. line.cycle ≤ 4095) lines.now }
    ensures { All (λ line. line.cycle < result) lines.now }
{
    let mut cycles = 0;
    for line in lines {
        if line.cycle >= cycles {
            cycles = line.cycle + 1;
        }
    }
    cycles
}

/// The place of the drive of each line's wire.
pub(crate) fn taps(alloc: Global, of: &Module, lines: &[Entry]) -> Result<List<u32>, Memory>
    requires sound { IsSound of.now }
    requires wires { All (λ line. Contains (wire_names of.now) line.wire) lines.now }
    ensures { IfOk result (λ taps. AreTaps of.now lines.now (length lines.now) taps) }
{
    let targets = targets(alloc, of.drives.as_slice())?;
    are_numbered(&of.drives);
    let mut taps = List::new(alloc);
    for line in lines {
        taps.push(place_of(&targets, &line.wire))?;
    }
    Ok(taps)
}

fn zero_words(alloc: Global, count: usize) -> Result<List<Word>, Memory>
    ensures { IfOk result (λ words. (length words ≡ count) × All (λ w. w.bits ≡ 0) words) }
{
    let mut words = List::new(alloc);
    for _ in 0..count {
        words.push(Word { bits: 0 })?;
    }
    Ok(words)
}

// Clocks the module from reset under a stimulus: the words on the wires of the lines, each in its cycle.
fn watch(
    alloc: Global,
    of: &Module,
    stimulus: &Stimulus,
    lines: &[Entry],
) -> Result<List<Word>, Memory>
    requires sound { IsSound of.now }
    requires left { AreLeft of.now.inputs stimulus.now.values 0 0 stimulus.now.values }
    requires wires { All (λ line. Contains (wire_names of.now) line.wire) lines.now }
    ensures { IfOk result (λ words. (stream : Ports) (run : Clocked)
        → IsStimulated of.now stimulus.now stream → IsRun of.now stimulus.now.cycles stream run
        → bits_of words ≡ watched run.in_cycle stimulus.now.cycles lines.now) }
{
    let inputs = of.inputs.len() as u32;
    let taps = taps(alloc, of, lines)?;
    let mut ports = zeros(alloc, of.inputs.as_slice().len())?;
    let mut words = zero_words(alloc, lines.len())?;
    let mut clock = Clock::new(alloc, of)?;
    clock_and_note(
        &mut clock,
        inputs,
        stimulus,
        lines,
        taps.as_slice(),
        &mut ports,
        &mut words,
    );
    Ok(words)
}

// The cycles from reset. The words of the ports are noted as well.
fn clock_and_note(
    clock: &mut Clock<'_>,
    inputs: u32,
    stimulus: &Stimulus,
    lines: &[Entry],
    taps: &[u32],
    ports: &mut List<u64>,
    words: &mut List<Word>,
)
    requires sound { IsSound clock.old.of }
    requires count { inputs ≡ length clock.old.of.inputs }
    requires room { inputs ≤ length ports.old }
    requires left { AreLeft clock.old.of.inputs stimulus.now.values 0 0 stimulus.now.values }
    requires taps { AreTaps clock.old.of lines.now (length lines.now) taps.now }
    requires zeros { (length words.old ≡ length lines.now) × All (λ w. w.bits ≡ 0) words.old }
    ensures { (stream : Ports) (run : Clocked) → IsStimulated clock.old.of stimulus.now stream
        → IsRun clock.old.of stimulus.now.cycles stream run
        → bits_of words.new ≡ watched run.in_cycle stimulus.now.cycles lines.now }
{
    let given = stimulus.values.as_slice();
    let mut next = 0;
    clock.reset();
    for cycle in 0..stimulus.cycles {
        next = present(clock, inputs, given, next, cycle, ports);
        clock.settle();
        note(clock, cycle, lines, taps, words);
        clock.tick();
    }
}

// Notes the words on the wires of the lines of a cycle.
fn note(clock: &Clock<'_>, cycle: u32, lines: &[Entry], taps: &[u32], words: &mut List<Word>)
    requires settled { IsTrue clock.now.settled }
    requires taps { AreTaps clock.now.of lines.now (length lines.now) taps.now }
    requires room { length words.old ≡ length lines.now }
    ensures { bits_of words.new ≡ noted (carried clock.now) cycle lines.now (bits_of words.old) }
{
    for (k, line) in lines.iter().enumerate() {
        if line.cycle == cycle {
            words.set(
                k,
                Word {
                    bits: clock.value(taps[k]),
                },
            );
        }
    }
}
