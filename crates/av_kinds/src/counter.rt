//! The counter by which cells choose: of cycles, or of cycles modulo a period.

ghost use Rattle.std.specs.Prelude.{◌≡◌, ◌<◌, ◌++◌, ◌∷◌, [], codes, IfOk, OnOk};
ghost use Rattle.av_kinds.specs.Counters.{counter_width};
ghost use Rattle.av_kinds.specs.Tops.{port};
ghost use Rattle.av_kinds.specs.inner.Counts.{bound, begun_again};

use crate::gates::bit;
use av_base::{List, Memory, Name, Width};
use av_net::{Drive, Operand, Operation, Port, Step, Symbol};
use std::alloc::Global;

// How many numbers a counter of cycles has.
const MOST_NUMBERS: u32 = 4096;

/// What the counter of an array counts: its cycles, or its phases, which begin again after each period.
#[derive(Clone, Copy, Debug)]
pub enum Counter {
    Cycles,
    Phases { period: u32 },
}

/// The width of the counter.
pub(crate) fn counter_width() -> Width
    ensures { result ≡ counter_width }
{
    Width { bits: 12 }
}

/// A number that the counter is compared with, or raised by.
pub(crate) fn bound(number: u32) -> Operand
    ensures { result ≡ bound number }
{
    Operand::Literal {
        width: counter_width(),
        value: u64::from(number),
    }
}

impl Counter {
    ghost use Rattle.av_kinds.specs.Counters.{IsCounter, counter_name, next_name, count_in};
    ghost use Rattle.av_kinds.specs.inner.Counts.{counter_wires, counter_drives, counter_step};

    /// What the counter has in a cycle.
    pub fn number(self, cycle: u32) -> u32
        requires { IsCounter self }
        ensures { result ≡ count_in self cycle }
    {
        match self {
            Counter::Cycles => cycle % MOST_NUMBERS,
            Counter::Phases { period } => cycle % period,
        }
    }

    /// The name of its register.
    pub(crate) fn name(self, alloc: Global) -> Result<Name, Memory>
        ensures { IfOk result (λ name. name ≡ counter_name self) }
    {
        match self {
            Counter::Cycles => Name::new(alloc, "cyc"),
            Counter::Phases { .. } => Name::new(alloc, "phase"),
        }
    }

    // The name of the wire that has its next number.
    fn next_name(self, alloc: Global) -> Result<Name, Memory>
        ensures { IfOk result (λ name. name ≡ next_name self) }
    {
        match self {
            Counter::Cycles => Name::new(alloc, "cyc_next"),
            Counter::Phases { .. } => Name::new(alloc, "phase_next"),
        }
    }

    // The counter with a number under an operator.
    fn combined(self, alloc: Global, symbol: Symbol, number: u32) -> Result<Operation, Memory>
        ensures { IfOk result (λ operation.
            operation ≡ Operation.Binary (Operand.Name (counter_name self)) symbol (bound number)) }
    {
        Ok(Operation::Binary {
            left: Operand::Name(self.name(alloc)?),
            symbol,
            right: bound(number),
        })
    }

    // A wire for the counter with a number under an operator, and its drive.
    fn add_combined(
        self,
        alloc: Global,
        name: &str,
        width: Width,
        symbol: Symbol,
        number: u32,
        wires: &mut List<Port>,
        drives: &mut List<Drive>,
    ) -> Result<(), Memory>
        ensures wires { OnOk result (wires.new ≡ wires.old ++ port width name.now ∷ []) }
        ensures drives { OnOk result (drives.new ≡ drives.old ++ record {
          target = name.now;
          operation = Operation.Binary (Operand.Name (counter_name self)) symbol (bound number);
        } ∷ []) }
    {
        let target = add_wire(alloc, name, width, wires)?;
        let operation = self.combined(alloc, symbol, number)?;
        drives.push(Drive { target, operation })
    }

    /// Appends the wires of the counter and their drives.
    pub(crate) fn add_parts(
        self,
        alloc: Global,
        wires: &mut List<Port>,
        drives: &mut List<Drive>,
    ) -> Result<(), Memory>
        requires { IsCounter self }
        ensures wires { OnOk result (wires.new ≡ wires.old ++ counter_wires self) }
        ensures drives { OnOk result (drives.new ≡ drives.old ++ counter_drives self) }
    {
        let width = counter_width();
        match self {
            Counter::Cycles => {
                self.add_combined(alloc, "cyc_next", width, Symbol::Add, 1, wires, drives)
            }
            Counter::Phases { period } => {
                let last = period - 1;
                self.add_combined(
                    alloc,
                    "phase_last",
                    bit(),
                    Symbol::Equal,
                    last,
                    wires,
                    drives,
                )?;
                self.add_combined(alloc, "phase_sum", width, Symbol::Add, 1, wires, drives)?;
                add_begun_again(alloc, wires, drives)
            }
        }
    }

    /// The step of the counter.
    pub(crate) fn step(self, alloc: Global) -> Result<Step, Memory>
        ensures { IfOk result (λ step. step ≡ counter_step self) }
    {
        Ok(Step {
            register: self.name(alloc)?,
            reset: 0,
            next: Operand::Name(self.next_name(alloc)?),
        })
    }
}

// The sum, or 0 after the last number.
fn begun_again(alloc: Global) -> Result<Operation, Memory>
    ensures { IfOk result (λ operation. operation ≡ begun_again) }
{
    Ok(Operation::Choose {
        condition: Operand::Name(Name::new(alloc, "phase_last")?),
        yes: bound(0),
        no: Operand::Name(Name::new(alloc, "phase_sum")?),
    })
}

// A wire, and its name once more.
fn add_wire(alloc: Global, name: &str, width: Width, wires: &mut List<Port>) -> Result<Name, Memory>
    ensures name { IfOk result (λ target. target ≡ name.now) }
    ensures wires { OnOk result (wires.new ≡ wires.old ++ port width name.now ∷ []) }
{
    wires.push(Port {
        name: Name::new(alloc, name)?,
        width,
    })?;
    Name::new(alloc, name)
}

// The wire with the number that follows in a period, and its drive.
fn add_begun_again(
    alloc: Global,
    wires: &mut List<Port>,
    drives: &mut List<Drive>,
) -> Result<(), Memory>
    ensures wires { OnOk result (wires.new
        ≡ wires.old ++ port counter_width (codes "phase_next") ∷ []) }
    ensures drives { OnOk result (drives.new
        ≡ drives.old ++ record { target = codes "phase_next"; operation = begun_again } ∷ []) }
{
    let target = add_wire(alloc, "phase_next", counter_width(), wires)?;
    let operation = begun_again(alloc)?;
    drives.push(Drive { target, operation })
}
