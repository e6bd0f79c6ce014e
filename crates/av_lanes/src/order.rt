//! An order of the flip-flops in which each may take its word at once: none reads a register that an earlier one has stored.

ghost use Rattle.std.specs.Prelude.{◌≡◌, length, replicate, false, IfOk, IsTrue};
ghost use Rattle.av_net.specs.Names.{all_names};
ghost use Rattle.av_net.specs.Sound.{IsSound};
ghost use Rattle.av_clock.specs.Gates.{IsWithin};
ghost use Rattle.av_lanes.specs.inner.Order.{AreMoves, AreTransfers, AreOrdered, IsOrder, IsUnread, AreMarked};

use av_base::Memory;
use av_clock::{Circuit, FlipFlop, Reading};
use std::alloc::Global;

/// A register, and the place whose word it takes.
#[derive(Clone, Copy)]
pub(crate) struct Transfer {
    pub(crate) register: usize,
    pub(crate) source: usize,
}

/// The flip-flops in such an order, where there is one, and the first of them as transfers, up to one that takes a constant. There is none
/// where registers stand in a circle.
#[derive(Drop)]
pub(crate) struct Moves {
    pub(crate) are_ordered: bool,
    pub(crate) flip_flops: Vec<FlipFlop>,
    pub(crate) transfers: Vec<Transfer>,
}

impl Moves {
    /// Those of a circuit. From the last step to the first they are taken as they stand in memory, where no step reads the register of a
    /// later one.
    pub(crate) fn new(alloc: Global, circuit: &Circuit<'_>) -> Result<Moves, Memory>
        requires { IsSound circuit.now }
        ensures { IfOk result (λ moves. IsTrue moves.are_ordered
            → AreOrdered circuit.now moves.flip_flops.items moves.transfers.items) }
    {
        let backward = backward(alloc, circuit)?;
        let moves = Moves::by(alloc, circuit, &backward)?;
        if moves.are_ordered {
            return Ok(moves);
        }
        let reads = reads(alloc, circuit)?;
        let order = ordered(alloc, &reads)?;
        Moves::by(alloc, circuit, &order)
    }

    // Those in this order, where each may take its word at once in it.
    fn by(alloc: Global, circuit: &Circuit<'_>, order: &[usize]) -> Result<Moves, Memory>
        requires { IsSound circuit.now }
        ensures { IfOk result (λ moves. IsTrue moves.are_ordered
            → AreOrdered circuit.now moves.flip_flops.items moves.transfers.items) }
    {
        let mut stored = vec![in alloc; false; circuit.size()]?;
        if !is_order(circuit, order, &mut stored) {
            return Ok(Moves {
                are_ordered: false,
                flip_flops: Vec::new(alloc),
                transfers: Vec::new(alloc),
            });
        }
        let flip_flops = in_order(alloc, circuit, order)?;
        let transfers = transfers(alloc, &flip_flops)?;
        Ok(Moves {
            are_ordered: true,
            flip_flops,
            transfers,
        })
    }
}

// The first of these flip-flops, up to one that takes a constant.
fn transfers(alloc: Global, moves: &[FlipFlop]) -> Result<Vec<Transfer>, Memory>
    ensures { IfOk result (λ transfers. AreTransfers moves.now transfers.items) }
{
    let mut transfers = Vec::new(alloc);
    for flip_flop in moves {
        match flip_flop.next {
            Reading::At(source) => transfers.push(Transfer {
                register: flip_flop.register,
                source,
            })?,
            Reading::Constant(_) => break,
        }
    }
    Ok(transfers)
}

// Whether a reading is of a constant.
fn is_constant(reading: Reading) -> bool {
    match reading {
        Reading::At(_) => false,
        Reading::Constant(_) => true,
    }
}

// Enters the steps that take constants, or the others, from the last to the first.
fn enter_backward(
    circuit: &Circuit<'_>,
    of_constants: bool,
    steps: &mut Vec<usize>,
) -> Result<(), Memory> {
    let flip_flops = circuit.flip_flops();
    for i in (0..flip_flops.len()).rev() {
        if is_constant(flip_flops[i].next) == of_constants {
            steps.push(i)?;
        }
    }
    Ok(())
}

// The steps from the last to the first, those that take constants behind the others.
fn backward(alloc: Global, circuit: &Circuit<'_>) -> Result<Vec<usize>, Memory> {
    let mut steps = Vec::new(alloc);
    enter_backward(circuit, false, &mut steps)?;
    enter_backward(circuit, true, &mut steps)?;
    Ok(steps)
}

// Enters at the place of each register its step.
fn enter_steps(circuit: &Circuit<'_>, steps: &mut [usize])
    requires size { length steps.old ≡ length (all_names circuit.now) }
{
    for (i, flip_flop) in circuit.flip_flops().iter().enumerate() {
        steps[flip_flop.register] = i;
    }
}

// The step that is entered at the place of a reading, and else none.
fn step_read(reading: Reading, steps: &[usize], none: usize) -> usize
    requires { IsWithin (length steps.now) reading }
{
    match reading {
        Reading::At(place) => steps[place],
        Reading::Constant(_) => none,
    }
}

// Enters for each step the other one whose register it reads, where there is one.
fn enter_reads(circuit: &Circuit<'_>, steps: &[usize], reads: &mut [usize])
    requires size { length steps.now ≡ length (all_names circuit.now) }
    requires reads { length reads.old ≡ length circuit.now.steps }
{
    let none = circuit.steps();
    for (i, flip_flop) in circuit.flip_flops().iter().enumerate() {
        let read = step_read(flip_flop.next, steps, none);
        if read != i {
            reads[i] = read;
        }
    }
}

// Of each step the other step whose register it reads, and else the number of steps.
fn reads(alloc: Global, circuit: &Circuit<'_>) -> Result<Vec<usize>, Memory> {
    let mut steps = vec![in alloc; circuit.steps(); circuit.size()]?;
    enter_steps(circuit, &mut steps);
    let mut reads = vec![in alloc; circuit.steps(); circuit.steps()]?;
    enter_reads(circuit, &steps, &mut reads);
    Ok(reads)
}

// How many others read the register of each step.
fn readers(alloc: Global, reads: &[usize]) -> Result<Vec<usize>, Memory> {
    let mut readers = vec![in alloc; 0usize; reads.len()]?;
    for read in reads {
        if *read < readers.len() {
            readers[*read] = readers[*read].wrapping_add(1);
        }
    }
    Ok(readers)
}

// The steps whose register no other reads.
fn unread(alloc: Global, readers: &[usize]) -> Result<Vec<usize>, Memory> {
    let mut steps = Vec::new(alloc);
    for (i, count) in readers.iter().enumerate() {
        if *count == 0 {
            steps.push(i)?;
        }
    }
    Ok(steps)
}

// The steps in an order in which each stands before the one whose register it reads, but those in circles and what these read. What a step
// reads follows it where no other reads that too, so that a chain of registers stands together.
fn ordered(alloc: Global, reads: &[usize]) -> Result<Vec<usize>, Memory> {
    let mut readers = readers(alloc, reads)?;
    let mut ready = unread(alloc, &readers)?;
    let mut order = Vec::new(alloc);
    for _ in 0..reads.len() {
        let Some(step) = ready.pop() else { break };
        order.push(step)?;
        if step < reads.len() && reads[step] < readers.len() {
            let read = reads[step];
            readers[read] = readers[read].wrapping_sub(1);
            if readers[read] == 0 {
                ready.push(read)?;
            }
        }
    }
    Ok(order)
}

// Whether a reading is of no place that is marked.
fn is_unread(reading: Reading, stored: &[bool]) -> bool
    requires { IsWithin (length stored.now) reading }
    ensures { IsTrue result → IsUnread stored.now reading }
{
    match reading {
        Reading::At(place) => !stored[place],
        Reading::Constant(_) => true,
    }
}

// Whether all steps stand in the order, and none behind one whose register it reads. Marks the places of the registers.
fn is_order(circuit: &Circuit<'_>, order: &[usize], stored: &mut [bool]) -> bool
    requires sound { IsSound circuit.now }
    requires none { stored.old ≡ replicate (length (all_names circuit.now)) false }
    ensures { IsTrue result → IsOrder circuit.now order.now }
{
    let flip_flops = circuit.flip_flops();
    for i in 0..order.len() {
        let step = order[i];
        if step >= flip_flops.len() {
            return false;
        }
        if !is_unread(flip_flops[step].next, stored) {
            return false;
        }
        stored[flip_flops[step].register] = true;
    }
    are_stored(circuit, stored)
}

// Whether the places of all registers are marked.
fn are_stored(circuit: &Circuit<'_>, stored: &[bool]) -> bool
    requires sound { IsSound circuit.now }
    requires size { length stored.now ≡ length (all_names circuit.now) }
    ensures { IsTrue result → AreMarked circuit.now stored.now }
{
    for flip_flop in circuit.flip_flops() {
        if !stored[flip_flop.register] {
            return false;
        }
    }
    true
}

// The flip-flops of steps.
fn in_order(alloc: Global, circuit: &Circuit<'_>, order: &[usize]) -> Result<Vec<FlipFlop>, Memory>
    requires { IsOrder circuit.now order.now }
    ensures { IfOk result (λ moves. AreMoves circuit.now moves.items) }
{
    let flip_flops = circuit.flip_flops();
    let mut moves = Vec::new(alloc);
    for step in order {
        moves.push(flip_flops[*step])?;
    }
    Ok(moves)
}
