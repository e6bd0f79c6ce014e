ghost use Rattle.std.specs.Prelude.{◌≡◌, ◌<◌, ℕ, List as Items, length, slice_get, slice_index_or, Some, IfOk, filter};
ghost use Rattle.av_net.specs.Meaning.{Words};
ghost use Rattle.av_net.specs.Names.{all_names};
ghost use Rattle.av_net.specs.Sound.{IsSound};
ghost use Rattle.av_net.specs.Meaning.{EachOperand};
ghost use Rattle.av_clock.specs.Marked.{IsClear};
ghost use Rattle.av_clock.specs.Marking.{AreAhead};
ghost use Rattle.av_clock.specs.Readers.{IsOther};
ghost use Rattle.av_clock.specs.Kept.{computes, AreComputed};
ghost use Rattle.av_clock.specs.Merged.{merged as merged_module, IsMerging};

use crate::gate::{Assignment, FlipFlop};
use crate::marks::{Marks, set_all};
use crate::merged::Merged;
use crate::readers::{drives_reading, steps_reading};
use crate::resolver::size_of_module;
use av_base::{List, Memory};
use av_net::Module;
use std::alloc::Global;
use std::marker::Model;

/// The merged drives and steps of a sound module, as the module of which contracts see it. Words stand in the order of its
/// declarations: input ports, registers, outputs and wires.
#[derive(Drop)]
pub struct Circuit<'a> {
    of: &'a Module,
    merged: Merged,
    // The assignments that compute a word: all but those of the constant 0.
    computed: Vec<Assignment>,
    drives_reading: Vec<List<usize>>,
    steps_reading: Vec<List<usize>>,
}

impl<'a> Model for Circuit<'a> {
    ghost use Rattle.av_net.specs.declared.netlist.Module.{Module as Netlist};

    ghost Value = { Netlist };

    ghost use Rattle.av_clock.specs.Circuit.{net, IsCircuit};

    ghost view = { net };

    ghost invariant = { IsCircuit };
}

impl<'a> Circuit<'a> {
    ghost use Rattle.av_clock.specs.Gates.{AreAssigned, AreStepped};

    /// The circuit of a sound module's merged drives and steps.
    pub fn new(alloc: Global, of: &'a Module, merged: Merged) -> Result<Circuit<'a>, Memory>
        requires { IsMerging of.now merged }
        ensures { IfOk result (λ circuit. circuit ≡ merged_module of.now merged.sources.items) }
    {
        let computed = computed(alloc, &merged.assignments)?;
        let drives_reading = drives_reading(alloc, of, &merged)?;
        let steps_reading = steps_reading(alloc, of, &merged)?;
        Ok(Circuit {
            of,
            merged,
            computed,
            drives_reading,
            steps_reading,
        })
    }

    /// A law on circuits: the merged module is sound.
    pub(crate) fn is_sound(&self)
        ensures { IsSound self.now }
    {
        let _of = self.of;
    }

    /// The number of words.
    pub fn size(&self) -> usize
        ensures { result ≡ length (all_names self.now) }
    {
        size_of_module(self.of)
    }

    /// The number of drives.
    pub fn drives(&self) -> usize
        ensures { result ≡ length self.now.drives }
    {
        self.merged.assignments.len()
    }

    /// The number of drives that a settle of all computes.
    pub(crate) fn dense_work(&self) -> usize {
        self.computed.len()
    }

    /// The number of flip-flops.
    pub fn steps(&self) -> usize
        ensures { result ≡ length self.now.steps }
    {
        self.merged.flip_flops.len()
    }

    /// The assignments, one for each drive, in order.
    pub fn assignments(&self) -> &[Assignment]
        ensures { AreAssigned self.now (length self.now.drives) result.now }
    {
        &self.merged.assignments
    }

    /// The assignments that a settle of all computes, in order.
    pub fn computed(&self) -> &[Assignment]
        ensures { AreComputed self.now result.now }
    {
        &self.computed
    }

    /// The flip-flops, one for each step, in order.
    pub fn flip_flops(&self) -> &[FlipFlop]
        ensures { AreStepped self.now (length self.now.steps) result.now }
    {
        &self.merged.flip_flops
    }

    /// The place of what a drive drives.
    pub fn target(&self, drive: usize) -> usize
        requires { drive < length self.now.drives }
        ensures { (d : _) → slice_get (all_names self.now) result
            ≡ Some (slice_index_or self.now.drives drive d).target }
    {
        self.merged.assignments[drive].target
    }

    /// Marks the drives and the steps that read a place.
    pub fn mark_readers(&self, place: usize, stale: &mut Marks, due: &mut Marks)
        requires place { place < length (all_names self.now) }
        requires stale { length stale.old ≡ length self.now.drives }
        requires due { length due.old ≡ length self.now.steps }
        ensures stale { length stale.new ≡ length stale.old }
        ensures due { length due.new ≡ length due.old }
        ensures drives { (name : Items ℕ)
            → slice_get (all_names self.now) place ≡ Some name → (k : ℕ) (d : _)
            → k < length self.now.drives → IsClear stale.new k → IsClear stale.old k
            × EachOperand (IsOther name) (slice_index_or self.now.drives k d).operation }
        ensures steps { (name : Items ℕ) → slice_get (all_names self.now) place ≡ Some name
            → (k : ℕ) (d : _) → k < length self.now.steps → IsClear due.new k
            → IsClear due.old k × IsOther name (slice_index_or self.now.steps k d).next }
        ensures ahead { (name : Items ℕ) → slice_get (all_names self.now) place ≡ Some name
            → AreAhead self.now name stale.old stale.new }
        ensures others { (name : Items ℕ) → slice_get (all_names self.now) place ≡ Some name
            → (k : ℕ) (d : _) → k < length self.now.drives → IsClear stale.old k
            → EachOperand (IsOther name) (slice_index_or self.now.drives k d).operation
            → IsClear stale.new k }
    {
        set_all(self.drives_reading[place].as_slice(), stale);
        set_all(self.steps_reading[place].as_slice(), due);
    }
}

// The assignments that compute a word: all but those of the constant 0.
fn computed(alloc: Global, assignments: &[Assignment]) -> Result<Vec<Assignment>, Memory>
    ensures { IfOk result (λ computed. computed.items ≡ filter computes assignments.now) }
{
    let mut computed = Vec::new(alloc);
    for assignment in assignments {
        if !assignment.gate.is_zero() {
            computed.push(*assignment)?;
        }
    }
    Ok(computed)
}
