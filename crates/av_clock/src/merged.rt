ghost use Rattle.std.specs.Prelude.{◌≡◌, ◌<◌, ℕ, length, map, slice_index, All, IfOk, OnOk};
ghost use Rattle.av_net.specs.Names.{all_names};
ghost use Rattle.av_net.specs.Sound.{IsSound};
ghost use Rattle.av_clock.specs.Gates.{AreAssigned, AreStepped, IsWithin};
ghost use Rattle.av_clock.specs.Merged.{merged as merged_module, AreMerged, IsMerging};
ghost use Rattle.av_clock.specs.inner.Choices.{IsSource};
ghost use Rattle.av_clock.specs.inner.Keys.{key_of};
ghost use Rattle.av_clock.specs.inner.Sources.{flip_flop_at_source};

use crate::gate::{Assignment, FlipFlop, Gate, Reading};
use crate::key::Key;
use crate::resolver::{Resolver, inputs_of_module, size_of_module};
use av_base::Memory;
use av_net::Module;
use std::alloc::Global;
use std::collections::BTreeMap;

/// The drives and the steps of a sound module, in which what gives the same word is computed once. A copy of anything but an input port
/// has the word of what it copies, and of drives with equal gates each has the word of the first. Each place has a source where its word
/// stands, and gates and flip-flops read at sources. The drives whose targets have theirs elsewhere are left out: their gates give 0.
#[derive(Drop)]
pub struct Merged {
    pub sources: Vec<usize>,
    pub assignments: Vec<Assignment>,
    pub flip_flops: Vec<FlipFlop>,
}

impl Merged {
    /// Those of a sound module.
    pub fn new(alloc: Global, of: &Module) -> Result<Merged, Memory>
        requires { IsSound of.now }
        ensures { IfOk result (λ merged. IsMerging of.now merged) }
    {
        let resolved = ResolvedModule::new(alloc, of)?;
        resolved.merged(alloc, of)
    }
}

// The drives and the steps of a sound module, each at its own place.
#[derive(Drop)]
struct ResolvedModule {
    assignments: Vec<Assignment>,
    flip_flops: Vec<FlipFlop>,
}

impl ResolvedModule {
    fn new(alloc: Global, of: &Module) -> Result<ResolvedModule, Memory>
        requires { IsSound of.now }
        ensures assigned { IfOk result (λ resolved.
            AreAssigned of.now (length of.now.drives) resolved.assignments.items) }
        ensures stepped { IfOk result (λ resolved.
            AreStepped of.now (length of.now.steps) resolved.flip_flops.items) }
    {
        let resolver = Resolver::new(alloc, of)?;
        let assignments = resolver.assignments(alloc)?;
        let flip_flops = resolver.flip_flops(alloc)?;
        Ok(ResolvedModule {
            assignments,
            flip_flops,
        })
    }

    // Those in which what gives the same word is computed once.
    fn merged(&self, alloc: Global, of: &Module) -> Result<Merged, Memory>
        requires sound { IsSound of.now }
        requires assigned { AreAssigned of.now (length of.now.drives) self.now.assignments.items }
        requires stepped { AreStepped of.now (length of.now.steps) self.now.flip_flops.items }
        ensures { IfOk result (λ merged. IsMerging of.now merged) }
    {
        let mut sources = own_sources(alloc, size_of_module(of))?;
        let assignments = merge(alloc, of, &self.assignments, &mut sources)?;
        let flip_flops = at_sources(alloc, &sources, &self.flip_flops)?;
        Ok(Merged {
            sources,
            assignments,
            flip_flops,
        })
    }
}

// The assignments, which read at sources, and give 0 where their targets have their words elsewhere. Each place is its own source before.
fn merge(
    alloc: Global,
    of: &Module,
    assignments: &[Assignment],
    sources: &mut [usize],
) -> Result<Vec<Assignment>, Memory>
    requires sound { IsSound of.now }
    requires assigned { AreAssigned of.now (length of.now.drives) assignments.now }
    requires size { length sources.old ≡ length (all_names of.now) }
    requires own { (place : ℕ) → place < length (all_names of.now)
        → slice_index sources.old place ≡ place }
    ensures merged { OnOk result (AreMerged of.now sources.new) }
    ensures assigned { IfOk result (λ merged.
        AreAssigned (merged_module of.now sources.new) (length of.now.drives) merged.items) }
{
    let inputs = inputs_of_module(of);
    let mut firsts = Firsts::new(alloc);
    let mut merged = Vec::new(alloc);
    for assignment in assignments {
        let read = assignment.at_sources(sources);
        let key = Key::of(&read);
        let first = firsts.first(key, merged.len())?;
        let source = source_of(&read, &key, inputs, &merged, first);
        sources[read.target] = source;
        merged.push(read.with_source(source))?;
    }
    Ok(merged)
}

// Where the word of an assignment stands that reads at sources: what it copies, unless that is an input port, whose word changes before
// others do; or what one with the same key gives among those before, of which this was the first.
fn source_of(
    assignment: &Assignment,
    key: &Key,
    inputs: usize,
    merged: &[Assignment],
    first: usize,
) -> usize
    requires { key.now ≡ key_of assignment.now }
    ensures { IsSource inputs merged.now assignment.now result }
{
    if let Gate::Buffer(Reading::At(place)) = assignment.gate {
        if place >= inputs {
            return place;
        }
    }
    if first < merged.len() {
        let other = &merged[first];
        if Key::of(other).is_same(key) {
            return other.target;
        }
    }
    assignment.target
}

// The first assignments with their keys.
#[derive(Drop)]
struct Firsts {
    numbers: BTreeMap<Key, usize>,
}

impl Firsts {
    fn new(alloc: Global) -> Firsts {
        Firsts {
            numbers: BTreeMap::new(alloc),
        }
    }

    // The number of the first assignment with this key, which is the given one where there was none.
    fn first(&mut self, key: Key, number: usize) -> Result<usize, Memory> {
        if let Some(first) = self.numbers.get(&key) {
            return Ok(*first);
        }
        match self.numbers.insert(key, number) {
            Ok(_) => Ok(number),
            Err(_) => Err(Memory),
        }
    }
}

// Each of so many places as its own source.
fn own_sources(alloc: Global, count: usize) -> Result<Vec<usize>, Memory>
    ensures count { IfOk result (λ sources. length sources.items ≡ count) }
    ensures own { IfOk result (λ sources. (place : ℕ)
        → place < count → slice_index sources.items place ≡ place) }
{
    let mut sources = Vec::new(alloc);
    for place in 0..count {
        sources.push(place)?;
    }
    Ok(sources)
}

// The flip-flops, which read at sources.
fn at_sources(
    alloc: Global,
    sources: &[usize],
    flip_flops: &[FlipFlop],
) -> Result<Vec<FlipFlop>, Memory>
    requires { All (λ flip_flop. IsWithin (length sources.now) flip_flop.next) flip_flops.now }
    ensures { IfOk result (λ merged.
        merged.items ≡ map (flip_flop_at_source sources.now) flip_flops.now) }
{
    let mut merged = Vec::new(alloc);
    for flip_flop in flip_flops {
        merged.push(FlipFlop {
            register: flip_flop.register,
            reset: flip_flop.reset,
            next: flip_flop.next.at_source(sources),
        })?;
    }
    Ok(merged)
}
