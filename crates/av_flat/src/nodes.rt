//! Nodes of a system by their places among the variables, and variables by how many nodes stand before them.

ghost use Rattle.std.specs.Prelude.{◌≡◌, ◌<◌, ◌≤◌, length, Some, slice_get, IfOk};
ghost use Rattle.av_flat.specs.Trees.{view_system, view_variable};
ghost use Rattle.av_flat.specs.Nodes.{nodes, number_at, node_place, places_of, numbers_of};

use crate::flat::{Flat, Var};
use crate::numbers::{Node, VariablePlace};
use av_base::{List, Memory};
use std::alloc::Global;
use std::marker::Model;

// The place of each node among the variables.
fn places(alloc: Global, flat: &Flat) -> Result<List<u32>, Memory>
    ensures { IfOk result (λ to. to ≡ places_of (view_system flat.now)) }
{
    // So few variables that 32 bits number them.
    let _most = flat.vars.len();
    let vars = flat.vars.as_slice();
    let mut to = List::new(alloc);
    for place in 0..vars.len() {
        if !vars[place].is_node() {
            continue;
        }
        to.push(place as u32)?;
    }
    Ok(to)
}

// How many nodes stand before each variable.
fn numbers(alloc: Global, flat: &Flat) -> Result<List<usize>, Memory>
    ensures { IfOk result (λ to. to ≡ numbers_of (view_system flat.now)) }
{
    let vars = flat.vars.as_slice();
    let mut to = List::new(alloc);
    let mut number: usize = 0;
    for place in 0..vars.len() {
        to.push(number)?;
        if vars[place].is_node() {
            number += 1;
        }
    }
    Ok(to)
}

// The place of a node among the variables.
fn place_of(flat: &Flat, node: Node) -> VariablePlace
    requires { node.0 < length (nodes (view_system flat.now)) }
    ensures fits { result.0 < length flat.now.vars }
    ensures is { slice_get (nodes (view_system flat.now)) node.0
        ≡ slice_get (view_system flat.now).variables result.0 }
{
    // So few variables that 32 bits number them.
    let _most = flat.vars.len();
    let vars = flat.vars.as_slice();
    let mut count: usize = 0;
    for k in 0..vars.len() {
        if !vars[k].is_node() {
            continue;
        }
        if count == node.0 {
            return VariablePlace(k as u32);
        }
        count += 1;
    }
    unreachable!()
}

/// The variable of a node, which is looked for without memory.
pub fn variable_of(flat: &Flat, node: Node) -> &Var
    requires { node.0 < length (nodes (view_system flat.now)) }
    ensures { slice_get (nodes (view_system flat.now)) node.0 ≡ Some (view_variable result.now) }
{
    let place = place_of(flat, node);
    let vars = flat.vars.as_slice();
    &vars[place.0 as usize]
}

/// The nodes of a system, found once. Contracts see the system.
#[derive(Drop)]
pub struct Nodes<'a> {
    flat: &'a Flat,
    // Of each node.
    places: List<u32>,
    // Before each variable.
    numbers: List<usize>,
}

impl<'a> Model for Nodes<'a> {
    ghost use Rattle.std.specs.Prelude.{◌≡◌};
    ghost use Rattle.std.specs.Coded.{codes};
    ghost use Rattle.av_flat.specs.contracts.flat.Flat as made;
    ghost use Rattle.av_flat.specs.declared.flat.Flat.{Flat as FlatSeen};
    ghost use Rattle.av_flat.specs.Trees.{view_system};
    ghost use Rattle.av_flat.specs.Nodes.{places_of, numbers_of};

    ghost Value = { FlatSeen };

    ghost coded = { Prim.hlevel (codes, made.the_row.coded) };

    ghost view = { λ it. it.flat.now };

    ghost invariant = { λ it. (it.places ≡ places_of (view_system it.flat.now))
        × (it.numbers ≡ numbers_of (view_system it.flat.now)) };
}

impl<'a> Nodes<'a> {
    /// Those of a system.
    pub fn new(alloc: Global, flat: &'a Flat) -> Result<Nodes<'a>, Memory>
        ensures { IfOk result (λ found. found ≡ flat.now) }
    {
        let places = places(alloc, flat)?;
        let numbers = numbers(alloc, flat)?;
        Ok(Nodes {
            flat,
            places,
            numbers,
        })
    }

    /// The system.
    pub fn flat(&self) -> &'a Flat
        ensures { result.now ≡ self.now }
    {
        self.flat
    }

    /// How many there are.
    pub fn len(&self) -> usize
        ensures count { result ≡ length (nodes (view_system self.now)) }
        ensures most { result ≤ 1073741824 }
    {
        self.places.len()
    }

    /// How many nodes stand before a place of the variables. It is the number of the node there, if a node stands there.
    pub fn number(&self, place: VariablePlace) -> Node
        requires { place.0 < length self.now.vars }
        ensures is { result.0 ≡ number_at (view_system self.now) place.0 }
        ensures most { result.0 ≤ 1073741824 }
    {
        // So few variables that 32 bits number them.
        let _most = self.flat.vars.len();
        Node(self.numbers.as_slice()[place.0 as usize])
    }

    /// The place of a node among the variables.
    pub fn place(&self, node: Node) -> VariablePlace
        requires { node.0 < length (nodes (view_system self.now)) }
        ensures { result.0 ≡ node_place (view_system self.now) node.0 }
    {
        VariablePlace(self.places.as_slice()[node.0])
    }

    /// The variable of a node.
    pub fn variable(&self, node: Node) -> &'a Var
        requires { node.0 < length (nodes (view_system self.now)) }
        ensures { slice_get (nodes (view_system self.now)) node.0
            ≡ Some (view_variable result.now) }
    {
        let vars = self.flat.vars.as_slice();
        let place = self.place(node);
        &vars[place.0 as usize]
    }
}
