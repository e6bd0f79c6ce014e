//! What linear parts cost at the nodes of a component, and the order of entries.

ghost use Rattle.std.specs.Prelude.{ℕ, List as Items, ◌≡◌, ◌++◌, ◌≤◌, ◌<◌, ◌∷◌, map, length, sum_by, unsigned_abs, slice_get, All, IfOk, OnOk, []};
ghost use Rattle.std.specs.List.{flat_map, list_any};
ghost use Rattle.av_affine.specs.Numbers.{AtMost};
ghost use Rattle.av_tree.specs.Points.{Point as Vector};
ghost use Rattle.av_flat.specs.Trees.{FlatSystem, view, view_system};
ghost use Rattle.av_flat.specs.Nodes.{nodes};
ghost use Rattle.av_flat.specs.Chained.{IsChained};
ghost use Rattle.av_flat.specs.Broadcasts.{references, moves};
ghost use Rattle.av_sched.specs.Offsets.{part};
ghost use Rattle.av_sched.specs.Order.{entry_rank, references_of};
ghost use Rattle.av_sched.specs.inner.Ways.{HasSmallReferences, ways_of, still_among};
ghost use Rattle.av_sched.specs.Prices.{ArePricesAt, ArePricesTo, AreFloorsTo};
ghost use Rattle.av_sched.specs.inner.Walk.{AreAllPriced};

use crate::price::{Price, at_least, least_of};
use av_affine::Map;
use av_base::{List, Memory, Point};
use av_flat::{Flat, Node, Piece, Tree, along_of, moves, tree_references, variable_of};
use std::alloc::Global;

// The place of an entry in the order.
fn rank_of(entry: i64) -> u64
    requires { unsigned_abs entry ≤ 4 }
    ensures { result ≡ entry_rank entry }
{
    let twice = 2 * entry.unsigned_abs();
    if entry > 0 { twice - 1 } else { twice }
}

// Adds the places of the entries.
fn add_ranks(to: &mut Vec<u64>, point: &Point) -> Result<(), Memory>
    requires { AtMost 4 point.now }
    ensures { IfOk result (λ done. to.new.items ≡ to.old.items ++ map entry_rank point.now) }
{
    for entry in point.as_slice() {
        to.push(rank_of(*entry))?;
    }
    Ok(())
}

/// The places of all entries of the component's linear parts.
pub(crate) fn ranks_of(
    alloc: Global,
    component: &[u32],
    linear: &[Point],
) -> Result<Vec<u64>, Memory>
    requires within { All (λ n. n < length linear.now) component.now }
    requires small { All (AtMost 4) linear.now }
    ensures { IfOk result (λ ranks. ranks.items ≡
        map entry_rank (flat_map (part linear.now) component.now)) }
{
    let mut to = Vec::new(alloc);
    for node in component {
        add_ranks(&mut to, &linear[*node as usize])?;
    }
    Ok(to)
}

// The sum of absolute entries.
fn sum_of(point: &Point) -> u64
    requires { AtMost 4 point.now }
    ensures value { result ≡ sum_by unsigned_abs point.now }
    ensures small { result ≤ 16 }
{
    let entries = point.as_slice();
    let mut total: u64 = 0;
    for k in 0..entries.len() {
        total += entries[k].unsigned_abs();
    }
    total
}

// Adds the directions along which a reference reads one point, where there are any.
fn add_way(alloc: Global, map: &Map, to: &mut List<List<Point>>) -> Result<(), Memory>
    requires { map.now.from ≤ 4 }
    ensures { OnOk result ((place : ℕ)
        → to.new ≡ to.old ++ ways_of (record { place = place; map = map.now } ∷ [])) }
{
    let ways = along_of(alloc, map)?;
    if !ways.as_slice().is_empty() {
        to.push(ways)?;
    }
    Ok(())
}

// Adds for each broadcast of the tree the directions along which it reads one point.
fn add_ways(alloc: Global, tree: &Tree, to: &mut List<List<Point>>) -> Result<(), Memory>
    requires { HasSmallReferences (view tree.now) }
    ensures { IfOk result (λ done. to.new ≡ to.old ++ ways_of (references (view tree.now))) }
{
    let found = tree_references(alloc, tree)?;
    for reference in found.as_slice() {
        add_way(alloc, reference.map, to)?;
    }
    Ok(())
}

// For each broadcast of pieces the directions along which it reads one point.
fn ways_of_pieces(alloc: Global, pieces: &[Piece]) -> Result<List<List<Point>>, Memory>
    requires { All (λ p. HasSmallReferences (view p.tree)) pieces.now }
    ensures { IfOk result (λ ways. ways ≡
        ways_of (flat_map (λ p. references (view p.tree)) pieces.now)) }
{
    let mut ways = List::new(alloc);
    for piece in pieces {
        add_ways(alloc, &piece.tree, &mut ways)?;
    }
    Ok(ways)
}

// For each broadcast of a node the directions along which it reads one point.
fn ways_of_node(alloc: Global, flat: &Flat, node: Node) -> Result<List<List<Point>>, Memory>
    requires chained { IsChained (view_system flat.now) }
    requires within { node.0 < length (nodes (view_system flat.now)) }
    ensures { IfOk result (λ ways. ways ≡
        ways_of (references_of (slice_get (nodes (view_system flat.now)) node.0))) }
{
    let var = variable_of(flat, node);
    ways_of_pieces(alloc, var.pieces.as_slice())
}

// Whether the linear part goes up along some of the directions.
fn moves_some(linear: &Point, ways: &[Point]) -> bool
    requires linear { AtMost 4 linear.now }
    requires ways { All (AtMost 1) ways.now }
    ensures { result ≡ list_any (moves linear.now) ways.now }
{
    for way in ways {
        if moves(linear, way) {
            return true;
        }
    }
    false
}

// How many of the broadcasts the linear part does not move.
fn still_of(ways: &[List<Point>], part: &Point) -> u64
    requires part { AtMost 4 part.now }
    requires ways { All (All (AtMost 1)) ways.now }
    ensures { result ≡ still_among ways.now part.now }
{
    let mut count: u64 = 0;
    for k in 0..ways.len() {
        if !moves_some(part, ways[k].as_slice()) {
            count += 1;
        }
    }
    count
}

// What each of the linear parts costs at a node with these broadcasts.
fn prices_at(alloc: Global, ways: &[List<Point>], parts: &[Point]) -> Result<List<Price>, Memory>
    requires small { All (AtMost 4) parts.now }
    requires ways { All (All (AtMost 1)) ways.now }
    ensures { IfOk result (λ prices. (s : FlatSystem) (node : ℕ)
        → ways.now ≡ ways_of (references_of (slice_get (nodes s) node))
        → ArePricesAt s node parts.now prices) }
{
    let mut prices = List::new(alloc);
    for part in parts {
        prices.push(Price {
            left: still_of(ways, part) as u128,
            size: sum_of(part) as u128,
        })?;
    }
    Ok(prices)
}

/// What each linear part costs that a node of the component can have.
pub(crate) fn prices_of(
    alloc: Global,
    flat: &Flat,
    component: &[u32],
    lists: &[List<Point>],
) -> Result<List<List<Price>>, Memory>
    requires chained { IsChained (view_system flat.now) }
    requires within { All (λ n. n < length (nodes (view_system flat.now))) component.now }
    requires lists { length lists.now ≡ length component.now }
    requires small { All (All (AtMost 4)) lists.now }
    ensures { IfOk result
        (ArePricesTo (view_system flat.now) component.now (length component.now) lists.now) }
{
    let mut prices = List::new(alloc);
    for k in 0..component.len() {
        let node = Node(component[k] as usize);
        let ways = ways_of_node(alloc, flat, node)?;
        prices.push(prices_at(alloc, ways.as_slice(), lists[k].as_slice())?)?;
    }
    Ok(prices)
}

/// The least that the last nodes of the component can cost, for each number of them.
pub(crate) fn floors_of(alloc: Global, prices: &[List<Price>]) -> Result<Vec<Price>, Memory>
    ensures { IfOk result (λ floors.
        (s : FlatSystem) (size : ℕ) (component : Items ℕ) (lists : Items (Items Vector))
        → AreAllPriced s size component lists prices.now
        → AreFloorsTo s size component (length component) floors.items) }
{
    let mut floors = Vec::new(alloc);
    let mut floor = Price { left: 0, size: 0 };
    floors.push(floor)?;
    for k in 0..prices.len() {
        let list = &prices[prices.len() - 1 - k];
        floor = at_least(least_of(list.as_slice()), floor);
        floors.push(floor)?;
    }
    Ok(floors)
}
