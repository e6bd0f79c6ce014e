//! Edges of the sites of one piece.

ghost use Rattle.std.specs.Prelude.{◌≡◌, ◌≤◌, [], ◌∷◌, map, All, IfOk, OnOk, slice_get};
ghost use Rattle.av_affine.specs.Numbers.{AtMost};
ghost use Rattle.av_flat.specs.Trees.{view, view_system};
ghost use Rattle.av_flat.specs.Signatures.{signatures};
ghost use Rattle.av_flat.specs.WellFormed.{Fits};
ghost use Rattle.av_depend.specs.Sites.{sites_in, both};
ghost use Rattle.av_depend.specs.ComputedPlaces.{computed_at};
ghost use Rattle.av_elim.specs.Extents.{IsInside};
ghost use Rattle.av_depend.specs.inner.Adding.{IsReadingSet, HasAdded, site_at, site_of, sites_at};

use crate::edge::Edge;
use crate::generator::{copy_point, generators};
use crate::listing::{all_points, points_within};
use av_affine::Map;
use av_base::{List, Memory, Point};
use av_flat::{Choice, Flat, Nodes, ReadingPlace, Tree, VariablePlace, copy_map, tree_places};
use av_poly::{Bounds, Poly, copy_set};
use std::alloc::Global;

/// A set of points at which a node reads something, with all of its points in order, and those of them that are generators.
#[derive(Drop)]
pub(crate) struct ReadingSet {
    pub(crate) node: u32,
    pub(crate) set: Poly,
    pub(crate) points: List<Point>,
    pub(crate) generators: List<Point>,
}

/// The reading set of a piece of the node with this domain.
pub(crate) fn reading_set(
    alloc: Global,
    node: u32,
    domain: &Poly,
    extent: &Bounds,
) -> Result<ReadingSet, Memory>
    requires few { domain.now.dim ≤ 4 }
    requires low { AtMost 4095 extent.now.low }
    requires high { AtMost 4095 extent.now.high }
    requires inside { IsInside domain.now.dim extent.now domain.now }
    ensures reading { IfOk result IsReadingSet }
    ensures node { IfOk result (λ to. to.node ≡ node) }
    ensures set { IfOk result (λ to. to.set ≡ domain.now) }
{
    let points = all_points(alloc, domain, extent)?;
    let generators = generators(alloc, domain, points.as_slice())?;
    let set = copy_set(alloc, domain)?;
    Ok(ReadingSet {
        node,
        set,
        points,
        generators,
    })
}

// The points of the reading set that are in this one too.
fn narrowed(alloc: Global, reading: &ReadingSet, set: &Poly) -> Result<ReadingSet, Memory>
    requires reading { IsReadingSet reading.now }
    requires dim { set.now.dim ≡ reading.now.set.dim }
    ensures reading { IfOk result IsReadingSet }
    ensures node { IfOk result (λ to. to.node ≡ reading.now.node) }
    ensures set { IfOk result (λ to. to.set ≡ both reading.now.set set.now) }
{
    let points = points_within(alloc, set, reading.points.as_slice())?;
    let set = reading.set.meet(alloc, set)?;
    let generators = generators(alloc, &set, points.as_slice())?;
    Ok(ReadingSet {
        node: reading.node,
        set,
        points,
        generators,
    })
}

/// Whether a computed variable stands at this place.
pub fn is_computed_at(flat: &Flat, place: VariablePlace) -> bool
    ensures { result ≡ computed_at (slice_get (view_system flat.now).variables place.0) }
{
    match flat.vars.as_slice().get(place.0 as usize) {
        Some(var) => var.kind.is_computed(),
        None => false,
    }
}

// The same points.
fn copy_points(alloc: Global, points: &[Point]) -> Result<List<Point>, Memory>
    ensures { IfOk result (λ to. to ≡ points.now) }
{
    let mut to = List::new(alloc);
    for point in points {
        to.push(copy_point(point))?;
    }
    Ok(to)
}

// Adds the edge of a site, if it has a pair.
fn add_site(
    alloc: Global,
    nodes: &Nodes<'_>,
    place: VariablePlace,
    map: &Map,
    reading: &ReadingSet,
    edges: &mut List<Edge>,
) -> Result<(), Memory>
    requires reading { IsReadingSet reading.now }
    ensures { OnOk result (HasAdded (view_system nodes.now)
        (site_at reading.now.node place.0 map.now reading.now.set ∷ []) edges.old edges.new) }
{
    if reading.points.as_slice().is_empty() {
        return Ok(());
    }
    if !is_computed_at(nodes.flat(), place) {
        return Ok(());
    }
    let edge = Edge {
        consumer: reading.node,
        producer: nodes.number(place).0 as u32,
        map: copy_map(map),
        points: copy_points(alloc, reading.generators.as_slice())?,
    };
    edges.push(edge)
}

// Adds the edge of each choice that has a pair.
fn add_choices(
    alloc: Global,
    nodes: &Nodes<'_>,
    place: VariablePlace,
    choices: &[Choice],
    reading: &ReadingSet,
    edges: &mut List<Edge>,
) -> Result<(), Memory>
    requires reading { IsReadingSet reading.now }
    requires dims { All (λ c. c.set.dim ≡ reading.now.set.dim) choices.now }
    ensures { OnOk result (HasAdded (view_system nodes.now)
        (map (site_of reading.now.node place.0 reading.now.set) choices.now)
        edges.old edges.new) }
{
    for choice in choices {
        let own = narrowed(alloc, reading, &choice.set)?;
        add_site(alloc, nodes, place, &choice.map, &own, edges)?;
    }
    Ok(())
}

// Adds the edge of each site of a place that reads, if it has a pair.
fn add_place(
    alloc: Global,
    nodes: &Nodes<'_>,
    place: &ReadingPlace<'_>,
    reading: &ReadingSet,
    edges: &mut List<Edge>,
) -> Result<(), Memory>
    requires reading { IsReadingSet reading.now }
    requires fits { Fits (signatures (view_system nodes.now)) reading.now.set.dim
        (view place.now.tree) }
    ensures { OnOk result (HasAdded (view_system nodes.now)
        (sites_at reading.now.node reading.now.set (view place.now.tree)) edges.old edges.new) }
{
    match place.tree {
        Tree::Ref { var, map } => {
            add_site(alloc, nodes, VariablePlace(*var), map, reading, edges)
        }
        Tree::Pick { var, choices, .. } => {
            let place = VariablePlace(*var);
            add_choices(alloc, nodes, place, choices.as_slice(), reading, edges)
        }
        _ => Ok(()),
    }
}

/// Adds the edge of each site of a tree that has a pair, in the order of the text.
pub(crate) fn add_tree(
    alloc: Global,
    nodes: &Nodes<'_>,
    tree: &Tree,
    reading: &ReadingSet,
    edges: &mut List<Edge>,
) -> Result<(), Memory>
    requires reading { IsReadingSet reading.now }
    requires fits { Fits (signatures (view_system nodes.now)) reading.now.set.dim (view tree.now) }
    ensures { OnOk result (HasAdded (view_system nodes.now)
        (sites_in reading.now.node reading.now.set (view tree.now)) edges.old edges.new) }
{
    let places = tree_places(alloc, 0, tree)?;
    for place in places.as_slice() {
        add_place(alloc, nodes, place, reading, edges)?;
    }
    Ok(())
}
