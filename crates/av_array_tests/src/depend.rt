//! Worked cases: the points that edges list, the edges of a reduction, and components.

ghost use Rattle.std.specs.Prelude.{◌<◌, All, IfOk};
ghost use Rattle.av_flat.specs.Trees.{view_system};
ghost use Rattle.av_flat.specs.Chained.{IsChained};
ghost use Rattle.av_flat.specs.Proper.{IsProper};

use crate::asserts::same;
use crate::sched::{chained, push_points};
use av_affine::{Form, Map, Rows};
use av_base::{List, Memory};
use av_depend::{Edge, components, edges};
use av_flat::Flat;
use std::alloc::Global;
use std::fmt::Write;
use std::process::Abort;
use std::test::Fail;

// ---- the points of edges

// The points of the edges of a system.
fn points_of(alloc: Global, flat: &Flat) -> Result<String, Fail>
    requires chained { IsChained (view_system flat.now) }
    requires proper { IsProper (view_system flat.now) }
{
    let mut out = String::new(alloc);
    for edge in edges(alloc, flat)?.as_slice() {
        push_points(&mut out, edge.points.as_slice())?;
    }
    Ok(out)
}

// A system whose output reads its local at the points of this domain alone.
fn reading(alloc: Global, domain: &str) -> Result<String, Fail> {
    Ok(format!(in alloc;
        "system t () returns (Y : {{{domain}}} of integer); var Z : {{{domain}}} of integer; let Y = Z; Z = 7; tel;"
    )?)
}

fn assert_points(rt: &impl Abort, alloc: Global, domain: &str, wanted: &str) -> Result<(), Fail> {
    let text = reading(alloc, domain)?;
    let flat = chained(alloc, text.as_str(), 0)?;
    same(rt, points_of(alloc, &flat)?.as_str(), wanted);
    Ok(())
}

// Domains with the points by which an edge over each is judged.
const DOMAINS: &[(&str, &str)] = &[
    ("i,j | 0<=i<=3; 0<=j<=3", " (0,0) (0,3) (3,0) (3,3)"),
    ("i,j | 0<=i; i<=j; j<=4", " (0,0) (0,4) (4,4)"),
    // a line, and one point alone
    ("i | 2<=i<=9", " (2) (9)"),
    ("i,j | i=5; j=-1", " (5,-1)"),
    // two points beside each other are both listed
    ("i,j | i=0; 6<=j<=7", " (0,6) (0,7)"),
    // no index: the one point
    ("|", " ()"),
    // a corner of the rational set is no whole point
    (
        "i,j | 0<=i; 0<=j; i+j<=3; 2i+3j>=5",
        " (0,2) (0,3) (1,1) (3,0)",
    ),
    // a point inside that is the midpoint of no two
    ("i,j | j<=2i; i<=2j; i+j<=3", " (0,0) (1,1) (1,2) (2,1)"),
];

#[test]
fn points_of_domains(rt: HostRuntime) -> Result<(), Fail> {
    for (domain, wanted) in DOMAINS {
        assert_points(&rt, rt.alloc(), domain, wanted)?;
    }
    Ok(())
}

// ---- the edges of a reduction

// A row of a map, as its coefficients and its constant.
fn push_row(out: &mut String, row: &Form) -> Result<(), Fail> {
    let [first, second, ..] = row.coef;
    write!(out, " {first}i+{second}j+{}", row.constant)?;
    Ok(())
}

fn push_edge(out: &mut String, edge: &Edge) -> Result<(), Fail> {
    write!(out, "{} reads {} by", edge.consumer, edge.producer)?;
    for row in edge.map.rows.as_slice() {
        push_row(out, row)?;
    }
    out.push_str(" at")?;
    push_points(out, edge.points.as_slice())?;
    out.push_str("; ")?;
    Ok(())
}

fn edges_of(alloc: Global, flat: &Flat) -> Result<String, Fail>
    requires chained { IsChained (view_system flat.now) }
    requires proper { IsProper (view_system flat.now) }
{
    let mut out = String::new(alloc);
    for edge in edges(alloc, flat)?.as_slice() {
        push_edge(&mut out, edge)?;
    }
    Ok(out)
}

// The sum of A[0] to A[i], as far as A[5]; that of A[i]; and from 2 on the output two before. The last term of the sum is that at
// i where i<=5, and that at 5 in no point of the domain. The inputs have no edge.
const SUMS: &str = "system t (A : {i | 0<=i<=5} of integer) returns (S : {i | 0<=i<=4} of integer);
let S[i] = case
    {| i<=1} : 0;
    {| i>=2} : reduce(+, (i,j -> i), {i,j | 0<=j; j<=i; j<=5} : A[j]) + A[i] + S[i-2];
  esac; tel;";

const EDGES: &str =
    "0 reads 1 by 1i+0j+0 1i+0j+0 at (2) (4); 0 reads 0 by 1i+0j+-2 at (2) (4); 1 reads 1 by 1i+0j+0 0i+1j+-1 at (2,1) (2,2) (4,1) (4,4); ";

#[test]
fn edges_of_a_reduction(rt: HostRuntime) -> Result<(), Fail> {
    let alloc = rt.alloc();
    let flat = chained(alloc, SUMS, 0)?;
    same(&rt, edges_of(alloc, &flat)?.as_str(), EDGES);
    Ok(())
}

// ---- components

// The map from the one point without indices to itself.
fn nowhere() -> Map {
    Map {
        from: 0,
        rows: Rows::from_slice(&[]),
    }
}

// The edges between nodes below the number.
fn joined(alloc: Global, pairs: &[(u32, u32)], nodes: u32) -> Result<List<Edge>, Memory>
    ensures consumers { IfOk result (λ list. All (λ e. e.consumer < nodes) list) }
    ensures producers { IfOk result (λ list. All (λ e. e.producer < nodes) list) }
{
    let mut list = List::new(alloc);
    for (consumer, producer) in pairs {
        if *consumer >= nodes {
            continue;
        }
        if *producer >= nodes {
            continue;
        }
        list.push(Edge {
            consumer: *consumer,
            producer: *producer,
            map: nowhere(),
            points: List::new(alloc),
        })?;
    }
    Ok(list)
}

fn are_components(found: &[List<u32>], expected: &[&[u32]]) -> bool {
    if found.len() != expected.len() {
        return false;
    }
    for k in 0..found.len() {
        if found[k].as_slice() != expected[k] {
            return false;
        }
    }
    true
}

// Whether the components of so many nodes under these edges are the expected ones.
fn has_components(
    alloc: Global,
    pairs: &[(u32, u32)],
    nodes: u32,
    expected: &[&[u32]],
) -> Result<bool, Memory> {
    let list = joined(alloc, pairs, nodes)?;
    let found = components(alloc, list.as_slice(), nodes)?;
    Ok(are_components(found.as_slice(), expected))
}

// So many nodes, their edges, and the components.
const COMPONENTS: &[(u32, &[(u32, u32)], &[&[u32]])] = &[
    (0, &[], &[]),
    // no edges
    (3, &[], &[&[0], &[1], &[2]]),
    // a cycle of two, and a node that reads itself
    (2, &[(0, 1), (1, 0)], &[&[0, 1]]),
    (1, &[(0, 0)], &[&[0]]),
    // a chain
    (3, &[(0, 1), (1, 2)], &[&[0], &[1], &[2]]),
    // two cycles, of which one reads the other, with a node between them
    (
        5,
        &[(0, 3), (3, 0), (3, 4), (2, 4), (4, 2), (1, 0)],
        &[&[0, 3], &[1], &[2, 4]],
    ),
    // a cycle of three, its edges from the last to the first
    (4, &[(2, 0), (1, 2), (0, 1)], &[&[0, 1, 2], &[3]]),
];

#[test]
fn components_of_nodes(rt: HostRuntime) -> Result<(), Fail> {
    for (nodes, pairs, wanted) in COMPONENTS {
        assert!(rt;
            has_components(rt.alloc(), pairs, *nodes, wanted)?,
            "at {pairs:?}"
        );
    }
    Ok(())
}
