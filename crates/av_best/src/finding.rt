ghost use Rattle.std.specs.Prelude.{◌≡◌, ◌≢◌, ◌≤◌, ◌⊎◌, [], length, Err, IfOk, IfErr};
ghost use Rattle.av_flat.specs.Trees.{view_system};
ghost use Rattle.av_flat.specs.Chained.{IsChained};
ghost use Rattle.av_flat.specs.Proper.{IsProper};
ghost use Rattle.av_flat.specs.Legal.{IsLegal};
ghost use Rattle.av_depend.specs.Edges.{AreEdgesOf};
ghost use Rattle.av_best.specs.Least.{IsLeastSchedule, all_nodes as every_node};
ghost use Rattle.av_best.specs.BestFaults.{IsFault};
ghost use Rattle.av_best.specs.inner.Joint.{IsBest};
ghost use Rattle.av_best.specs.declared.fault.BestFault.{BestFault as FaultSeen};
ghost use Rattle.av_best.specs.declared.fault.BestFault.TheVariants as fault;

use crate::best::Best;
use crate::fault::BestFault;
use crate::joint::{all_nodes, joint_number};
use crate::space::{Estimate, Pool, SearchSpace};
use crate::span::{PartSpan, spans_of};
use crate::stuck::fault_of;
use crate::walk::walk;
use av_base::limits::MOST_CANDIDATES;
use av_base::{Memory, Point};
use av_depend::Edge;
use av_flat::{Flat, Reach, Timed};
use av_sched::{Price, Scratch, first_parts, plan_of, timed_of};
use std::alloc::Global;

// As many spans as nodes, to be written over.
fn blank_spans(alloc: Global, many: usize) -> Result<Vec<PartSpan>, Memory>
    ensures { IfOk result (λ spans. length spans.items ≡ many) }
{
    let mut spans = Vec::new(alloc);
    for _k in 0..many {
        spans.push(PartSpan { low: 0, high: 0 })?;
    }
    Ok(spans)
}

// The best of all choices, where one has a schedule.
fn best_of_all(
    alloc: Global,
    flat: &Flat,
    edges: &[Edge],
    reach: Reach,
    nodes: &[u32],
) -> Result<Option<Best>, Memory>
    requires chained { IsChained (view_system flat.now) }
    requires proper { IsProper (view_system flat.now) }
    requires edges { AreEdgesOf (view_system flat.now) edges.now }
    requires nodes { nodes.now ≡ every_node (view_system flat.now) }
    requires few { length nodes.now ≤ 1073741824 }
    ensures { IfOk result (IsBest (view_system flat.now) reach.size) }
{
    let plan = plan_of(alloc, flat, reach, nodes)?;
    let table = spans_of(alloc, flat, nodes, plan.lists.as_slice())?;
    let mut linear = first_parts(alloc, flat)?;
    let mut spans = blank_spans(alloc, nodes.len())?;
    let mut pool = Pool {
        witnesses: Vec::new(alloc),
        scratch: Scratch {
            arcs: Vec::new(alloc),
            off: Vec::new(alloc),
            old: Vec::new(alloc),
        },
    };
    let space = SearchSpace {
        flat,
        edges,
        reach,
        nodes,
        plan: &plan,
        table: table.as_slice(),
    };
    let nothing = Estimate {
        spent: Price { left: 0, size: 0 },
        cycles: 0,
    };
    walk(
        alloc,
        &space,
        0,
        nothing,
        &mut linear,
        &mut spans,
        &mut pool,
        None,
    )
}

/// The least schedule of a proper chained system in the box: of all its schedules there one of least length; of these the one
/// with the first linear parts, all nodes together, by the broadcasts that are not moved, the sum of absolute entries and the
/// order of entries; and the least offsets.
pub fn least(alloc: Global, flat: &Flat, edges: &[Edge], reach: Reach) -> Result<Timed, BestFault>
    requires chained { IsChained (view_system flat.now) }
    requires proper { IsProper (view_system flat.now) }
    requires edges { AreEdgesOf (view_system flat.now) edges.now }

    // The system itself, with the least schedule and no helper. It is legal.
    ensures same { IfOk result (λ t. view_system t.flat ≡ view_system flat.now) }
    ensures least { IfOk result (λ t. IsLeastSchedule (view_system flat.now) reach.size t.times) }
    ensures helpers { IfOk result (λ t. t.helpers ≡ []) }
    ensures legal { IfOk result IsLegal }

    // Else the fault is the first that the system has, and where it has one it is answered, unless memory runs out.
    ensures fault { IfErr result (IsFault (view_system flat.now) reach.size) }
    ensures refused { (f : FaultSeen) → IsFault (view_system flat.now) reach.size f
        → f ≢ fault.Memory → (result ≡ Err f) ⊎ (result ≡ Err fault.Memory) }
{
    let nodes = all_nodes(alloc, flat)?;
    let number = joint_number(alloc, flat, reach, &nodes)?;
    if number > MOST_CANDIDATES {
        return Err(BestFault::JointCandidates(number));
    }
    match best_of_all(alloc, flat, edges, reach, &nodes)? {
        Some(best) => Ok(timed_of(alloc, flat, &best.parts, &best.offsets)?),
        None => Err(fault_of(alloc, flat, edges, reach)),
    }
}
