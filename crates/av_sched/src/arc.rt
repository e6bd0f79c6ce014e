//! Least offsets under lower bounds and differences.

ghost use Rattle.std.specs.Prelude.{◌≡◌, ◌≤◌, ◌^◌, ℤ, List as Items, length, IsTrue, ◌↔◌, All, IfOk, IfSome, IfNone};
ghost use Rattle.av_sched.specs.Arcs.{IsLate, Solves, IsLeastSolution, IsArc, AreSmall};
ghost use Rattle.av_sched.specs.inner.Rounds.{raised, raised_all, zeros};

use av_base::{List, Memory};
use std::alloc::Global;

/// The reader's offset is at least that of what it reads and the weight.
#[derive(Clone, Copy, Debug)]
pub struct Arc {
    pub reader: usize,
    pub read: usize,
    pub weight: i64,
}

// Whether the reader is late enough.
fn is_late(off: &[i64], arc: Arc) -> bool
    requires arc { IsArc (length off.now) arc }
    requires off { AreSmall (2 ^ 62) off.now }
    ensures { IsTrue result ↔ IsLate off.now arc }
{
    off[arc.read] + arc.weight <= off[arc.reader]
}

// Whether each reader is late enough.
fn all_late(off: &[i64], arcs: &[Arc]) -> bool
    requires arcs { All (IsArc (length off.now)) arcs.now }
    requires off { AreSmall (2 ^ 62) off.now }
    ensures { IsTrue result ↔ All (IsLate off.now) arcs.now }
{
    for arc in arcs {
        if !is_late(off, *arc) {
            return false;
        }
    }
    true
}

// Makes one reader late enough for what it read before.
fn raise(off: &mut Vec<i64>, old: &[i64], arc: Arc)
    requires size { length old.now ≡ length off.old.items }
    requires arc { IsArc (length old.now) arc }
    requires old { AreSmall (2 ^ 62) old.now }
    ensures { off.new.items ≡ raised old.now arc off.old.items }
{
    let wanted = old[arc.read] + arc.weight;
    if off[arc.reader] < wanted {
        off[arc.reader] = wanted;
    }
}

// One round over the arcs.
fn raise_all(off: &mut Vec<i64>, old: &[i64], arcs: &[Arc])
    requires size { length old.now ≡ length off.old.items }
    requires arcs { All (IsArc (length old.now)) arcs.now }
    requires old { AreSmall (2 ^ 62) old.now }
    ensures { off.new.items ≡ raised_all old.now arcs.now off.old.items }
{
    for arc in arcs {
        raise(off, old, *arc);
    }
}

/// Raises offsets to the least that are no less and have each reader late enough; answers false where there are none. `old` is
/// room for the offsets of the round before.
pub fn raise_to_least(arcs: &[Arc], off: &mut Vec<i64>, old: &mut Vec<i64>) -> Result<bool, Memory>
    requires arcs { All (IsArc (length off.old.items)) arcs.now }
    requires low { AreSmall 1073741824 off.old.items }
    requires few { length off.old.items ≤ 1073741824 }
    ensures some { IfOk result (λ settled. IsTrue settled
        → IsLeastSolution arcs.now off.old.items off.new.items) }
    ensures none { IfOk result (λ settled. (IsTrue settled → ⊥)
        → (x : Items ℤ) → Solves arcs.now off.old.items x → ⊥) }
{
    let many = off.len();
    old.clear();
    old.extend_from_slice(off)?;
    for round in 0..many + 1 {
        if all_late(off, arcs) {
            return Ok(true);
        }
        old.copy_from_slice(off);
        raise_all(off, old, arcs);
    }
    Ok(false)
}

/// The least offsets that are at least `low` and have each reader late enough, if there are any.
pub(crate) fn least(
    alloc: Global,
    arcs: &[Arc],
    low: &List<i64>,
) -> Result<Option<Vec<i64>>, Memory>
    requires arcs { All (IsArc (length low.now)) arcs.now }
    requires low { AreSmall 1073741824 low.now }
    ensures some { IfOk result (λ r. IfSome r (λ off. IsLeastSolution arcs.now low.now off.items)) }
    ensures none { IfOk result (λ r. IfNone r ((x : Items ℤ) → Solves arcs.now low.now x → ⊥)) }
{
    let mut off = low.as_slice().to_vec(alloc)?;
    let mut old = Vec::with_capacity(alloc, low.len())?;
    if raise_to_least(arcs, &mut off, &mut old)? {
        Ok(Some(off))
    } else {
        Ok(None)
    }
}

// Makes them so many zeros.
fn clear(numbers: &mut Vec<i64>, many: usize) -> Result<(), Memory>
    ensures { IfOk result (λ done. numbers.new.items ≡ zeros many) }
{
    numbers.clear();
    for _k in 0..many {
        numbers.push(0)?;
    }
    Ok(())
}

// The offsets of so many nodes stay small in all rounds.
const MOST_NODES: usize = 1 << 30;

/// Whether offsets from 0 on make each reader late enough. Of very many nodes it is not tried.
pub(crate) fn settles(
    arcs: &[Arc],
    off: &mut Vec<i64>,
    old: &mut Vec<i64>,
    many: usize,
) -> Result<bool, Memory>
    requires { All (IsArc many) arcs.now }
    ensures { IfOk result (λ settled. (IsTrue settled → ⊥)
        → (x : Items ℤ) → Solves arcs.now (zeros many) x → ⊥) }
{
    if many > MOST_NODES {
        return Ok(true);
    }
    clear(off, many)?;
    raise_to_least(arcs, off, old)
}
