//! What rows say of one index, by Fourier-Motzkin elimination of the others one after another.

ghost use Rattle.std.specs.Prelude.{ℕ, ◌≡◌, ◌≢◌, ◌≤◌, ◌<◌, ◌+◌, ◌^◌, ◌⊎◌, suc, All, IfOk};
ghost use Rattle.av_affine.specs.Forms.{IsWithinLimits};
ghost use Rattle.av_poly.specs.Rational.{homogeneous};
ghost use Rattle.av_elim.specs.inner.Rows.{line, Small, StandsFor, Shadow, Clear};
ghost use Rattle.av_elim.specs.inner.Span.{Tells};

use crate::eliminate::eliminate;
use crate::merge::add;
use crate::span::{Span, scan, scan_without};
use av_affine::Form;
use av_base::{List, Memory};
use std::alloc::Global;

// The rows without repeats.
fn gathered(alloc: Global, rows: &[Form]) -> Result<List<Form>, Memory>
    requires { All IsWithinLimits rows.now }
    ensures { IfOk result (λ out. StandsFor (homogeneous rows.now) (homogeneous out)) }
{
    let mut out = List::new(alloc);
    for row in rows {
        add(&mut out, row)?;
    }
    Ok(out)
}

// The rows without the indices below `last` other than the one that is asked for.
fn without_others(
    alloc: Global,
    rows: &[Form],
    index: usize,
    last: usize,
) -> Result<List<Form>, Memory>
    requires rows { All IsWithinLimits rows.now }
    requires index { index < 4 }
    requires last { last < 4 }
    requires other { index ≢ last }
    ensures shadow { IfOk result (λ out.
        Shadow (suc last) (suc index) (homogeneous rows.now) (homogeneous out)) }
    ensures clear { IfOk result (λ out. (j : ℕ)
        → 0 < j → j ≤ last → j ≢ suc index → Clear j (homogeneous out)) }
    ensures small { IfOk result (All (λ r. Small (2 ^ 43) (line r))) }
{
    let mut out = gathered(alloc, rows)?;
    for other in 0..last {
        if other != index {
            out = eliminate(alloc, out.as_slice(), other)?;
        }
    }
    Ok(out)
}

// The last index but the one that is asked for.
fn last_other(dim: usize, index: usize) -> usize
    requires dim { 1 < dim }
    requires index { index < dim }
    ensures other { index ≢ result }
    ensures rest { (result + 1 ≡ dim) ⊎ ((result + 2 ≡ dim) × (index + 1 ≡ dim)) }
{
    if index + 1 == dim { dim - 2 } else { dim - 1 }
}

/// What rows say of an index.
pub(crate) fn span_of(
    alloc: Global,
    rows: &[Form],
    dim: usize,
    index: usize,
) -> Result<Span, Memory>
    requires rows { All IsWithinLimits rows.now }
    requires index { index < dim }
    requires dim { dim ≤ 4 }
    ensures { IfOk result (Tells dim (homogeneous rows.now) index) }
{
    if dim == 1 {
        return Ok(scan(rows, index));
    }
    let last = last_other(dim, index);
    let left = without_others(alloc, rows, index, last)?;
    Ok(scan_without(left.as_slice(), last, index))
}
