//! Sets once more, in memory of their own.

ghost use Rattle.std.specs.Prelude.{ℤ, List as Items, ◌≡◌, ◌↔◌, IfOk};
ghost use Rattle.av_poly.specs.Normal.{AreNormalised};
ghost use Rattle.av_poly.specs.Points.{Has};

use crate::Poly;
use crate::trivial::append_nontrivial;
use av_affine::Form;
use av_base::{List, Memory};
use std::alloc::Global;

/// The same rows.
pub fn copy_rows(alloc: Global, rows: &[Form]) -> Result<List<Form>, Memory>
    ensures { IfOk result (λ to. to ≡ rows.now) }
{
    let mut to = List::new(alloc);
    for row in rows {
        to.push(*row)?;
    }
    Ok(to)
}

/// The same set, row by row.
pub fn copy_set(alloc: Global, set: &Poly) -> Result<Poly, Memory>
    ensures { IfOk result (λ to. to ≡ set.now) }
{
    let rows = copy_rows(alloc, set.rows.as_slice())?;
    Ok(Poly { dim: set.dim, rows })
}

/// The same points, by normalised rows.
pub fn normalised_copy(alloc: Global, set: &Poly) -> Result<Poly, Memory>
    ensures points { IfOk result (λ to. (z : Items ℤ) → Has to z ↔ Has set.now z) }
    ensures dim { IfOk result (λ to. to.dim ≡ set.now.dim) }
    ensures rows { IfOk result (λ to. AreNormalised set.now.dim set.now.rows to.rows) }
{
    let mut rows = List::new(alloc);
    append_nontrivial(&mut rows, set.dim, set.rows.as_slice())?;
    let mut to = Poly { dim: set.dim, rows };
    to.normalise();
    Ok(to)
}
