//! Rows but for trivial ones, which have no coefficient and hold everywhere.

ghost use Rattle.std.specs.Prelude.{◌≡◌, ◌++◌, ◌∷◌, [], cond, All, IsTrue, OnOk};
ghost use Rattle.av_poly.specs.Points.{IsSmall};
ghost use Rattle.av_poly.specs.inner.Trivial.{IsTrivial, AppendsNontrivial};

use av_affine::Form;
use av_base::{List, Memory};

// Whether the row has no coefficient and holds. That the answer is no says nothing of the row.
fn is_trivial(dim: u8, row: &Form) -> bool
    ensures { IsTrue result → IsTrivial dim row.now }
{
    let none = [0, 0, 0, 0];
    row.coef == none && row.constant >= 0
}

// Appends a row, or leaves it out.
fn append_unless(left_out: bool, rows: &mut List<Form>, row: Form) -> Result<(), Memory>
    ensures { OnOk result (rows.new ≡ cond left_out rows.old (rows.old ++ row ∷ [])) }
{
    if left_out { Ok(()) } else { rows.push(row) }
}

/// Appends rows of so many indices but for trivial ones.
pub(crate) fn append_nontrivial(rows: &mut List<Form>, dim: u8, more: &[Form]) -> Result<(), Memory>
    requires rows { All IsSmall rows.old }
    requires more { All IsSmall more.now }
    ensures rows { OnOk result (AppendsNontrivial dim more.now rows.old rows.new) }
    ensures small { OnOk result (All IsSmall rows.new) }
{
    for row in more {
        let left_out = is_trivial(dim, row);
        append_unless(left_out, rows, *row)?;
    }
    Ok(())
}
