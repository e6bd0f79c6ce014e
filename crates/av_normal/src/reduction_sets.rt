//! The sets of reductions, with the rows of what holds them.

ghost use Rattle.std.specs.Prelude.{List as Items, ◌≡◌, [], ◌∷◌, All, IfOk, IfErr, OnOk, map};
ghost use Rattle.av_affine.specs.declared.form.Form.{Form};
ghost use Rattle.av_affine.specs.Forms.{IsWithinLimits};
ghost use Rattle.av_poly.specs.Normal.{AreNormalised};
ghost use Rattle.av_flat.specs.Trees.{view};
ghost use Rattle.av_flat.specs.Pieces.{filled};
ghost use Rattle.av_flat.specs.Quantities.{of_set, body_sets};
ghost use Rattle.av_normal.specs.NormalForm.{HasNormalSets};
ghost use Rattle.av_normal.specs.Searches.{IsNarrow, AreNarrow, IsWide};
ghost use Rattle.av_normal.specs.inner.ReductionSets.{has_reduction, inner_of, IsFoldable, IsFillable};

use crate::NormalFault;
use crate::measure::narrowed;
use av_affine::Map;
use av_flat::{Tree, copy_map, copy_tree};
use av_poly::Poly;
use std::alloc::Global;

/// The set of a body: the rows of its holder at the kept indices, and then its own. What the holder's rows were made
/// from makes no difference.
pub(crate) fn inner_set(
    alloc: Global,
    holder: &Poly,
    own: &Map,
    set: &Poly,
) -> Result<Poly, NormalFault>
    requires foldable { IsFoldable holder.now.dim own.now set.now }
    requires rows { All IsWithinLimits holder.now.rows }
    ensures dim { IfOk result (λ to. to.dim ≡ own.now.from) }
    ensures limits { IfOk result (λ to. All IsWithinLimits to.rows) }
    ensures normalised { IfOk result (λ to. (rows : Items Form)
        → AreNormalised holder.now.dim rows holder.now.rows
        → AreNormalised own.now.from (inner_of own.now rows set.now).rows to.rows) }
    ensures narrow { OnOk result ((rows : Items Form)
        → AreNormalised holder.now.dim rows holder.now.rows
        → IsNarrow (of_set (inner_of own.now rows set.now))) }
    ensures wide { IfErr result (λ fault. (rows : Items Form)
        → AreNormalised holder.now.dim rows holder.now.rows
        → IsWide (of_set (inner_of own.now rows set.now) ∷ []) fault) }
{
    let held = holder.preimage(alloc, own)?;
    let both = held.meet(alloc, set)?;
    let inner = narrowed(both)?;
    Ok(inner)
}

/// Whether a reduction is in the tree of a piece.
pub(crate) fn has_reduction(tree: &Tree) -> bool
    ensures { result ≡ has_reduction (view tree.now) }
{
    match tree {
        Tree::Binary { left, right, .. } => has_reduction(left) || has_reduction(right),
        Tree::Choose {
            left,
            right,
            yes,
            no,
            ..
        } => {
            has_reduction(left) || has_reduction(right) || has_reduction(yes) || has_reduction(no)
        }
        Tree::Reduce { .. } => true,
        _ => false,
    }
}

/// The tree of a piece with the rows of what holds it in the set of each reduction, outer ones before inner ones.
#[cycle(filled)]
pub(crate) fn filled(alloc: Global, holder: &Poly, tree: &Tree) -> Result<Tree, NormalFault>
    requires fillable { IsFillable holder.now.dim (view tree.now) }
    requires rows { All IsWithinLimits holder.now.rows }
    ensures same { IfOk result (λ t. (rows : Items Form)
        → AreNormalised holder.now.dim rows holder.now.rows
        → HasNormalSets (filled rows (view tree.now)) (view t)) }
    ensures narrow { OnOk result ((rows : Items Form)
        → AreNormalised holder.now.dim rows holder.now.rows
        → AreNarrow (map of_set (body_sets (filled rows (view tree.now))))) }
    ensures wide { IfErr result (λ fault. (rows : Items Form)
        → AreNormalised holder.now.dim rows holder.now.rows
        → IsWide (map of_set (body_sets (filled rows (view tree.now)))) fault) }
{
    match tree {
        Tree::Binary { sign, left, right } => {
            let left = boxed(alloc, holder, left)?;
            let right = boxed(alloc, holder, right)?;
            Ok(Tree::binary(*sign, left, right))
        }
        Tree::Choose {
            left,
            compare,
            right,
            yes,
            no,
        } => {
            let left = boxed(alloc, holder, left)?;
            let right = boxed(alloc, holder, right)?;
            let yes = boxed(alloc, holder, yes)?;
            let no = boxed(alloc, holder, no)?;
            Ok(Tree::choice(left, *compare, right, yes, no))
        }
        Tree::Reduce { op, map, body, set } => {
            let set = inner_set(alloc, holder, map, set)?;
            let body = boxed(alloc, &set, body)?;
            Ok(Tree::reduction(*op, copy_map(map), body, set))
        }
        _ => Ok(copy_tree(alloc, tree)?),
    }
}

#[cycle(filled)]
fn boxed(alloc: Global, holder: &Poly, tree: &Tree) -> Result<Box<Tree>, NormalFault>
    requires fillable { IsFillable holder.now.dim (view tree.now) }
    requires rows { All IsWithinLimits holder.now.rows }
    ensures same { IfOk result (λ t. (rows : Items Form)
        → AreNormalised holder.now.dim rows holder.now.rows
        → HasNormalSets (filled rows (view tree.now)) (view t.value)) }
    ensures narrow { OnOk result ((rows : Items Form)
        → AreNormalised holder.now.dim rows holder.now.rows
        → AreNarrow (map of_set (body_sets (filled rows (view tree.now))))) }
    ensures wide { IfErr result (λ fault. (rows : Items Form)
        → AreNormalised holder.now.dim rows holder.now.rows
        → IsWide (map of_set (body_sets (filled rows (view tree.now)))) fault) }
{
    let made = filled(alloc, holder, tree)?;
    Ok(Box::new(alloc, made)?)
}
