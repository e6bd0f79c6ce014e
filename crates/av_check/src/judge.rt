//! Whether trees have words at a point, and whom it is blamed on where they have none.

ghost use Rattle.std.specs.Prelude.{◌≡◌, ◌≤◌, ◌^◌, [], Some, slice_get, length, map, All, IfOk};
ghost use Rattle.av_affine.specs.Numbers.{AtMost};
ghost use Rattle.av_flat.specs.Trees.{view, trees_of, view_variable, view_piece, restriction};
ghost use Rattle.av_flat.specs.Signatures.{signature};
ghost use Rattle.av_flat.specs.WellFormed.{dimension_of};
ghost use Rattle.av_check.specs.inner.Reachable.{reach, IsReachable, AreReachable, IsReachableInside};
ghost use Rattle.av_check.specs.inner.Verdicts.{IsReading, IsVerdict, IsVerdictOfAll};

use crate::images::{image_under, point_under};
use crate::verdict::{Blame, Verdict, both, either};
use av_affine::Map;
use av_base::{Memory, Point};
use av_flat::{Piece, Tree, Var, VariablePlace};
use av_normal::prepend_map;
use std::alloc::Global;

// What a reference to a variable has that reads this point.
fn judge_reference(vars: &[Var], var: VariablePlace, point: Point) -> Verdict
    requires fits { dimension_of (slice_get (map signature (map view_variable vars.now)) var.0)
        ≡ Some (length point) }
    requires small { AtMost (2 ^ 25) point }
    ensures { IsReading (map signature (map view_variable vars.now)) var.0 point result }
{
    if vars[var.0 as usize].domain.contains(&point) {
        Verdict::Counted
    } else {
        Verdict::Missing(Some(Blame { var, point }))
    }
}

// What a tree under maps has, of which the innermost comes first.
#[cycle(judge)]
fn judge(
    alloc: Global,
    vars: &[Var],
    under: &[Map],
    tree: &Tree,
    z: &Point,
) -> Result<Verdict, Memory>
    requires stands { IsReachable (map signature (map view_variable vars.now)) under.now
        (view tree.now) z.now }
    requires small { AtMost 4095 z.now }
    ensures { IfOk result (IsVerdict
        (map signature (map view_variable vars.now)) (view tree.now) (reach under.now z.now)) }
{
    match tree {
        Tree::Ref { var, map } => {
            let point = image_under(map, under, z);
            Ok(judge_reference(vars, VariablePlace(*var), point))
        }
        Tree::Const(_) | Tree::Reduce { .. } | Tree::Pick { .. } => Ok(Verdict::Counted),
        Tree::Binary { left, right, .. } => {
            let left = judge(alloc, vars, under, left, z)?;
            let right = judge(alloc, vars, under, right, z)?;
            Ok(both(left, right))
        }
        Tree::Choose {
            left,
            right,
            yes,
            no,
            ..
        } => {
            let left = judge(alloc, vars, under, left, z)?;
            let right = judge(alloc, vars, under, right, z)?;
            let yes = judge(alloc, vars, under, yes, z)?;
            let no = judge(alloc, vars, under, no, z)?;
            Ok(both(left, both(right, both(yes, no))))
        }
        Tree::Restrict { domain, body } => {
            if domain.contains(&point_under(under, z)) {
                judge(alloc, vars, under, body, z)
            } else {
                let nobody = None;
                Ok(Verdict::Missing(nobody))
            }
        }
        Tree::Case { branches } => judge_all(alloc, vars, under, branches.as_slice(), z),
        Tree::Depend { map, body } => {
            let inner = prepend_map(alloc, map, under)?;
            judge(alloc, vars, inner.as_slice(), body, z)
        }
    }
}

#[cycle(judge)]
fn judge_all(
    alloc: Global,
    vars: &[Var],
    under: &[Map],
    trees: &[Tree],
    z: &Point,
) -> Result<Verdict, Memory>
    requires stands { AreReachable (map signature (map view_variable vars.now)) under.now
        (trees_of (map view trees.now)) z.now }
    requires small { AtMost 4095 z.now }
    ensures { IfOk result (IsVerdictOfAll (map signature (map view_variable vars.now))
        (trees_of (map view trees.now)) (reach under.now z.now)) }
{
    let mut verdict = Verdict::Missing(None);
    for tree in trees {
        let own = judge(alloc, vars, under, tree, z)?;
        verdict = either(verdict, own);
    }
    Ok(verdict)
}

// What a piece has, restricted to its domain.
fn judge_piece(alloc: Global, vars: &[Var], piece: &Piece, z: &Point) -> Result<Verdict, Memory>
    requires stands { IsReachableInside
        (map signature (map view_variable vars.now)) (view_piece piece.now) z.now }
    requires small { AtMost 4095 z.now }
    ensures { IfOk result (IsVerdict (map signature (map view_variable vars.now))
        (restriction piece.now.domain (view piece.now.tree)) z.now) }
{
    if piece.domain.contains(z) {
        judge(alloc, vars, &[], &piece.tree, z)
    } else {
        Ok(Verdict::Missing(None))
    }
}

/// What a variable's right side has.
pub(crate) fn judge_pieces(
    alloc: Global,
    vars: &[Var],
    pieces: &[Piece],
    z: &Point,
) -> Result<Verdict, Memory>
    requires stands { All (λ piece. IsReachableInside
        (map signature (map view_variable vars.now)) (view_piece piece) z.now) pieces.now }
    requires small { AtMost 4095 z.now }
    ensures { IfOk result (IsVerdictOfAll (map signature (map view_variable vars.now))
        (trees_of (map (λ p. restriction p.domain p.tree) (map view_piece pieces.now))) z.now) }
{
    let mut verdict = Verdict::Missing(None);
    for piece in pieces {
        let own = judge_piece(alloc, vars, piece, z)?;
        verdict = either(verdict, own);
    }
    Ok(verdict)
}
