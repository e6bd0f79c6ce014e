//! Whether each declared point has just one word.

ghost use Rattle.std.specs.Prelude.{ℕ, ◌≡◌, ◌≢◌, ◌⊎◌, Err, Some, All, IfOk, IfErr, OnOk, map};
ghost use Rattle.av_affine.specs.Numbers.{AtMost};
ghost use Rattle.av_flat.specs.Trees.{view_variable, view_piece, view_system};
ghost use Rattle.av_flat.specs.Signatures.{signature};
ghost use Rattle.av_flat.specs.WellFormed.{IsWellFormed};
ghost use Rattle.av_flat.specs.Proper.{IsProper};
ghost use Rattle.av_check.specs.declared.fault.CheckFault.TheVariants as fault;
ghost use Rattle.av_check.specs.Blame.{named};
ghost use Rattle.av_check.specs.Miscovered.{IsLeastMiscovered};
ghost use Rattle.av_check.specs.CheckFaults.{IsFaultOf, IsFault};
ghost use Rattle.av_check.specs.inner.Reachable.{IsReachableInside};
ghost use Rattle.av_check.specs.inner.Premises.{HasPremises, HavePremises, HasNoneMiscovered};
ghost use Rattle.av_check.specs.declared.fault.CheckFault.{CheckFault as FaultSeen};
ghost use Rattle.av_normal.specs.declared.fault.NormalFault.{NormalFault as Cause};
ghost use Rattle.av_normal.specs.declared.fault.NormalFault.TheVariants as cause;
ghost use Rattle.av_normal.specs.NormalFaults as normalised;

use crate::CheckFault;
use crate::judge::judge_pieces;
use crate::least::least_miscovered;
use crate::verdict::{Blame, Verdict};
use av_base::{List, Memory, Name, Point};
use av_flat::{Flat, Pass, Piece, Var};
use av_normal::{Normal, NormalFault};
use av_poly::{Poly, copy_set};
use std::alloc::Global;

// The domains of pieces.
fn domains(alloc: Global, pieces: &[Piece]) -> Result<List<Poly>, Memory>
    ensures { IfOk result (λ sets. sets ≡ map (λ p. p.domain) (map view_piece pieces.now)) }
{
    let mut sets = List::new(alloc);
    for piece in pieces {
        sets.push(copy_set(alloc, &piece.domain)?)?;
    }
    Ok(sets)
}

// The point with the name of the variable, where there is one at the place.
fn name_place(alloc: Global, vars: &[Var], blame: Blame) -> Result<Option<(Name, Point)>, Memory>
    ensures { IfOk result (λ outside.
        outside ≡ named (map signature (map view_variable vars.now)) (Some blame)) }
{
    let place = blame.var.0 as usize;
    if place >= vars.len() {
        return Ok(None);
    }
    let name = Name::new(alloc, vars[place].name.as_str())?;
    Ok(Some((name, blame.point)))
}

// The blame with the name of the variable.
fn name_blame(
    alloc: Global,
    vars: &[Var],
    blame: Option<Blame>,
) -> Result<Option<(Name, Point)>, Memory>
    ensures { IfOk result (λ outside.
        outside ≡ named (map signature (map view_variable vars.now)) blame) }
{
    match blame {
        None => Ok(None),
        Some(blame) => name_place(alloc, vars, blame),
    }
}

// What is wrong with a variable at its least miscovered point.
fn fault_at(alloc: Global, vars: &[Var], var: &Var, point: Point) -> Result<CheckFault, Memory>
    requires stand { All (λ piece. IsReachableInside
        (map signature (map view_variable vars.now)) (view_piece piece) point) var.now.pieces }
    requires small { AtMost 4095 point }
    requires least { IsLeastMiscovered
        (map signature (map view_variable vars.now)) (view_variable var.now) point }
    ensures { IfOk result
        (IsFaultOf (map signature (map view_variable vars.now)) (view_variable var.now)) }
{
    let variable = Name::new(alloc, var.name.as_str())?;
    match judge_pieces(alloc, vars, var.pieces.as_slice(), &point)? {
        Verdict::Counted => Ok(CheckFault::TwoBranches { variable, point }),
        Verdict::Missing(blame) => {
            let outside = name_blame(alloc, vars, blame)?;
            Ok(CheckFault::Uncovered {
                variable,
                point,
                outside,
            })
        }
    }
}

// Tries the declared points of a variable, whose kept pieces are given.
fn check_variable(alloc: Global, vars: &[Var], var: &Var, kept: &Var) -> Result<(), CheckFault>
    requires { HasPremises (map signature (map view_variable vars.now))
        (view_variable var.now) (view_variable kept.now) }
    ensures fine { OnOk result
        (HasNoneMiscovered (map signature (map view_variable vars.now)) (view_variable var.now)) }
    ensures wrong { IfErr result
        (IsFaultOf (map signature (map view_variable vars.now)) (view_variable var.now)) }
{
    if !var.kind.is_computed() {
        return Ok(());
    }
    let sets = domains(alloc, kept.pieces.as_slice())?;
    match least_miscovered(alloc, &var.domain, sets.as_slice())? {
        None => Ok(()),
        Some(point) => Err(fault_at(alloc, vars, var, point)?),
    }
}

// Tries each variable, whose kept pieces are given.
fn check_variables(alloc: Global, vars: &[Var], kept: &[Var]) -> Result<(), CheckFault>
    requires { HavePremises (map signature (map view_variable vars.now))
        (map view_variable vars.now) (map view_variable kept.now) }
    ensures fine { OnOk result (All (HasNoneMiscovered (map signature (map view_variable vars.now)))
        (map view_variable vars.now)) }
    ensures wrong { IfErr result (λ f. (width : ℕ)
        → IsFault (record { width = width; variables = map view_variable vars.now }) f) }
{
    for k in 0..vars.len() {
        check_variable(alloc, vars, &vars[k], &kept[k])?;
    }
    Ok(())
}

/// Whether each declared point has just one word, as `check` tells, where the system's normal form is at hand: no other is made.
pub fn check_normal(alloc: Global, flat: &Flat, normal: &Flat) -> Result<(), CheckFault>
    // The other system is the normal form.
    requires well_formed { IsWellFormed (view_system flat.now) }
    requires given { normalised.IsGiven (view_system flat.now) (view_system normal.now) }

    // It is passed exactly where it is proper, unless memory runs out.
    ensures proper { OnOk result (IsProper (view_system flat.now)) }
    ensures complete { IsProper (view_system flat.now) → IfErr result (λ f. f ≡ fault.Memory) }

    // Else the fault is that of the first variable with a miscovered point, at its least one.
    ensures fault { IfErr result (IsFault (view_system flat.now)) }
    ensures refused { (f : FaultSeen) → IsFault (view_system flat.now) f
        → f ≢ fault.Memory → (result ≡ Err f) ⊎ (result ≡ Err fault.Memory) }
{
    check_variables(alloc, flat.vars.as_slice(), normal.vars.as_slice())
}

/// Whether each declared point of an output or local has just one word (Wilde's reports on Alpha, by the domains of
/// expressions). The pieces of the system's normal form are compared as sets of rows, and no point is looked at but the
/// one that is answered.
///
/// A refusal names the first variable with a point of no word, or of two, and its least such point. Where the point has
/// no word it tells also which reference is blamed.
pub fn check(alloc: Global, flat: &Flat) -> Result<(), CheckFault>
    // The system has a normal form.
    requires well_formed { IsWellFormed (view_system flat.now) }
    requires has_form { (f : Cause) → normalised.IsFault (view_system flat.now) f
        → f ≡ cause.Memory }

    // It is passed exactly where it is proper, unless memory runs out.
    ensures proper { OnOk result (IsProper (view_system flat.now)) }
    ensures complete { IsProper (view_system flat.now) → IfErr result (λ f. f ≡ fault.Memory) }

    // Else the fault is that of the first variable with a miscovered point, at its least one.
    ensures fault { IfErr result (IsFault (view_system flat.now)) }
    ensures refused { (f : FaultSeen) → IsFault (view_system flat.now) f
        → f ≢ fault.Memory → (result ≡ Err f) ⊎ (result ≡ Err fault.Memory) }
{
    match Normal.run(alloc, flat) {
        Ok(normal) => check_normal(alloc, flat, &normal),
        Err(NormalFault::Memory) => Err(CheckFault::Memory),
        Err(_) => unreachable!(),
    }
}
