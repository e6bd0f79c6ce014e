//! Equations at a point, as texts.

use av_affine::{Form, Map};
use av_flat::{Choice, Kind, Tree, Var};
use av_poly::Poly;
use av_testing::relation_text;
use av_tree::Sign;
use std::fmt::Write;
use std::test::Fail;

fn value_at(form: &Form, z: &[i64]) -> i64 {
    let mut value = form.constant;
    for (coefficient, entry) in form.coef.iter().zip(z) {
        value = value.wrapping_add(coefficient.wrapping_mul(*entry));
    }
    value
}

fn has(set: &Poly, z: &[i64]) -> bool {
    let dimension = set.dim as usize;
    dimension == z.len() && set.rows.as_slice().iter().all(|row| value_at(row, z) >= 0)
}

fn push_point(out: &mut String, z: &[i64]) -> Result<(), Fail> {
    let mut before = "(";
    for entry in z {
        write!(out, "{before}{entry}")?;
        before = ",";
    }
    out.push_str(")")?;
    Ok(())
}

/// The name of the variable at this place, with the image of the point.
fn push_read(out: &mut String, vars: &[Var], var: u32, map: &Map, z: &[i64]) -> Result<(), Fail> {
    let name = vars.get(var as usize).ok_or("place")?.name.as_str();
    let mut before = "(";
    out.push_str(name)?;
    for form in map.rows.as_slice() {
        write!(out, "{before}{}", value_at(form, z))?;
        before = ",";
    }
    out.push_str(")")?;
    Ok(())
}

/// The reads of all choices whose set has the point, or the constant.
fn push_pick(
    out: &mut String,
    vars: &[Var],
    var: u32,
    choices: &[Choice],
    otherwise: u64,
    z: &[i64],
) -> Result<(), Fail> {
    let mut found = false;
    for choice in choices {
        if has(&choice.set, z) {
            found = true;
            push_read(out, vars, var, &choice.map, z)?;
        }
    }
    if !found {
        write!(out, "{otherwise}")?;
    }
    Ok(())
}

fn sign_text(sign: Sign) -> &'static str {
    match sign {
        Sign::Add => " + ",
        Sign::Sub => " - ",
        Sign::Mul => " * ",
        Sign::Min => " min ",
        Sign::Max => " max ",
    }
}

/// What the tree is at a point.
pub(super) fn push_tree(
    out: &mut String,
    vars: &[Var],
    tree: &Tree,
    z: &[i64],
) -> Result<(), Fail> {
    match tree {
        Tree::Ref { var, map } => push_read(out, vars, *var, map, z),
        Tree::Const(word) => {
            write!(out, "{}", word.bits)?;
            Ok(())
        }
        Tree::Binary { sign, left, right } => {
            out.push_str("(")?;
            push_tree(out, vars, left, z)?;
            out.push_str(sign_text(*sign))?;
            push_tree(out, vars, right, z)?;
            out.push_str(")")?;
            Ok(())
        }
        Tree::Choose {
            left,
            compare,
            right,
            yes,
            no,
        } => {
            out.push_str("if ")?;
            push_tree(out, vars, left, z)?;
            out.push_str(relation_text(*compare))?;
            push_tree(out, vars, right, z)?;
            out.push_str(" then ")?;
            push_tree(out, vars, yes, z)?;
            out.push_str(" else ")?;
            push_tree(out, vars, no, z)
        }
        Tree::Pick {
            var,
            choices,
            otherwise,
        } => push_pick(out, vars, *var, choices.as_slice(), otherwise.bits, z),
        _ => {
            out.push_str("?")?;
            Ok(())
        }
    }
}

/// The right sides of all pieces that have the point.
pub(super) fn push_equation(
    out: &mut String,
    vars: &[Var],
    name: &str,
    z: &[i64],
) -> Result<(), Fail> {
    for var in vars {
        if var.name.as_str() == name {
            for piece in var.pieces.as_slice() {
                if has(&piece.domain, z) {
                    push_tree(out, vars, &piece.tree, z)?;
                }
            }
        }
    }
    Ok(())
}

fn kind_text(kind: Kind) -> &'static str {
    match kind {
        Kind::Input => "input",
        Kind::Output => "output",
        Kind::Local => "local",
        Kind::Partial => "partial",
    }
}

/// The names and kinds of the variables.
pub(super) fn push_variables(out: &mut String, vars: &[Var]) -> Result<(), Fail> {
    let mut before = "";
    for var in vars {
        write!(out, "{before}{} {}", kind_text(var.kind), var.name.as_str())?;
        before = ", ";
    }
    Ok(())
}

/// The point of this number among those of this many entries from -1 to 4.
fn entries_of(number: i64, dimension: usize) -> [i64; 3] {
    let last = number % 6 - 1;
    let middle = number / 6 % 6 - 1;
    let first = number / 36 % 6 - 1;
    match dimension {
        1 => [last, 0, 0],
        2 => [middle, last, 0],
        _ => [first, middle, last],
    }
}

fn count_of(dimension: usize) -> i64 {
    match dimension {
        1 => 6,
        2 => 36,
        _ => 216,
    }
}

/// The points of the variable that are its declared ones among those with entries from -1 to 4.
pub(super) fn push_points(out: &mut String, vars: &[Var], name: &str) -> Result<(), Fail> {
    for var in vars {
        if var.name.as_str() == name {
            push_set(out, &var.domain)?;
        }
    }
    Ok(())
}

fn push_set(out: &mut String, set: &Poly) -> Result<(), Fail> {
    let dimension = set.dim as usize;
    if dimension > 3 {
        return Err(Fail::new("dimension"));
    }
    for number in 0..count_of(dimension) {
        let entries = entries_of(number, dimension);
        let z = &entries[..dimension];
        if has(set, z) {
            push_point(out, z)?;
        }
    }
    Ok(())
}
