//! Copies of parts of a tree that stand in it more than once.

ghost use Rattle.std.specs.Prelude.{◌≡◌, IfOk};

use av_base::{List, Memory, Name};
use av_tree::{Constraint, DomainText, IndexExpr};
use std::alloc::Global;

fn name(name: &Name) -> Result<Name, Memory>
    ensures { IfOk result (λ copy. copy ≡ name.now) }
{
    Ok(name.clone()?)
}

fn names(alloc: Global, names: &[Name]) -> Result<List<Name>, Memory>
    ensures { IfOk result (λ copies. copies ≡ names.now) }
{
    let mut copies = List::new(alloc);
    for one in names {
        copies.push(name(one)?)?;
    }
    Ok(copies)
}

/// The same index expression, with terms that it shares.
pub(crate) fn index(alloc: Global, index: &IndexExpr) -> Result<IndexExpr, Memory>
    ensures { IfOk result (λ copy. copy ≡ index.now) }
{
    Ok(IndexExpr {
        terms: index.terms.share(alloc)?,
        place: index.place,
    })
}

fn constraint(alloc: Global, constraint: &Constraint) -> Result<Constraint, Memory>
    ensures { IfOk result (λ copy. copy ≡ constraint.now) }
{
    Ok(Constraint {
        left: index(alloc, &constraint.left)?,
        relation: constraint.relation,
        right: index(alloc, &constraint.right)?,
    })
}

fn constraints(alloc: Global, constraints: &[Constraint]) -> Result<List<Constraint>, Memory>
    ensures { IfOk result (λ copies. copies ≡ constraints.now) }
{
    let mut copies = List::new(alloc);
    for one in constraints {
        copies.push(constraint(alloc, one)?)?;
    }
    Ok(copies)
}

/// The same domain.
pub(crate) fn domain(alloc: Global, domain: &DomainText) -> Result<DomainText, Memory>
    ensures { IfOk result (λ copy. copy ≡ domain.now) }
{
    Ok(DomainText {
        names: names(alloc, domain.names.as_slice())?,
        constraints: constraints(alloc, domain.constraints.as_slice())?,
        place: domain.place,
    })
}
