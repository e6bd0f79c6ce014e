//! All index expressions and comparisons of a system, with the index names in reach of them.

ghost use Rattle.std.specs.Prelude.{◌≡◌, [], map, IfOk};
ghost use Rattle.av_tree.specs.Domains as domains;
ghost use Rattle.av_tree.specs.Trees.{view_system};
ghost use Rattle.av_names.specs.Forms.{names_or};
ghost use Rattle.av_names.specs.Parts as list;
ghost use Rattle.av_names.specs.inner.Seen.{part};
ghost use Rattle.av_names.specs.inner.Sums as seen;
ghost use Rattle.av_names.specs.Written.{written_at, written_sizes, written_declaration, all_written};

use crate::part::{Context, Part};
use av_base::{Memory, Name};
use av_tree::{Access, Constraint, Declaration, Expr, IndexExpr, System};
use std::alloc::Global;

/// What is written over some index names.
#[derive(Clone, Copy)]
pub(crate) struct Written<'a> {
    pub(crate) names: &'a [Name],
    pub(crate) indices: &'a [IndexExpr],
    pub(crate) constraints: &'a [Constraint],
}

/// The names of a restriction's domain: its own, or else those of the context.
pub(crate) fn given_names<'a>(context: &'a [Name], names: &'a [Name]) -> &'a [Name]
    ensures { result.now ≡ names_or context.now names.now }
{
    if names.is_empty() { context } else { names }
}

fn over_names<'a>(names: &'a [Name], indices: &'a [IndexExpr]) -> Written<'a>
    ensures { seen.written result
        ≡ record { names = names.now; indices = indices.now; constraints = [] } }
{
    Written {
        names,
        indices,
        constraints: &[],
    }
}

/// What is written at the part itself.
pub(crate) fn written_of<'a>(at: Part<'a>) -> Written<'a>
    ensures { seen.written result ≡ written_at (part at.entry) }
{
    match at.expr {
        Expr::Ref {
            at: Access::Indices(entries),
            ..
        }
        | Expr::Const {
            at: Access::Indices(entries),
            ..
        } => over_names(at.context.names, entries.as_slice()),
        Expr::Ref {
            at: Access::Mapped(map),
            ..
        }
        | Expr::Const {
            at: Access::Mapped(map),
            ..
        }
        | Expr::Depend { map, .. }
        | Expr::Reduce { map, .. } => over_names(map.names.as_slice(), map.results.as_slice()),
        Expr::Restrict { domain, .. } => Written {
            names: given_names(at.context.names, domain.names.as_slice()),
            indices: &[],
            constraints: domain.constraints.as_slice(),
        },
        _ => over_names(&[], &[]),
    }
}

/// The parameter domain, the declared domains, and then the parts.
pub(crate) fn written_all<'a>(
    alloc: Global,
    system: &'a System,
    variables: &[&'a Declaration],
    parts: &[Part<'a>],
) -> Result<Vec<Written<'a>>, Memory>
    requires variables { map (λ d. d.now) variables.now
        ≡ domains.variables (view_system system.now) }
    requires parts { map part parts.now ≡ list.parts (view_system system.now) }
    ensures { IfOk result (λ all.
        map seen.written all.items ≡ all_written (view_system system.now)) }
{
    let mut all = Vec::new(alloc);
    all.push(Written {
        names: &[],
        indices: &[],
        constraints: system.sizes.constraints.as_slice(),
    })?;
    for variable in variables {
        all.push(Written {
            names: variable.domain.names.as_slice(),
            indices: &[],
            constraints: variable.domain.constraints.as_slice(),
        })?;
    }
    for part in parts {
        all.push(written_of(*part))?;
    }
    Ok(all)
}
