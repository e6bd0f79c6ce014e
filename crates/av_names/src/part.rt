//! The parts of a system's expressions in their contexts.

ghost use Rattle.std.specs.Prelude.{◌≡◌, ◌++◌, map, OnOk};
ghost use Rattle.av_tree.specs.Trees.{view, view_all};
ghost use Rattle.av_names.specs.Parts as list;
ghost use Rattle.av_names.specs.inner.Seen.{part, context as seen};

use av_base::{Memory, Name};
use av_tree::Expr;

/// The index names over which an expression stands, as many as there are indices, or none under a dependence.
#[derive(Clone, Copy)]
pub(crate) struct Context<'a> {
    pub(crate) names: &'a [Name],
    pub(crate) indices: usize,
}

/// An expression in its context.
#[derive(Clone, Copy)]
pub(crate) struct Part<'a> {
    pub(crate) context: Context<'a>,
    /// It stands in the body of a reduction.
    pub(crate) reduced: bool,
    pub(crate) expr: &'a Expr,
}

/// Appends the parts of an expression.
#[cycle(gather)]
pub(crate) fn gather<'a>(
    parts: &mut Vec<Part<'a>>,
    context: Context<'a>,
    reduced: bool,
    expr: &'a Expr,
) -> Result<(), Memory>
    ensures { OnOk result (map part parts.new.items
        ≡ map part parts.old.items ++ list.parts_of reduced (seen context.entry) (view expr.now)) }
{
    parts.push(Part {
        context,
        reduced,
        expr,
    })?;
    match expr {
        Expr::Ref { .. } | Expr::Const { .. } => Ok(()),
        Expr::Binary { left, right, .. } => {
            gather(parts, context, reduced, left)?;
            gather(parts, context, reduced, right)
        }
        Expr::Choose {
            left,
            right,
            yes,
            no,
            ..
        } => {
            gather(parts, context, reduced, left)?;
            gather(parts, context, reduced, right)?;
            gather(parts, context, reduced, yes)?;
            gather(parts, context, reduced, no)
        }
        Expr::Restrict { body, .. } => gather(parts, context, reduced, body),
        Expr::Case { branches, .. } => gather_all(parts, context, reduced, branches.as_slice()),
        Expr::Depend { map, body, .. } => {
            let image = Context::nameless(map.results.as_slice().len());
            gather(parts, image, reduced, body)
        }
        Expr::Reduce { map, body, .. } => {
            let inner = Context::over(map.names.as_slice());
            gather(parts, inner, true, body)
        }
    }
}

#[cycle(gather)]
fn gather_all<'a>(
    parts: &mut Vec<Part<'a>>,
    context: Context<'a>,
    reduced: bool,
    branches: &'a [Expr],
) -> Result<(), Memory>
    ensures { OnOk result (map part parts.new.items ≡ map part parts.old.items
        ++ list.parts_of_all reduced (seen context.entry) (view_all branches.now)) }
{
    for branch in branches {
        gather(parts, context, reduced, branch)?;
    }
    Ok(())
}

impl<'a> Context<'a> {
    ghost use Rattle.av_names.specs.Forms as forms;

    /// The context of these names.
    pub(crate) fn over(names: &'a [Name]) -> Context<'a>
        ensures { seen result ≡ forms.over names.now }
    {
        Context {
            names,
            indices: names.len(),
        }
    }

    /// As many indices, without names.
    pub(crate) fn nameless(indices: usize) -> Context<'a>
        ensures { seen result ≡ forms.nameless indices }
    {
        Context {
            names: &[],
            indices,
        }
    }
}
