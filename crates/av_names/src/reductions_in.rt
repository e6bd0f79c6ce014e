//! Reductions where the language has none.

ghost use Rattle.std.specs.Prelude.{◌≡◌, map};
ghost use Rattle.av_tree.specs.Trees.{System, view, view_all};
ghost use Rattle.av_names.specs.Parts as list;
ghost use Rattle.av_names.specs.Reductions as rules;
ghost use Rattle.av_names.specs.inner.Seen.{part};

use crate::part::Part;
use crate::rule::{Rule, first_of};
use av_base::Place;
use av_tree::Expr;

/// The first case that stands in a reduction's body.
pub(crate) fn case_in_reduce(parts: &[Part<'_>]) -> Option<Place>
    ensures { (s : System) → map part parts.now ≡ list.parts s → result ≡ rules.case_in_reduce s }
{
    first_of(&CaseRule, parts)
}

/// No case stands in a reduction's body.
#[derive(Clone, Copy)]
struct CaseRule;

impl Rule<'_, Part<'_>, Place> for CaseRule {
    ghost gives = { λ _ at fault. fault ≡ rules.part_case (part at) };

    fn fault(&self, at: &Part<'_>) -> Option<Place> {
        match at.expr {
            Expr::Case { place, .. } if at.reduced => Some(*place),
            _ => None,
        }
    }
}

/// The first map under which an expression holds a reduction.
pub(crate) fn depend_on_reduce(parts: &[Part<'_>]) -> Option<Place>
    ensures { (s : System) → map part parts.now ≡ list.parts s → result ≡ rules.depend_on_reduce s }
{
    first_of(&DependenceRule, parts)
}

/// No expression under a dependence holds a reduction.
#[derive(Clone, Copy)]
struct DependenceRule;

impl Rule<'_, Part<'_>, Place> for DependenceRule {
    ghost gives = { λ _ at fault. fault ≡ rules.part_dependence (part at) };

    fn fault(&self, at: &Part<'_>) -> Option<Place> {
        match at.expr {
            Expr::Depend { map, body, .. } if holds_reduction(body) => Some(map.place),
            _ => None,
        }
    }
}

#[cycle(holds)]
fn holds_reduction(expr: &Expr) -> bool
    ensures { result ≡ rules.holds_reduction (view expr.now) }
{
    match expr {
        Expr::Ref { .. } | Expr::Const { .. } => false,
        Expr::Binary { left, right, .. } => holds_reduction(left) || holds_reduction(right),
        Expr::Choose {
            left,
            right,
            yes,
            no,
            ..
        } => {
            holds_reduction(left)
                || holds_reduction(right)
                || holds_reduction(yes)
                || holds_reduction(no)
        }
        Expr::Restrict { body, .. } | Expr::Depend { body, .. } => holds_reduction(body),
        Expr::Case { branches, .. } => one_holds_reduction(branches.as_slice()),
        Expr::Reduce { .. } => true,
    }
}

#[cycle(holds)]
fn one_holds_reduction(branches: &[Expr]) -> bool
    ensures { result ≡ rules.hold_reduction (view_all branches.now) }
{
    for branch in branches {
        if holds_reduction(branch) {
            return true;
        }
    }
    false
}
