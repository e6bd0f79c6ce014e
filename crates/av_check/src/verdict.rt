//! What a tree has at a point.

ghost use Rattle.std.specs.Prelude.{◌≡◌, ℕ, ◌+◌, ◌*◌, Option};
ghost use Rattle.av_check.specs.Blame.{Blamed, where_none, or_else};
ghost use Rattle.av_check.specs.inner.Verdicts.{IsOf};

use av_base::Point;
use av_flat::VariablePlace;
use std::marker::Model;

// A reference to a variable reads a point that is not declared.
#[derive(Debug, Drop)]
pub(crate) struct Blame {
    pub(crate) var: VariablePlace,
    pub(crate) point: Point,
}

impl Model for Blame {
    ghost use Rattle.av_check.specs.Blame.{Blamed};

    ghost Value = { Blamed };

    ghost view = { λ b. record { var = b.var.0; point = b.point } };
}

// Whether a tree has a word at a point, and whom it is blamed on that it has none.
#[derive(Debug, Drop)]
pub(crate) enum Verdict {
    Counted,
    Missing(Option<Blame>),
}

/// What two parts have of which both are needed: what the first has where it has no word, else what the other has.
pub(crate) fn both(first: Verdict, other: Verdict) -> Verdict
    ensures { (m n : ℕ) (a b : Option Blamed)
        → IsOf m a first → IsOf n b other → IsOf (m * n) (where_none m a b) result }
{
    match first {
        Verdict::Counted => other,
        Verdict::Missing(blame) => Verdict::Missing(blame),
    }
}

// The blame of the first that blames somebody.
fn earlier(first: Option<Blame>, other: Option<Blame>) -> Option<Blame>
    ensures { result ≡ or_else first other }
{
    match first {
        Some(blame) => Some(blame),
        None => other,
    }
}

/// What two branches have of which either will do.
pub(crate) fn either(first: Verdict, other: Verdict) -> Verdict
    ensures { (m n : ℕ) (a b : Option Blamed)
        → IsOf m a first → IsOf n b other → IsOf (m + n) (or_else a b) result }
{
    match first {
        Verdict::Counted => Verdict::Counted,
        Verdict::Missing(blame) => match other {
            Verdict::Counted => Verdict::Counted,
            Verdict::Missing(next) => Verdict::Missing(earlier(blame, next)),
        },
    }
}
