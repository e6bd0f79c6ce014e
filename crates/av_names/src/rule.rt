//! Rules that each item of a list has to keep, and the first place in the text at which one is broken.

ghost use Rattle.std.specs.Prelude.{◌≡◌, ⊤, Option, option_map, Contains, IfOk};
ghost use Rattle.av_names.specs.Found as first;

use crate::found::{HasPlace, sooner};
use av_base::Memory;

/// A rule for items of a list.
pub(crate) trait Rule<'a, T, P: HasPlace> {
    /// The condition on an item.
    ghost takes: { Self → T → Type 0 } = { λ _ _. ⊤ };

    /// Holds of an item and what is answered for it.
    ghost gives: { Self → T → Option P → Type 0 };

    /// The first place in the item at which the rule is broken.
    fn fault(&self, item: &'a T) -> Option<P>
        requires { takes self.now item.now }
        ensures { gives self.now item.now result };
}

/// A rule that takes memory to tell where it is broken.
pub(crate) trait TryRule<'a, T, P: HasPlace> {
    /// Holds of an item and what is answered for it.
    ghost gives: { Self → T → Option P → Type 0 };

    /// The first place in the item at which the rule is broken.
    fn try_fault(&self, item: &'a T) -> Result<Option<P>, Memory>
        ensures { IfOk result (λ fault. gives self.now item.now fault) };
}

/// The first place in the items at which the rule is broken. Contracts have it as the first that `find` finds, where
/// `find` is the definition that the rule's answers follow.
pub(crate) fn first_of<'a, T, P: HasPlace, R: Rule<'a, T, P>>(rule: &R, items: &'a [T]) -> Option<P>
    requires { (item : T) → Contains items.now item → R.takes rule.now item }
    ensures { (find : T → Option P.Value) → ((item : T) (fault : Option P)
        → R.gives rule.now item fault → option_map P.value fault ≡ find item)
        → option_map P.value result ≡ first.first_of P.place_of find items.now }
{
    let mut first = None;
    for item in items {
        let next = rule.fault(item);
        first = sooner(first, next);
    }
    first
}

/// The first place in the items at which the rule is broken.
pub(crate) fn try_first_of<'a, T, P: HasPlace, R: TryRule<'a, T, P>>(
    rule: &R,
    items: &'a [T],
) -> Result<Option<P>, Memory>
    ensures { IfOk result (λ fault. (find : T → Option P.Value) → ((item : T) (fault : Option P)
        → R.gives rule.now item fault → option_map P.value fault ≡ find item)
        → option_map P.value fault ≡ first.first_of P.place_of find items.now) }
{
    let mut first = None;
    for item in items {
        let next = rule.try_fault(item)?;
        first = sooner(first, next);
    }
    Ok(first)
}
