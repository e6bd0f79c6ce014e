//! Maps of reductions that are no projections.

ghost use Rattle.std.specs.Prelude.{◌≡◌, [], map, IfOk, option_map};
ghost use Rattle.av_tree.specs.Trees.{System};
ghost use Rattle.av_names.specs.Parts as list;
ghost use Rattle.av_names.specs.Reductions as rules;
ghost use Rattle.av_names.specs.inner.Seen.{part};

use crate::name_sets::{is_among, put_name, set_of};
use crate::part::Part;
use crate::rule::{TryRule, try_first_of};
use av_base::{Memory, Name, Place};
use av_table::NameSet;
use av_tree::{Expr, IndexExpr, MapText, Term};
use std::alloc::Global;

/// The first reduction's map that does not give all its names but one, each once and plain.
pub(crate) fn projection(alloc: Global, parts: &[Part<'_>]) -> Result<Option<Place>, Memory>
    ensures { IfOk result (λ first. (s : System)
        → map part parts.now ≡ list.parts s → first ≡ rules.projection s) }
{
    try_first_of(&ProjectionRule { alloc }, parts)
}

/// A reduction's map gives all its names but one, each once and plain.
#[derive(Clone, Copy)]
struct ProjectionRule {
    alloc: Global,
}

impl TryRule<'_, Part<'_>, Place> for ProjectionRule {
    ghost gives = { λ _ at place. place ≡ rules.part_projection (part at) };

    fn try_fault(&self, at: &Part<'_>) -> Result<Option<Place>, Memory> {
        match at.expr {
            Expr::Reduce { map, .. } => {
                if is_projection(self.alloc, map)? {
                    Ok(None)
                } else {
                    Ok(Some(map.place))
                }
            }
            _ => Ok(None),
        }
    }
}

fn is_projection(alloc: Global, map: &MapText) -> Result<bool, Memory>
    ensures { IfOk result (λ yes. yes ≡ rules.is_projection map.now) }
{
    let names = map.names.as_slice();
    let results = map.results.as_slice();
    if results.len() + 1 != names.len() {
        return Ok(false);
    }
    gives_names(alloc, names, results)
}

fn gives_names(alloc: Global, names: &[Name], results: &[IndexExpr]) -> Result<bool, Memory>
    ensures { IfOk result (λ yes. yes ≡ rules.gives_names names.now [] results.now) }
{
    let own = set_of(alloc, names)?;
    let mut before = NameSet::new(alloc);
    gives_each(&own, &mut before, results)
}

/// Whether each result is a plain name, one of these, and none of those before it.
fn gives_each<'a>(
    own: &NameSet<'_>,
    before: &mut NameSet<'a>,
    results: &'a [IndexExpr],
) -> Result<bool, Memory>
    ensures { IfOk result (λ yes. yes ≡ rules.gives_names own.now before.old results.now) }
{
    for entry in results {
        match plain_name(entry.terms.as_slice()) {
            None => return Ok(false),
            Some(name) => {
                if !is_among(own, name) {
                    return Ok(false);
                }
                if !put_name(before, name)? {
                    return Ok(false);
                }
            }
        }
    }
    Ok(true)
}

fn plain_name(terms: &[Term]) -> Option<&Name>
    ensures { option_map (λ n. n.now) result ≡ rules.plain_name terms.now }
{
    match terms {
        [term] if term.factor == 1 => match &term.name {
            Some(name) => Some(name),
            None => None,
        },
        _ => None,
    }
}
