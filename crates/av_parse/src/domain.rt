//! Comparisons and domains.

ghost use Rattle.std.specs.Prelude.{◌≡◌, ◌++◌, length, IfOk};
ghost use Rattle.av_lex.specs.Lexing.{views};
ghost use Rattle.av_tree.specs.IndexGrammar.{with_each, compared};
ghost use Rattle.av_parse.specs.inner.Reader.{Gives, with_front};
ghost use Rattle.av_parse.specs.inner.IndexReader.{list_of, side_of, relation_at, relation_of, is_there, chain_of, constraint_of, constraints_of, bar_of, conditions_of, domain_rest_of, domain_of};

use crate::copy;
use crate::cursor::Cursor;
use crate::fault::Stop;
use av_base::{List, Memory, Place};
use av_tree::{Constraint, DomainText, IndexExpr, Relation};
use std::alloc::Global;

/// A list of a comparison has at most this many members behind its first.
const FURTHER_MEMBERS: usize = 7;

// One member on the left with each on the right, appended to these constraints.
fn compare_with_each(
    alloc: Global,
    found: &mut List<Constraint>,
    left: &IndexExpr,
    relation: Relation,
    rights: &[IndexExpr],
) -> Result<(), Memory>
    ensures { IfOk result (λ _. found.new ≡ found.old ++ with_each left.now relation rights.now) }
{
    for right in rights {
        found.push(Constraint {
            left: copy::index(alloc, left)?,
            relation,
            right: copy::index(alloc, right)?,
        })?;
    }
    Ok(())
}

// Each member on the left with each on the right, the left one slowest.
fn compare(
    alloc: Global,
    found: &mut List<Constraint>,
    lefts: &[IndexExpr],
    relation: Relation,
    rights: &[IndexExpr],
) -> Result<(), Memory>
    ensures { IfOk result (λ _. found.new ≡ found.old ++ compared lefts.now relation rights.now) }
{
    for left in lefts {
        compare_with_each(alloc, found, left, relation, rights)?;
    }
    Ok(())
}

impl<'t, 'a> Cursor<'t, 'a> {
    // `"(" index { "," index } ")"`.
    #[tactic(auto, unfolding(crate::specs::inner::IndexReader::list_of))]
    fn list(&mut self) -> Result<List<IndexExpr>, Stop>
        ensures { Gives (λ es. (es, views self.new.rest.now)) result
            (list_of (views self.old.rest.now)) }
    {
        self.symbol(b"(")?;
        let members = self.indices(FURTHER_MEMBERS)?;
        self.symbol(b")")?;
        Ok(members)
    }

    #[tactic(auto, unfolding(crate::specs::inner::IndexReader::side_of))]
    fn side(&mut self) -> Result<List<IndexExpr>, Stop>
        ensures { Gives (λ es. (es, views self.new.rest.now)) result
            (side_of (views self.old.rest.now)) }
    {
        if self.is_symbol(b"(") {
            return self.list();
        }
        let index = self.index()?;
        let mut members = List::new(self.alloc);
        members.push(index)?;
        Ok(members)
    }

    /// The comparison of a domain that stands next.
    #[tactic(auto, unfolding(crate::specs::inner::IndexReader::relation_at))]
    pub(crate) fn relation_at(&self) -> Option<Relation>
        ensures { result ≡ relation_at (views self.now.rest.now) }
    {
        if self.is_symbol(b"<") {
            Some(Relation::Less)
        } else if self.is_symbol(b"<=") {
            Some(Relation::LessEqual)
        } else if self.is_symbol(b">") {
            Some(Relation::Greater)
        } else if self.is_symbol(b">=") {
            Some(Relation::GreaterEqual)
        } else if self.is_symbol(b"=") {
            Some(Relation::Equal)
        } else {
            None
        }
    }

    fn begins_relation(&self) -> bool
        ensures { result ≡ is_there (relation_at (views self.now.rest.now)) }
    {
        match self.relation_at() {
            Some(_) => true,
            None => false,
        }
    }

    #[tactic(auto, unfolding(crate::specs::inner::IndexReader::relation_by))]
    fn relation(&mut self) -> Result<Relation, Stop>
        ensures { Gives (λ r. (r, views self.new.rest.now)) result
            (relation_of (views self.old.rest.now)) }
    {
        match self.relation_at() {
            None => Err(self.syntax()),
            Some(relation) => {
                self.skip();
                Ok(relation)
            }
        }
    }

    // `relation side { relation side }`, behind a side, appended to these constraints.
    fn chain(&mut self, found: &mut List<Constraint>, first: List<IndexExpr>) -> Result<(), Stop>
        ensures { Gives (λ _. (found.new, views self.new.rest.now)) result (with_front found.old
            (chain_of (length (views self.old.rest.now)) first (views self.old.rest.now))) }
    {
        let mut lefts = first;
        let mut room = self.left();
        while room > 0 {
            let relation = self.relation()?;
            let rights = self.side()?;
            compare(
                self.alloc,
                found,
                lefts.as_slice(),
                relation,
                rights.as_slice(),
            )?;
            if !self.begins_relation() {
                return Ok(());
            }
            lefts = rights;
            room -= 1;
        }
        Err(self.syntax())
    }

    // `side relation side { relation side }`, appended to these constraints.
    #[tactic(auto, using(crate::proofs::Lists::stops_then), unfolding(crate::specs::inner::IndexReader::constraint_of))]
    fn constraint(&mut self, found: &mut List<Constraint>) -> Result<(), Stop>
        ensures { Gives (λ _. (found.new, views self.new.rest.now)) result
            (with_front found.old (constraint_of (views self.old.rest.now))) }
    {
        let first = self.side()?;
        self.chain(found, first)
    }

    // `constraint { ";" constraint } [ ";" ]`.
    fn constraints(&mut self) -> Result<List<Constraint>, Stop>
        ensures { Gives (λ cs. (cs, views self.new.rest.now)) result
            (constraints_of (length (views self.old.rest.now)) (views self.old.rest.now)) }
    {
        let mut found = List::new(self.alloc);
        let mut room = self.left();
        while room > 0 {
            self.constraint(&mut found)?;
            if !self.is_symbol(b";") {
                return Ok(found);
            }
            self.skip();
            if self.is_symbol(b"}") {
                return Ok(found);
            }
            room -= 1;
        }
        Err(self.syntax())
    }

    // What stands behind the `|`.
    #[tactic(auto, unfolding(crate::specs::inner::IndexReader::bar_of))]
    fn bar(&mut self) -> Result<List<Constraint>, Stop>
        ensures { Gives (λ cs. (cs, views self.new.rest.now)) result
            (bar_of (views self.old.rest.now)) }
    {
        if self.is_symbol(b"}") {
            return Ok(List::new(self.alloc));
        }
        self.constraints()
    }

    #[tactic(auto, unfolding(crate::specs::inner::IndexReader::conditions_of))]
    fn conditions(&mut self) -> Result<List<Constraint>, Stop>
        ensures { Gives (λ cs. (cs, views self.new.rest.now)) result
            (conditions_of (views self.old.rest.now)) }
    {
        if !self.is_symbol(b"|") {
            return Ok(List::new(self.alloc));
        }
        self.skip();
        self.bar()
    }

    /// What stands behind the `{` of a domain, which has this place.
    #[tactic(auto, unfolding(crate::specs::inner::IndexReader::domain_rest_of))]
    pub(crate) fn domain_rest(&mut self, place: Place) -> Result<DomainText, Stop>
        ensures { Gives (λ d. (d, views self.new.rest.now)) result
            (domain_rest_of place (views self.old.rest.now)) }
    {
        let names = self.optional_names()?;
        let constraints = self.conditions()?;
        self.symbol(b"}")?;
        Ok(DomainText {
            names,
            constraints,
            place,
        })
    }

    /// `"{" [ names ] [ "|" .. ] "}"`.
    #[tactic(auto, unfolding(crate::specs::inner::IndexReader::domain_of))]
    pub(crate) fn domain(&mut self) -> Result<DomainText, Stop>
        ensures { Gives (λ d. (d, views self.new.rest.now)) result
            (domain_of (views self.old.rest.now)) }
    {
        let open = self.symbol(b"{")?;
        self.domain_rest(open.place)
    }
}
