//! Parts of expressions that hold no expression: names and numbers with their accesses, and maps behind
//! an expression.

ghost use Rattle.std.specs.Prelude.{◌≡◌, IfOk, length};
ghost use Rattle.std.specs.Str.{IsAscii};
ghost use Rattle.av_lex.specs.Lexing.{views};
ghost use Rattle.av_tree.specs.Trees.{view, binary, dependence};
ghost use Rattle.av_parse.specs.inner.Reader.{Gives};
ghost use Rattle.av_parse.specs.inner.IndexReader.{relation_by};
ghost use Rattle.av_parse.specs.inner.ExpressionReader.{readers, brackets_of, indexed_of, postfix_tail_of, named_of, numbered_of, op_at, op_of, sign_at, compare_at, minus_of};

use crate::cursor::Cursor;
use crate::fault::Stop;
use av_base::{List, Memory, Name, Op, Place};
use av_tree::{Access, Expr, MapText, Relation, Sign};
use std::alloc::Global;

/// Two expressions under an operator.
pub(crate) fn joined(
    alloc: Global,
    sign: Sign,
    left: Expr,
    right: Expr,
    place: Place,
) -> Result<Expr, Memory>
    ensures { IfOk result (λ e. view e ≡ binary sign (view left) (view right) place) }
{
    Ok(Expr::Binary {
        sign,
        left: Box::new(alloc, left)?,
        right: Box::new(alloc, right)?,
        place,
    })
}

/// An expression under the minus at a place.
pub(crate) fn negated(alloc: Global, place: Place, body: Expr) -> Result<Expr, Memory>
    ensures { IfOk result (λ e. view e ≡ minus_of place (view body)) }
{
    let zero = Expr::Const {
        value: 0,
        at: Access::Here,
        place,
    };
    joined(alloc, Sign::Sub, zero, body, place)
}

// An expression behind a map.
fn mapped(alloc: Global, map: MapText, body: Expr) -> Result<Expr, Memory>
    ensures { IfOk result (λ e. view e ≡ dependence map (view body) map.place) }
{
    let place = map.place;
    Ok(Expr::Depend {
        map,
        body: Box::new(alloc, body)?,
        place,
    })
}

impl<'t, 'a> Cursor<'t, 'a> {
    /// The sign of a sum that stands next.
    pub(crate) fn sign(&self) -> Option<Sign>
        ensures { result ≡ sign_at (views self.now.rest.now) }
    {
        if self.is_symbol(b"+") {
            Some(Sign::Add)
        } else if self.is_symbol(b"-") {
            Some(Sign::Sub)
        } else {
            None
        }
    }

    // The comparison of a choice that stands next.
    #[tactic(auto, unfolding(crate::specs::inner::ExpressionReader::compare_at))]
    fn compare_at(&self) -> Option<Relation>
        ensures { result ≡ compare_at (views self.now.rest.now) }
    {
        if self.is_symbol(b"<>") {
            Some(Relation::Unequal)
        } else {
            self.relation_at()
        }
    }

    /// A relation between two expressions.
    #[tactic(auto, unfolding(crate::specs::inner::IndexReader::relation_by))]
    pub(crate) fn compare(&mut self) -> Result<Relation, Stop>
        ensures { Gives (λ r. (r, views self.new.rest.now)) result
            (relation_by (compare_at (views self.old.rest.now)) (views self.old.rest.now)) }
    {
        match self.compare_at() {
            None => Err(self.syntax()),
            Some(relation) => {
                self.skip();
                Ok(relation)
            }
        }
    }

    // The operator of a reduction that stands next.
    #[tactic(auto, unfolding(crate::specs::inner::ExpressionReader::op_at))]
    fn op_at(&self) -> Option<Op>
        ensures { result ≡ op_at (views self.now.rest.now) }
    {
        if self.is_symbol(b"+") {
            Some(Op::Add)
        } else if self.is_symbol(b"*") {
            Some(Op::Mul)
        } else if self.is_word(b"min") {
            Some(Op::Min)
        } else if self.is_word(b"max") {
            Some(Op::Max)
        } else {
            None
        }
    }

    /// The operator of a reduction.
    #[tactic(auto, unfolding(crate::specs::inner::ExpressionReader::op_by))]
    pub(crate) fn op(&mut self) -> Result<Op, Stop>
        ensures { Gives (λ f. (f, views self.new.rest.now)) result
            (op_of (views self.old.rest.now)) }
    {
        match self.op_at() {
            None => Err(self.syntax()),
            Some(op) => {
                self.skip();
                Ok(op)
            }
        }
    }

    // `[ "[" "]" ]`, behind a number.
    #[tactic(auto, unfolding(crate::specs::inner::ExpressionReader::brackets_of))]
    fn brackets(&mut self) -> Result<Access, Stop>
        ensures { Gives (λ at. (at, views self.new.rest.now)) result
            (brackets_of (views self.old.rest.now)) }
    {
        if !self.is_symbol(b"[") {
            return Ok(Access::Here);
        }
        self.skip();
        self.symbol(b"]")?;
        Ok(Access::Indices(List::new(self.alloc)))
    }

    // `[ indices ] "]"`, behind a name and its `[`.
    #[tactic(auto, unfolding(crate::specs::inner::ExpressionReader::indexed_of))]
    fn indexed(&mut self, name: &[u8], place: Place) -> Result<Expr, Stop>
        requires { IsAscii name.now }
        ensures { Gives (λ e. (view e, views self.new.rest.now)) result
            (indexed_of name.now place (views self.old.rest.now)) }
    {
        let indices = self.optional_indices()?;
        self.symbol(b"]")?;
        Ok(Expr::Ref {
            name: Name::from_ascii(self.alloc, name)?,
            at: Access::Indices(indices),
            place,
        })
    }

    // Behind the map that took the last level.
    #[tactic(auto, unfolding(crate::specs::inner::ExpressionReader::readers))]
    fn last_mapped(&self, tree: Expr) -> Result<Expr, Stop>
        ensures { Gives (λ e. (view e, views self.now.rest.now)) result
            ((readers 0).postfix_tail (view tree) (views self.now.rest.now)) }
    {
        if self.is_symbol(b".") {
            return Err(self.too_deep(true));
        }
        Ok(tree)
    }

    /// `{ "." map }`, behind an expression.
    pub(crate) fn postfix_tail(&mut self, levels: u32, body: Expr) -> Result<Expr, Stop>
        ensures { Gives (λ e. (view e, views self.new.rest.now)) result
            (postfix_tail_of (readers levels) (view body) (views self.old.rest.now)) }
    {
        let mut tree = body;
        let mut room = levels;
        while self.is_symbol(b".") {
            self.skip();
            let map = self.map()?;
            tree = mapped(self.alloc, map, tree)?;
            if room == 0 {
                return self.last_mapped(tree);
            }
            room -= 1;
        }
        Ok(tree)
    }

    // The same, one level deeper.
    fn deeper_postfix_tail(&mut self, levels: u32, body: Expr) -> Result<Expr, Stop>
        ensures { Gives (λ e. (view e, views self.new.rest.now)) result
            ((readers levels).postfix_tail (view body) (views self.old.rest.now)) }
    {
        if levels == 0 {
            return self.last_mapped(body);
        }
        self.postfix_tail(levels - 1, body)
    }

    /// What stands behind a name.
    #[tactic(auto, unfolding(crate::specs::inner::ExpressionReader::named_of))]
    pub(crate) fn named(&mut self, levels: u32, name: &[u8], place: Place) -> Result<Expr, Stop>
        requires { IsAscii name.now }
        ensures { Gives (λ e. (view e, views self.new.rest.now)) result
            (named_of (readers levels) name.now place (views self.old.rest.now)) }
    {
        if self.is_symbol(b"[") {
            self.skip();
            let tree = self.indexed(name, place)?;
            return self.postfix_tail(levels, tree);
        }
        let name = Name::from_ascii(self.alloc, name)?;
        if !self.is_symbol(b".") {
            return Ok(Expr::Ref {
                name,
                at: Access::Here,
                place,
            });
        }
        self.skip();
        let map = self.map()?;
        let tree = Expr::Ref {
            name,
            at: Access::Mapped(map),
            place,
        };
        self.deeper_postfix_tail(levels, tree)
    }

    /// What stands behind a number.
    #[tactic(auto, unfolding(crate::specs::inner::ExpressionReader::numbered_of))]
    pub(crate) fn numbered(&mut self, levels: u32, value: u64, place: Place) -> Result<Expr, Stop>
        ensures { Gives (λ e. (view e, views self.new.rest.now)) result
            (numbered_of (readers levels) value place (views self.old.rest.now)) }
    {
        let at = self.brackets()?;
        if !self.is_symbol(b".") {
            return Ok(Expr::Const { value, at, place });
        }
        self.skip();
        let map = self.map()?;
        let tree = Expr::Const {
            value,
            at: Access::Mapped(map),
            place,
        };
        self.deeper_postfix_tail(levels, tree)
    }
}
