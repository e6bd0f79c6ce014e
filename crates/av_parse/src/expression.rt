//! Expressions. The levels that are left go along as an argument; a form that is open, and each operator
//! that was read in the sum or product around, take one.

ghost use Rattle.std.specs.Prelude.{◌≡◌, ◌<◌, IfOk, length, codes};
ghost use Rattle.av_lex.specs.Lexing.{view as token_view, views};
ghost use Rattle.av_tree.specs.Trees.{view, view_all};
ghost use Rattle.av_parse.specs.inner.Reader.{Gives, expect_symbol};
ghost use Rattle.av_parse.specs.inner.ExpressionReader.{readers, parenthesis_of, extreme_of, last_operand_of, branches_of, cases_of, reduction_of, reduced_of, primary_of, postfix_of, unary_of, product_of, sum_of, choice_of, restriction_of, expr_of, begins_unary, begins_expr, begins_domain_rest};

use crate::cursor::Cursor;
use crate::fault::Stop;
use crate::postfix::{joined, negated};
use crate::text::value_of;
use av_base::{List, Op, Place, TokenKind};
use av_lex::Token;
use av_tree::{DomainText, Expr, MapText, Sign};

impl<'t, 'a> Cursor<'t, 'a> {
    fn begins_unary(&self) -> bool
        ensures { result ≡ begins_unary (views self.now.rest.now) }
    {
        self.begins(TokenKind::Name)
            || self.begins(TokenKind::Number)
            || self.is_symbol(b"-")
            || self.is_symbol(b"(")
            || self.is_word(b"min")
            || self.is_word(b"max")
            || self.is_word(b"case")
            || self.is_word(b"reduce")
    }

    fn begins_expr(&self) -> bool
        ensures { result ≡ begins_expr (views self.now.rest.now) }
    {
        self.is_symbol(b"{") || self.is_word(b"if") || self.begins_unary()
    }

    fn begins_domain_rest(&self) -> bool
        ensures { result ≡ begins_domain_rest (views self.now.rest.now) }
    {
        self.begins(TokenKind::Name) || self.is_symbol(b"|") || self.is_symbol(b"}")
    }

    // The `(` behind `min`, `max` or `reduce`, inside the form.
    #[tactic(auto, unfolding(crate::specs::inner::ExpressionReader::readers))]
    fn opening(&mut self, levels: u32) -> Result<Token<'a>, Stop>
        ensures { Gives (λ x. (token_view x, views self.new.rest.now)) result
            ((readers levels).opening (views self.old.rest.now)) }
    {
        if levels == 0 {
            let may_stand = self.is_symbol(b"(");
            return Err(self.too_deep(may_stand));
        }
        self.symbol(b"(")
    }

    // What stands behind the `{` of a restriction, inside the form.
    fn restricting(&mut self, levels: u32, place: Place) -> Result<DomainText, Stop>
        ensures { Gives (λ d. (d, views self.new.rest.now)) result
            ((readers levels).domain_rest place (views self.old.rest.now)) }
    {
        if levels == 0 {
            let may_stand = self.begins_domain_rest();
            return Err(self.too_deep(may_stand));
        }
        self.domain_rest(place)
    }

    /// `expr`, one level deeper.
    #[cycle(expression)]
    pub(crate) fn deeper_expr(&mut self, levels: u32) -> Result<Expr, Stop>
        ensures { Gives (λ e. (view e, views self.new.rest.now)) result
            ((readers levels).expr (views self.old.rest.now)) }
    {
        if levels == 0 {
            let may_stand = self.begins_expr();
            return Err(self.too_deep(may_stand));
        }
        self.expr(levels - 1)
    }

    #[cycle(expression)]
    fn deeper_sum(&mut self, levels: u32) -> Result<Expr, Stop>
        ensures { Gives (λ e. (view e, views self.new.rest.now)) result
            ((readers levels).sum (views self.old.rest.now)) }
    {
        if levels == 0 {
            let may_stand = self.begins_unary();
            return Err(self.too_deep(may_stand));
        }
        self.sum(levels - 1)
    }

    #[cycle(expression)]
    fn deeper_product(&mut self, levels: u32) -> Result<Expr, Stop>
        ensures gives { Gives (λ e. (view e, views self.new.rest.now)) result
            ((readers levels).product (views self.old.rest.now)) }
        ensures room { IfOk result (λ _. 0 < levels) }
    {
        if levels == 0 {
            let may_stand = self.begins_unary();
            return Err(self.too_deep(may_stand));
        }
        self.product(levels - 1)
    }

    #[cycle(expression)]
    fn deeper_unary(&mut self, levels: u32) -> Result<Expr, Stop>
        ensures gives { Gives (λ e. (view e, views self.new.rest.now)) result
            ((readers levels).unary (views self.old.rest.now)) }
        ensures room { IfOk result (λ _. 0 < levels) }
    {
        if levels == 0 {
            let may_stand = self.begins_unary();
            return Err(self.too_deep(may_stand));
        }
        self.unary(levels - 1)
    }

    #[cycle(expression)]
    #[tactic(auto, unfolding(crate::specs::inner::ExpressionReader::expr_of))]
    fn expr(&mut self, levels: u32) -> Result<Expr, Stop>
        ensures { Gives (λ e. (view e, views self.new.rest.now)) result
            (expr_of (readers levels) (views self.old.rest.now)) }
    {
        if self.is_symbol(b"{") {
            let place = self.skip();
            return self.restriction(levels, place);
        }
        if self.is_word(b"if") {
            let place = self.skip();
            return self.choice(levels, place);
        }
        self.sum(levels)
    }

    // `domain ":" expr`, behind the `{`.
    #[cycle(expression)]
    #[tactic(auto, unfolding(crate::specs::inner::ExpressionReader::restriction_of))]
    fn restriction(&mut self, levels: u32, place: Place) -> Result<Expr, Stop>
        ensures { Gives (λ e. (view e, views self.new.rest.now)) result
            (restriction_of (readers levels) place (views self.old.rest.now)) }
    {
        let domain = self.restricting(levels, place)?;
        self.symbol(b":")?;
        let body = self.deeper_expr(levels)?;
        let place = domain.place;
        Ok(Expr::Restrict {
            domain,
            body: Box::new(self.alloc, body)?,
            place,
        })
    }

    // `sum compare sum "then" expr "else" expr`, behind the `if`.
    #[cycle(expression)]
    #[tactic(auto, unfolding(crate::specs::inner::ExpressionReader::choice_of))]
    fn choice(&mut self, levels: u32, place: Place) -> Result<Expr, Stop>
        ensures { Gives (λ e. (view e, views self.new.rest.now)) result
            (choice_of (readers levels) place (views self.old.rest.now)) }
    {
        let left = self.deeper_sum(levels)?;
        let compare = self.compare()?;
        let right = self.deeper_sum(levels)?;
        self.word(b"then")?;
        let yes = self.deeper_expr(levels)?;
        self.word(b"else")?;
        let no = self.deeper_expr(levels)?;
        Ok(Expr::Choose {
            left: Box::new(self.alloc, left)?,
            compare,
            right: Box::new(self.alloc, right)?,
            yes: Box::new(self.alloc, yes)?,
            no: Box::new(self.alloc, no)?,
            place,
        })
    }

    #[cycle(expression)]
    fn sum(&mut self, levels: u32) -> Result<Expr, Stop>
        ensures { Gives (λ e. (view e, views self.new.rest.now)) result
            (sum_of (readers levels) (views self.old.rest.now)) }
    {
        let mut tree = self.product(levels)?;
        let mut room = levels;
        while let Some(sign) = self.sign() {
            let place = self.skip();
            let right = self.deeper_product(room)?;
            tree = joined(self.alloc, sign, tree, right, place)?;
            room -= 1;
        }
        Ok(tree)
    }

    #[cycle(expression)]
    fn product(&mut self, levels: u32) -> Result<Expr, Stop>
        ensures { Gives (λ e. (view e, views self.new.rest.now)) result
            (product_of (readers levels) (views self.old.rest.now)) }
    {
        let mut tree = self.unary(levels)?;
        let mut room = levels;
        while self.is_symbol(b"*") {
            let place = self.skip();
            let right = self.deeper_unary(room)?;
            tree = joined(self.alloc, Sign::Mul, tree, right, place)?;
            room -= 1;
        }
        Ok(tree)
    }

    #[cycle(expression)]
    #[tactic(auto, unfolding(crate::specs::inner::ExpressionReader::unary_of))]
    fn unary(&mut self, levels: u32) -> Result<Expr, Stop>
        ensures { Gives (λ e. (view e, views self.new.rest.now)) result
            (unary_of (readers levels) (views self.old.rest.now)) }
    {
        if self.is_symbol(b"-") {
            let place = self.skip();
            let body = self.deeper_unary(levels)?;
            return Ok(negated(self.alloc, place, body)?);
        }
        self.postfix(levels)
    }

    #[cycle(expression)]
    #[tactic(auto, unfolding(crate::specs::inner::ExpressionReader::postfix_of))]
    fn postfix(&mut self, levels: u32) -> Result<Expr, Stop>
        ensures { Gives (λ e. (view e, views self.new.rest.now)) result
            (postfix_of (readers levels) (views self.old.rest.now)) }
    {
        let text = self.text();
        if self.begins(TokenKind::Name) {
            let place = self.skip();
            return self.named(levels, text, place);
        }
        if self.begins(TokenKind::Number) {
            let value = value_of(text);
            let place = self.skip();
            return self.numbered(levels, value, place);
        }
        let tree = self.primary(levels)?;
        self.postfix_tail(levels, tree)
    }

    // A primary that begins with no name and no number.
    #[cycle(expression)]
    #[tactic(auto, unfolding(crate::specs::inner::ExpressionReader::primary_of))]
    fn primary(&mut self, levels: u32) -> Result<Expr, Stop>
        ensures { Gives (λ e. (view e, views self.new.rest.now)) result
            (primary_of (readers levels) (views self.old.rest.now)) }
    {
        if self.is_symbol(b"(") {
            self.skip();
            return self.parenthesis(levels);
        }
        if self.is_word(b"min") {
            let place = self.skip();
            return self.extreme(levels, Sign::Min, place);
        }
        if self.is_word(b"max") {
            let place = self.skip();
            return self.extreme(levels, Sign::Max, place);
        }
        if self.is_word(b"case") {
            let place = self.skip();
            return self.cases(levels, place);
        }
        if self.is_word(b"reduce") {
            let place = self.skip();
            return self.reduction(levels, place);
        }
        Err(self.syntax())
    }

    // `expr ")"`, behind the `(`.
    #[cycle(expression)]
    #[tactic(auto, unfolding(crate::specs::inner::ExpressionReader::parenthesis_of))]
    fn parenthesis(&mut self, levels: u32) -> Result<Expr, Stop>
        ensures { Gives (λ e. (view e, views self.new.rest.now)) result
            (parenthesis_of (readers levels) (views self.old.rest.now)) }
    {
        let tree = self.deeper_expr(levels)?;
        self.symbol(b")")?;
        Ok(tree)
    }

    // `"(" expr "," expr ")"`, behind `min` or `max`.
    #[cycle(expression)]
    #[tactic(auto, unfolding(crate::specs::inner::ExpressionReader::extreme_of))]
    fn extreme(&mut self, levels: u32, sign: Sign, place: Place) -> Result<Expr, Stop>
        ensures { Gives (λ e. (view e, views self.new.rest.now)) result
            (extreme_of (readers levels) sign place (views self.old.rest.now)) }
    {
        self.opening(levels)?;
        let left = self.deeper_expr(levels)?;
        self.symbol(b",")?;
        self.last_operand(levels, sign, place, left)
    }

    // `expr ")"`, behind the first operand and its comma.
    #[cycle(expression)]
    fn last_operand(
        &mut self,
        levels: u32,
        sign: Sign,
        place: Place,
        left: Expr,
    ) -> Result<Expr, Stop>
        ensures { Gives (λ e. (view e, views self.new.rest.now)) result
            (last_operand_of (readers levels) sign place (view left) (views self.old.rest.now)) }
    {
        let right = self.parenthesis(levels)?;
        Ok(joined(self.alloc, sign, left, right, place)?)
    }

    // `expr ";" { expr ";" } "esac"`, behind the `case`.
    #[cycle(expression)]
    #[tactic(auto, unfolding(crate::specs::inner::ExpressionReader::cases_of))]
    fn cases(&mut self, levels: u32, place: Place) -> Result<Expr, Stop>
        ensures { Gives (λ e. (view e, views self.new.rest.now)) result
            (cases_of (readers levels) place (views self.old.rest.now)) }
    {
        let branches = self.branches(levels)?;
        self.word(b"esac")?;
        Ok(Expr::Case { branches, place })
    }

    // The `;` behind a branch, the last one too.
    fn branch_end(&mut self) -> Result<Token<'a>, Stop>
        ensures { Gives (λ x. (token_view x, views self.new.rest.now)) result
            (expect_symbol (codes ";") (views self.old.rest.now)) }
    {
        self.symbol(b";")
    }

    #[cycle(expression)]
    fn branches(&mut self, levels: u32) -> Result<List<Expr>, Stop>
        ensures { Gives (λ es. (view_all es, views self.new.rest.now)) result (branches_of
            (readers levels) (length (views self.old.rest.now)) (views self.old.rest.now)) }
    {
        let mut found = List::new(self.alloc);
        let mut room = self.left();
        while room > 0 {
            let branch = self.deeper_expr(levels)?;
            self.branch_end()?;
            found.push(branch)?;
            if self.is_word(b"esac") {
                return Ok(found);
            }
            room -= 1;
        }
        Err(self.syntax())
    }

    // `"(" op "," map "," expr ")"`, behind the `reduce`.
    #[cycle(expression)]
    #[tactic(auto, unfolding(crate::specs::inner::ExpressionReader::reduction_of))]
    fn reduction(&mut self, levels: u32, place: Place) -> Result<Expr, Stop>
        ensures { Gives (λ e. (view e, views self.new.rest.now)) result
            (reduction_of (readers levels) place (views self.old.rest.now)) }
    {
        self.opening(levels)?;
        let op = self.op()?;
        self.symbol(b",")?;
        let map = self.map()?;
        self.symbol(b",")?;
        self.reduced(levels, op, map, place)
    }

    // `expr ")"`, behind the operator, the map and their commas.
    #[cycle(expression)]
    fn reduced(&mut self, levels: u32, op: Op, map: MapText, place: Place) -> Result<Expr, Stop>
        ensures { Gives (λ e. (view e, views self.new.rest.now)) result
            (reduced_of (readers levels) op map place (views self.old.rest.now)) }
    {
        let reduced = self.parenthesis(levels)?;
        Ok(Expr::Reduce {
            op,
            map,
            body: Box::new(self.alloc, reduced)?,
            place,
        })
    }
}
