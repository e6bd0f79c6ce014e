//! Names, index expressions and maps.

ghost use Rattle.std.specs.Prelude.{◌≡◌, ◌<◌, ◌^◌, ◌*ℤ◌, pos, length, IfOk};
ghost use Rattle.std.specs.Str.{IsAscii};
ghost use Rattle.av_lex.specs.Lexing.{views};
ghost use Rattle.av_parse.specs.inner.Reader.{Gives, with_front};
ghost use Rattle.av_parse.specs.inner.IndexReader.{sign_of, term_sign_at, names_of, optional_names_of, number_term_of, name_term_of, term_of, terms_of, signed_index_of, index_of, indices_of, begins_index, optional_indices_of, map_of};

use crate::cursor::Cursor;
use crate::fault::Stop;
use crate::text::{names_of, value_of};
use av_base::{List, Name, Place, TokenKind};
use av_lex::Token;
use av_tree::{IndexExpr, MapText, Term, Terms};

/// A number with the sign before it.
fn signed(negative: bool, value: u64) -> i128
    ensures { result ≡ sign_of negative *ℤ pos value }
{
    if negative {
        -i128::from(value)
    } else {
        i128::from(value)
    }
}

impl<'t, 'a> Cursor<'t, 'a> {
    /// `name { "," name }`, as the tokens of the names.
    pub(crate) fn names(&mut self) -> Result<List<Token<'a>>, Stop>
        ensures { Gives (λ xs. (views xs, views self.new.rest.now)) result
            (names_of (length (views self.old.rest.now)) (views self.old.rest.now)) }
    {
        let mut found = List::new(self.alloc);
        let mut room = self.left();
        while room > 0 {
            let name = self.expect(TokenKind::Name)?;
            found.push(name)?;
            if !self.is_symbol(b",") {
                return Ok(found);
            }
            self.skip();
            room -= 1;
        }
        Err(self.syntax())
    }

    /// Names with commas between them, or none.
    #[tactic(auto, unfolding(crate::specs::inner::IndexReader::optional_names_of))]
    pub(crate) fn optional_names(&mut self) -> Result<List<Name>, Stop>
        ensures { Gives (λ ns. (ns, views self.new.rest.now)) result
            (optional_names_of (views self.old.rest.now)) }
    {
        if !self.begins(TokenKind::Name) {
            return Ok(List::new(self.alloc));
        }
        let found = self.names()?;
        Ok(names_of(self.alloc, found.as_slice())?)
    }

    // What follows a number.
    #[tactic(auto, unfolding(crate::specs::inner::IndexReader::number_term_of))]
    fn number_term(&mut self, negative: bool, value: u64, place: Place) -> Result<Term, Stop>
        ensures { Gives (λ t. (t, views self.new.rest.now)) result
            (number_term_of (sign_of negative) value place (views self.old.rest.now)) }
    {
        let factor = signed(negative, value);
        if self.begins(TokenKind::Name) {
            let name = Name::from_ascii(self.alloc, self.text())?;
            let place = self.skip();
            return Ok(Term {
                factor,
                name: Some(name),
                place,
            });
        }
        if !self.is_symbol(b"*") {
            return Ok(Term {
                factor,
                name: None,
                place,
            });
        }
        self.skip();
        let name = self.expect(TokenKind::Name)?;
        Ok(Term {
            factor,
            name: Some(Name::from_ascii(self.alloc, name.text)?),
            place: name.place,
        })
    }

    // What follows a name.
    #[tactic(auto, unfolding(crate::specs::inner::IndexReader::name_term_of))]
    fn name_term(&mut self, negative: bool, name: &[u8], place: Place) -> Result<Term, Stop>
        requires { IsAscii name.now }
        ensures { Gives (λ t. (t, views self.new.rest.now)) result
            (name_term_of (sign_of negative) name.now place (views self.old.rest.now)) }
    {
        let name = Name::from_ascii(self.alloc, name)?;
        if !self.is_symbol(b"*") {
            return Ok(Term {
                factor: if negative { -1 } else { 1 },
                name: Some(name),
                place,
            });
        }
        self.skip();
        let number = self.expect(TokenKind::Number)?;
        Ok(Term {
            factor: signed(negative, value_of(number.text)),
            name: Some(name),
            place,
        })
    }

    #[tactic(auto, unfolding(crate::specs::inner::IndexReader::term_of))]
    fn term(&mut self, negative: bool) -> Result<Term, Stop>
        ensures { Gives (λ t. (t, views self.new.rest.now)) result
            (term_of (sign_of negative) (views self.old.rest.now)) }
    {
        let text = self.text();
        if self.begins(TokenKind::Number) {
            let value = value_of(text);
            let place = self.skip();
            return self.number_term(negative, value, place);
        }
        if self.begins(TokenKind::Name) {
            let place = self.skip();
            return self.name_term(negative, text, place);
        }
        Err(self.syntax())
    }

    // The sign of a further term, whether it is a minus.
    fn term_sign(&self) -> Option<bool>
        ensures { result ≡ term_sign_at (views self.now.rest.now) }
    {
        if self.is_symbol(b"+") {
            Some(false)
        } else if self.is_symbol(b"-") {
            Some(true)
        } else {
            None
        }
    }

    // `{ ( "+" or "-" ) term }`, appended to these terms.
    fn more_terms(&mut self, terms: &mut List<Term>) -> Result<(), Stop>
        ensures { Gives (λ _. (terms.new, views self.new.rest.now)) result (with_front terms.old
            (terms_of (length (views self.old.rest.now)) (views self.old.rest.now))) }
    {
        let mut room = self.left();
        while room > 0 {
            let Some(negative) = self.term_sign() else {
                return Ok(());
            };
            self.skip();
            let term = self.term(negative)?;
            terms.push(term)?;
            room -= 1;
        }
        Ok(())
    }

    // `term { ( "+" or "-" ) term }`, with the sign before the first term.
    #[tactic(auto, unfolding(crate::specs::inner::IndexReader::signed_index_of))]
    fn signed_index(&mut self, negative: bool, place: Place) -> Result<IndexExpr, Stop>
        ensures { Gives (λ e. (e, views self.new.rest.now)) result
            (signed_index_of (sign_of negative) place (views self.old.rest.now)) }
    {
        let first = self.term(negative)?;
        let mut terms = List::new(self.alloc);
        terms.push(first)?;
        self.more_terms(&mut terms)?;
        let terms = Terms::new(self.alloc, terms)?;
        Ok(IndexExpr { terms, place })
    }

    /// An index expression.
    #[tactic(auto, unfolding(crate::specs::inner::IndexReader::index_of))]
    pub(crate) fn index(&mut self) -> Result<IndexExpr, Stop>
        ensures { Gives (λ e. (e, views self.new.rest.now)) result
            (index_of (views self.old.rest.now)) }
    {
        if self.is_symbol(b"-") {
            let place = self.skip();
            return self.signed_index(true, place);
        }
        let place = self.place();
        self.signed_index(false, place)
    }

    /// `index { "," index }`, so many after the first at most.
    pub(crate) fn indices(&mut self, further: usize) -> Result<List<IndexExpr>, Stop>
        ensures { Gives (λ es. (es, views self.new.rest.now)) result
            (indices_of further (views self.old.rest.now)) }
    {
        let mut found = List::new(self.alloc);
        let mut room = further;
        loop {
            let index = self.index()?;
            found.push(index)?;
            if room == 0 || !self.is_symbol(b",") {
                return Ok(found);
            }
            self.skip();
            room -= 1;
        }
    }

    fn begins_index(&self) -> bool
        ensures { result ≡ begins_index (views self.now.rest.now) }
    {
        self.begins(TokenKind::Name) || self.begins(TokenKind::Number) || self.is_symbol(b"-")
    }

    /// Index expressions with commas between them, or none.
    #[tactic(auto, unfolding(crate::specs::inner::IndexReader::optional_indices_of))]
    pub(crate) fn optional_indices(&mut self) -> Result<List<IndexExpr>, Stop>
        ensures { Gives (λ es. (es, views self.new.rest.now)) result
            (optional_indices_of (views self.old.rest.now)) }
    {
        if !self.begins_index() {
            return Ok(List::new(self.alloc));
        }
        let further = self.left();
        self.indices(further)
    }

    /// `"(" [ names ] "->" [ indices ] ")"`.
    #[tactic(auto, unfolding(crate::specs::inner::IndexReader::map_of))]
    pub(crate) fn map(&mut self) -> Result<MapText, Stop>
        ensures { Gives (λ m. (m, views self.new.rest.now)) result
            (map_of (views self.old.rest.now)) }
    {
        let open = self.symbol(b"(")?;
        let names = self.optional_names()?;
        self.symbol(b"->")?;
        let results = self.optional_indices()?;
        self.symbol(b")")?;
        Ok(MapText {
            names,
            results,
            place: open.place,
        })
    }
}
