//! Widths, ports and declarations.

ghost use Rattle.std.specs.Prelude.{◌≡◌, ◌≤◌, map};
ghost use Rattle.av_vparse.specs.inner.Lexing.{views};
ghost use Rattle.av_vparse.specs.inner.Reading.{Gives, width_for, range_at, port_at, directed_at, declared_at, begins_declaration, declaration_at, ports_at, declarations_at};
ghost use Rattle.av_vparse.specs.Said.{said_declaration};

use crate::cursor::{DesignCursor, MOST_BIT};
use crate::fault::ReadError;
use crate::parsed::SignalDeclaration;
use av_base::{List, Width};
use av_net::Port;

// The width of the range from a number to 0.
fn width_above(number: u64) -> Width
    requires { number ≤ 63 }
    ensures { result ≡ width_for number }
{
    Width {
        bits: number as u32 + 1,
    }
}

impl<'t, 'a> DesignCursor<'t, 'a> {
    #[tactic(auto, unfolding(crate::specs::inner::Reading::range_at))]
    fn range(&mut self) -> Result<Width, ReadError>
        ensures { Gives (λ x. (x, views self.new.rest.now)) result
            (range_at (views self.old.rest.now)) }
    {
        if !self.is_at("[") {
            return Ok(width_above(0));
        }
        self.skip();
        let number = self.number(0, MOST_BIT)?;
        self.word(":")?;
        self.word("0")?;
        self.word("]")?;
        Ok(width_above(number))
    }

    /// A range and a name.
    #[tactic(auto, unfolding(crate::specs::inner::Reading::port_at))]
    pub(crate) fn port(&mut self) -> Result<Port, ReadError>
        ensures { Gives (λ x. (x, views self.new.rest.now)) result
            (port_at (views self.old.rest.now)) }
    {
        let width = self.range()?;
        let name = self.name()?;
        Ok(Port { name, width })
    }

    /// A port of a direction, with the comma before it.
    #[tactic(auto, unfolding(crate::specs::inner::Reading::directed_at))]
    pub(crate) fn directed(&mut self, direction: &str) -> Result<Port, ReadError>
        ensures { Gives (λ x. (x, views self.new.rest.now)) result
            (directed_at direction.now (views self.old.rest.now)) }
    {
        self.pair(",", direction)?;
        self.port()
    }

    /// Ports of a direction, as many as stand there.
    pub(crate) fn ports(&mut self, direction: &str) -> Result<List<Port>, ReadError>
        ensures { Gives (λ x. (x, views self.new.rest.now)) result
            (ports_at direction.now (views self.old.rest.now)) }
    {
        let mut found = List::new(self.alloc);
        while self.are_at(",", direction) {
            let port = self.directed(direction)?;
            found.push(port)?;
        }
        Ok(found)
    }

    /// A range, a name and what ends a declaration.
    #[tactic(auto, unfolding(crate::specs::inner::Reading::declared_at))]
    pub(crate) fn declared(&mut self) -> Result<Port, ReadError>
        ensures { Gives (λ x. (x, views self.new.rest.now)) result
            (declared_at (views self.old.rest.now)) }
    {
        let port = self.port()?;
        self.word(";")?;
        Ok(port)
    }

    fn begins_declaration(&self) -> bool
        ensures { result ≡ begins_declaration (views self.now.rest.now) }
    {
        self.is_at("wire") || self.is_at("reg")
    }

    #[tactic(auto, unfolding(crate::specs::inner::Reading::declaration_at))]
    fn declaration(&mut self) -> Result<SignalDeclaration, ReadError>
        ensures { Gives (λ x. (said_declaration x, views self.new.rest.now)) result
            (declaration_at (views self.old.rest.now)) }
    {
        if self.is_at("wire") {
            self.skip();
            let port = self.declared()?;
            return Ok(SignalDeclaration::Wire(port));
        }
        self.word("reg")?;
        let port = self.declared()?;
        Ok(SignalDeclaration::Register(port))
    }

    /// Declarations, as many as stand there.
    pub(crate) fn declarations(&mut self) -> Result<List<SignalDeclaration>, ReadError>
        ensures { Gives (λ x. (map said_declaration x, views self.new.rest.now)) result
            (declarations_at (views self.old.rest.now)) }
    {
        let mut found = List::new(self.alloc);
        while self.begins_declaration() {
            let declaration = self.declaration()?;
            found.push(declaration)?;
        }
        Ok(found)
    }
}
