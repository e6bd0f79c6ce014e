//! Kinds of cells.

ghost use Rattle.std.specs.Prelude.{◌≡◌, map};
ghost use Rattle.av_vparse.specs.inner.Lexing.{views};
ghost use Rattle.av_vparse.specs.inner.Reading.{Gives, begins_kind, kind_input_at, kind_inputs_at, outputs_from, kind_outputs_at, kind_ports_at, kind_header_at, kind_wire_at, kind_wires_at, kind_body_at, kind_at, kinds_at, said_header};
ghost use Rattle.av_vparse.specs.Said.{said_declaration, said_module};

use crate::cursor::DesignCursor;
use crate::fault::ReadError;
use crate::parsed::{Header, ModuleText, SignalDeclaration};
use crate::token::{is_name, is_word};
use av_base::{List, Name};
use av_net::{DesignTokenKind, Port};

impl<'t, 'a> DesignCursor<'t, 'a> {
    // Whether tokens are left, and they do not begin as a top, with `module name(input clk`.
    fn begins_kind(&self) -> bool
        ensures { result ≡ begins_kind (views self.now.rest.now) }
    {
        match self.rest {
            [] => false,
            [module, name, opens, input, clock, ..] => {
                !(is_word(module, "module")
                    && name.kind == DesignTokenKind::Name
                    && is_word(opens, "(")
                    && is_word(input, "input")
                    && is_name(clock, "clk"))
            }
            _ => true,
        }
    }

    // A port of a kind, with the comma behind it.
    #[tactic(auto, unfolding(crate::specs::inner::Reading::kind_input_at))]
    fn kind_input(&mut self) -> Result<Port, ReadError>
        ensures { Gives (λ x. (x, views self.new.rest.now)) result
            (kind_input_at (views self.old.rest.now)) }
    {
        self.word("input")?;
        let port = self.port()?;
        self.word(",")?;
        Ok(port)
    }

    fn kind_inputs(&mut self) -> Result<List<Port>, ReadError>
        ensures { Gives (λ x. (x, views self.new.rest.now)) result
            (kind_inputs_at (views self.old.rest.now)) }
    {
        let mut found = List::new(self.alloc);
        while self.is_at("input") {
            let port = self.kind_input()?;
            found.push(port)?;
        }
        Ok(found)
    }

    // One output and more behind commas.
    fn kind_outputs(&mut self) -> Result<List<Port>, ReadError>
        ensures { Gives (λ x. (x, views self.new.rest.now)) result
            (kind_outputs_at (views self.old.rest.now)) }
    {
        self.word("output")?;
        let first = self.port()?;
        self.outputs_from(first)
    }

    fn outputs_from(&mut self, first: Port) -> Result<List<Port>, ReadError>
        ensures { Gives (λ x. (x, views self.new.rest.now)) result
            (outputs_from first (views self.old.rest.now)) }
    {
        let mut found = List::new(self.alloc);
        found.push(first)?;
        while self.is_at(",") {
            let port = self.directed("output")?;
            found.push(port)?;
        }
        Ok(found)
    }

    // The ports of a kind with this name, and what ends them.
    fn kind_ports(&mut self, name: Name) -> Result<Header, ReadError>
        ensures { Gives (λ x. (said_header x, views self.new.rest.now)) result
            (kind_ports_at name (views self.old.rest.now)) }
    {
        let inputs = self.kind_inputs()?;
        let outputs = self.kind_outputs()?;
        self.pair(")", ";")?;
        Ok(Header {
            name,
            inputs,
            outputs,
        })
    }

    #[tactic(auto, unfolding(crate::specs::inner::Reading::kind_header_at))]
    fn kind_header(&mut self) -> Result<Header, ReadError>
        ensures { Gives (λ x. (said_header x, views self.new.rest.now)) result
            (kind_header_at (views self.old.rest.now)) }
    {
        self.word("module")?;
        let name = self.name()?;
        self.word("(")?;
        self.kind_ports(name)
    }

    #[tactic(auto, unfolding(crate::specs::inner::Reading::kind_wire_at))]
    fn kind_wire(&mut self) -> Result<SignalDeclaration, ReadError>
        ensures { Gives (λ x. (said_declaration x, views self.new.rest.now)) result
            (kind_wire_at (views self.old.rest.now)) }
    {
        self.word("wire")?;
        let port = self.declared()?;
        Ok(SignalDeclaration::Wire(port))
    }

    fn kind_wires(&mut self) -> Result<List<SignalDeclaration>, ReadError>
        ensures { Gives (λ x. (map said_declaration x, views self.new.rest.now)) result
            (kind_wires_at (views self.old.rest.now)) }
    {
        let mut found = List::new(self.alloc);
        while self.is_at("wire") {
            let declaration = self.kind_wire()?;
            found.push(declaration)?;
        }
        Ok(found)
    }

    // What follows the header.
    fn kind_body(&mut self, header: Header) -> Result<ModuleText, ReadError>
        ensures { Gives (λ x. (said_module x, views self.new.rest.now)) result
            (kind_body_at (said_header header) (views self.old.rest.now)) }
    {
        let declarations = self.kind_wires()?;
        let items = self.assignments()?;
        self.word("endmodule")?;
        Ok(header.with(declarations, items))
    }

    #[tactic(auto, unfolding(crate::specs::inner::Reading::kind_at))]
    fn kind(&mut self) -> Result<ModuleText, ReadError>
        ensures { Gives (λ x. (said_module x, views self.new.rest.now)) result
            (kind_at (views self.old.rest.now)) }
    {
        let header = self.kind_header()?;
        self.kind_body(header)
    }

    /// Kinds of cells, as many as stand before the top.
    pub(crate) fn kinds(&mut self) -> Result<List<ModuleText>, ReadError>
        ensures { Gives (λ x. (map said_module x, views self.new.rest.now)) result
            (kinds_at (views self.old.rest.now)) }
    {
        let mut found = List::new(self.alloc);
        while self.begins_kind() {
            let kind = self.kind()?;
            found.push(kind)?;
        }
        Ok(found)
    }
}
