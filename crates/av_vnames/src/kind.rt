//! A kind of cell of a text.

ghost use Rattle.std.specs.Prelude.{◌≡◌, ◌++◌, IfOk};
ghost use Rattle.av_net.specs.Names.{names_of, width_in};
ghost use Rattle.av_net.specs.Rows.{is_in, kind_from, is_input_of, is_output_of};
ghost use Rattle.av_vnames.specs.Scoped.{Bytes};
ghost use Rattle.av_vparse.specs.Said.{said_module};

use crate::scope;
use crate::widths::Widths;
use av_base::Memory;
use av_table::NameSet;
use av_vparse::ModuleText;
use std::alloc::Global;
use std::marker::Model;

/// A kind of cell with its ports, found by their names. Contracts see the kind.
#[derive(Drop)]
pub struct IndexedKind<'a> {
    of: &'a ModuleText,
    inputs: NameSet<'a>,
    outputs: NameSet<'a>,
    widths: Widths<'a>,
}

impl<'a> Model for IndexedKind<'a> {
    ghost use Rattle.av_net.specs.declared.plan.CellKind.{CellKind as Cell};
    ghost use Rattle.av_net.specs.Rows.{kind_from};
    ghost use Rattle.av_vparse.specs.Said.{said_module};
    ghost use Rattle.av_vnames.specs.KindPorts.{HasPorts};

    ghost Value = { Cell };

    ghost view = { λ kind. kind_from (said_module kind.of.now) };

    ghost invariant = { HasPorts };
}

impl<'a> IndexedKind<'a> {
    // That of a text whose ports have these names.
    fn with_names(
        alloc: Global,
        of: &'a ModuleText,
        inputs: NameSet<'a>,
        outputs: NameSet<'a>,
    ) -> Result<IndexedKind<'a>, Memory>
        requires inputs { (q : Bytes) → is_in inputs q ≡ is_in (names_of of.now.inputs) q }
        requires outputs { (q : Bytes) → is_in outputs q ≡ is_in (names_of of.now.outputs) q }
        ensures { IfOk result (λ kind. kind ≡ kind_from (said_module of.now)) }
    {
        let widths = scope::port_widths(alloc, of)?;
        Ok(IndexedKind {
            of,
            inputs,
            outputs,
            widths,
        })
    }

    /// That of a text.
    pub fn new(alloc: Global, of: &'a ModuleText) -> Result<IndexedKind<'a>, Memory>
        ensures { IfOk result (λ kind. kind ≡ kind_from (said_module of.now)) }
    {
        let inputs = scope::port_names(alloc, of.inputs.as_slice())?;
        let outputs = scope::port_names(alloc, of.outputs.as_slice())?;
        IndexedKind::with_names(alloc, of, inputs, outputs)
    }

    /// Its text.
    pub fn text(&self) -> &'a ModuleText
        ensures { kind_from (said_module result.now) ≡ self.now }
    {
        self.of
    }

    /// Whether an input port has this name.
    pub fn takes(&self, port: &str) -> bool
        ensures { result ≡ is_input_of self.now port.now }
    {
        self.inputs.contains(port.as_bytes())
    }

    /// Whether an output port has this name.
    pub fn gives(&self, port: &str) -> bool
        ensures { result ≡ is_output_of self.now port.now }
    {
        self.outputs.contains(port.as_bytes())
    }

    /// The width of the port with this name.
    pub fn bits(&self, port: &str) -> u32
        ensures { result ≡ width_in (self.now.inputs ++ self.now.outputs) port.now }
    {
        self.widths.bits(port)
    }
}
