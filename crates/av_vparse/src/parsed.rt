//! What a text says, in its order: trees of the grammar.

ghost use Rattle.std.specs.Prelude.{◌≡◌, map};
ghost use Rattle.av_net.specs.Rows.{declared_port, target_of};
ghost use Rattle.av_vparse.specs.Said.{said_declaration, said_item};

use av_base::{List, Name, Width};
use av_net::{Drive, Operand, Port, Step};

/// A declaration of the module's body.
#[derive(Debug, Drop)]
pub enum SignalDeclaration {
    Wire(Port),
    Register(Port),
}

/// What is linked to a port of an instance.
#[derive(Debug, Drop)]
pub struct PortLink {
    pub port: Name,
    pub operand: Operand,
}

/// An instance of a kind of cell, with its links in the order of the text.
#[derive(Debug, Drop)]
pub struct Instantiation {
    pub kind: Name,
    pub name: Name,
    pub links: List<PortLink>,
}

/// An item of a module's body.
#[derive(Debug, Drop)]
pub enum Item {
    Drive(Drive),
    /// A drive by a widening, with the bit that it selects.
    Widening(u64, Drive),
    /// A step with the width of its reset literal.
    Step(Width, Step),
    Instance(Instantiation),
}

impl SignalDeclaration {
    /// The port of the declaration.
    pub fn port(&self) -> &Port
        ensures { result.now ≡ declared_port (said_declaration self.now) }
    {
        match self {
            SignalDeclaration::Wire(port) | SignalDeclaration::Register(port) => port,
        }
    }
}

impl Item {
    /// By which name a fault of the item is told: what it drives, or the instance.
    pub fn target(&self) -> &Name
        ensures { result.now ≡ target_of (said_item self.now) }
    {
        match self {
            Item::Drive(drive) | Item::Widening(_, drive) => &drive.target,
            Item::Step(_, step) => &step.register,
            Item::Instance(of) => &of.name,
        }
    }
}

/// The name of a module, and its ports beside the `clk` and `rst` of a top.
#[derive(Drop)]
pub(crate) struct Header {
    pub(crate) name: Name,
    pub(crate) inputs: List<Port>,
    pub(crate) outputs: List<Port>,
}

impl Header {
    ghost use Rattle.av_vparse.specs.inner.Reading.{said_header, with_body};
    ghost use Rattle.av_vparse.specs.Said.{said_module};

    /// The module with this header and body.
    pub(crate) fn with(self, declarations: List<SignalDeclaration>, items: List<Item>) -> ModuleText
        ensures { said_module result ≡ with_body
            (said_header self) (map said_declaration declarations) (map said_item items) }
    {
        ModuleText {
            name: self.name,
            inputs: self.inputs,
            outputs: self.outputs,
            declarations,
            items,
        }
    }
}

/// What a module of a text says.
#[derive(Debug, Drop)]
pub struct ModuleText {
    pub name: Name,
    pub inputs: List<Port>,
    pub outputs: List<Port>,
    pub declarations: List<SignalDeclaration>,
    pub items: List<Item>,
}

/// All that a text says beside its listing: kinds of cells, and the top.
#[derive(Debug, Drop)]
pub struct Text {
    pub kinds: List<ModuleText>,
    pub top: ModuleText,
}

/// A text with the line on which its first module begins.
#[derive(Debug, Drop)]
pub struct Parsed {
    pub text: Text,
    pub line: u32,
}
