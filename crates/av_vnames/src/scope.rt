//! What the names of a text are declared as.

ghost use Rattle.std.specs.Prelude.{◌≡◌, ◌++◌, ◌∷◌, [], map, option_map, IfOk, OnOk};
ghost use Rattle.std.specs.List.{flat_map};
ghost use Rattle.av_net.specs.Grammar.{instance};
ghost use Rattle.av_net.specs.Names.{names_of, wire_names, all_names, width_of, width_in};
ghost use Rattle.av_net.specs.Rows.{is_in, declared_names, wires_of, registers_in, driven_by_link, driven_by, driven_names, module_of};
ghost use Rattle.av_vparse.specs.Said.{said_declaration, said_link, said_instance, said_item, said_module};
ghost use Rattle.av_vnames.specs.Scoped.{texts, Bytes};
ghost use Rattle.av_vnames.specs.inner.Scoped.{listed, width_found};

use crate::kind::IndexedKind;
use crate::kinds::Kinds;
use crate::names::set_of;
use crate::widths::Widths;
use av_base::Memory;
use av_net::{Operand, Port};
use av_table::NameSet;
use av_vparse::{Instantiation, Item, ModuleText, PortLink, SignalDeclaration};
use std::alloc::Global;

pub(crate) fn push_ports<'a>(names: &mut Vec<&'a str>, ports: &'a [Port]) -> Result<(), Memory>
    ensures { OnOk result (texts names.new.items ≡ texts names.old.items ++ names_of ports.now) }
{
    for port in ports {
        names.push(port.name.as_str())?;
    }
    Ok(())
}

fn push_declared<'a>(
    names: &mut Vec<&'a str>,
    declarations: &'a [SignalDeclaration],
) -> Result<(), Memory>
    ensures { OnOk result (texts names.new.items
        ≡ texts names.old.items ++ declared_names (map said_declaration declarations.now)) }
{
    for declaration in declarations {
        names.push(declaration.port().name.as_str())?;
    }
    Ok(())
}

fn push_wire<'a>(names: &mut Vec<&'a str>, declaration: &'a SignalDeclaration) -> Result<(), Memory>
    ensures { OnOk result (texts names.new.items
        ≡ texts names.old.items ++ names_of (wires_of (said_declaration declaration.now ∷ []))) }
{
    match declaration {
        SignalDeclaration::Wire(port) => {
            names.push(port.name.as_str())?;
            Ok(())
        }
        SignalDeclaration::Register(_) => Ok(()),
    }
}

fn push_wires<'a>(
    names: &mut Vec<&'a str>,
    declarations: &'a [SignalDeclaration],
) -> Result<(), Memory>
    ensures { OnOk result (texts names.new.items
        ≡ texts names.old.items ++ names_of (wires_of (map said_declaration declarations.now))) }
{
    for declaration in declarations {
        push_wire(names, declaration)?;
    }
    Ok(())
}

fn push_register<'a>(
    names: &mut Vec<&'a str>,
    declaration: &'a SignalDeclaration,
) -> Result<(), Memory>
    ensures { OnOk result (texts names.new.items ≡ texts names.old.items
        ++ names_of (registers_in (said_declaration declaration.now ∷ []))) }
{
    match declaration {
        SignalDeclaration::Register(port) => {
            names.push(port.name.as_str())?;
            Ok(())
        }
        SignalDeclaration::Wire(_) => Ok(()),
    }
}

fn push_registers<'a>(
    names: &mut Vec<&'a str>,
    declarations: &'a [SignalDeclaration],
) -> Result<(), Memory>
    ensures { OnOk result (texts names.new.items ≡ texts names.old.items
        ++ names_of (registers_in (map said_declaration declarations.now))) }
{
    for declaration in declarations {
        push_register(names, declaration)?;
    }
    Ok(())
}

/// The names that are declared, in the order of the text.
pub(crate) fn declared<'a>(alloc: Global, text: &'a ModuleText) -> Result<Vec<&'a str>, Memory>
    ensures { IfOk result (λ names. texts names.items ≡ names_of text.now.inputs ++ names_of
        text.now.outputs ++ declared_names (map said_declaration text.now.declarations)) }
{
    let mut names = Vec::new(alloc);
    push_ports(&mut names, text.inputs.as_slice())?;
    push_ports(&mut names, text.outputs.as_slice())?;
    push_declared(&mut names, text.declarations.as_slice())?;
    Ok(names)
}

/// The names that are declared as outputs, wires or registers, in the order of the text.
pub fn drivable<'a>(alloc: Global, text: &'a ModuleText) -> Result<Vec<&'a str>, Memory>
    ensures { IfOk result (λ names. texts names.items ≡ names_of text.now.outputs
        ++ declared_names (map said_declaration text.now.declarations)) }
{
    let mut names = Vec::new(alloc);
    push_ports(&mut names, text.outputs.as_slice())?;
    push_declared(&mut names, text.declarations.as_slice())?;
    Ok(names)
}

/// The ports of a kind, in the order of the text.
pub fn linkable<'a>(alloc: Global, text: &'a ModuleText) -> Result<Vec<&'a str>, Memory>
    ensures { IfOk result (λ names.
        texts names.items ≡ names_of text.now.inputs ++ names_of text.now.outputs) }
{
    let mut names = Vec::new(alloc);
    push_ports(&mut names, text.inputs.as_slice())?;
    push_ports(&mut names, text.outputs.as_slice())?;
    Ok(names)
}

/// The name that a link to an output port of its kind drives.
pub(crate) fn driven_by_link<'a>(kind: &IndexedKind, link: &'a PortLink) -> Option<&'a str>
    ensures { listed (option_map (λ name. name.now) result)
        ≡ driven_by_link kind.now (said_link link.now) }
{
    match &link.operand {
        Operand::Name(name) if kind.gives(link.port.as_str()) => Some(name.as_str()),
        _ => None,
    }
}

fn push_linked<'a>(
    names: &mut Vec<&'a str>,
    kind: &IndexedKind,
    links: &'a [PortLink],
) -> Result<(), Memory>
    ensures { OnOk result (texts names.new.items
        ≡ texts names.old.items ++ flat_map (driven_by_link kind.now) (map said_link links.now)) }
{
    for link in links {
        if let Some(name) = driven_by_link(kind, link) {
            names.push(name)?;
        }
    }
    Ok(())
}

fn push_instance<'a>(
    names: &mut Vec<&'a str>,
    kinds: &Kinds,
    of: &'a Instantiation,
) -> Result<(), Memory>
    ensures { OnOk result (texts names.new.items
        ≡ texts names.old.items ++ driven_by kinds.now (instance (said_instance of.now))) }
{
    match kinds.named(of.kind.as_str()) {
        Some(kind) => push_linked(names, kind, of.links.as_slice()),
        None => Ok(()),
    }
}

/// Appends the names that an item drives.
pub fn push_driven<'a>(
    names: &mut Vec<&'a str>,
    kinds: &Kinds,
    item: &'a Item,
) -> Result<(), Memory>
    ensures { OnOk result (texts names.new.items
        ≡ texts names.old.items ++ driven_by kinds.now (said_item item.now)) }
{
    match item {
        Item::Drive(drive) | Item::Widening(_, drive) => {
            names.push(drive.target.as_str())?;
            Ok(())
        }
        Item::Step(_, step) => {
            names.push(step.register.as_str())?;
            Ok(())
        }
        Item::Instance(of) => push_instance(names, kinds, of),
    }
}

/// The names that are driven, in the order of the text.
pub fn driven<'a>(alloc: Global, kinds: &Kinds, items: &'a [Item]) -> Result<Vec<&'a str>, Memory>
    ensures { IfOk result (λ names.
        texts names.items ≡ driven_names kinds.now (map said_item items.now)) }
{
    let mut names = Vec::new(alloc);
    for item in items {
        push_driven(&mut names, kinds, item)?;
    }
    Ok(names)
}

/// The names of ports.
pub(crate) fn port_names<'a>(alloc: Global, ports: &'a [Port]) -> Result<NameSet<'a>, Memory>
    ensures { IfOk result (λ set. (q : Bytes) → is_in set q ≡ is_in (names_of ports.now) q) }
{
    let mut names = Vec::new(alloc);
    push_ports(&mut names, ports)?;
    set_of(alloc, names.as_slice())
}

/// The input ports.
pub fn inputs<'a>(alloc: Global, text: &'a ModuleText) -> Result<NameSet<'a>, Memory>
    ensures { IfOk result (λ set. (q : Bytes) → is_in set q ≡ is_in (names_of text.now.inputs) q) }
{
    port_names(alloc, text.inputs.as_slice())
}

/// The names that an `assign` may drive.
pub fn wires<'a>(alloc: Global, text: &'a ModuleText) -> Result<NameSet<'a>, Memory>
    ensures { IfOk result (λ set. (q : Bytes)
        → is_in set q ≡ is_in (wire_names (module_of (said_module text.now))) q) }
{
    let mut names = Vec::new(alloc);
    push_ports(&mut names, text.outputs.as_slice())?;
    push_wires(&mut names, text.declarations.as_slice())?;
    set_of(alloc, names.as_slice())
}

/// The names that an `always` may drive.
pub fn registers<'a>(alloc: Global, text: &'a ModuleText) -> Result<NameSet<'a>, Memory>
    ensures { IfOk result (λ set. (q : Bytes)
        → is_in set q ≡ is_in (names_of (module_of (said_module text.now)).registers) q) }
{
    let mut names = Vec::new(alloc);
    push_registers(&mut names, text.declarations.as_slice())?;
    set_of(alloc, names.as_slice())
}

/// The names that an operand may be.
pub fn readable<'a>(alloc: Global, text: &'a ModuleText) -> Result<NameSet<'a>, Memory>
    ensures { IfOk result (λ set. (q : Bytes)
        → is_in set q ≡ is_in (all_names (module_of (said_module text.now))) q) }
{
    let mut names = Vec::new(alloc);
    push_ports(&mut names, text.inputs.as_slice())?;
    push_registers(&mut names, text.declarations.as_slice())?;
    push_ports(&mut names, text.outputs.as_slice())?;
    push_wires(&mut names, text.declarations.as_slice())?;
    set_of(alloc, names.as_slice())
}

fn insert_ports<'a>(widths: &mut Widths<'a>, ports: &'a [Port]) -> Result<(), Memory>
    ensures { OnOk result ((q : Bytes)
        → width_found widths.new q ≡ width_found (widths.old ++ ports.now) q) }
{
    for port in ports {
        widths.insert(port)?;
    }
    Ok(())
}

fn insert_register<'a>(
    widths: &mut Widths<'a>,
    declaration: &'a SignalDeclaration,
) -> Result<(), Memory>
    ensures { OnOk result ((q : Bytes) → width_found widths.new q
        ≡ width_found (widths.old ++ registers_in (said_declaration declaration.now ∷ [])) q) }
{
    match declaration {
        SignalDeclaration::Register(port) => widths.insert(port),
        SignalDeclaration::Wire(_) => Ok(()),
    }
}

fn insert_registers<'a>(
    widths: &mut Widths<'a>,
    declarations: &'a [SignalDeclaration],
) -> Result<(), Memory>
    ensures { OnOk result ((q : Bytes) → width_found widths.new q
        ≡ width_found (widths.old ++ registers_in (map said_declaration declarations.now)) q) }
{
    for declaration in declarations {
        insert_register(widths, declaration)?;
    }
    Ok(())
}

fn insert_wire<'a>(
    widths: &mut Widths<'a>,
    declaration: &'a SignalDeclaration,
) -> Result<(), Memory>
    ensures { OnOk result ((q : Bytes) → width_found widths.new q
        ≡ width_found (widths.old ++ wires_of (said_declaration declaration.now ∷ [])) q) }
{
    match declaration {
        SignalDeclaration::Wire(port) => widths.insert(port),
        SignalDeclaration::Register(_) => Ok(()),
    }
}

fn insert_wires<'a>(
    widths: &mut Widths<'a>,
    declarations: &'a [SignalDeclaration],
) -> Result<(), Memory>
    ensures { OnOk result ((q : Bytes) → width_found widths.new q
        ≡ width_found (widths.old ++ wires_of (map said_declaration declarations.now)) q) }
{
    for declaration in declarations {
        insert_wire(widths, declaration)?;
    }
    Ok(())
}

// Puts the ports of a kind among no other names.
fn insert_kind<'a>(widths: &mut Widths<'a>, kind: &'a ModuleText) -> Result<(), Memory>
    requires { widths.old ≡ [] }
    ensures { OnOk result ((q : Bytes)
        → width_in widths.new q ≡ width_in (kind.now.inputs ++ kind.now.outputs) q) }
{
    insert_ports(widths, kind.inputs.as_slice())?;
    insert_ports(widths, kind.outputs.as_slice())
}

/// The widths of the ports of a kind.
pub(crate) fn port_widths<'a>(alloc: Global, kind: &'a ModuleText) -> Result<Widths<'a>, Memory>
    ensures { IfOk result (λ widths. (q : Bytes)
        → width_in widths q ≡ width_in (kind.now.inputs ++ kind.now.outputs) q) }
{
    let mut widths = Widths::new(alloc);
    insert_kind(&mut widths, kind)?;
    Ok(widths)
}

// Puts all names of a text among no others.
fn insert_all<'a>(widths: &mut Widths<'a>, text: &'a ModuleText) -> Result<(), Memory>
    requires { widths.old ≡ [] }
    ensures { OnOk result ((q : Bytes)
        → width_in widths.new q ≡ width_of (module_of (said_module text.now)) q) }
{
    insert_ports(widths, text.inputs.as_slice())?;
    insert_registers(widths, text.declarations.as_slice())?;
    insert_ports(widths, text.outputs.as_slice())?;
    insert_wires(widths, text.declarations.as_slice())
}

/// The widths of all names.
pub fn widths<'a>(alloc: Global, text: &'a ModuleText) -> Result<Widths<'a>, Memory>
    ensures { IfOk result (λ widths. (q : Bytes)
        → width_in widths q ≡ width_of (module_of (said_module text.now)) q) }
{
    let mut widths = Widths::new(alloc);
    insert_all(&mut widths, text)?;
    Ok(widths)
}
