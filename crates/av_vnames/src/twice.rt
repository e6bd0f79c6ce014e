//! A name that stands a second time in a text, where it may stand once.

ghost use Rattle.std.specs.Prelude.{◌≡◌, ◌++◌, ◌∷◌, [], None, map, option_map, IfOk, OnOk};
ghost use Rattle.std.specs.List.{flat_map};
ghost use Rattle.av_net.specs.Grammar.{instance};
ghost use Rattle.av_net.specs.Flat.{instance_wires};
ghost use Rattle.av_net.specs.Names.{clk, rst, names_of};
ghost use Rattle.av_net.specs.Rows.{is_in, kind_or, kinds_of, modules_of, declares, drives, first_again, driven_by_link, link_mentions, item_mentions, mentions_of, instances_in, twice_from, first_repeated, part_twice};
ghost use Rattle.av_vparse.specs.Said.{said_link, said_instance, said_item, said_module, said};
ghost use Rattle.av_vnames.specs.Scoped.{texts, Bytes};
ghost use Rattle.av_vnames.specs.inner.Scoped.{listed, instances_named, own_names};
ghost use Rattle.av_vnames.specs.inner.Seen.{IsPut, Stands, StandsIn, Tells, standing, own_declared, own_mentions};

use crate::kind::IndexedKind;
use crate::kinds::Kinds;
use crate::names::set_of;
use crate::scope;
use av_base::Memory;
use av_net::Port;
use av_table::NameSet;
use av_vparse::{Instantiation, Item, ModuleText, PortLink, Text};
use std::alloc::Global;

// Puts a name among others. The name, if it was there.
fn put<'a>(names: &mut NameSet<'a>, name: &'a str) -> Result<Option<&'a str>, Memory>
    ensures { IfOk result (λ r.
        IsPut names.old names.new name.now (option_map (λ name. name.now) r)) }
{
    if names.insert(name.as_bytes())? {
        Ok(None)
    } else {
        Ok(Some(name))
    }
}

// The name that a link drives, unless there is no such kind.
fn driven<'a>(kind: Option<&IndexedKind>, link: &'a PortLink) -> Option<&'a str>
    ensures { listed (option_map (λ name. name.now) result)
        ≡ driven_by_link (kind_or (option_map (λ kind. kind.now) kind.entry)) (said_link link.now) }
{
    match kind {
        Some(kind) => scope::driven_by_link(kind, link),
        None => None,
    }
}

// The names that stand before in a module, as declared and as driven.
#[derive(Drop)]
struct Seen<'a> {
    declared: NameSet<'a>,
    driven: NameSet<'a>,
}

impl<'a> Seen<'a> {
    // `clk` and `rst` count as declared.
    fn new(alloc: Global) -> Result<Seen<'a>, Memory>
        ensures { IfOk result (λ seen. Stands (declares clk ∷ declares rst ∷ []) seen) }
    {
        let mut declared = NameSet::new(alloc);
        declared.insert(b"clk")?;
        declared.insert(b"rst")?;
        Ok(Seen {
            declared,
            driven: NameSet::new(alloc),
        })
    }

    // The name, if it was declared before.
    fn declares(&mut self, name: &'a str) -> Result<Option<&'a str>, Memory>
        ensures { IfOk result (λ r. Tells Stands self.old self.new
            (declares name.now ∷ []) (option_map (λ name. name.now) r)) }
    {
        put(&mut self.declared, name)
    }

    // The name, if it was driven before.
    fn drives(&mut self, name: &'a str) -> Result<Option<&'a str>, Memory>
        ensures { IfOk result (λ r. Tells Stands self.old self.new
            (drives name.now ∷ []) (option_map (λ name. name.now) r)) }
    {
        put(&mut self.driven, name)
    }

    // The first of these names that was declared before, or that stands among them again.
    fn declares_all(&mut self, names: &[&'a str]) -> Result<Option<&'a str>, Memory>
        ensures { IfOk result (λ r. Tells Stands self.old self.new
            (map declares (texts names.now)) (option_map (λ name. name.now) r)) }
    {
        for name in names {
            if let Some(name) = self.declares(name)? {
                return Ok(Some(name));
            }
        }
        Ok(None)
    }

    // The port or the driven name of a link that stands again, of an instance that linked these ports before.
    fn links(
        &mut self,
        linked: &mut NameSet<'a>,
        kind: Option<&IndexedKind>,
        link: &'a PortLink,
    ) -> Result<Option<&'a str>, Memory>
        ensures { IfOk result (λ r. (u : Bytes)
            → Tells (StandsIn u) (self.old, linked.old) (
              self.new,
              linked.new,
            ) (link_mentions (kind_or (option_map (λ kind. kind.now) kind.entry)) u
            (said_link link.now)) (option_map (λ name. name.now) r)) }
    {
        if let Some(port) = put(linked, link.port.as_str())? {
            return Ok(Some(port));
        }
        match driven(kind, link) {
            Some(name) => self.drives(name),
            None => Ok(None),
        }
    }

    // The first port or driven name of these links that stands again, of an instance that linked these ports before.
    fn all_links(
        &mut self,
        linked: &mut NameSet<'a>,
        kind: Option<&IndexedKind>,
        links: &'a [PortLink],
    ) -> Result<Option<&'a str>, Memory>
        ensures { IfOk result (λ r. (u : Bytes)
            → Tells (StandsIn u) (self.old, linked.old) (self.new, linked.new) (flat_map
            (link_mentions (kind_or (option_map (λ kind. kind.now) kind.entry)) u)
            (map said_link links.now)) (option_map (λ name. name.now) r)) }
    {
        for link in links {
            if let Some(name) = self.links(linked, kind, link)? {
                return Ok(Some(name));
            }
        }
        Ok(None)
    }

    // The first name of an instance that stands again.
    fn instance(
        &mut self,
        alloc: Global,
        kinds: &Kinds,
        of: &'a Instantiation,
    ) -> Result<Option<&'a str>, Memory>
        ensures { IfOk result (λ r. Tells Stands self.old self.new (item_mentions kinds.now
            (instance (said_instance of.now))) (option_map (λ name. name.now) r)) }
    {
        if let Some(name) = self.declares(of.name.as_str())? {
            return Ok(Some(name));
        }
        let kind = kinds.named(of.kind.as_str());
        let mut linked = NameSet::new(alloc);
        self.all_links(&mut linked, kind, of.links.as_slice())
    }

    // The first name of an item that stands again.
    fn item(
        &mut self,
        alloc: Global,
        kinds: &Kinds,
        item: &'a Item,
    ) -> Result<Option<&'a str>, Memory>
        ensures { IfOk result (λ r. Tells Stands self.old self.new
            (item_mentions kinds.now (said_item item.now)) (option_map (λ name. name.now) r)) }
    {
        match item {
            Item::Drive(drive) | Item::Widening(_, drive) => self.drives(drive.target.as_str()),
            Item::Step(_, step) => self.drives(step.register.as_str()),
            Item::Instance(of) => self.instance(alloc, kinds, of),
        }
    }

    // The first name of these items that stands again.
    fn items(
        &mut self,
        alloc: Global,
        kinds: &Kinds,
        items: &'a [Item],
    ) -> Result<Option<&'a str>, Memory>
        ensures { IfOk result (λ r. Tells Stands self.old self.new
            (flat_map (item_mentions kinds.now) (map said_item items.now))
            (option_map (λ name. name.now) r)) }
    {
        for item in items {
            if let Some(name) = self.item(alloc, kinds, item)? {
                return Ok(Some(name));
            }
        }
        Ok(None)
    }

    // The first name that a module declares again.
    fn declarations(&mut self, alloc: Global, of: &'a ModuleText) -> Result<Option<&'a str>, Memory>
        ensures { IfOk result (λ r. Tells Stands self.old self.new
            (map declares (own_declared (said_module of.now))) (option_map (λ name. name.now) r)) }
    {
        let names = scope::declared(alloc, of)?;
        self.declares_all(names.as_slice())
    }

    // The first name of a module that stands again, but for its own.
    fn mentions(
        &mut self,
        alloc: Global,
        kinds: &Kinds,
        of: &'a ModuleText,
    ) -> Result<Option<&'a str>, Memory>
        ensures { IfOk result (λ r. Tells Stands self.old self.new
            (own_mentions kinds.now (said_module of.now)) (option_map (λ name. name.now) r)) }
    {
        if let Some(name) = self.declarations(alloc, of)? {
            return Ok(Some(name));
        }
        self.items(alloc, kinds, of.items.as_slice())
    }
}

// The first name of a module that stands again: its own among those of earlier modules, and what it declares, drives
// and links.
fn twice_in<'a>(
    alloc: Global,
    kinds: &Kinds,
    modules: &mut NameSet<'a>,
    of: &'a ModuleText,
) -> Result<Option<&'a str>, Memory>
    ensures again { IfOk result (λ r. option_map (λ name. name.now) r
        ≡ first_again (standing modules.old) (mentions_of kinds.now (said_module of.now))) }
    ensures modules { IfOk result (λ r. r ≡ None → modules.new ≡ modules.old ++ of.now.name ∷ []) }
{
    if let Some(name) = put(modules, of.name.as_str())? {
        return Ok(Some(name));
    }
    let mut seen = Seen::new(alloc)?;
    seen.mentions(alloc, kinds, of)
}

// The same of all modules, behind others with these names.
fn twice_among<'a>(
    alloc: Global,
    kinds: &Kinds,
    modules: &mut NameSet<'a>,
    text: &'a Text,
) -> Result<Option<&'a str>, Memory>
    requires { kinds.now ≡ kinds_of (said text.now) }
    ensures { IfOk result (λ r. option_map (λ name. name.now) r
        ≡ twice_from (kinds_of (said text.now)) modules.old (modules_of (said text.now))) }
{
    for kind in text.kinds.as_slice() {
        if let Some(name) = twice_in(alloc, kinds, modules, kind)? {
            return Ok(Some(name));
        }
    }
    twice_in(alloc, kinds, modules, &text.top)
}

/// The first name that is declared, driven or linked a second time, or the second of two modules.
pub fn twice_name<'a>(
    alloc: Global,
    kinds: &Kinds,
    text: &'a Text,
) -> Result<Option<&'a str>, Memory>
    requires { kinds.now ≡ kinds_of (said text.now) }
    ensures { IfOk result (λ r. option_map (λ name. name.now) r
        ≡ twice_from (kinds_of (said text.now)) [] (modules_of (said text.now))) }
{
    let mut modules = NameSet::new(alloc);
    twice_among(alloc, kinds, &mut modules, text)
}

// Appends what the top declares besides to other names: `clk`, `rst` and its instances.
fn push_top<'a>(names: &mut Vec<&'a str>, items: &'a [Item]) -> Result<(), Memory>
    ensures { OnOk result (texts names.new.items
        ≡ texts names.old.items ++ clk ∷ rst ∷ instances_named (map said_item items.now)) }
{
    names.push("clk")?;
    names.push("rst")?;
    for item in items {
        if let Item::Instance(of) = item {
            names.push(of.name.as_str())?;
        }
    }
    Ok(())
}

// The names that the top declares.
fn top_names<'a>(alloc: Global, top: &'a ModuleText) -> Result<NameSet<'a>, Memory>
    ensures { IfOk result (λ set. (q : Bytes)
        → is_in set q ≡ is_in (own_names (said_module top.now)) q) }
{
    let mut names = scope::declared(alloc, top)?;
    push_top(&mut names, top.items.as_slice())?;
    set_of(alloc, names.as_slice())
}

// The first name of these flat wires that is among others or stands there before.
fn repeated<'a>(seen: &mut NameSet<'a>, parts: &'a [Port]) -> Result<Option<&'a str>, Memory>
    ensures { IfOk result (λ r.
        option_map (λ name. name.now) r ≡ first_repeated seen.old (names_of parts.now)) }
{
    for part in parts {
        if !seen.insert(part.name.as_str().as_bytes())? {
            return Ok(Some(part.name.as_str()));
        }
    }
    Ok(None)
}

/// The first name of these flat wires of instances that the top declares or that stands there before.
pub fn part_twice<'a>(
    alloc: Global,
    text: &'a Text,
    parts: &'a [Port],
) -> Result<Option<&'a str>, Memory>
    requires { parts.now ≡ flat_map (instance_wires (kinds_of (said text.now)))
        (instances_in (kinds_of (said text.now)) (said text.now).top.items) }
    ensures { IfOk result (λ r. option_map (λ name. name.now) r ≡ part_twice (said text.now)) }
{
    let mut seen = top_names(alloc, &text.top)?;
    repeated(&mut seen, parts)
}
