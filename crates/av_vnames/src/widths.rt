//! The widths of declared names.

ghost use Rattle.std.specs.Prelude.{◌≡◌, ◌++◌, ◌∷◌, [], if◌then◌else◌, OnOk};
ghost use Rattle.av_net.specs.Names.{names_of, width_in};
ghost use Rattle.av_net.specs.Rows.{is_in};

use av_base::{Memory, Width};
use av_net::Port;
use av_table::NameMap;
use std::alloc::Global;
use std::marker::Model;

/// Declared names with their widths, each name once.
#[derive(Drop)]
pub struct Widths<'a> {
    table: NameMap<'a, Width>,
}

impl<'a> Model for Widths<'a> {
    ghost use Rattle.std.specs.Prelude.{List as Items, map};
    ghost use Rattle.av_net.specs.declared.netlist.Port.{Port as Declared};

    ghost Value = { Items Declared };

    ghost view = { λ widths.
        map (λ entry. record { name = entry.0; width = entry.1 }) widths.table };
}

impl<'a> Widths<'a> {
    /// No widths.
    pub fn new(alloc: Global) -> Widths<'a>
        ensures { result ≡ [] }
    {
        Widths {
            table: NameMap::new(alloc),
        }
    }

    /// Puts a port among the others, if its name is new.
    pub fn insert(&mut self, port: &'a Port) -> Result<(), Memory>
        ensures { OnOk result (self.new ≡ (if is_in (names_of self.old) port.now.name
            then self.old else self.old ++ port.now ∷ [])) }
    {
        self.table
            .insert(port.name.as_str().as_bytes(), port.width)?;
        Ok(())
    }

    /// The width of a name, or one bit where it has none.
    pub fn bits(&self, name: &str) -> u32
        ensures { result ≡ width_in self.now name.now }
    {
        match self.table.get(name.as_bytes()) {
            Some(width) => width.bits,
            None => 1,
        }
    }
}
