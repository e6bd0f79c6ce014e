ghost use Rattle.std.specs.Prelude.{◌≡◌, ◌++◌, ◌∷◌, [], is_some, if◌then◌else◌, OnOk, OnErr};
ghost use Rattle.std.specs.Map.{lookup};
ghost use Rattle.std.specs.Str.{bytes_eq};

use av_base::Memory;
use indexmap::IndexMap;
use std::alloc::Global;
use std::marker::Model;

/// A value for each name, in the order in which the names came. Contracts see the list of the names' bytes with
/// their values.
#[derive(Drop)]
pub struct NameMap<'a, T> {
    values: IndexMap<&'a [u8], T>,
}

impl<'a, T> Model for NameMap<'a, T> {
    ghost use Rattle.std.specs.Prelude.{ℕ, List as Items, map};
    ghost use Rattle.std.specs.Coded.{coded_list, coded×, coded_ℕ};

    ghost Value = { Items (Items ℕ × T) };

    ghost coded = { coded_list (coded× (coded_list coded_ℕ) T.code) };

    ghost view = { λ table. map (λ entry. (entry.0.now, entry.1)) table.values.entries };
}

impl<'a, T: Copy> NameMap<'a, T> {
    /// No names.
    pub fn new(alloc: Global) -> NameMap<'a, T>
        ensures { result ≡ [] }
    {
        NameMap {
            values: IndexMap::new(alloc),
        }
    }

    /// Appends a name with its value. A name that is there keeps the value that it has.
    pub fn insert(&mut self, name: &'a [u8], value: T) -> Result<(), Memory>
        ensures all { OnOk result (self.new ≡ (if is_some (lookup (bytes_eq name.now) self.old)
            then self.old else self.old ++ (name.now, value) ∷ [])) }
        ensures kept { OnErr result (self.new ≡ self.old) }
    {
        if self.values.contains_key(name) {
            return Ok(());
        }
        match self.values.insert(name, value) {
            Ok(_) => Ok(()),
            Err(_) => Err(Memory),
        }
    }

    /// The value of the name.
    pub fn get(&self, name: &[u8]) -> Option<T>
        ensures { result ≡ lookup (bytes_eq name.now) self.now }
    {
        self.values.get(name).copied()
    }
}
