ghost use Rattle.std.specs.Prelude.{◌≡◌, ◌++◌, ◌∷◌, [], ◌<◌, not, length, if◌then◌else◌, IfSome, IfOk, OnOk, OnErr};
ghost use Rattle.std.specs.List.{list_any, position};
ghost use Rattle.std.specs.Str.{bytes_eq};

use av_base::Memory;
use indexmap::IndexSet;
use std::alloc::Global;
use std::marker::Model;

/// Names, each once, in the order in which they came. Contracts see the list of their bytes.
#[derive(Drop)]
pub struct NameSet<'a> {
    names: IndexSet<&'a [u8]>,
}

impl<'a> Model for NameSet<'a> {
    ghost use Rattle.std.specs.Prelude.{ℕ, List as Items, map};

    ghost Value = { Items (Items ℕ) };

    ghost view = { λ set. map (λ name. name.now) set.names.keys };
}

impl<'a> NameSet<'a> {
    /// No names.
    pub fn new(alloc: Global) -> NameSet<'a>
        ensures { result ≡ [] }
    {
        NameSet {
            names: IndexSet::new(alloc),
        }
    }

    /// Appends a name, unless it is among them. Whether it was not.
    pub fn insert(&mut self, name: &'a [u8]) -> Result<bool, Memory>
        ensures is_new { IfOk result (λ is_new.
            is_new ≡ not (list_any (bytes_eq name.now) self.old)) }
        ensures all { OnOk result (self.new ≡ (if list_any (bytes_eq name.now) self.old
            then self.old else self.old ++ name.now ∷ [])) }
        ensures kept { OnErr result (self.new ≡ self.old) }
    {
        match self.names.insert(name) {
            Ok(is_new) => Ok(is_new),
            Err(_) => Err(Memory),
        }
    }

    /// Whether the name is among them.
    pub fn contains(&self, name: &[u8]) -> bool
        ensures { result ≡ list_any (bytes_eq name.now) self.now }
    {
        self.names.contains(name)
    }

    /// The place of the name among them, counted from 0.
    pub fn find(&self, name: &[u8]) -> Option<usize>
        ensures place { result ≡ position (bytes_eq name.now) self.now }
        ensures within { IfSome result (λ place. place < length self.now) }
    {
        self.names.get_index_of(name)
    }
}
