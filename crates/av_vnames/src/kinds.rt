//! The kinds of cells of a text, found by their names.

ghost use Rattle.std.specs.Prelude.{◌≡◌, ◌<◌, ◌++◌, ◌∷◌, [], if◌then◌else◌, is_some, length, map, option_map, IfOk, IfSome, OnOk};
ghost use Rattle.std.specs.Map.{lookup};
ghost use Rattle.std.specs.Str.{bytes_eq};
ghost use Rattle.av_net.specs.Rows.{kind_from, kind_named};
ghost use Rattle.av_vparse.specs.Said.{said_module};
ghost use Rattle.av_vnames.specs.Numbered.{number_of};

use crate::kind::IndexedKind;
use av_base::{List, Memory};
use av_table::NameMap;
use av_vparse::ModuleText;
use std::alloc::Global;
use std::marker::Model;

/// The kinds of a text, in its order. Contracts see the list of these.
#[derive(Drop)]
pub struct Kinds<'a> {
    numbers: NameMap<'a, usize>,
    kinds: Vec<IndexedKind<'a>>,
}

impl<'a> Model for Kinds<'a> {
    ghost use Rattle.std.specs.Prelude.{List as Items};
    ghost use Rattle.av_net.specs.declared.plan.CellKind.{CellKind as Cell};
    ghost use Rattle.av_vnames.specs.Kinds.{AreNumbered};

    ghost Value = { Items Cell };

    ghost view = { λ kinds. kinds.kinds.items };

    ghost invariant = { AreNumbered };
}

// Appends a kind, and its number under its name, if that is new.
fn push_kind<'a>(
    alloc: Global,
    numbers: &mut NameMap<'a, usize>,
    kinds: &mut Vec<IndexedKind<'a>>,
    text: &'a ModuleText,
) -> Result<(), Memory>
    ensures kinds { OnOk result (kinds.new.items
        ≡ kinds.old.items ++ kind_from (said_module text.now) ∷ []) }
    ensures numbers { OnOk result (numbers.new
        ≡ (if is_some (lookup (bytes_eq text.now.name) numbers.old)
        then numbers.old else (numbers.old ++ (text.now.name, length kinds.old.items) ∷ []))) }
{
    numbers.insert(text.name.as_str().as_bytes(), kinds.len())?;
    kinds.push(IndexedKind::new(alloc, text)?)?;
    Ok(())
}

impl<'a> Kinds<'a> {
    /// Those of a text.
    pub fn new(alloc: Global, of: &'a List<ModuleText>) -> Result<Kinds<'a>, Memory>
        ensures { IfOk result (λ kinds. kinds ≡ map kind_from (map said_module of.now)) }
    {
        let mut kinds = Vec::with_capacity(alloc, of.len())?;
        let mut numbers = NameMap::new(alloc);
        for text in of.as_slice() {
            push_kind(alloc, &mut numbers, &mut kinds, text)?;
        }
        Ok(Kinds { numbers, kinds })
    }

    /// The number of the first kind with this name. 32 bits hold it.
    pub fn number(&self, name: &str) -> Option<usize>
        ensures is { result ≡ number_of self.now name.now }
        ensures within { IfSome result (λ number. number < length self.now) }
        ensures fits { IfSome result (λ number. number < 4294967296) }
    {
        self.numbers.get(name.as_bytes())
    }

    /// The first kind with this name.
    pub fn named(&self, name: &str) -> Option<&IndexedKind<'a>>
        ensures { option_map (λ kind. kind.now) result ≡ kind_named self.now name.now }
    {
        match self.number(name) {
            Some(number) => {
                let kinds = self.kinds.as_slice();
                Some(&kinds[number])
            }
            None => None,
        }
    }
}
