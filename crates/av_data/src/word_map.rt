ghost use Rattle.std.specs.Prelude.{◌≡◌, [], ℕ, None, Some, is_some, not, ◌&&◌, if◌then◌else◌, IfOk, IfSome, IfNone};
ghost use Rattle.av_tree.specs.Points.{Point as Entries};
ghost use Rattle.av_data.specs.Inputs.{is_at, word_among};

use arrayvec::ArrayVec;
use av_base::{Memory, Point, Word};
use av_flat::VariablePlace;
use std::alloc::Global;
use std::collections::BTreeMap;
use std::marker::Model;

/// The words of points, each identified by the position of its variable and its entries.
#[derive(Drop)]
pub(crate) struct WordMap {
    words: BTreeMap<(usize, ArrayVec<i64, 4>), u64>,
}

impl Model for WordMap {
    ghost use Rattle.std.specs.Prelude.{ℕ, ℤ, List as Items, map};

    ghost Value = { Items ((ℕ × Items ℤ) × ℕ) };

    ghost view = { λ map_of. map (λ e. ((e.0.0, e.0.1.items), e.1)) map_of.words.entries };
}

// The entries of a point, as they are kept.
fn entries_of(point: &Point) -> ArrayVec<i64, 4>
    ensures { result.items ≡ point.now }
{
    let mut entries = ArrayVec::new();
    let numbers = point.as_slice();
    for number in numbers {
        entries.push(*number);
    }
    entries
}

impl WordMap {
    /// No points.
    pub(crate) fn new(alloc: Global) -> WordMap
        ensures { result ≡ [] }
    {
        WordMap {
            words: BTreeMap::new(alloc),
        }
    }

    /// The word of a point, where it has one.
    pub(crate) fn word(&self, place: VariablePlace, point: &Point) -> Option<Word>
        ensures some { IfSome result (λ word.
            word_among self.now place.0 point.now ≡ Some word.bits) }
        ensures none { IfNone result (word_among self.now place.0 point.now ≡ None) }
    {
        let key = (place.0 as usize, entries_of(point));
        match self.words.get(&key) {
            Some(bits) => Some(Word { bits: *bits }),
            None => None,
        }
    }

    /// Gives a point its word, where it has none. Whether it had none.
    pub(crate) fn give(
        &mut self,
        place: VariablePlace,
        point: &Point,
        word: Word,
    ) -> Result<bool, Memory>
        ensures is_new { IfOk result (λ is_new.
            is_new ≡ not (is_some (word_among self.old place.0 point.now))) }
        ensures given { IfOk result (λ is_new. (p : ℕ) (z : Entries)
            → word_among self.new p z ≡ (if is_new && is_at place.0 point.now p z
            then Some word.bits else word_among self.old p z)) }
    {
        let key = (place.0 as usize, entries_of(point));
        if self.words.contains_key(&key) {
            return Ok(false);
        }
        match self.words.insert(key, word.bits) {
            Ok(_) => Ok(true),
            Err(_) => Err(Memory),
        }
    }
}
