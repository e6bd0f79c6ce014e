//! The words that inputs are given.

ghost use Rattle.std.specs.Prelude.{◌≡◌, ◌<◌, length, Some, None, IfSome, IfNone};
ghost use Rattle.std.specs.List.{position};
ghost use Rattle.std.specs.Str.{bytes_eq};
ghost use Rattle.av_data.specs.Inputs.{words_of};

use crate::word_map::WordMap;
use av_base::{List, Name, Point, Word};
use av_flat::VariablePlace;
use std::marker::Model;

// The first place of a name.
fn place_of(names: &[Name], name: &Name) -> Option<usize>
    ensures place { result ≡ position (bytes_eq name.now) names.now }
    ensures within { IfSome result (λ place. place < length names.now) }
{
    names
        .iter()
        .position(|known| name.as_str() == known.as_str())
}

/// The words of the points of a system's inputs, which contracts see as a finite map from points to words.
#[derive(Drop)]
pub struct Inputs {
    /// The names of the system's variables, in order.
    pub(crate) names: List<Name>,
    /// The words of points, by the places of their variables.
    pub(crate) words: WordMap,
}

impl Model for Inputs {
    ghost use Rattle.av_data.specs.Inputs.{InputWords};

    ghost Value = { InputWords };

    ghost view = { λ inputs. record { names = inputs.names; words = inputs.words } };
}

impl Inputs {
    /// The word of a point of the input with this name, or `None` where the map has no such point. It takes no memory.
    pub fn word(&self, variable: &Name, point: &Point) -> Option<Word>
        ensures some { IfSome result (λ word.
            words_of self.now variable.now point.now ≡ Some word.bits) }
        ensures none { IfNone result (words_of self.now variable.now point.now ≡ None) }
    {
        // So few variables that 32 bits number them.
        let _most = self.names.len();
        let place = place_of(self.names.as_slice(), variable)?;
        self.words.word(VariablePlace(place as u32), point)
    }
}
