//! Which of the things that are found stands first in the text.

ghost use Rattle.std.specs.Prelude.{◌≡◌, option_map};
ghost use Rattle.av_base.specs.declared.place.Place.{Place as PlaceMade};
ghost use Rattle.av_names.specs.Found as first;

use av_base::{Name, Place};

/// Something with a place in the text, by which the first of several is chosen.
pub(crate) trait HasPlace: Copy {
    /// What definitions see of it.
    ghost Value: { Type 0 };

    ghost value: { Self → Value };

    ghost place_of: { Value → PlaceMade };

    fn place(&self) -> Place
        ensures { result ≡ place_of (value self.now) };
}

/// A name with the place that a fault tells of it.
#[derive(Clone, Copy)]
pub(crate) struct Found<'a> {
    pub(crate) name: &'a Name,
    pub(crate) place: Place,
}

impl HasPlace for Found<'_> {
    ghost use Rattle.av_names.specs.Found.{Found as FoundSeen};
    ghost use Rattle.av_names.specs.inner.Seen.{found};

    ghost Value = { FoundSeen };

    ghost value = { found };

    ghost place_of = { λ f. f.place };

    fn place(&self) -> Place {
        self.place
    }
}

impl HasPlace for Place {
    ghost Value = { PlaceMade };

    ghost value = { λ place. place };

    ghost place_of = { λ place. place };

    fn place(&self) -> Place {
        *self
    }
}

/// Whether the first place comes before the second.
fn is_before(left: Place, right: Place) -> bool
    ensures { result ≡ first.is_before left right }
{
    left.line < right.line || (left.line == right.line && left.column < right.column)
}

/// The one that stands first; the left one of two at one place.
pub(crate) fn sooner<P: HasPlace>(left: Option<P>, right: Option<P>) -> Option<P>
    ensures { option_map P.value result
        ≡ first.sooner P.place_of (option_map P.value left) (option_map P.value right) }
{
    match (left, right) {
        (None, _) => right,
        (_, None) => left,
        (Some(a), Some(b)) => {
            if is_before(b.place(), a.place()) {
                Some(b)
            } else {
                Some(a)
            }
        }
    }
}
