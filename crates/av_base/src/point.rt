ghost use Rattle.std.specs.Prelude.{◌≡◌, ◌≤◌, length};

use arrayvec::ArrayVec;
use std::marker::Model;

/// A whole point of at most four indices. Contracts see the list of its entries.
#[derive(Clone, Debug, PartialEq, Eq, Drop)]
pub struct Point {
    entries: ArrayVec<i64, 4>,
}

impl Model for Point {
    ghost use Rattle.std.specs.Prelude.{ℤ, List as Items};

    ghost Value = { Items ℤ };

    ghost view = { λ p. p.entries.items };

    ghost inverse = { λ v. record { entries = record { items = v } } };
}

impl Point {
    /// The point with these entries.
    pub fn from_slice(entries: &[i64]) -> Point
        requires { length entries.now ≤ 4 }
        ensures { result ≡ entries.now }
    {
        let mut point = ArrayVec::new();
        for entry in entries {
            point.push(*entry);
        }
        Point { entries: point }
    }

    /// The entries, in order.
    pub fn as_slice(&self) -> &[i64]
        ensures value { result.now ≡ self.now }
        ensures fits { length result.now ≤ 4 }
    {
        self.entries.as_slice()
    }
}
