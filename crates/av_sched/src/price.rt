//! What linear parts cost: the first two numbers that choices are compared by.

ghost use Rattle.std.specs.Prelude.{◌≡◌, ◌+◌, ◌≤◌, ◌<◌, ◌^◌, ◌⊎◌, All, IsTrue};
ghost use Rattle.av_sched.specs.inner.Walk.{IsAbove};

use av_base::Point;

/// Broadcasts that are not moved, and the sum of absolute entries.
#[derive(Clone, Copy, Debug)]
pub struct Price {
    pub left: u128,
    pub size: u128,
}

// A feasible choice, and what it costs.
#[derive(Debug, Drop)]
pub(crate) struct PricedChoice {
    pub parts: Vec<Point>,
    pub price: Price,
}

/// What nodes and one more cost together.
pub fn with_more(spent: Price, more: Price) -> Price
    requires left { spent.left + more.left < 2 ^ 128 }
    requires size { spent.size + more.size < 2 ^ 128 }
    ensures left { result.left ≡ spent.left + more.left }
    ensures size { result.size ≡ spent.size + more.size }
{
    Price {
        left: spent.left + more.left,
        size: spent.size + more.size,
    }
}

/// No more than both together.
pub fn at_least(a: Price, b: Price) -> Price
    ensures left { result.left ≤ a.left + b.left }
    ensures size { result.size ≤ a.size + b.size }
{
    Price {
        left: a.left.saturating_add(b.left),
        size: a.size.saturating_add(b.size),
    }
}

/// Of each number no more than any of the prices has.
pub(crate) fn least_of(prices: &[Price]) -> Price
    ensures left { All (λ p. result.left ≤ p.left) prices.now }
    ensures size { All (λ p. result.size ≤ p.size) prices.now }
{
    let mut left = u128::MAX;
    let mut size = u128::MAX;
    for price in prices {
        left = left.min(price.left);
        size = size.min(price.size);
    }
    Price { left, size }
}

/// Whether the first price is above the second.
pub fn is_above(a: Price, b: Price) -> bool
    ensures { IsTrue result → (b.left < a.left) ⊎ ((b.left ≤ a.left) × (b.size < a.size)) }
{
    if a.left > b.left {
        return true;
    }
    if a.left < b.left {
        return false;
    }
    a.size > b.size
}

/// Whether what was spent and the least of the rest are above the price of the best choice.
pub(crate) fn is_dear(spent: Price, rest: Price, best: &Option<PricedChoice>) -> bool
    ensures { IsTrue result → IsAbove spent rest best.now }
{
    match best {
        None => false,
        Some(found) => is_above(at_least(spent, rest), found.price),
    }
}
