//! References to inputs, and where and how they read.

ghost use Rattle.std.specs.Prelude.{◌≡◌, IfOk};
ghost use Rattle.av_depend.specs.SetPoints.{IsPointOf};
ghost use Rattle.av_space.specs.Taps.{helper_at};
ghost use Rattle.av_space.specs.inner.Feeding.{direction_of, is_entered, line_at, IsReadable};

use crate::layout::Slot;
use crate::reading::before;
use crate::tapping::{ReferenceAt, helper_at};
use av_affine::Map;
use av_base::{Memory, Name, Point};
use av_flat::{Helper, Var};
use av_net::Entry;
use av_poly::Poly;
use std::alloc::Global;

/// A reference to an input in a piece.
#[derive(Debug, Drop)]
pub(crate) struct InputSite<'a> {
    /// The set of the piece.
    pub(crate) domain: &'a Poly,
    /// Of its helper, if it has one.
    pub(crate) direction: Option<Point>,
    pub(crate) input: &'a Var,
    pub(crate) map: &'a Map,
}

/// The direction of the helper of a reference.
pub(crate) fn direction_of(helpers: &[Helper], at: ReferenceAt) -> Option<Point>
    ensures { result ≡ direction_of (helper_at helpers.now at.place.0 at.piece at.site.0) }
{
    Some(helper_at(helpers, at)?.direction)
}

impl InputSite<'_> {
    /// Whether the input is read at the point.
    pub(crate) fn is_entered(&self, z: &Point) -> bool
        requires readable { IsReadable self.now.domain.now self.now.direction self.now.map.now }
        requires point { IsPointOf self.now.domain.now z.now }
        ensures { result ≡ is_entered self.now.domain.now self.now.direction z.now }
    {
        if !self.domain.contains(z) {
            return false;
        }
        match &self.direction {
            Some(direction) => !self.domain.contains(&before(z, direction)),
            None => true,
        }
    }

    /// The line of the read at a slot, at the port with this wire.
    pub(crate) fn line(&self, alloc: Global, wire: &Name, slot: &Slot) -> Result<Entry, Memory>
        requires readable { IsReadable self.now.domain.now self.now.direction self.now.map.now }
        requires point { IsPointOf self.now.domain.now slot.now.point }
        ensures { IfOk result (λ line.
            line ≡ line_at wire.now self.now.input.now.name self.now.map.now slot.now) }
    {
        let variable = Name::new(alloc, self.input.name.as_str())?;
        let wire = Name::new(alloc, wire.as_str())?;
        Ok(Entry {
            variable,
            point: self.map.apply(&slot.point),
            wire,
            cycle: slot.cycle,
        })
    }
}
