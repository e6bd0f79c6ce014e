//! How the words of places come in, and how wide they are.

ghost use Rattle.std.specs.Prelude.{◌≡◌, None, Contains, IfOk};
ghost use Rattle.av_flat.specs.Trees.{view, view_system};
ghost use Rattle.av_history.specs.Widths.{read_width};
ghost use Rattle.av_build.specs.inner.Blueprints.{IsBlueprint, seen};
ghost use Rattle.av_build.specs.inner.Built.{IsPortWidth, HasPorts};
ghost use Rattle.av_build.specs.inner.Lanes.{HasVariable, is_reference_at, HasReference, IsReferenceIn, HasPortPlace, IsPortPlace};
ghost use Rattle.av_build.specs.inner.Programmed.{inlet_by};

use crate::blueprint::{Blueprint, Pieces};
use av_base::{List, Memory, Width};
use av_depend::is_computed_at;
use av_flat::{Flat, SiteNumber, Tree, VariablePlace};
use av_kinds::Inlet;
use av_space::{InPort, Site};
use std::alloc::Global;

/// The width of the words that a place of an equation reads; a pick reads words as wide as those of the equation.
pub(crate) fn width_read(flat: &Flat, own: Width, tree: &Tree) -> Width
    requires { HasVariable (view_system flat.now) (view tree.now) }
    ensures { result.bits ≡ read_width (view_system flat.now) own.bits None (view tree.now) }
{
    match tree {
        Tree::Ref { var, .. } => flat.vars.as_slice()[*var as usize].width,
        _ => own,
    }
}

/// How the words that a place reads itself come in.
pub(crate) fn inlet_of(flat: &Flat, tree: &Tree) -> Inlet
    ensures { result ≡ inlet_by (view_system flat.now) (λ j. j) None (view tree.now) }
{
    match tree {
        Tree::Ref { var, .. } => {
            if is_computed_at(flat, VariablePlace(*var)) {
                Inlet::Taps
            } else {
                Inlet::Inputs
            }
        }
        _ => Inlet::Taps,
    }
}

// Whether the place is the reference with this number.
fn is_reference(site: &Site<'_>, number: SiteNumber) -> bool
    ensures { result ≡ is_reference_at number.0 site.now.place.site (view site.now.place.tree) }
{
    match site.place.tree {
        Tree::Ref { .. } => site.place.site.0 == number.0,
        _ => false,
    }
}

// The reference with this number, among the places of a piece.
fn reference_at<'a, 'b>(sites: &'b [Site<'a>], number: SiteNumber) -> &'b Site<'a>
    requires { HasReference sites.now number.0 }
    ensures { IsReferenceIn sites.now number.0 result.now }
{
    for site in sites {
        if is_reference(site, number) {
            return site;
        }
    }
    unreachable!()
}

// The reference of a port, among the pieces on its cell.
fn reference_of<'a, 'b>(pieces: &'b Pieces<'a>, port: &InPort) -> &'b Site<'a>
    requires { HasPortPlace pieces.now port.now }
    ensures { IsPortPlace pieces.now port.now result.now }
{
    let spots = pieces.spots.as_slice();
    for k in 0..spots.len() {
        if spots[k].number == port.piece as usize {
            // As many references stand before it, so that it is sought from its number on.
            let number = port.site as usize;
            return reference_at(
                &pieces.sites.as_slice()[k].as_slice()[number..],
                SiteNumber(port.site),
            );
        }
    }
    unreachable!()
}

impl Blueprint<'_> {
    // The width of the words at a port. Its place is a reference, which has words of its own variable's width: that of the run is only what a
    // pick would be asked with.
    fn port_width(&self, port: &InPort) -> Width
        requires blueprint { IsBlueprint self.now }
        requires port { Contains self.now.array.cells.now.inputs port.now }
        ensures { IsPortWidth (seen self.now.array) port.now result }
    {
        let pieces = &self.cells.as_slice()[port.cell as usize].pieces;
        let site = reference_of(pieces, port);
        let timed = self.array.system();
        width_read(&timed.flat, timed.flat.width, site.place.tree)
    }

    /// The widths of the input ports: those of the variables that are read there.
    pub(crate) fn port_widths(&self, alloc: Global, ports: &[InPort]) -> Result<List<Width>, Memory>
        requires blueprint { IsBlueprint self.now }
        requires ports { ports.now ≡ self.now.array.cells.now.inputs }
        ensures { IfOk result (HasPorts (seen self.now.array)) }
    {
        let mut widths = List::new(alloc);
        for port in ports {
            widths.push(self.port_width(port))?;
        }
        Ok(widths)
    }
}
