//! The shape of a kind: of each of its lanes the modes that some cell of the kind has, and how many selections and windows there
//! is room for.

ghost use Rattle.std.specs.Prelude.{◌≡◌, ◌<◌, ℕ, [], ◌∷◌, ◌++◌, Some, filter, length, map, slice_get, slice_index_or, IfOk, OnOk};
ghost use Rattle.av_kinds.specs.declared.program.CellLanes.{CellLanes};
ghost use Rattle.std.specs.Option.{option_map};
ghost use Rattle.av_kinds.specs.Written.{program_of, lane_of, mode_of};
ghost use Rattle.av_kinds.specs.Programs as programs;
ghost use Rattle.av_kinds.specs.declared.shape.SiteShape.{SiteShape};
ghost use Rattle.av_kinds.specs.inner.Shapes.{mode_shape_of, lane_shape_of};
ghost use Rattle.av_kinds.specs.inner.Shaped as shaped;
ghost use Rattle.av_kinds.specs.inner.Kinds.{selects, lane_counts, counts};

use crate::program::{Inlet, Lane, Mode, Program, ProgramSite, cell_lanes};
use av_base::{List, Memory, Width};
use av_flat::Tree;
use std::alloc::Global;
use std::marker::Model;

/// A place that reads: so many selections, and the last source.
#[derive(Clone, Copy)]
pub(crate) struct SiteShape {
    pub(crate) inlet: Inlet,
    pub(crate) width: Width,
    pub(crate) selections: u32,
}

/// The mode of this number, with so many windows.
#[derive(Drop)]
pub(crate) struct ModeShape<'a> {
    pub(crate) number: usize,
    pub(crate) windows: u32,
    pub(crate) sites: List<SiteShape>,
    pub(crate) tree: &'a Tree,
}

impl<'a> Model for ModeShape<'a> {
    ghost use Rattle.std.specs.Coded.{codes};
    ghost use Rattle.av_flat.specs.contracts.tree.Tree as made;
    ghost use Rattle.av_kinds.specs.inner.Shapes.{ModeShapeMade};

    ghost Value = { ModeShapeMade };

    ghost coded = { Prim.hlevel (codes, made.the_row.coded) };

    ghost view = { λ m.
        record { number = m.number; windows = m.windows; sites = m.sites; tree = m.tree.now } };
}

/// A lane of a kind, with its modes.
#[derive(Drop)]
pub(crate) struct LaneShape<'a> {
    pub(crate) width: Width,
    pub(crate) modes: List<ModeShape<'a>>,
}

impl<'a> Model for LaneShape<'a> {
    ghost use Rattle.std.specs.Coded.{codes};
    ghost use Rattle.av_flat.specs.contracts.tree.Tree as made;
    ghost use Rattle.av_kinds.specs.inner.Shapes.{LaneShapeMade};

    ghost Value = { LaneShapeMade };

    ghost coded = { Prim.hlevel (codes, made.the_row.coded) };

    ghost view = { λ l. record { width = l.width; modes = l.modes } };
}

// The room for selections of a place before, where there is one.
fn selections_before(before: &[SiteShape], k: usize) -> u32
    ensures { result ≡ slice_index_or (map (λ (s : SiteShape). s.selections) before.now) k 0 }
{
    match before.get(k) {
        Some(shape) => shape.selections,
        None => 0,
    }
}

// Places with room for the selections of places before, where there are some, and for their own.
fn site_shapes(
    alloc: Global,
    before: &[SiteShape],
    sites: &[ProgramSite],
) -> Result<List<SiteShape>, Memory>
    ensures { IfOk result (λ shapes. shapes ≡ shaped.site_shapes before.now sites.now) }
{
    let mut shapes = List::new(alloc);
    for (k, site) in sites.iter().enumerate() {
        shapes.push(SiteShape {
            inlet: site.inlet,
            width: site.width,
            selections: selections_before(before, k).max(site.selections.len() as u32),
        })?;
    }
    Ok(shapes)
}

// A mode with room for the windows of one before, where there is one, and for its own.
fn mode_shape<'a>(
    alloc: Global,
    before: Option<&ModeShape<'a>>,
    number: usize,
    mode: &Mode<'a>,
) -> Result<ModeShape<'a>, Memory>
    ensures { IfOk result (λ shape. mode_shape_of shape ≡ shaped.mode_shape_by
        (option_map (λ m. mode_shape_of m.now) before.entry) number (mode_of mode.now)) }
{
    let sites = mode.work.sites.as_slice();
    let own = mode.windows.len() as u32;
    match before {
        Some(shape) => Ok(ModeShape {
            number,
            windows: shape.windows.max(own),
            sites: site_shapes(alloc, shape.sites.as_slice(), sites)?,
            tree: mode.work.tree,
        }),
        None => Ok(ModeShape {
            number,
            windows: own,
            sites: site_shapes(alloc, &[], sites)?,
            tree: mode.work.tree,
        }),
    }
}

// The modes of a lane, with room for those before.
fn mode_shapes<'a>(
    alloc: Global,
    before: &[ModeShape<'a>],
    modes: &[Mode<'a>],
) -> Result<List<ModeShape<'a>>, Memory>
    ensures { IfOk result (λ shapes. map mode_shape_of shapes
        ≡ shaped.mode_shapes (map mode_shape_of before.now) 0 (map mode_of modes.now)) }
{
    let mut shapes = List::new(alloc);
    for (number, mode) in modes.iter().enumerate() {
        shapes.push(mode_shape(alloc, before.get(number), number, mode)?)?;
    }
    Ok(shapes)
}

// A lane with room for those before.
fn lane_shape<'a>(
    alloc: Global,
    before: Option<&LaneShape<'a>>,
    lane: &Lane<'a>,
) -> Result<LaneShape<'a>, Memory>
    ensures { IfOk result (λ shape. lane_shape_of shape ≡ shaped.lane_shape_by
        (option_map (λ m. lane_shape_of m.now) before.entry) (lane_of lane.now)) }
{
    match before {
        Some(shape) => Ok(LaneShape {
            width: lane.width,
            modes: mode_shapes(alloc, shape.modes.as_slice(), lane.modes.as_slice())?,
        }),
        None => Ok(LaneShape {
            width: lane.width,
            modes: mode_shapes(alloc, &[], lane.modes.as_slice())?,
        }),
    }
}

// The lanes of a cell, with room for those of cells before, where there are some.
fn lane_shapes<'a>(
    alloc: Global,
    before: &[LaneShape<'a>],
    lanes: &[Lane<'a>],
) -> Result<List<LaneShape<'a>>, Memory>
    ensures { IfOk result (λ shapes. map lane_shape_of shapes
        ≡ shaped.lane_shapes (map lane_shape_of before.now) (map lane_of lanes.now)) }
{
    let mut shapes = List::new(alloc);
    for (k, lane) in lanes.iter().enumerate() {
        shapes.push(lane_shape(alloc, before.get(k), lane)?)?;
    }
    Ok(shapes)
}

// The same mode, in memory of its own.
fn copied<'a>(alloc: Global, mode: &ModeShape<'a>) -> Result<ModeShape<'a>, Memory>
    ensures { IfOk result (λ copy. copy ≡ mode.now) }
{
    let mut sites = List::new(alloc);
    for site in mode.sites.as_slice() {
        sites.push(*site)?;
    }
    Ok(ModeShape {
        number: mode.number,
        windows: mode.windows,
        sites,
        tree: mode.tree,
    })
}

// The same mode behind others, where it has a window.
fn add_used<'a>(
    alloc: Global,
    mode: &ModeShape<'a>,
    modes: &mut List<ModeShape<'a>>,
) -> Result<(), Memory>
    ensures { OnOk result (map mode_shape_of modes.new
        ≡ map mode_shape_of modes.old ++ filter shaped.is_used (mode_shape_of mode.now ∷ [])) }
{
    if mode.windows > 0 {
        modes.push(copied(alloc, mode)?)
    } else {
        Ok(())
    }
}

// The modes of a lane that have a window.
fn used<'a>(alloc: Global, lane: &LaneShape<'a>) -> Result<LaneShape<'a>, Memory>
    ensures { IfOk result (λ shape. lane_shape_of shape ≡ shaped.used (lane_shape_of lane.now)) }
{
    let mut modes = List::new(alloc);
    for mode in lane.modes.as_slice() {
        add_used(alloc, mode, &mut modes)?;
    }
    Ok(LaneShape {
        width: lane.width,
        modes,
    })
}

// Room for the lanes of one more cell.
fn with_cell<'a>(
    alloc: Global,
    program: &Program<'a>,
    cell: usize,
    before: &[LaneShape<'a>],
) -> Result<List<LaneShape<'a>>, Memory>
    requires program { programs.IsProgram (program_of program.now) }
    requires cell { cell < length program.now.cells }
    ensures { IfOk result (λ shapes. (own : CellLanes) → slice_get program.now.cells cell ≡ Some own
        → map lane_shape_of shapes ≡ shaped.lane_shapes
        (map lane_shape_of before.now) (programs.lanes_of (program_of program.now) own)) }
{
    let own = program.cells.as_slice()[cell];
    lane_shapes(alloc, before, cell_lanes(program, own))
}

// The lanes of a kind with all modes, and room for each of its cells.
fn whole_shape<'a>(
    alloc: Global,
    program: &Program<'a>,
    kind: usize,
) -> Result<List<LaneShape<'a>>, Memory>
    requires { programs.IsProgram (program_of program.now) }
    ensures { IfOk result (λ shapes. map lane_shape_of shapes
        ≡ shaped.shapes_by (program_of program.now) kind [] program.now.cells program.now.kinds) }
{
    let mut shapes = List::new(alloc);
    let kinds = program.kinds.as_slice();
    for cell in 0..kinds.len() {
        if kinds[cell] == kind {
            shapes = with_cell(alloc, program, cell, shapes.as_slice())?;
        }
    }
    Ok(shapes)
}

/// The shape of a kind.
pub(crate) fn kind_shape<'a>(
    alloc: Global,
    program: &Program<'a>,
    kind: usize,
) -> Result<List<LaneShape<'a>>, Memory>
    requires { programs.IsProgram (program_of program.now) }
    ensures { IfOk result (λ shapes.
        map lane_shape_of shapes ≡ shaped.kind_shape (program_of program.now) kind) }
{
    let whole = whole_shape(alloc, program, kind)?;
    let mut shapes = List::new(alloc);
    for lane in whole.as_slice() {
        shapes.push(used(alloc, lane)?)?;
    }
    Ok(shapes)
}

// Whether the mode has a place with a selection.
fn selects(mode: &ModeShape<'_>) -> bool
    ensures { result ≡ selects (mode_shape_of mode.now) }
{
    for site in mode.sites.as_slice() {
        if site.selections > 0 {
            return true;
        }
    }
    false
}

// Whether the lane tests the counter: it has two modes, or one with a selection.
fn lane_counts(lane: &LaneShape<'_>) -> bool
    ensures { result ≡ lane_counts (lane_shape_of lane.now) }
{
    let modes = lane.modes.as_slice();
    if modes.len() > 1 {
        return true;
    }
    for mode in modes {
        if selects(mode) {
            return true;
        }
    }
    false
}

/// Whether a kind of this shape tests the counter.
pub(crate) fn counts(shape: &[LaneShape<'_>]) -> bool
    ensures { result ≡ counts (map lane_shape_of shape.now) }
{
    for lane in shape {
        if lane_counts(lane) {
            return true;
        }
    }
    false
}
