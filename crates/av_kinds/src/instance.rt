//! The instances of cells: what their kinds' ports take, and what they drive.

ghost use Rattle.std.specs.Prelude.{◌≡◌, ◌<◌, ◌≤◌, ◌+◌, [], ◌∷◌, ◌++◌, if◌then◌else◌, length, map, slice_get, slice_index_or, IfOk, OnOk};
ghost use Rattle.std.specs.List.{AllByRecursion};
ghost use Rattle.av_net.specs.declared.operation.Operand.TheVariants as operand;
ghost use Rattle.av_kinds.specs.Programs.{IsProgram, lanes_of};
ghost use Rattle.av_kinds.specs.Written.{program_of, lane_of, mode_of};
ghost use Rattle.av_kinds.specs.declared.program.CellLanes.{CellLanes};
ghost use Rattle.av_kinds.specs.declared.program.Selection.{Selection};
ghost use Rattle.av_kinds.specs.Names.{labels};
ghost use Rattle.av_kinds.specs.Counters.{counter_name};
ghost use Rattle.av_kinds.specs.inner.Shapes.{mode_shape_of, lane_shape_of, SuitSites, SuitsMode, SuitsLane, SuitLanes};
ghost use Rattle.av_kinds.specs.inner.Instances.{operand_of, words_for, bounds_for, site_operands, sites_operands, windows_for, mode_operands, modes_operands, lanes_operands, outputs_from, cell_operands, instance_by};
ghost use Rattle.av_kinds.specs.inner.Reads.{IsThere, SiteThere, ModeThere, LaneThere};

use crate::counter::{Counter, bound};
use crate::naming::{lane_names, numbered};
use crate::program::{
    CellLanes, Inlet, Lane, Mode, Program, ProgramSite, Selection, Window, WordSource, cell_lanes,
};
use crate::shape::{LaneShape, ModeShape, SiteShape, counts};
use av_base::{List, Memory, Name, Width};
use av_net::{Instance, Operand};
use std::alloc::Global;

// What has the word of a source.
fn operand(
    alloc: Global,
    width: Width,
    program: &Program<'_>,
    source: WordSource,
) -> Result<Operand, Memory>
    requires { IsThere (length program.now.lanes) source }
    ensures { IfOk result (λ a. a ≡ operand_of (labels (program_of program.now)) width source) }
{
    match source {
        WordSource::Word(value) => Ok(Operand::Literal { width, value }),
        WordSource::Input(number) => Ok(Operand::Name(numbered(alloc, "i", number as u128)?)),
        WordSource::Line { lane, delay } => {
            let name = lane_names(program, lane).line(alloc, delay)?;
            Ok(Operand::Name(name))
        }
    }
}

// The source of a selection, or the last one where there is no such selection.
fn source_at(site: &ProgramSite, k: usize) -> WordSource
    ensures { result ≡ slice_index_or
        (map (λ (l : Selection). l.source) site.now.selections) k site.now.otherwise }
{
    match site.selections.as_slice().get(k) {
        Some(selection) => selection.source,
        None => site.otherwise,
    }
}

// The words of a place: its sources, the last one once more for each selection that it has not.
fn add_words(
    alloc: Global,
    program: &Program<'_>,
    width: Width,
    count: u32,
    site: &ProgramSite,
    operands: &mut List<Operand>,
) -> Result<(), Memory>
    requires { SiteThere (length program.now.lanes) site.now }
    ensures { OnOk result (operands.new ≡ operands.old ++ words_for (operand_of
        (labels (program_of program.now)) width) count site.now.selections site.now.otherwise) }
{
    for k in 0..count {
        let source = source_at(site, k as usize);
        operands.push(operand(alloc, width, program, source)?)?;
    }
    operands.push(operand(alloc, width, program, site.otherwise)?)
}

// The bound of a selection, or 0 where there is no such selection.
fn last_at(selections: &[Selection], k: usize) -> u32
    ensures { result ≡ slice_index_or (map (λ (l : Selection). l.last) selections.now) k 0 }
{
    match selections.get(k) {
        Some(selection) => selection.last,
        None => 0,
    }
}

// And its bounds.
fn add_bounds(
    selections: &[Selection],
    count: u32,
    operands: &mut List<Operand>,
) -> Result<(), Memory>
    ensures { OnOk result (operands.new ≡ operands.old ++ bounds_for count selections.now) }
{
    for k in 0..count {
        operands.push(bound(last_at(selections, k as usize)))?;
    }
    Ok(())
}

// What the ports of a place take.
fn add_site(
    alloc: Global,
    program: &Program<'_>,
    shape: SiteShape,
    site: &ProgramSite,
    operands: &mut List<Operand>,
) -> Result<(), Memory>
    requires { SiteThere (length program.now.lanes) site.now }
    ensures { OnOk result (operands.new
        ≡ operands.old ++ site_operands (labels (program_of program.now)) shape site.now) }
{
    match shape.inlet {
        Inlet::Inputs | Inlet::Taps => {
            add_words(
                alloc,
                program,
                shape.width,
                shape.selections,
                site,
                operands,
            )?;
            add_bounds(site.selections.as_slice(), shape.selections, operands)
        }
        Inlet::Pipe(_) => Ok(()),
    }
}

// What the ports of a mode's places take.
fn add_sites(
    alloc: Global,
    program: &Program<'_>,
    shapes: &[SiteShape],
    sites: &[ProgramSite],
    operands: &mut List<Operand>,
) -> Result<(), Memory>
    requires suit { SuitSites shapes.now sites.now }
    requires there { AllByRecursion (SiteThere (length program.now.lanes)) sites.now }
    ensures { OnOk result (operands.new
        ≡ operands.old ++ sites_operands (labels (program_of program.now)) shapes.now sites.now) }
{
    for k in 0..shapes.len() {
        add_site(alloc, program, shapes[k], &sites[k], operands)?;
    }
    Ok(())
}

// A window, or one from 1 to 0 where there is no such window.
fn window_at(windows: &[Window], k: usize) -> Window
    ensures { result ≡ slice_index_or windows.now k (record { first = 1; last = 0 }) }
{
    match windows.get(k) {
        Some(window) => *window,
        None => Window { first: 1, last: 0 },
    }
}

// The bounds of a mode's windows; one that it has not goes from 1 to 0.
fn add_windows(windows: &[Window], count: u32, operands: &mut List<Operand>) -> Result<(), Memory>
    ensures { OnOk result (operands.new ≡ operands.old ++ windows_for count windows.now) }
{
    for k in 0..count {
        let window = window_at(windows, k as usize);
        operands.push(bound(window.first))?;
        operands.push(bound(window.last))?;
    }
    Ok(())
}

// What the ports of a mode take, those of its windows where it is tested.
fn add_mode(
    alloc: Global,
    program: &Program<'_>,
    shape: &ModeShape<'_>,
    mode: &Mode<'_>,
    is_tested: bool,
    operands: &mut List<Operand>,
) -> Result<(), Memory>
    requires suit { SuitsMode (mode_shape_of shape.now) (mode_of mode.now) }
    requires there { ModeThere (length program.now.lanes) (mode_of mode.now) }
    ensures { OnOk result (operands.new ≡ operands.old ++ mode_operands
        (labels (program_of program.now)) is_tested (mode_shape_of shape.now) (mode_of mode.now)) }
{
    let sites = mode.work.sites.as_slice();
    add_sites(alloc, program, shape.sites.as_slice(), sites, operands)?;
    if !is_tested {
        return Ok(());
    }
    add_windows(mode.windows.as_slice(), shape.windows, operands)
}

// What the ports of a lane take.
fn add_lane(
    alloc: Global,
    program: &Program<'_>,
    shape: &LaneShape<'_>,
    lane: &Lane<'_>,
    operands: &mut List<Operand>,
) -> Result<(), Memory>
    requires suit { SuitsLane (lane_shape_of shape.now) (lane_of lane.now) }
    requires there { LaneThere (length program.now.lanes) (lane_of lane.now) }
    ensures { OnOk result (operands.new ≡ operands.old ++ modes_operands (labels
        (program_of program.now)) (lane_shape_of shape.now).modes (lane_of lane.now).modes) }
{
    let shapes = shape.modes.as_slice();
    let modes = lane.modes.as_slice();
    for k in 0..shapes.len() {
        let of = &shapes[k];
        let is_tested = k + 1 < shapes.len();
        add_mode(alloc, program, of, &modes[of.number], is_tested, operands)?;
    }
    Ok(())
}

// What the ports of a cell's lanes take.
fn add_lanes(
    alloc: Global,
    program: &Program<'_>,
    shape: &[LaneShape<'_>],
    lanes: &[Lane<'_>],
    operands: &mut List<Operand>,
) -> Result<(), Memory>
    requires suit { SuitLanes (map lane_shape_of shape.now) (map lane_of lanes.now) }
    requires there { AllByRecursion (LaneThere (length program.now.lanes)) (map lane_of lanes.now) }
    ensures { OnOk result (operands.new ≡ operands.old ++ lanes_operands
        (labels (program_of program.now)) (map lane_shape_of shape.now) (map lane_of lanes.now)) }
{
    for k in 0..shape.len() {
        add_lane(alloc, program, &shape[k], &lanes[k], operands)?;
    }
    Ok(())
}

// The names of so many lanes.
fn lane_outputs(
    alloc: Global,
    program: &Program<'_>,
    first: usize,
    count: usize,
) -> Result<List<Name>, Memory>
    requires { first + count ≤ length program.now.lanes }
    ensures { IfOk result (λ names.
        names ≡ outputs_from (labels (program_of program.now)) first count) }
{
    prove!(program.lanes.len() <= 1 << 30);
    let mut outputs = List::new(alloc);
    for k in 0..count {
        outputs.push(lane_names(program, first + k).value(alloc)?)?;
    }
    Ok(outputs)
}

// The operand of the counter's port, where there is one.
fn counter_operands(alloc: Global, counter: Counter, counts: bool) -> Result<List<Operand>, Memory>
    ensures { IfOk result (λ operands.
        operands ≡ (if counts then operand.Name (counter_name counter) ∷ [] else [])) }
{
    let mut operands = List::new(alloc);
    if !counts {
        return Ok(operands);
    }
    operands.push(Operand::Name(counter.name(alloc)?))?;
    Ok(operands)
}

// What the ports of a cell's kind take.
fn cell_operands(
    alloc: Global,
    counter: Counter,
    program: &Program<'_>,
    shape: &[LaneShape<'_>],
    own: CellLanes,
) -> Result<List<Operand>, Memory>
    requires bounds { own.first ≤ own.value }
    requires most { own.value < length program.now.lanes }
    requires suit { SuitLanes (map lane_shape_of shape.now)
        (lanes_of (program_of program.now) own) }
    requires there { AllByRecursion
        (LaneThere (length program.now.lanes)) (lanes_of (program_of program.now) own) }
    ensures { IfOk result (λ operands.
        operands ≡ cell_operands (labels (program_of program.now)) (counter_name counter)
        (map lane_shape_of shape.now) (lanes_of (program_of program.now) own)) }
{
    let lanes = cell_lanes(program, own);
    let mut operands = counter_operands(alloc, counter, counts(shape))?;
    add_lanes(alloc, program, shape, lanes, &mut operands)?;
    Ok(operands)
}

/// The instance of a cell.
pub(crate) fn instance(
    alloc: Global,
    counter: Counter,
    program: &Program<'_>,
    shape: &[LaneShape<'_>],
    cell: usize,
    kind: u32,
) -> Result<Instance, Memory>
    requires program { IsProgram (program_of program.now) }
    requires cell { cell < length program.now.cells }
    requires suit { (own : CellLanes) → slice_get program.now.cells cell ≡ Some own
        → SuitLanes (map lane_shape_of shape.now) (lanes_of (program_of program.now) own) }
    ensures { IfOk result (λ instance. (own : CellLanes)
        → slice_get program.now.cells cell ≡ Some own
        → instance ≡ instance_by (labels (program_of program.now)) (counter_name counter)
        cell kind own.first (map lane_shape_of shape.now) (lanes_of (program_of program.now) own)) }
{
    let own = program.cells.as_slice()[cell];
    let inputs = cell_operands(alloc, counter, program, shape, own)?;
    Ok(Instance {
        name: numbered(alloc, "u", cell as u128)?,
        kind,
        inputs,
        outputs: lane_outputs(alloc, program, own.first, shape.len())?,
    })
}
