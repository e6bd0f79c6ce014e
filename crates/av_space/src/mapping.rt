//! The array of a scheduled system.

ghost use Rattle.std.specs.Prelude.{◌≡◌, ◌≤◌, ◌^◌, length, IfOk, IfErr};
ghost use Rattle.av_flat.specs.Legal.{IsLegal};
ghost use Rattle.av_space.specs.declared.fault.SpaceFault.{SpaceFault as Fault};
ghost use Rattle.av_space.specs.declared.fault.SpaceFault.TheVariants as fault;
ghost use Rattle.av_space.specs.SpaceFaults.{IsSpaceFault};
ghost use Rattle.av_space.specs.Whole.{IsWhole};
ghost use Rattle.av_space.specs.Layouts.{IsLayout};
ghost use Rattle.av_space.specs.Listings.{AreAtLines};
ghost use Rattle.av_space.specs.Ports.{output_cells};
ghost use Rattle.av_space.specs.inner.Quantified.{AreWithin, IsLaidOut, LinksOf, delays_of};
ghost use Rattle.av_space.specs.inner.Scheduled.{system_of, placings_of, cells_of};

use crate::cells::{Cell, Cells, Link};
use crate::fault::SpaceFault;
use crate::laying::lay_out;
use crate::layout::Layout;
use crate::lines::delay_count;
use crate::linking::links;
use crate::operators::operators;
use crate::ports::input_ports;
use crate::scheduled::ScheduledSystem;
use crate::shown::{at_lines, output_cells};
use crate::timed_nodes::TimedNodes;
use av_base::limits::{MOST_DELAYS, MOST_LINKS, MOST_OPERATORS};
use av_base::{List, Memory};
use av_flat::Timed;
use av_net::{Entry, Listing};
use std::alloc::Global;

// The registers of the delay lines, where these, the links and the operators are within their limits.
fn within_limits(
    alloc: Global,
    scheduled: &ScheduledSystem<'_>,
    links: &[Link],
) -> Result<u32, SpaceFault>
    requires { LinksOf scheduled.now links.now }
    ensures delays { IfOk result (λ n. n ≡ delays_of scheduled.now links.now) }
    ensures within { IfOk result (λ n. AreWithin scheduled.now links.now) }
    ensures refused { IfErr result (IsSpaceFault scheduled.now.timed) }
{
    let delays = delay_count(alloc, scheduled, links)?;
    if delays > MOST_DELAYS {
        return Err(SpaceFault::Delays(delays));
    }
    if links.len() > MOST_LINKS {
        return Err(SpaceFault::Links(links.len() as u128));
    }
    let operators = operators(alloc, scheduled)?;
    if operators > MOST_OPERATORS {
        return Err(SpaceFault::Operators(operators));
    }
    Ok(delays as u32)
}

// The numbers of the cells of outputs, and where each computed point is shown.
#[derive(Drop)]
struct Shown {
    outputs: List<u32>,
    ats: List<Entry>,
}

// The outputs of a layout, and its lines of computed points.
fn show_points(alloc: Global, scheduled: &ScheduledSystem<'_>) -> Result<Shown, Memory>
    ensures outputs { IfOk result (λ made.
        made.outputs ≡ output_cells (system_of scheduled.now) (cells_of scheduled.now)) }
    ensures lines { IfOk result (λ made. AreAtLines (system_of scheduled.now)
        (placings_of scheduled.now) (cells_of scheduled.now) made.outputs made.ats) }
    ensures few { IfOk result (λ made. length made.outputs ≤ 2 ^ 64) }
{
    let outputs = output_cells(alloc, scheduled)?;
    let ats = at_lines(alloc, scheduled, outputs.as_slice())?;
    Ok(Shown { outputs, ats })
}

// The same cells, in memory of their own.
fn copied_cells(alloc: Global, cells: &[Cell]) -> Result<List<Cell>, Memory>
    ensures { IfOk result (λ copy. copy ≡ cells.now) }
{
    let mut copy = List::new(alloc);
    for cell in cells {
        copy.push(cell.copied())?;
    }
    Ok(copy)
}

// The array of a layout, with these links and so many registers.
fn laid_out(
    alloc: Global,
    scheduled: &ScheduledSystem<'_>,
    links: List<Link>,
    delays: u32,
) -> Result<Cells, Memory>
    requires links { LinksOf scheduled.now links }
    requires delays { delays ≡ delays_of scheduled.now links }
    ensures { IfOk result (IsLaidOut scheduled.now.timed) }
{
    let ports = input_ports(alloc, scheduled)?;
    let shown = show_points(alloc, scheduled)?;
    let cells = copied_cells(alloc, scheduled.cells())?;
    Ok(Cells {
        cells,
        links,
        inputs: ports.inputs,
        outputs: shown.outputs,
        listing: Listing {
            ins: ports.ins,
            ats: shown.ats,
        },
        cycles: scheduled.cycles(),
        delays,
    })
}

// The array of a system with its layout, where its quantities are within their limits.
fn mapped(alloc: Global, scheduled: &ScheduledSystem<'_>) -> Result<Cells, SpaceFault>
    ensures whole { IfOk result (IsWhole scheduled.now.timed) }
    ensures complete { IfOk result (λ a. (f : Fault)
        → IsSpaceFault scheduled.now.timed f → f ≡ fault.Memory) }
    ensures refused { IfErr result (IsSpaceFault scheduled.now.timed) }
{
    let links = links(alloc, scheduled)?;
    let delays = within_limits(alloc, scheduled, links.as_slice())?;
    let cells = laid_out(alloc, scheduled, links, delays)?;
    Ok(cells)
}

/// What `map` gives, from the layout of the system, which stays at hand for those who build from the array.
pub fn map_layout(alloc: Global, timed: &Timed, layout: &Layout) -> Result<Cells, SpaceFault>
    requires legal { IsLegal timed.now }
    requires layout { IsLayout timed.now layout.now }
    ensures whole { IfOk result (IsWhole timed.now) }
    ensures complete { IfOk result (λ a. (f : Fault)
        → IsSpaceFault timed.now f → f ≡ fault.Memory) }
    ensures refused { IfErr result (IsSpaceFault timed.now) }
{
    let nodes = TimedNodes::new(alloc, timed)?;
    let scheduled = ScheduledSystem::new(&nodes, layout);
    mapped(alloc, &scheduled)
}

/// The array of a legal timed system (Rao, Kailath 1988): cells by node and coordinates, links by consumer, tap site and cycle,
/// ports and listing.
///
/// The quantities are counted before any line is made, and the first that is above its limit is told.
pub fn map(alloc: Global, timed: &Timed) -> Result<Cells, SpaceFault>
    requires { IsLegal timed.now }
    ensures whole { IfOk result (IsWhole timed.now) }
    ensures complete { IfOk result (λ a. (f : Fault)
        → IsSpaceFault timed.now f → f ≡ fault.Memory) }
    ensures refused { IfErr result (IsSpaceFault timed.now) }
{
    let layout = lay_out(alloc, timed)?;
    map_layout(alloc, timed, &layout)
}
