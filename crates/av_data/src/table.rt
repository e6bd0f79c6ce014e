ghost use Rattle.std.specs.Prelude.{◌≤◌, ◌<◌, ◌++◌, length, All, decimal, IsErr, OnOk, OnErr};
ghost use Rattle.std.specs.List.{flat_map};
ghost use Rattle.av_base.specs.Outside.{Adds, AddsPrefix, HasRisen};
ghost use Rattle.av_page.specs.Pages.{Puts};
ghost use Rattle.av_flat.specs.Trees.{view_system};
ghost use Rattle.av_flat.specs.Nodes.{nodes};
ghost use Rattle.av_space.specs.Arrays.{IsArrayOf};
ghost use Rattle.av_data.specs.Tables.{named_cell_line, cell_lines, listed_line, totals_line, table_text};

use av_base::{Sink, WriteFault};
use av_flat::{Flat, Node, Timed, Var, variable_of};
use av_net::Entry;
use av_page::Page;
use av_space::{Cell, Cells};
use av_vtext::{write_entry, write_point};

/// Writes the table of an array: a line for each cell, as `cell 1 s (1)`, the lines of the listing, as `in X (0) i0 0` and
/// `at Y (0) o0 0`, and the totals of cycles, cells, registers of delay lines and links. It takes no memory.
pub fn write_table<K: Sink>(timed: &Timed, cells: &Cells, sink: &mut K) -> Result<(), WriteFault>
    requires array { IsArrayOf timed.now cells.now }
    ensures added { OnOk result
        (Adds (K.state sink.old).held (K.state sink.new).held (table_text timed.now cells.now)) }
    ensures fault { IsErr result → HasRisen (K.state sink.old).faults (K.state sink.new).faults }
    ensures front { OnErr result (AddsPrefix
        (K.state sink.old).held (K.state sink.new).held (table_text timed.now cells.now)) }
    ensures later { (K.state sink.old).faults ≤ (K.state sink.new).faults }
{
    let mut page = Page::new();
    write_lines(&mut page, sink, timed, cells);
    page.finish(sink)
}

// The whole text.
fn write_lines<K: Sink>(page: &mut Page, sink: &mut K, timed: &Timed, cells: &Cells)
    requires array { IsArrayOf timed.now cells.now }
    ensures { Puts (K.state sink.old)
        (K.state sink.new) page.old page.new (table_text timed.now cells.now) }
{
    write_cells(page, sink, &timed.flat, cells.cells.as_slice());
    write_entries(page, sink, "in", cells.listing.ins.as_slice());
    write_entries(page, sink, "at", cells.listing.ats.as_slice());
    write_totals(page, sink, cells);
}

// A line for each cell.
fn write_cells<K: Sink>(page: &mut Page, sink: &mut K, flat: &Flat, cells: &[Cell])
    requires { All (λ c. c.node < length (nodes (view_system flat.now))) cells.now }
    ensures { Puts (K.state sink.old) (K.state sink.new) page.old page.new
        (cell_lines (nodes (view_system flat.now)) 0 cells.now) }
{
    for k in 0..cells.len() {
        let var = variable_of(flat, Node(cells[k].node as usize));
        write_cell(page, sink, var, k, &cells[k]);
    }
}

fn write_cell<K: Sink>(page: &mut Page, sink: &mut K, var: &Var, number: usize, cell: &Cell)
    ensures { Puts (K.state sink.old)
        (K.state sink.new) page.old page.new (named_cell_line var.now.name number cell.now) }
{
    page.put(sink, "cell ");
    page.put_number(sink, number);
    page.put(sink, " ");
    page.put(sink, var.name.as_str());
    page.put(sink, " ");
    write_point(page, sink, &cell.at);
    page.put(sink, "\n");
}

fn write_entries<K: Sink>(page: &mut Page, sink: &mut K, word: &str, entries: &[Entry])
    ensures { Puts (K.state sink.old)
        (K.state sink.new) page.old page.new (flat_map (listed_line word.now) entries.now) }
{
    for entry in entries {
        write_listed(page, sink, word, entry);
    }
}

fn write_listed<K: Sink>(page: &mut Page, sink: &mut K, word: &str, entry: &Entry)
    ensures { Puts (K.state sink.old)
        (K.state sink.new) page.old page.new (listed_line word.now entry.now) }
{
    write_entry(page, sink, word, entry);
    page.put(sink, "\n");
}

/// Puts the line of the totals on the page.
pub fn write_totals<K: Sink>(page: &mut Page, sink: &mut K, cells: &Cells)
    ensures { Puts (K.state sink.old) (K.state sink.new) page.old page.new (totals_line cells.now) }
{
    write_total(page, sink, "cycles ", cells.cycles as usize);
    write_total(page, sink, " cells ", cells.cells.as_slice().len());
    write_total(page, sink, " delays ", cells.delays as usize);
    write_total(page, sink, " links ", cells.links.as_slice().len());
    page.put(sink, "\n");
}

fn write_total<K: Sink>(page: &mut Page, sink: &mut K, name: &str, number: usize)
    ensures { Puts (K.state sink.old)
        (K.state sink.new) page.old page.new (name.now ++ decimal number) }
{
    page.put(sink, name);
    page.put_number(sink, number);
}
