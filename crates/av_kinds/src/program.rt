//! Programs in space and time: what each cell computes at each number of the counter, without names and without wires.

ghost use Rattle.std.specs.Prelude.{◌≡◌, ◌<◌, ◌≤◌, length, map};
ghost use Rattle.av_kinds.specs.Programs.{lanes_of};
ghost use Rattle.av_kinds.specs.Written.{program_of, lane_of};

use av_base::{List, Width};
use av_flat::Tree;
use std::marker::Model;

/// Where a word comes from.
#[derive(Clone, Copy, Debug)]
pub enum WordSource {
    Word(u64),
    /// An input port, by its number.
    Input(usize),
    /// The word of a lane so many cycles before.
    Line { lane: usize, delay: u32 },
}

/// Numbers of the counter, bounds included.
#[derive(Clone, Copy, Debug)]
pub struct Window {
    pub first: u32,
    pub last: u32,
}

/// Up to a number of the counter, this source.
#[derive(Clone, Copy, Debug)]
pub struct Selection {
    pub last: u32,
    pub source: WordSource,
}

/// How the words of a place come into a kind: those of input ports and those of lines at ports of their own, or
/// from a pipeline of the kind itself.
#[derive(Clone, Copy, Debug, PartialEq, Eq)]
pub enum Inlet {
    Inputs,
    Taps,
    /// By its number among the kind's pipelines.
    Pipe(usize),
}

/// What brings the word of a place that reads: the first selection up to whose number the counter is, or the last source.
#[derive(Debug, Drop)]
pub struct ProgramSite {
    pub inlet: Inlet,
    /// Of its words.
    pub width: Width,
    pub selections: List<Selection>,
    pub otherwise: WordSource,
}

/// A tree, and of each place of it that reads what brings the word.
#[derive(Debug, Drop)]
pub struct Work<'a> {
    pub sites: List<ProgramSite>,
    pub tree: &'a Tree,
}

impl<'a> Model for Work<'a> {
    ghost use Rattle.std.specs.Coded.{codes};
    ghost use Rattle.av_flat.specs.contracts.tree.Tree as made;
    ghost use Rattle.av_kinds.specs.Written.{WorkMade};

    ghost Value = { WorkMade };

    ghost coded = { Prim.hlevel (codes, made.the_row.coded) };

    ghost view = { λ w. record { sites = w.sites; tree = w.tree.now } };
}

/// In these windows, this work.
#[derive(Debug, Drop)]
pub struct Mode<'a> {
    pub windows: List<Window>,
    pub work: Work<'a>,
}

impl<'a> Model for Mode<'a> {
    ghost use Rattle.std.specs.Coded.{codes};
    ghost use Rattle.av_flat.specs.contracts.tree.Tree as made;
    ghost use Rattle.av_kinds.specs.Written.{ModeMade};

    ghost Value = { ModeMade };

    ghost coded = { Prim.hlevel (codes, made.the_row.coded) };

    ghost view = { λ m. record { windows = m.windows; work = m.work } };
}

/// A lane of a cell: the value of the cell, or one of its pipelines.
#[derive(Debug, Drop)]
pub struct Lane<'a> {
    /// The number of its cell.
    pub home: u32,
    /// 0 for the cell's value, above 0 for its pipelines.
    pub rank: usize,
    /// Of its words.
    pub width: Width,
    pub modes: List<Mode<'a>>,
    /// The greatest delay at which it is read.
    pub length: u32,
}

impl<'a> Model for Lane<'a> {
    ghost use Rattle.std.specs.Coded.{codes};
    ghost use Rattle.av_flat.specs.contracts.tree.Tree as made;
    ghost use Rattle.av_kinds.specs.Written.{LaneMade};

    ghost Value = { LaneMade };

    ghost coded = { Prim.hlevel (codes, made.the_row.coded) };

    ghost view = { λ l. record {
      home = l.home;
      rank = l.rank;
      width = l.width;
      modes = l.modes;
      length = l.length;
    } };
}

/// The lanes of a cell by their numbers: its pipelines from the first on, and then its value.
#[derive(Clone, Copy, Debug)]
pub struct CellLanes {
    pub first: usize,
    pub value: usize,
}

/// A whole array.
#[derive(Debug, Drop)]
pub struct Program<'a> {
    /// The widths of its input ports.
    pub inputs: List<Width>,
    /// Those of one cell stand together.
    pub lanes: List<Lane<'a>>,
    pub cells: List<CellLanes>,
    /// Of each cell the number of its kind.
    pub kinds: List<usize>,
    /// Of each output port its lane.
    pub outputs: List<usize>,
    /// A number above all ranks.
    pub stride: usize,
}

impl<'a> Model for Program<'a> {
    ghost use Rattle.std.specs.Coded.{codes};
    ghost use Rattle.av_flat.specs.contracts.tree.Tree as made;
    ghost use Rattle.av_kinds.specs.Written.{ProgramMade};

    ghost Value = { ProgramMade };

    ghost coded = { Prim.hlevel (codes, made.the_row.coded) };

    ghost view = { λ p. record {
      inputs = p.inputs;
      lanes = p.lanes;
      cells = p.cells;
      kinds = p.kinds;
      outputs = p.outputs;
      stride = p.stride;
    } };
}

/// The lanes of a cell.
pub(crate) fn cell_lanes<'p, 'a>(program: &'p Program<'a>, own: CellLanes) -> &'p [Lane<'a>]
    requires bounds { own.first ≤ own.value }
    requires most { own.value < length program.now.lanes }
    ensures { map lane_of result.now ≡ lanes_of (program_of program.now) own }
{
    &program.lanes.as_slice()[own.first..own.value + 1]
}
