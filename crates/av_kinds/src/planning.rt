ghost use Rattle.std.specs.Prelude.{◌≡◌, ◌≤◌, ◌^◌, length, map, IfOk};
ghost use Rattle.std.specs.List.{list_any, AllByRecursion};
ghost use Rattle.av_kinds.specs.Programs.{IsProgram};
ghost use Rattle.av_kinds.specs.Written.{program_of};
ghost use Rattle.av_kinds.specs.Counters.{IsCounter};
ghost use Rattle.av_kinds.specs.Netlists.{AreNetlistsOf};
ghost use Rattle.av_kinds.specs.Forms.{AreFormedBy};
ghost use Rattle.av_kinds.specs.inner.Shapes.{lane_shape_of};
ghost use Rattle.av_kinds.specs.inner.Kinds.{counts};
ghost use Rattle.av_kinds.specs.inner.Modules.{AreShapesOf, AreKindShapes, IsKindCount, IsSmallKind, kinds_by, instances_by};

use crate::counter::Counter;
use crate::instance::instance;
use crate::kind::kind;
use crate::program::Program;
use crate::shape::{LaneShape, counts, kind_shape};
use crate::top::top;
use av_base::{List, Memory};
use av_net::{CellKind, Instance, Module};
use std::alloc::Global;

/// The modules of a program, and its instances.
#[derive(Debug, Drop)]
pub struct Modules {
    pub kinds: List<CellKind>,
    pub top: Module,
    pub instances: List<Instance>,
}

// How many kinds there are: they are numbered from 0.
fn kind_count(program: &Program<'_>) -> usize
    requires { IsProgram (program_of program.now) }
    ensures { IsKindCount program.now.kinds result }
{
    prove!(program.kinds.len() <= 1 << 30);
    let mut count: usize = 0;
    for kind in program.kinds.as_slice() {
        count = count.max(*kind + 1);
    }
    count
}

// The shapes of the kinds.
fn shapes<'a>(alloc: Global, program: &Program<'a>) -> Result<List<List<LaneShape<'a>>>, Memory>
    requires { IsProgram (program_of program.now) }
    ensures { IfOk result (λ shapes.
        AreShapesOf (program_of program.now) (map (map lane_shape_of) shapes)) }
{
    let mut shapes = List::new(alloc);
    for number in 0..kind_count(program) {
        shapes.push(kind_shape(alloc, program, number)?)?;
    }
    Ok(shapes)
}

// A kind for each shape.
fn kinds(alloc: Global, shapes: &[List<LaneShape<'_>>]) -> Result<List<CellKind>, Memory>
    requires { AreKindShapes (map (map lane_shape_of) shapes.now) }
    ensures are { IfOk result (λ kinds. kinds ≡ kinds_by 0 (map (map lane_shape_of) shapes.now)) }
    ensures small { IfOk result (λ kinds. AllByRecursion IsSmallKind kinds) }
    ensures few { IfOk result (λ kinds. length kinds ≤ 2 ^ 30) }
{
    let mut kinds = List::new(alloc);
    for (number, shape) in shapes.iter().enumerate() {
        kinds.push(kind(alloc, number, shape.as_slice())?)?;
    }
    prove!(kinds.len() <= 1 << 30);
    Ok(kinds)
}

// Whether one of them tests the counter.
fn some_counts(shapes: &[List<LaneShape<'_>>]) -> bool
    ensures { result ≡ list_any counts (map (map lane_shape_of) shapes.now) }
{
    for shape in shapes {
        if counts(shape.as_slice()) {
            return true;
        }
    }
    false
}

// An instance for each cell.
fn instances(
    alloc: Global,
    counter: Counter,
    program: &Program<'_>,
    shapes: &List<List<LaneShape<'_>>>,
) -> Result<List<Instance>, Memory>
    requires program { IsProgram (program_of program.now) }
    requires shapes { AreShapesOf (program_of program.now) (map (map lane_shape_of) shapes.now) }
    ensures { IfOk result (λ instances. instances ≡ instances_by counter (program_of program.now)
        (map (map lane_shape_of) shapes.now) 0 program.now.cells program.now.kinds) }
{
    prove!(shapes.len() <= 1 << 30);
    let mut instances = List::new(alloc);
    for (cell, number) in program.kinds.as_slice().iter().enumerate() {
        let shape = shapes.as_slice()[*number].as_slice();
        let own = instance(alloc, counter, program, shape, cell, *number as u32)?;
        instances.push(own)?;
    }
    Ok(instances)
}

// The modules of a program whose kinds have these shapes.
fn modules_over(
    alloc: Global,
    counter: Counter,
    program: &Program<'_>,
    shapes: &List<List<LaneShape<'_>>>,
) -> Result<Modules, Memory>
    requires counter { IsCounter counter }
    requires program { IsProgram (program_of program.now) }
    requires shapes { AreShapesOf (program_of program.now) (map (map lane_shape_of) shapes.now) }
    ensures netlists { IfOk result (AreNetlistsOf counter (program_of program.now)) }
    ensures form { IfOk result (AreFormedBy counter (program_of program.now)) }
{
    let kinds = kinds(alloc, shapes.as_slice())?;
    let instances = instances(alloc, counter, program, shapes)?;
    let counting = some_counts(shapes.as_slice());
    let top = top(alloc, counter, program, counting)?;
    Ok(Modules {
        kinds,
        top,
        instances,
    })
}

/// The modules of a program whose cells choose by the counter.
pub fn modules_of(alloc: Global, counter: Counter, program: &Program<'_>) -> Result<Modules, Memory>
    requires counter { IsCounter counter }
    requires program { IsProgram (program_of program.now) }
    ensures netlists { IfOk result (AreNetlistsOf counter (program_of program.now)) }
    ensures form { IfOk result (AreFormedBy counter (program_of program.now)) }
{
    let shapes = shapes(alloc, program)?;
    modules_over(alloc, counter, program, &shapes)
}
