//! A plan by hand: its text, its flat design, and the design that is read back.

ghost use Rattle.std.specs.Prelude.{◌≡◌, [], ◌∷◌, codes, IfOk};
ghost use Rattle.av_net.specs.declared.operation.Symbol.TheVariants.{Add};
ghost use Rattle.av_net.specs.declared.operation.Operand.TheVariants.{Name as Named};
ghost use Rattle.av_net.specs.declared.operation.Operation.TheVariants.{Binary};
ghost use Rattle.av_net.specs.Designs.{IsSoundPlan};
ghost use Rattle.av_verilog_tests.specs.inner.Plans.{two_bits, four_bits, eight_bits, port_of, drive_of, entry_of, instance_of, cell_of, adder, widener, upper_half, kept_sum, sums_top, first_sum, second_sum, wide_sum, sums_instances, sums_listing, sums_plan};

use crate::asserts::assert_held;
use crate::designs::{assert_text, assert_written};
use av_base::{List, MemSink, Memory, Name, Point, Width};
use av_net::{
    CellKind, Drive, Entry, Instance, Listing, Module, Operand, Operation, Plan, Port, Step,
    Symbol, flatten,
};
use av_vtext::write_plan;
use std::alloc::Global;
use std::process::Abort;
use std::test::Fail;

// Two kinds, one of which has two instances, a register, an operand that is a literal, bits of a word and a wider word.
const PLAN: &str = "// alphav 2
// in X () i 0
// at Y (-1) o 2
module add(input [3:0] a, input [3:0] b, output [3:0] v);
  assign v = a + b;
endmodule
module widen(input [3:0] a, output [7:0] v);
  assign v = {{4{a[3:3]}}, a};
endmodule
module t(input clk, input rst, input [3:0] i, output [7:0] o, output [1:0] p);
  wire [3:0] c;
  wire [3:0] d;
  reg [3:0] q;
  add u0 (.a(i), .b(q), .v(c));
  add u1 (.a(c), .b(4'd5), .v(d));
  widen u2 (.a(d), .v(o));
  assign p = q[3:2];
  always @(posedge clk) if (rst) q <= 4'd9; else q <= c;
endmodule
";

const FLAT: &str = "// alphav 1
// in X () i 0
// at Y (-1) o 2
module t(input clk, input rst, input [3:0] i, output [7:0] o, output [1:0] p);
  wire [3:0] c;
  wire [3:0] d;
  wire [3:0] u0_a;
  wire [3:0] u0_b;
  wire [3:0] u0_v;
  wire [3:0] u1_a;
  wire [3:0] u1_b;
  wire [3:0] u1_v;
  wire [3:0] u2_a;
  wire [7:0] u2_v;
  reg [3:0] q;
  assign u0_a = i;
  assign u0_b = q;
  assign u0_v = u0_a + u0_b;
  assign c = u0_v;
  assign u1_a = c;
  assign u1_b = 4'd5;
  assign u1_v = u1_a + u1_b;
  assign d = u1_v;
  assign u2_a = d;
  assign u2_v = {{4{u2_a[3:3]}}, u2_a};
  assign o = u2_v;
  assign p = q[3:2];
  always @(posedge clk) if (rst) q <= 4'd9; else q <= c;
endmodule
";

// ---- parts of a plan

fn one<T: Drop>(alloc: Global, first: T) -> Result<List<T>, Memory>
    ensures { IfOk result (λ list. list ≡ first ∷ []) }
{
    let mut list = List::new(alloc);
    list.push(first)?;
    Ok(list)
}

fn two<T: Drop>(alloc: Global, first: T, second: T) -> Result<List<T>, Memory>
    ensures { IfOk result (λ list. list ≡ first ∷ second ∷ []) }
{
    let mut list = one(alloc, first)?;
    list.push(second)?;
    Ok(list)
}

fn two_wide() -> Width
    ensures { result ≡ two_bits }
{
    Width { bits: 2 }
}

fn four_wide() -> Width
    ensures { result ≡ four_bits }
{
    Width { bits: 4 }
}

fn eight_wide() -> Width
    ensures { result ≡ eight_bits }
{
    Width { bits: 8 }
}

fn port(alloc: Global, name: &str, width: Width) -> Result<Port, Memory>
    ensures { IfOk result (λ port. port ≡ port_of name.now width) }
{
    let name = Name::new(alloc, name)?;
    Ok(Port { name, width })
}

fn one_port(alloc: Global, name: &str, width: Width) -> Result<List<Port>, Memory>
    ensures { IfOk result (λ ports. ports ≡ port_of name.now width ∷ []) }
{
    let first = port(alloc, name, width)?;
    one(alloc, first)
}

fn two_ports(
    alloc: Global,
    name: &str,
    width: Width,
    other: &str,
    wide: Width,
) -> Result<List<Port>, Memory>
    ensures { IfOk result (λ ports. ports ≡ port_of name.now width ∷ port_of other.now wide ∷ []) }
{
    let mut ports = one_port(alloc, name, width)?;
    ports.push(port(alloc, other, wide)?)?;
    Ok(ports)
}

fn named(alloc: Global, name: &str) -> Result<Operand, Memory>
    ensures { IfOk result (λ operand. operand ≡ Named name.now) }
{
    Ok(Operand::Name(Name::new(alloc, name)?))
}

fn drive(alloc: Global, target: &str, operation: Operation) -> Result<Drive, Memory>
    ensures { IfOk result (λ drive. drive ≡ drive_of target.now operation) }
{
    let target = Name::new(alloc, target)?;
    Ok(Drive { target, operation })
}

fn one_drive(alloc: Global, target: &str, operation: Operation) -> Result<List<Drive>, Memory>
    ensures { IfOk result (λ drives. drives ≡ drive_of target.now operation ∷ []) }
{
    let first = drive(alloc, target, operation)?;
    one(alloc, first)
}

fn entry(
    alloc: Global,
    variable: &str,
    point: Point,
    wire: &str,
    cycle: u32,
) -> Result<Entry, Memory>
    ensures { IfOk result (λ entry. entry ≡ entry_of variable.now point wire.now cycle) }
{
    let variable = Name::new(alloc, variable)?;
    let wire = Name::new(alloc, wire)?;
    Ok(Entry {
        variable,
        point,
        wire,
        cycle,
    })
}

fn one_name(alloc: Global, name: &str) -> Result<List<Name>, Memory>
    ensures { IfOk result (λ names. names ≡ name.now ∷ []) }
{
    let first = Name::new(alloc, name)?;
    one(alloc, first)
}

fn instance(
    alloc: Global,
    name: &str,
    kind: u32,
    inputs: List<Operand>,
    output: &str,
) -> Result<Instance, Memory>
    ensures { IfOk result (λ instance.
        instance ≡ instance_of name.now kind inputs (output.now ∷ [])) }
{
    let name = Name::new(alloc, name)?;
    let outputs = one_name(alloc, output)?;
    Ok(Instance {
        name,
        kind,
        inputs,
        outputs,
    })
}

// ---- the plan

// A kind with one output and one drive.
fn cell(
    alloc: Global,
    name: &str,
    inputs: List<Port>,
    width: Width,
    operation: Operation,
) -> Result<CellKind, Memory>
    ensures { IfOk result (λ kind.
        kind ≡ cell_of name.now inputs (port_of (codes "v") width) operation) }
{
    let drives = one_drive(alloc, "v", operation)?;
    let outputs = one_port(alloc, "v", width)?;
    let name = Name::new(alloc, name)?;
    Ok(CellKind {
        name,
        inputs,
        outputs,
        wires: List::new(alloc),
        drives,
    })
}

fn sum(alloc: Global) -> Result<Operation, Memory>
    ensures { IfOk result (λ sum. sum ≡ Binary (Named (codes "a")) Add (Named (codes "b"))) }
{
    let left = named(alloc, "a")?;
    let right = named(alloc, "b")?;
    Ok(Operation::Binary {
        left,
        symbol: Symbol::Add,
        right,
    })
}

fn add(alloc: Global) -> Result<CellKind, Memory>
    ensures { IfOk result (λ kind. kind ≡ adder) }
{
    let inputs = two_ports(alloc, "a", four_wide(), "b", four_wide())?;
    let sum = sum(alloc)?;
    cell(alloc, "add", inputs, four_wide(), sum)
}

fn widen(alloc: Global) -> Result<CellKind, Memory>
    ensures { IfOk result (λ kind. kind ≡ widener) }
{
    let inputs = one_port(alloc, "a", four_wide())?;
    let name = Name::new(alloc, "a")?;
    let wider = Operation::Widen { name, by: 4 };
    cell(alloc, "widen", inputs, eight_wide(), wider)
}

fn kinds(alloc: Global) -> Result<List<CellKind>, Memory>
    ensures { IfOk result (λ kinds. kinds ≡ adder ∷ widener ∷ []) }
{
    let first = add(alloc)?;
    let second = widen(alloc)?;
    two(alloc, first, second)
}

// `assign p = q[3:2];`
fn part_drive(alloc: Global) -> Result<Drive, Memory>
    ensures { IfOk result (λ drive. drive ≡ upper_half) }
{
    let name = Name::new(alloc, "q")?;
    let part = Operation::Part {
        name,
        high: 3,
        low: 2,
    };
    drive(alloc, "p", part)
}

// `always @(posedge clk) if (rst) q <= 4'd9; else q <= c;`
fn step(alloc: Global) -> Result<Step, Memory>
    ensures { IfOk result (λ step. step ≡ kept_sum) }
{
    let register = Name::new(alloc, "q")?;
    let next = named(alloc, "c")?;
    Ok(Step {
        register,
        reset: 9,
        next,
    })
}

// The ports, wires and registers of the top.
#[derive(Drop)]
struct TopSignals {
    inputs: List<Port>,
    outputs: List<Port>,
    wires: List<Port>,
    registers: List<Port>,
}

fn declarations(alloc: Global) -> Result<TopSignals, Memory>
    ensures inputs { IfOk result (λ d. d.inputs ≡ port_of (codes "i") four_bits ∷ []) }
    ensures outputs { IfOk result (λ d.
        d.outputs ≡ port_of (codes "o") eight_bits ∷ port_of (codes "p") two_bits ∷ []) }
    ensures wires { IfOk result (λ d.
        d.wires ≡ port_of (codes "c") four_bits ∷ port_of (codes "d") four_bits ∷ []) }
    ensures registers { IfOk result (λ d. d.registers ≡ port_of (codes "q") four_bits ∷ []) }
{
    let inputs = one_port(alloc, "i", four_wide())?;
    let outputs = two_ports(alloc, "o", eight_wide(), "p", two_wide())?;
    let wires = two_ports(alloc, "c", four_wide(), "d", four_wide())?;
    let registers = one_port(alloc, "q", four_wide())?;
    Ok(TopSignals {
        inputs,
        outputs,
        wires,
        registers,
    })
}

fn drives(alloc: Global) -> Result<List<Drive>, Memory>
    ensures { IfOk result (λ drives. drives ≡ upper_half ∷ []) }
{
    let first = part_drive(alloc)?;
    one(alloc, first)
}

fn steps(alloc: Global) -> Result<List<Step>, Memory>
    ensures { IfOk result (λ steps. steps ≡ kept_sum ∷ []) }
{
    let first = step(alloc)?;
    one(alloc, first)
}

fn top(alloc: Global) -> Result<Module, Memory>
    ensures { IfOk result (λ top. top ≡ sums_top) }
{
    let name = Name::new(alloc, "t")?;
    let drives = drives(alloc)?;
    let steps = steps(alloc)?;
    let declared = declarations(alloc)?;
    Ok(Module {
        name,
        inputs: declared.inputs,
        outputs: declared.outputs,
        wires: declared.wires,
        registers: declared.registers,
        drives,
        steps,
    })
}

fn first_sum(alloc: Global) -> Result<Instance, Memory>
    ensures { IfOk result (λ instance. instance ≡ first_sum) }
{
    let left = named(alloc, "i")?;
    let right = named(alloc, "q")?;
    let inputs = two(alloc, left, right)?;
    instance(alloc, "u0", 0, inputs, "c")
}

fn second_sum(alloc: Global) -> Result<Instance, Memory>
    ensures { IfOk result (λ instance. instance ≡ second_sum) }
{
    let five = Operand::Literal {
        width: four_wide(),
        value: 5,
    };
    let left = named(alloc, "c")?;
    let inputs = two(alloc, left, five)?;
    instance(alloc, "u1", 0, inputs, "d")
}

fn wide_sum(alloc: Global) -> Result<Instance, Memory>
    ensures { IfOk result (λ instance. instance ≡ wide_sum) }
{
    let only = named(alloc, "d")?;
    let inputs = one(alloc, only)?;
    instance(alloc, "u2", 1, inputs, "o")
}

fn instances(alloc: Global) -> Result<List<Instance>, Memory>
    ensures { IfOk result (λ instances. instances ≡ sums_instances) }
{
    let first = first_sum(alloc)?;
    let second = second_sum(alloc)?;
    let mut instances = two(alloc, first, second)?;
    instances.push(wide_sum(alloc)?)?;
    Ok(instances)
}

fn one_entry(
    alloc: Global,
    variable: &str,
    point: Point,
    wire: &str,
    cycle: u32,
) -> Result<List<Entry>, Memory>
    ensures { IfOk result (λ entries. entries ≡ entry_of variable.now point wire.now cycle ∷ []) }
{
    let first = entry(alloc, variable, point, wire, cycle)?;
    one(alloc, first)
}

fn listing(alloc: Global) -> Result<Listing, Memory>
    ensures { IfOk result (λ listing. listing ≡ sums_listing) }
{
    let ins = one_entry(alloc, "X", Point::from_slice(&[]), "i", 0)?;
    let ats = one_entry(alloc, "Y", Point::from_slice(&[-1]), "o", 2)?;
    Ok(Listing { ins, ats })
}

fn sums(alloc: Global) -> Result<Plan, Memory>
    ensures { IfOk result (λ plan. plan ≡ sums_plan) }
{
    let listing = listing(alloc)?;
    let kinds = kinds(alloc)?;
    let top = top(alloc)?;
    let instances = instances(alloc)?;
    Ok(Plan {
        listing,
        kinds,
        top,
        instances,
    })
}

// The same, of which the writer and the flat design ask that it is sound.
fn plan(alloc: Global) -> Result<Plan, Memory>
    ensures { IfOk result IsSoundPlan }
{
    sums(alloc)
}

// ---- its texts

fn assert_plan_text(rt: &impl Abort, alloc: Global, plan: &Plan, wanted: &str) -> Result<(), Fail>
    requires { IsSoundPlan plan.now }
{
    let mut sink = MemSink::new(alloc, 4096, 100, List::new(alloc))?;
    write_plan(plan, &mut sink)?;
    assert_held(rt, &sink, wanted.as_bytes());
    Ok(())
}

fn assert_flat(rt: &impl Abort, alloc: Global, plan: &Plan, wanted: &str) -> Result<(), Fail>
    requires { IsSoundPlan plan.now }
{
    let flat = flatten(alloc, plan)?;
    assert_text(rt, alloc, &flat, wanted)
}

#[test]
fn a_plan_is_written_and_read(rt: HostRuntime) -> Result<(), Fail> {
    let plan = plan(rt.alloc())?;
    assert_plan_text(&rt, rt.alloc(), &plan, PLAN)?;
    assert_flat(&rt, rt.alloc(), &plan, FLAT)?;
    assert_written(&rt, rt.alloc(), PLAN, FLAT)
}
