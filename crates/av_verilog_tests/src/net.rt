//! A design by hand, and the laws of modules.

use crate::designs::assert_text;
use av_base::{List, Memory, Name, Point, Width};
use av_net::{
    Design, Drive, Entry, Listing, Module, Operand, Operation, Port, presented, runs, settled_once,
};
use std::alloc::Global;
use std::test::Fail;

// `assign o0 = 8'd1;`
fn drive(alloc: Global) -> Result<Drive, Memory> {
    let target = Name::new(alloc, "o0")?;
    let width = Width { bits: 8 };
    Ok(Drive {
        target,
        operation: Operation::Plain(Operand::Literal { width, value: 1 }),
    })
}

fn drives(alloc: Global) -> Result<List<Drive>, Memory> {
    let mut drives = List::new(alloc);
    drives.push(drive(alloc)?)?;
    Ok(drives)
}

// `output [7:0] o0`
fn outputs(alloc: Global) -> Result<List<Port>, Memory> {
    let mut outputs = List::new(alloc);
    let name = Name::new(alloc, "o0")?;
    let width = Width { bits: 8 };
    outputs.push(Port { name, width })?;
    Ok(outputs)
}

// `// at Y () o0 0`
fn entry(alloc: Global) -> Result<Entry, Memory> {
    let variable = Name::new(alloc, "Y")?;
    let wire = Name::new(alloc, "o0")?;
    Ok(Entry {
        variable,
        point: Point::from_slice(&[]),
        wire,
        cycle: 0,
    })
}

fn entries(alloc: Global) -> Result<List<Entry>, Memory> {
    let mut entries = List::new(alloc);
    entries.push(entry(alloc)?)?;
    Ok(entries)
}

fn module(alloc: Global) -> Result<Module, Memory> {
    let name = Name::new(alloc, "array")?;
    let outputs = outputs(alloc)?;
    let drives = drives(alloc)?;
    Ok(Module {
        name,
        inputs: List::new(alloc),
        outputs,
        wires: List::new(alloc),
        registers: List::new(alloc),
        drives,
        steps: List::new(alloc),
    })
}

fn design(alloc: Global) -> Result<Design, Memory> {
    let ats = entries(alloc)?;
    let module = module(alloc)?;
    Ok(Design {
        listing: Listing {
            ins: List::new(alloc),
            ats,
        },
        module,
    })
}

#[test]
fn laws() {
    settled_once();
    runs();
    presented();
}

const TEXT: &str = "// alphav 1
// at Y () o0 0
module array(input clk, input rst, output [7:0] o0);
  assign o0 = 8'd1;
endmodule
";

#[test]
fn a_design_is_data(rt: HostRuntime) -> Result<(), Fail> {
    let alloc = rt.alloc();
    let design = design(alloc)?;
    assert_text(&rt, alloc, &design, TEXT)
}
