//! Lanes of an array beside clocks.

ghost use Rattle.std.specs.Prelude.{IfOk};
ghost use Rattle.av_net.specs.Designs.{IsSoundDesign};
ghost use Rattle.av_net.specs.Sound.{IsSound};

use crate::build::compiled_text;
use crate::kernels::DIAGONAL;
use av_net::{Design, Module};
use av_testing::lanes_follow_clocks;
use av_vread::read_design;
use std::alloc::Global;
use std::process::Abort;
use std::test::Fail;

// The design that these bytes are the text of.
fn design_of(alloc: Global, bytes: &[u8]) -> Result<Design, Fail>
    ensures { IfOk result IsSoundDesign }
{
    if bytes.len() >= 4_294_967_295 {
        return Err(Fail::new("long"));
    }
    match read_design(alloc, bytes) {
        Ok(design) => Ok(design),
        Err(_) => Err(Fail::new("a design")),
    }
}

// The design of an array, read from its text.
fn array(alloc: Global, text: &str) -> Result<Design, Fail>
    ensures { IfOk result IsSoundDesign }
{
    let text = compiled_text(alloc, text)?;
    design_of(alloc, text.held())
}

fn assert_beside(rt: &impl Abort, alloc: Global, of: &Module) -> Result<(), Fail>
    requires { IsSound of.now }
{
    assert!(rt; lanes_follow_clocks(alloc, of, 48)?);
    Ok(())
}

#[test]
fn lanes_of_the_diagonal_follow_clocks(rt: HostRuntime) -> Result<(), Fail> {
    let design = array(rt.alloc(), DIAGONAL)?;
    assert_beside(&rt, rt.alloc(), &design.module)
}
