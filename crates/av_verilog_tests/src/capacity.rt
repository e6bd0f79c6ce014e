//! How many names the instances of a text may bring into its flat design: 4,194,304.

use crate::designs::assert_told;
use std::alloc::Global;
use std::fmt::Write;
use std::test::Fail;

// A kind with an input, an output and 2,046 wires.
fn push_kind(text: &mut String) -> Result<(), Fail> {
    text.push_str("module k(input a, output v);\n")?;
    for number in 0..2_046 {
        write!(text, "wire w{number};\n")?;
    }
    Ok(())
}

fn push_drives(text: &mut String) -> Result<(), Fail> {
    for number in 0..2_046 {
        write!(text, "assign w{number} = a;\n")?;
    }
    text.push_str("assign v = a;\nendmodule\n")?;
    Ok(())
}

fn push_links(text: &mut String, instances: u32) -> Result<(), Fail> {
    for number in 0..instances {
        write!(text, "wire c{number};\n")?;
    }
    Ok(())
}

fn push_instances(text: &mut String, instances: u32) -> Result<(), Fail> {
    for number in 0..instances {
        write!(text, "k u{number}(.a(i), .v(c{number}));\n")?;
    }
    Ok(())
}

fn push_modules(text: &mut String, instances: u32) -> Result<(), Fail> {
    push_kind(text)?;
    push_drives(text)?;
    text.push_str("module t(input clk, input rst, input i);\n")?;
    push_links(text, instances)?;
    push_instances(text, instances)?;
    text.push_str("endmodule\n")?;
    Ok(())
}

// A text with so many instances, each of which brings 2,048 names.
fn text_with(alloc: Global, instances: u32) -> Result<String, Fail> {
    let mut text = String::new(alloc);
    push_modules(&mut text, instances)?;
    Ok(text)
}

#[test]
fn one_instance_above_the_capacity(rt: HostRuntime) -> Result<(), Fail> {
    let text = text_with(rt.alloc(), 2_049)?;
    assert_told(&rt, rt.alloc(), text.as_bytes(), "memory")
}
