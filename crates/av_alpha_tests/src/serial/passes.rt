//! The normal form and then the serial form, as one pass.

use super::show::push_variables;
use super::texts::STEEP;
use av_flat::{Pass, Then, ThenFault};
use av_normal::{Normal, NormalFault};
use av_serial::{Serial, SerialFault};
use av_testing::system_with;
use av_testing::texts::MATRIX_PRODUCT;
use std::alloc::Global;
use std::test::Fail;

const ENDLESS_DOMAIN: &str =
    "system t (X : {i | 0<=i} of integer) returns (Y : {i | 0<=i} of integer); let Y = X; tel;";

fn both() -> Then<Normal, Serial> {
    Then {
        first: Normal,
        second: Serial,
    }
}

#[test]
fn one_pass_after_the_other(rt: HostRuntime) -> Result<(), Fail> {
    let alloc = rt.alloc();
    let flat = system_with(alloc, MATRIX_PRODUCT, 1)?;
    let serial = both().run(alloc, &flat).ok().ok_or("serial")?;
    let mut out = String::new(alloc);
    push_variables(&mut out, serial.vars.as_slice())?;
    assert_eq!(rt; out.as_str(), "input A, input B, output C, partial C#1");
    Ok(())
}

fn is_of_first(alloc: Global, text: &str) -> Result<bool, Fail> {
    let flat = system_with(alloc, text, 0)?;
    match both().run(alloc, &flat) {
        Err(ThenFault::First(NormalFault::Unbounded(name))) => Ok(name.as_str() == "X"),
        _ => Ok(false),
    }
}

fn is_of_second(alloc: Global, text: &str) -> Result<bool, Fail> {
    let flat = system_with(alloc, text, 0)?;
    match both().run(alloc, &flat) {
        Err(ThenFault::Second(SerialFault::NonUnit(name))) => Ok(name.as_str() == "Y"),
        _ => Ok(false),
    }
}

#[test]
fn a_fault_is_of_the_pass_that_refuses(rt: HostRuntime) -> Result<(), Fail> {
    let alloc = rt.alloc();
    assert!(rt; is_of_first(alloc, ENDLESS_DOMAIN)?);
    assert!(rt; is_of_second(alloc, STEEP)?);
    Ok(())
}
