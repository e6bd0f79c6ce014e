//! Sinks of tests, and ports.

ghost use Rattle.std.specs.Prelude.{◌<◌};

use av_base::{List, MemSink, Memory, Name, Width};
use av_net::Port;
use std::alloc::Global;
use std::test::Fail;

/// A sink with room for so many bytes, of which it takes so many in a call.
pub fn sink_of(alloc: Global, room: usize, per_call: usize) -> Result<MemSink, Memory>
    requires { 0 < per_call }
{
    MemSink::new(alloc, room, per_call, List::new(alloc))
}

/// A port of this name, so many bits wide.
pub fn port(alloc: Global, name: &str, bits: u32) -> Result<Port, Fail> {
    let name = Name::new(alloc, name)?;
    let width = Width::new(bits).ok_or("a width")?;
    Ok(Port { name, width })
}
