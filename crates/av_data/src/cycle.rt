ghost use Rattle.std.specs.Prelude.{◌≡◌, ◌≤◌, length, IsErr, OnOk, OnErr};
ghost use Rattle.av_base.specs.Outside.{Adds, AddsPrefix, HasRisen};
ghost use Rattle.av_page.specs.Pages.{Puts};
ghost use Rattle.av_data.specs.Cycles.{value_text, values_text, cycle_line};

use av_base::{Sink, WriteFault};
use av_net::Port;
use av_page::Page;

/// Writes the line of a cycle: its number, and each port with its value, as `0 i0=5 o0=6`. It takes no
/// memory.
pub fn write_cycle<K: Sink>(
    cycle: u32,
    ports: &[Port],
    values: &[u64],
    sink: &mut K,
) -> Result<(), WriteFault>
    requires { length ports.now ≡ length values.now }
    ensures added { OnOk result (Adds
        (K.state sink.old).held (K.state sink.new).held (cycle_line cycle ports.now values.now)) }
    ensures fault { IsErr result → HasRisen (K.state sink.old).faults (K.state sink.new).faults }
    ensures front { OnErr result (AddsPrefix
        (K.state sink.old).held (K.state sink.new).held (cycle_line cycle ports.now values.now)) }
    ensures later { (K.state sink.old).faults ≤ (K.state sink.new).faults }
{
    let mut page = Page::new();
    page.put_number(sink, cycle);
    write_values(&mut page, sink, ports, values);
    page.put(sink, "\n");
    page.finish(sink)
}

fn write_values<K: Sink>(page: &mut Page, sink: &mut K, ports: &[Port], values: &[u64])
    requires { length ports.now ≡ length values.now }
    ensures { Puts (K.state sink.old)
        (K.state sink.new) page.old page.new (values_text ports.now values.now) }
{
    for (i, port) in ports.iter().enumerate() {
        write_value(page, sink, port, values[i]);
    }
}

fn write_value<K: Sink>(page: &mut Page, sink: &mut K, port: &Port, value: u64)
    ensures { Puts (K.state sink.old)
        (K.state sink.new) page.old page.new (value_text port.now value) }
{
    page.put(sink, " ");
    page.put(sink, port.name.as_str());
    page.put(sink, "=");
    page.put_number(sink, value);
}
