//! A wave as a value change dump, written piece by piece, without memory.

ghost use Rattle.std.specs.Prelude.{◌≡◌, ◌≤◌, ◌<◌, ◌++◌, ◌==◌, [], if◌then◌else◌, codes, length, map, IsErr, OnOk, OnErr, All};
ghost use Rattle.av_base.specs.Outside.{Adds, AddsPrefix, HasRisen};
ghost use Rattle.av_page.specs.Pages.{Puts};
ghost use Rattle.av_wave.specs.Dumps.{code, binary, time_line, port_line, port_lines, change_line, head_lines, joined, dump_text};
ghost use Rattle.av_wave.specs.inner.Written.{times, lines_to, last_cycle, is_news, news};

use crate::binary::Binary;
use crate::code::Code;
use crate::wave::{Change, Wave};
use av_base::{List, Name, Sink, WriteFault, ascii};
use av_net::Port;
use av_page::Page;

/// Writes the text of a wave as a value change dump. It takes no memory.
pub fn write_wave<K: Sink>(wave: &Wave, sink: &mut K) -> Result<(), WriteFault>
    ensures added { OnOk result
        (Adds (K.state sink.old).held (K.state sink.new).held (dump_text wave.now)) }
    ensures fault { IsErr result → HasRisen (K.state sink.old).faults (K.state sink.new).faults }
    ensures front { OnErr result
        (AddsPrefix (K.state sink.old).held (K.state sink.new).held (dump_text wave.now)) }
    ensures later { (K.state sink.old).faults ≤ (K.state sink.new).faults }
{
    let mut page = Page::new();
    put_wave(&mut page, sink, wave);
    page.finish(sink)
}

fn put_wave<K: Sink>(page: &mut Page, sink: &mut K, wave: &Wave)
    ensures { Puts (K.state sink.old) (K.state sink.new) page.old page.new (dump_text wave.now) }
{
    put_head(page, sink, &wave.name, &wave.ports);
    put_time(page, sink, 0);
    let cycle = put_changes(page, sink, wave.ports.as_slice(), wave.changes.as_slice());
    put_times(page, sink, cycle, wave.cycles);
}

/// Puts the lines before the first cycle.
pub(crate) fn put_head<K: Sink>(page: &mut Page, sink: &mut K, name: &Name, ports: &List<Port>)
    ensures { Puts (K.state sink.old)
        (K.state sink.new) page.old page.new (joined (head_lines name.now ports.now)) }
{
    page.put(sink, "$timescale 1ns $end\n");
    page.put(sink, "$scope module ");
    page.put(sink, name.as_str());
    page.put(sink, " $end\n");
    put_ports(page, sink, ports);
    page.put(sink, "$upscope $end\n");
    page.put(sink, "$enddefinitions $end\n");
}

fn put_ports<K: Sink>(page: &mut Page, sink: &mut K, ports: &List<Port>)
    ensures { Puts (K.state sink.old)
        (K.state sink.new) page.old page.new (joined (port_lines 0 ports.now)) }
{
    let _most = ports.len();
    for (number, port) in ports.as_slice().iter().enumerate() {
        put_port(page, sink, number as u32, port);
    }
}

// As `$var wire 8 ! i0 $end`.
fn put_port<K: Sink>(page: &mut Page, sink: &mut K, number: u32, port: &Port)
    ensures { Puts (K.state sink.old)
        (K.state sink.new) page.old page.new (port_line number port.now) }
{
    page.put(sink, "$var wire ");
    page.put_number(sink, port.width.bits);
    page.put(sink, " ");
    put_code(page, sink, number);
    page.put(sink, " ");
    page.put(sink, port.name.as_str());
    page.put(sink, " $end\n");
}

fn put_code<K: Sink>(page: &mut Page, sink: &mut K, number: u32)
    ensures { Puts (K.state sink.old) (K.state sink.new) page.old page.new (code number) }
{
    let code = Code::new(number);
    page.put(sink, ascii(code.as_bytes()));
}

/// Puts the line that begins a cycle, as `#12`.
pub(crate) fn put_time<K: Sink>(page: &mut Page, sink: &mut K, cycle: u32)
    ensures { Puts (K.state sink.old) (K.state sink.new) page.old page.new (time_line cycle) }
{
    page.put(sink, "#");
    page.put_number(sink, cycle);
    page.put(sink, "\n");
}

/// Puts the lines of the changes of a cycle in which the ports have these words, where they had those before.
pub(crate) fn put_cycle<K: Sink>(
    page: &mut Page,
    sink: &mut K,
    ports: &List<Port>,
    cycle: u32,
    before: &[u64],
    words: &[u64],
)
    requires ports { length words.now ≡ length ports.now }
    requires before { length words.now ≡ length before.now }
    ensures { Puts (K.state sink.old) (K.state sink.new) page.old page.new (joined
        (map (change_line ports.now) (news cycle before.now words.now (length words.now)))) }
{
    let _most = ports.len();
    let slice = ports.as_slice();
    for (port, word) in words.iter().enumerate() {
        let change = Change {
            cycle,
            port: port as u32,
            value: *word,
        };
        put_news(page, sink, slice, before[port], change);
    }
}

// Puts the line of a change, unless the port had that value before. In the first cycle each port changes.
fn put_news<K: Sink>(page: &mut Page, sink: &mut K, ports: &[Port], before: u64, change: Change)
    requires { change.port < length ports.now }
    ensures { Puts (K.state sink.old) (K.state sink.new) page.old page.new
        (if is_news change.cycle before change.value then change_line ports.now change else []) }
{
    if !is_news(change.cycle, before, change.value) {
        return;
    }
    put_change(page, sink, ports, change);
}

fn is_news(cycle: u32, before: u64, value: u64) -> bool
    ensures { result ≡ is_news cycle before value }
{
    cycle == 0 || value != before
}

// The lines that begin the cycles behind one, up to another.
fn put_times<K: Sink>(page: &mut Page, sink: &mut K, from: u32, to: u32)
    ensures { Puts (K.state sink.old)
        (K.state sink.new) page.old page.new (joined (times from to)) }
{
    for cycle in from..to {
        put_time(page, sink, cycle + 1);
    }
}

// The changes, and the lines that begin the cycles up to the last change. Its cycle is the answer.
fn put_changes<K: Sink>(page: &mut Page, sink: &mut K, ports: &[Port], changes: &[Change]) -> u32
    requires ports { All (λ g. g.port < length ports.now) changes.now }
    ensures put { Puts (K.state sink.old)
        (K.state sink.new) page.old page.new (joined (lines_to ports.now 0 changes.now)) }
    ensures last { result ≡ last_cycle 0 changes.now }
{
    let mut cycle = 0;
    for change in changes {
        put_times(page, sink, cycle, change.cycle);
        put_change(page, sink, ports, *change);
        cycle = change.cycle;
    }
    cycle
}

// As `b101 !`, or as `1!` where the port has one bit.
fn put_change<K: Sink>(page: &mut Page, sink: &mut K, ports: &[Port], change: Change)
    requires { change.port < length ports.now }
    ensures { Puts (K.state sink.old)
        (K.state sink.new) page.old page.new (change_line ports.now change) }
{
    put_value(page, sink, &ports[change.port as usize], change.value);
    put_code(page, sink, change.port);
    page.put(sink, "\n");
}

// As `b101 `, or as `1` where the port has one bit.
fn put_value<K: Sink>(page: &mut Page, sink: &mut K, port: &Port, value: u64)
    ensures { Puts (K.state sink.old) (K.state sink.new) page.old page.new (if
        port.now.width.bits == 1 then binary value else codes "b" ++ binary value ++ codes " ") }
{
    if port.width.bits == 1 {
        put_binary(page, sink, value);
    } else {
        put_vector(page, sink, value);
    }
}

// As `b101 `.
fn put_vector<K: Sink>(page: &mut Page, sink: &mut K, value: u64)
    ensures { Puts (K.state sink.old)
        (K.state sink.new) page.old page.new (codes "b" ++ binary value ++ codes " ") }
{
    page.put(sink, "b");
    put_binary(page, sink, value);
    page.put(sink, " ");
}

// A number in binary, without leading zeros.
fn put_binary<K: Sink>(page: &mut Page, sink: &mut K, value: u64)
    ensures { Puts (K.state sink.old) (K.state sink.new) page.old page.new (binary value) }
{
    let digits = Binary::new(value);
    page.put(sink, ascii(digits.as_bytes()));
}
