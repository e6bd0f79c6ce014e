ghost use Rattle.std.specs.Prelude.{◌≡◌, ◌≤◌, ◌++◌, length, map, filter, codes, IsErr, OnOk, OnErr};
ghost use Rattle.std.specs.Fmt.{signed_decimal};
ghost use Rattle.av_base.specs.Outside.{Adds, AddsPrefix, HasRisen};
ghost use Rattle.av_page.specs.Pages.{Puts};
ghost use Rattle.av_flat.specs.Trees.{view_variable};
ghost use Rattle.av_flat.specs.Nodes.{is_node};
ghost use Rattle.av_flat.specs.Legal.{IsLegal};
ghost use Rattle.av_data.specs.Schedules.{time_line, time_lines, schedule_text};

use av_base::{Sink, WriteFault};
use av_flat::{Time, Timed, Var};
use av_page::Page;
use av_vtext::write_point;

/// Writes the lines of a schedule, one for each node in order: its name, its linear part and its offset, as `s (1,1) -1`. It
/// takes no memory.
pub fn write_schedule<K: Sink>(timed: &Timed, sink: &mut K) -> Result<(), WriteFault>
    requires legal { IsLegal timed.now }
    ensures added { OnOk result
        (Adds (K.state sink.old).held (K.state sink.new).held (schedule_text timed.now)) }
    ensures fault { IsErr result → HasRisen (K.state sink.old).faults (K.state sink.new).faults }
    ensures front { OnErr result
        (AddsPrefix (K.state sink.old).held (K.state sink.new).held (schedule_text timed.now)) }
    ensures later { (K.state sink.old).faults ≤ (K.state sink.new).faults }
{
    let mut page = Page::new();
    write_times(
        &mut page,
        sink,
        timed.flat.vars.as_slice(),
        timed.times.as_slice(),
    );
    page.finish(sink)
}

// The variables that are nodes, each with its time.
fn write_times<K: Sink>(page: &mut Page, sink: &mut K, vars: &[Var], times: &[Time])
    requires { length times.now ≡ length (filter is_node (map view_variable vars.now)) }
    ensures { Puts (K.state sink.old) (K.state sink.new) page.old page.new
        (time_lines (filter is_node (map view_variable vars.now)) times.now) }
{
    let mut next = 0;
    for var in vars {
        if var.is_node() {
            write_time(page, sink, var, &times[next]);
            next += 1;
        }
    }
}

fn write_time<K: Sink>(page: &mut Page, sink: &mut K, var: &Var, time: &Time)
    ensures { Puts (K.state sink.old)
        (K.state sink.new) page.old page.new (time_line (view_variable var.now) time.now) }
{
    page.put(sink, var.name.as_str());
    page.put(sink, " ");
    write_point(page, sink, &time.linear);
    page.put(sink, " ");
    page.put_number(sink, time.offset);
    page.put(sink, "\n");
}
