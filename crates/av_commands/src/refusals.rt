//! The lines of refusals of design texts, stimuli, data and dumps.

ghost use Rattle.std.specs.Prelude.{◌++◌, decimal, OnOk, OnErr, IsErr};
ghost use Rattle.av_base.specs.Outside.{Adds, AddsPrefix, HasRisen};
ghost use Rattle.av_page.specs.Pages.{Puts};
ghost use Rattle.av_commands.specs.Refusals.{refusal_line, place_text, verilog_reason, data_reason};
ghost use Rattle.av_commands.specs.Waves.{wave_reason};

use av_base::{Name, Place, Sink, WriteFault};
use av_data::DataFault;
use av_page::Page;
use av_vread::VFault;
use av_vtext::write_point;

fn put_number<K: Sink>(page: &mut Page, sink: &mut K, words: &str, number: u32)
    ensures { Puts (K.state sink.old)
        (K.state sink.new) page.old page.new (words.now ++ decimal number) }
{
    page.put(sink, words);
    page.put_number(sink, number);
}

/// Puts the words and then the name on the page.
pub(crate) fn put_name<K: Sink>(page: &mut Page, sink: &mut K, words: &str, name: &Name)
    ensures { Puts (K.state sink.old) (K.state sink.new) page.old page.new (words.now ++ name.now) }
{
    page.put(sink, words);
    page.put(sink, name.as_str());
}

/// Puts the words and then the place on the page.
pub(crate) fn put_place<K: Sink>(page: &mut Page, sink: &mut K, words: &str, place: Place)
    ensures { Puts (K.state sink.old)
        (K.state sink.new) page.old page.new (words.now ++ place_text place) }
{
    page.put(sink, words);
    page.put_number(sink, place.line);
    page.put(sink, ":");
    page.put_number(sink, place.column);
}

fn put_verilog_reason<K: Sink>(page: &mut Page, sink: &mut K, fault: &VFault)
    ensures { Puts (K.state sink.old)
        (K.state sink.new) page.old page.new (verilog_reason fault.now) }
{
    match fault {
        VFault::VByte(place) => put_place(page, sink, "verilog bad byte ", *place),
        VFault::VSyntax(place) => put_place(page, sink, "verilog syntax ", *place),
        VFault::VListing(number) => put_number(page, sink, "verilog listing ", *number),
        VFault::VTwice(name) => put_name(page, sink, "verilog twice ", name),
        VFault::VName(name) => put_name(page, sink, "verilog unknown ", name),
        VFault::VUnassigned(name) => put_name(page, sink, "verilog unassigned ", name),
        VFault::VOrder(name) => put_name(page, sink, "verilog order ", name),
        VFault::VWidth(name) => put_name(page, sink, "verilog width ", name),
        VFault::Memory => page.put(sink, ""),
    }
}

fn put_data_reason<K: Sink>(page: &mut Page, sink: &mut K, fault: &DataFault)
    ensures { Puts (K.state sink.old) (K.state sink.new) page.old page.new (data_reason fault.now) }
{
    match fault {
        DataFault::DataSyntax(number) => put_number(page, sink, "data syntax ", *number),
        DataFault::DataUnknown(number) => put_number(page, sink, "data unknown ", *number),
        DataFault::DataOutside(number) => put_number(page, sink, "data outside ", *number),
        DataFault::DataTwice(number) => put_number(page, sink, "data twice ", *number),
        DataFault::DataMissing(name, point) => {
            put_name(page, sink, "data missing ", name);
            page.put(sink, " ");
            write_point(page, sink, point);
        }
        DataFault::Memory => page.put(sink, ""),
    }
}

/// Writes the line of the refusal of a design text.
pub(crate) fn write_verilog_refusal<K: Sink>(fault: &VFault, sink: &mut K) -> Result<(), WriteFault>
    ensures added { OnOk result (Adds
        (K.state sink.old).held (K.state sink.new).held (refusal_line (verilog_reason fault.now))) }
    ensures fault { IsErr result → HasRisen (K.state sink.old).faults (K.state sink.new).faults }
    ensures front { OnErr result (AddsPrefix
        (K.state sink.old).held (K.state sink.new).held (refusal_line (verilog_reason fault.now))) }
{
    let mut page = Page::new();
    page.put(sink, "refused: ");
    put_verilog_reason(&mut page, sink, fault);
    page.put(sink, "\n");
    page.finish(sink)
}

/// Writes the line of the refusal of a stimulus or of data.
pub(crate) fn write_data_refusal<K: Sink>(fault: &DataFault, sink: &mut K) -> Result<(), WriteFault>
    ensures added { OnOk result (Adds
        (K.state sink.old).held (K.state sink.new).held (refusal_line (data_reason fault.now))) }
    ensures fault { IsErr result → HasRisen (K.state sink.old).faults (K.state sink.new).faults }
    ensures front { OnErr result (AddsPrefix
        (K.state sink.old).held (K.state sink.new).held (refusal_line (data_reason fault.now))) }
{
    let mut page = Page::new();
    page.put(sink, "refused: ");
    put_data_reason(&mut page, sink, fault);
    page.put(sink, "\n");
    page.finish(sink)
}

/// Writes the line of the refusal of a dump.
pub(crate) fn write_wave_refusal<K: Sink>(line: u32, sink: &mut K) -> Result<(), WriteFault>
    ensures added { OnOk result
        (Adds (K.state sink.old).held (K.state sink.new).held (refusal_line (wave_reason line))) }
    ensures fault { IsErr result → HasRisen (K.state sink.old).faults (K.state sink.new).faults }
    ensures front { OnErr result (AddsPrefix
        (K.state sink.old).held (K.state sink.new).held (refusal_line (wave_reason line))) }
{
    let mut page = Page::new();
    page.put(sink, "refused: ");
    put_number(&mut page, sink, "wave syntax ", line);
    page.put(sink, "\n");
    page.finish(sink)
}
