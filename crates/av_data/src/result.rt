ghost use Rattle.std.specs.Prelude.{◌≡◌, ◌≤◌, IsErr, OnOk, OnErr};
ghost use Rattle.av_base.specs.Outside.{Adds, AddsPrefix, HasRisen};
ghost use Rattle.av_page.specs.Pages.{Puts};
ghost use Rattle.av_data.specs.Results.{result_line};

use av_base::{Point, Sink, Word, WriteFault};
use av_page::Page;
use av_vtext::write_point;

/// Writes the line of a result: a name, a point and its word in decimal, as `Y (1) = 255`. It takes no memory.
pub fn write_result<K: Sink>(
    name: &str,
    point: &Point,
    word: Word,
    sink: &mut K,
) -> Result<(), WriteFault>
    ensures added { OnOk result (Adds (K.state sink.old).held
        (K.state sink.new).held (result_line name.now point.now word.bits)) }
    ensures fault { IsErr result → HasRisen (K.state sink.old).faults (K.state sink.new).faults }
    ensures front { OnErr result (AddsPrefix (K.state sink.old).held
        (K.state sink.new).held (result_line name.now point.now word.bits)) }
    ensures later { (K.state sink.old).faults ≤ (K.state sink.new).faults }
{
    let mut page = Page::new();
    write_line(&mut page, sink, name, point, word);
    page.finish(sink)
}

fn write_line<K: Sink>(page: &mut Page, sink: &mut K, name: &str, point: &Point, word: Word)
    ensures { Puts (K.state sink.old)
        (K.state sink.new) page.old page.new (result_line name.now point.now word.bits) }
{
    page.put(sink, name);
    page.put(sink, " ");
    write_point(page, sink, point);
    page.put(sink, " = ");
    page.put_number(sink, word.bits);
    page.put(sink, "\n");
}
