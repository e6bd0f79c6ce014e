ghost use Rattle.std.specs.Prelude.{◌++◌, codes};
ghost use Rattle.std.specs.List.{flat_map};
ghost use Rattle.std.specs.Fmt.{signed_decimal};
ghost use Rattle.av_net.specs.Texts.{entries_text, point_text, entry_text, entry_line, listing_text};
ghost use Rattle.av_page.specs.Pages.{Puts};

use av_base::{Point, Sink};
use av_net::{Entry, Listing};
use av_page::Page;

/// Puts the lines of a listing on the page.
#[tactic(auto, unfolding(av_net::specs::Texts::listing_text))]
pub(crate) fn write_listing<K: Sink>(page: &mut Page, sink: &mut K, listing: &Listing)
    ensures { Puts (K.state sink.old)
        (K.state sink.new) page.old page.new (listing_text listing.now) }
{
    write_entry_lines(page, sink, "in", listing.ins.as_slice());
    write_entry_lines(page, sink, "at", listing.ats.as_slice());
}

fn write_entry_lines<K: Sink>(page: &mut Page, sink: &mut K, kind: &str, entries: &[Entry])
    ensures { Puts (K.state sink.old)
        (K.state sink.new) page.old page.new (flat_map (entry_line kind.now) entries.now) }
{
    for entry in entries {
        write_entry_line(page, sink, kind, entry);
    }
}

fn write_entry_line<K: Sink>(page: &mut Page, sink: &mut K, kind: &str, entry: &Entry)
    ensures { Puts (K.state sink.old)
        (K.state sink.new) page.old page.new (entry_line kind.now entry.now) }
{
    page.put(sink, "// ");
    write_entry(page, sink, kind, entry);
    page.put(sink, "\n");
}

/// Puts a line of a listing on the page, after this word and without its end: `in X (0) i0 0`.
pub fn write_entry<K: Sink>(page: &mut Page, sink: &mut K, kind: &str, entry: &Entry)
    ensures { Puts (K.state sink.old)
        (K.state sink.new) page.old page.new (entry_text kind.now entry.now) }
{
    page.put(sink, kind);
    page.put(sink, " ");
    page.put(sink, entry.variable.as_str());
    page.put(sink, " ");
    write_point(page, sink, &entry.point);
    page.put(sink, " ");
    page.put(sink, entry.wire.as_str());
    page.put(sink, " ");
    page.put_number(sink, entry.cycle);
}

/// Puts a point on the page, as `(1,-2)`.
pub fn write_point<K: Sink>(page: &mut Page, sink: &mut K, point: &Point)
    ensures { Puts (K.state sink.old) (K.state sink.new) page.old page.new (point_text point.now) }
{
    page.put(sink, "(");
    write_indices(page, sink, point.as_slice());
    page.put(sink, ")");
}

fn write_indices<K: Sink>(page: &mut Page, sink: &mut K, indices: &[i64])
    ensures { Puts (K.state sink.old)
        (K.state sink.new) page.old page.new (entries_text indices.now) }
{
    if let [first, later @ ..] = indices {
        page.put_number(sink, *first);
        write_later(page, sink, later);
    }
}

// Each of them behind a comma.
fn write_later<K: Sink>(page: &mut Page, sink: &mut K, later: &[i64])
    ensures { Puts (K.state sink.old) (K.state sink.new) page.old page.new
        (flat_map (λ index. codes "," ++ signed_decimal index) later.now) }
{
    for index in later {
        page.put(sink, ",");
        page.put_number(sink, *index);
    }
}
