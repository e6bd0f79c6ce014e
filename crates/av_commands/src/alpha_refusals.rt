//! The lines of refusals of Alpha texts, and of systems without a least schedule.

ghost use Rattle.std.specs.Prelude.{◌≡◌, ◌++◌, codes, decimal, OnOk, OnErr, IsErr};
ghost use Rattle.av_base.specs.Outside.{Adds, AddsPrefix, HasRisen};
ghost use Rattle.av_page.specs.Pages.{Puts};
ghost use Rattle.av_commands.specs.Refusals.{refusal_line, place_text};
ghost use Rattle.av_commands.specs.AlphaRefusals.{quantity_text, named_point, blame_text, alpha_reason};
ghost use Rattle.av_commands.specs.Bests.{best_reason};

use crate::refusals::{put_name, put_place};
use av_base::{Name, Place, Point, Sink, WriteFault};
use av_best::BestFault;
use av_compile::Refusal;
use av_flat::Quantity;
use av_page::Page;
use av_vtext::write_point;

fn put_name_and_place<K: Sink>(
    page: &mut Page,
    sink: &mut K,
    words: &str,
    name: &Name,
    place: Place,
)
    ensures { Puts (K.state sink.old) (K.state sink.new) page.old page.new
        (words.now ++ name.now ++ codes " " ++ place_text place) }
{
    put_name(page, sink, words, name);
    put_place(page, sink, " ", place);
}

fn put_named_point<K: Sink>(page: &mut Page, sink: &mut K, words: &str, name: &Name, point: &Point)
    ensures { Puts (K.state sink.old)
        (K.state sink.new) page.old page.new (words.now ++ named_point name.now point.now) }
{
    put_name(page, sink, words, name);
    page.put(sink, " ");
    write_point(page, sink, point);
}

fn put_blame<K: Sink>(page: &mut Page, sink: &mut K, outside: &Option<(Name, Point)>)
    ensures { Puts (K.state sink.old)
        (K.state sink.new) page.old page.new (blame_text outside.now) }
{
    match outside {
        Some((name, point)) => put_named_point(page, sink, " at ", name, point),
        None => page.put(sink, ""),
    }
}

fn put_uncovered<K: Sink>(
    page: &mut Page,
    sink: &mut K,
    variable: &Name,
    point: &Point,
    outside: &Option<(Name, Point)>,
)
    ensures { Puts (K.state sink.old) (K.state sink.new) page.old page.new
        (codes "uncovered " ++ named_point variable.now point.now ++ blame_text outside.now) }
{
    put_named_point(page, sink, "uncovered ", variable, point);
    put_blame(page, sink, outside);
}

fn quantity_word(kind: Quantity) -> &'static str
    ensures { result.now ≡ quantity_text kind }
{
    match kind {
        Quantity::Variables => "variables",
        Quantity::Indices => "indices",
        Quantity::Nodes => "nodes",
        Quantity::Coefficient => "coefficient",
        Quantity::Constant => "constant",
        Quantity::Constraints => "constraints",
        Quantity::Coordinate => "coordinate",
        Quantity::BoxSize => "box",
        Quantity::Reductions => "reductions",
    }
}

fn put_amount<K: Sink>(page: &mut Page, sink: &mut K, words: &str, amount: u128)
    ensures { Puts (K.state sink.old)
        (K.state sink.new) page.old page.new (words.now ++ decimal amount) }
{
    page.put(sink, words);
    page.put_number(sink, amount);
}

fn put_limit<K: Sink>(page: &mut Page, sink: &mut K, kind: Quantity, amount: u128)
    ensures { Puts (K.state sink.old) (K.state sink.new) page.old page.new
        (codes "limit " ++ quantity_text kind ++ codes " " ++ decimal amount) }
{
    page.put(sink, "limit ");
    page.put(sink, quantity_word(kind));
    put_amount(page, sink, " ", amount);
}

fn put_alpha_reason<K: Sink>(page: &mut Page, sink: &mut K, refusal: &Refusal)
    ensures { Puts (K.state sink.old)
        (K.state sink.new) page.old page.new (alpha_reason refusal.now) }
{
    match refusal {
        Refusal::BadByte(place) => put_place(page, sink, "bad byte ", *place),
        Refusal::Number(place) => put_place(page, sink, "number ", *place),
        Refusal::Syntax(place) => put_place(page, sink, "syntax ", *place),
        Refusal::Depth(place) => put_place(page, sink, "depth ", *place),
        Refusal::Repeated(name, at) => put_name_and_place(page, sink, "repeated ", name, *at),
        Refusal::SizeTwice(name) => put_name(page, sink, "size twice ", name),
        Refusal::SizeUnknown(name) => put_name(page, sink, "size unknown ", name),
        Refusal::SizeMissing(name) => put_name(page, sink, "size missing ", name),
        Refusal::Unknown(name, at) => put_name_and_place(page, sink, "unknown ", name, *at),
        Refusal::DefinesInput(name, at) => {
            put_name_and_place(page, sink, "defines input ", name, *at)
        }
        Refusal::SecondEquation(name, at) => {
            put_name_and_place(page, sink, "second equation ", name, *at)
        }
        Refusal::NoEquation(name, at) => {
            put_name_and_place(page, sink, "no equation ", name, *at)
        }
        Refusal::Arity(place) => put_place(page, sink, "arity ", *place),
        Refusal::Projection(place) => put_place(page, sink, "projection ", *place),
        Refusal::CaseInReduce(place) => put_place(page, sink, "case in reduce ", *place),
        Refusal::DependOnReduce(place) => { put_place(page, sink, "dependence on reduce ", *place) }
        Refusal::Limit(kind, amount) => put_limit(page, sink, *kind, *amount),
        Refusal::WidthRange(name, at) => put_name_and_place(page, sink, "width ", name, *at),
        Refusal::SizeOutside => page.put(sink, "size outside"),
        Refusal::Pieces(amount) => put_amount(page, sink, "pieces ", *amount),
        Refusal::Unbounded(name) => put_name(page, sink, "unbounded ", name),
        Refusal::Uncovered {
            variable,
            point,
            outside,
        } => put_uncovered(page, sink, variable, point, outside),
        Refusal::TwoBranches { variable, point } => {
            put_named_point(page, sink, "two branches ", variable, point)
        }
        Refusal::NonUnit(name) => put_name(page, sink, "non unit ", name),
        Refusal::Candidates(amount) => put_amount(page, sink, "candidates ", *amount),
        Refusal::NoSchedule(name) => put_name(page, sink, "no schedule ", name),
        Refusal::Cycles(amount) => put_amount(page, sink, "cycles ", *amount),
        Refusal::Cells(amount) => put_amount(page, sink, "cells ", *amount),
        Refusal::Delays(amount) => put_amount(page, sink, "delays ", *amount),
        Refusal::Links(amount) => put_amount(page, sink, "links ", *amount),
        Refusal::Operators(amount) => put_amount(page, sink, "operators ", *amount),
        Refusal::Memory => page.put(sink, ""),
    }
}

/// Writes the line of the refusal of an Alpha text.
pub(crate) fn write_alpha_refusal<K: Sink>(
    refusal: &Refusal,
    sink: &mut K,
) -> Result<(), WriteFault>
    ensures added { OnOk result (Adds
        (K.state sink.old).held (K.state sink.new).held (refusal_line (alpha_reason refusal.now))) }
    ensures fault { IsErr result → HasRisen (K.state sink.old).faults (K.state sink.new).faults }
    ensures front { OnErr result (AddsPrefix
        (K.state sink.old).held (K.state sink.new).held (refusal_line (alpha_reason refusal.now))) }
{
    let mut page = Page::new();
    page.put(sink, "refused: ");
    put_alpha_reason(&mut page, sink, refusal);
    page.put(sink, "\n");
    page.finish(sink)
}

fn put_best_reason<K: Sink>(page: &mut Page, sink: &mut K, fault: &BestFault)
    ensures { Puts (K.state sink.old) (K.state sink.new) page.old page.new (best_reason fault.now) }
{
    match fault {
        BestFault::JointCandidates(amount) => put_amount(page, sink, "joint candidates ", *amount),
        BestFault::NoSchedule(name) => put_name(page, sink, "no schedule ", name),
        BestFault::Memory => page.put(sink, ""),
    }
}

/// Writes the line that says why there is no least schedule.
pub(crate) fn write_best_refusal<K: Sink>(fault: &BestFault, sink: &mut K) -> Result<(), WriteFault>
    ensures added { OnOk result (Adds
        (K.state sink.old).held (K.state sink.new).held (refusal_line (best_reason fault.now))) }
    ensures fault { IsErr result → HasRisen (K.state sink.old).faults (K.state sink.new).faults }
    ensures front { OnErr result (AddsPrefix
        (K.state sink.old).held (K.state sink.new).held (refusal_line (best_reason fault.now))) }
{
    let mut page = Page::new();
    page.put(sink, "refused: ");
    put_best_reason(&mut page, sink, fault);
    page.put(sink, "\n");
    page.finish(sink)
}
