//! Where the places of a piece find their words, number by number of the counter.

ghost use Rattle.std.specs.Prelude.{◌≡◌, None, Some, length, IfOk, OnOk};
ghost use Rattle.av_flat.specs.Trees.{view, view_piece};
ghost use Rattle.av_space.specs.Spots.{IsSpot, IsSlotIn, IsSiteOf};
ghost use Rattle.av_space.specs.Taps.{IsReadAt};
ghost use Rattle.av_kinds.specs.Counters.{IsCounter, count_in};
ghost use Rattle.av_history.specs.Performing.{IsPlaceSource};
ghost use Rattle.av_kinds.specs.declared.program.WordSource.TheVariants.{Line};
ghost use Rattle.av_build.specs.inner.Blueprints.{IsBlueprint, HasHelper, seen, spot_of, lanes_of};
ghost use Rattle.av_build.specs.inner.Moments.{same_source, site_by};
ghost use Rattle.av_build.specs.inner.Orders.{IsInOrder, AreMoments};
ghost use Rattle.av_build.specs.inner.Programmed.{Always};
ghost use Rattle.av_build.specs.inner.Sources.{IsOwnSource, AddsPipelineMoment, ArePipelineMomentsTo};

use crate::blueprint::{Blueprint, HelperOn};
use crate::windows::CounterMark;
use av_base::{List, Memory, Width};
use av_kinds::{Counter, Inlet, ProgramSite, Selection, WordSource};
use av_space::{Origin, Pipeline, Site, Slot, Spot, TapReading};
use std::alloc::Global;

/// At this number of the counter, this source.
#[derive(Clone, Copy, Debug)]
pub(crate) struct Moment {
    pub(crate) number: u32,
    pub(crate) source: WordSource,
}

/// The moments of a place with a helper, where it reads its reference and where the helper's word at the point before; and of each
/// number whether it is one of the former, or of the latter.
#[derive(Debug, Drop)]
pub(crate) struct PipelineMoments {
    pub(crate) entries: List<Moment>,
    pub(crate) own: List<Moment>,
    pub(crate) entry_marks: List<CounterMark>,
    pub(crate) own_marks: List<CounterMark>,
}

// Whether both sources are one.
fn same_source(a: WordSource, b: WordSource) -> bool
    ensures { result ≡ same_source a b }
{
    match a {
        WordSource::Word(word) => match b {
            WordSource::Word(other) => word == other,
            _ => false,
        },
        WordSource::Input(port) => match b {
            WordSource::Input(other) => port == other,
            _ => false,
        },
        WordSource::Line { lane, delay } => match b {
            WordSource::Line {
                lane: other,
                delay: later,
            } => lane == other && delay == later,
            _ => false,
        },
    }
}

/// What brings the word of a place, from its sources by number.
pub(crate) fn site(
    alloc: Global,
    inlet: Inlet,
    width: Width,
    moments: &[Moment],
) -> Result<ProgramSite, Memory>
    ensures { IfOk result (λ site. site ≡ site_by inlet width moments.now) }
{
    let mut selections = List::new(alloc);
    let Some((first, rest)) = moments.split_first() else {
        return Ok(ProgramSite {
            inlet,
            width,
            selections,
            otherwise: WordSource::Word(0),
        });
    };
    let mut last = *first;
    for moment in rest {
        if !same_source(last.source, moment.source) {
            selections.push(Selection {
                last: last.number,
                source: last.source,
            })?;
        }
        last = *moment;
    }
    Ok(ProgramSite {
        inlet,
        width,
        selections,
        otherwise: last.source,
    })
}

impl Blueprint<'_> {
    // Where a place reads itself.
    fn own_source(&self, spot: &Spot<'_>, site: &Site<'_>, slot: &Slot) -> WordSource
        requires blueprint { IsBlueprint self.now }
        requires spot { IsSpot self.now.array spot.now }
        requires site { IsSiteOf self.now.array spot.now site.now }
        requires slot { IsSlotIn self.now.array
            spot.now.cell.0 spot.now.node.0 spot.now.piece.now.domain slot.now }
        requires entered { IsReadAt site.now.pipeline
            (view_piece spot.now.piece.now) slot.now.point }
        ensures { IsOwnSource (seen self.now.array) (lanes_of self.now.cells)
            (spot_of spot.now) slot.now.point slot.now.cycle site.now.place.site site.now.pipeline
            (view site.now.place.tree) result }
    {
        match self.array.origin(spot, site, slot) {
            Origin::Port(port) => WordSource::Input(port),
            Origin::Value { cell, delay } => WordSource::Line {
                lane: self.value_lane(cell),
                delay,
            },
            Origin::Number(word) => WordSource::Word(word.bits),
        }
    }

    /// The sources of a place without a helper, in the order of the computations.
    pub(crate) fn moments(
        &self,
        alloc: Global,
        counter: Counter,
        order: &[usize],
        spot: &Spot<'_>,
        site: &Site<'_>,
    ) -> Result<List<Moment>, Memory>
        requires blueprint { IsBlueprint self.now }
        requires counter { IsCounter counter }
        requires spot { IsSpot self.now.array spot.now }
        requires site { IsSiteOf self.now.array spot.now site.now }
        requires plain { site.now.pipeline ≡ None }
        requires order { IsInOrder (count_in counter) spot.now.slots order.now }
        ensures { IfOk result (AreMoments (count_in counter) spot.now.slots order.now Always
            (λ z c source. IsPlaceSource (seen self.now.array) (lanes_of self.now.cells)
            (spot_of spot.now) z c site.now.place.site (view site.now.place.tree) source)) }
    {
        let slots = spot.slots.as_slice();
        let mut moments = List::new(alloc);
        for k in order {
            let slot = &slots[*k];
            moments.push(Moment {
                number: counter.number(slot.cycle),
                source: self.own_source(spot, site, slot),
            })?;
        }
        Ok(moments)
    }

    // Where the helper's word at the point before is read.
    fn handed_source(&self, pipeline: &Pipeline, reading: TapReading) -> WordSource
        requires blueprint { IsBlueprint self.now }
        requires lane { HasHelper self.now reading.producer.0 pipeline.now.number }
        ensures { result ≡ Line ((lanes_of self.now.cells).of_helper
            pipeline.now.number reading.producer.0) reading.delay }
    {
        WordSource::Line {
            lane: self.helper_lane(HelperOn {
                cell: reading.producer,
                helper: pipeline.number,
            }),
            delay: reading.delay,
        }
    }

    // Appends the source of a place with a helper at one computation to those of others.
    fn add_pipeline_moment(
        &self,
        spot: &Spot<'_>,
        site: &Site<'_>,
        pipeline: &Pipeline,
        slot: &Slot,
        number: u32,
        moments: &mut PipelineMoments,
    ) -> Result<(), Memory>
        requires blueprint { IsBlueprint self.now }
        requires spot { IsSpot self.now.array spot.now }
        requires site { IsSiteOf self.now.array spot.now site.now }
        requires pipeline { site.now.pipeline ≡ Some pipeline.now }
        requires slot { IsSlotIn self.now.array
            spot.now.cell.0 spot.now.node.0 spot.now.piece.now.domain slot.now }
        ensures { OnOk result (AddsPipelineMoment (seen self.now.array)
            (lanes_of self.now.cells) (spot_of spot.now) site.now.place.site pipeline.now
            (view site.now.place.tree) slot.now number moments.old moments.new) }
    {
        let reading = self.array.handed(spot, site, pipeline, slot);
        let is_own = reading.is_some();
        moments.entry_marks.push(CounterMark {
            number,
            holds: !is_own,
        })?;
        moments.own_marks.push(CounterMark {
            number,
            holds: is_own,
        })?;
        match reading {
            Some(reading) => {
                let source = self.handed_source(pipeline, reading);
                moments.own.push(Moment { number, source })
            }
            None => {
                let source = self.own_source(spot, site, slot);
                moments.entries.push(Moment { number, source })
            }
        }
    }

    /// The sources of the word of a place's helper, in the order of the computations.
    pub(crate) fn pipeline_moments(
        &self,
        alloc: Global,
        counter: Counter,
        order: &[usize],
        spot: &Spot<'_>,
        site: &Site<'_>,
        pipeline: &Pipeline,
    ) -> Result<PipelineMoments, Memory>
        requires blueprint { IsBlueprint self.now }
        requires counter { IsCounter counter }
        requires spot { IsSpot self.now.array spot.now }
        requires site { IsSiteOf self.now.array spot.now site.now }
        requires pipeline { site.now.pipeline ≡ Some pipeline.now }
        requires order { IsInOrder (count_in counter) spot.now.slots order.now }
        ensures { IfOk result (ArePipelineMomentsTo (seen self.now.array) (count_in counter)
            (lanes_of self.now.cells) (spot_of spot.now) site.now.place.site pipeline.now
            (view site.now.place.tree) spot.now.slots order.now (length order.now)) }
    {
        let slots = spot.slots.as_slice();
        let mut moments = PipelineMoments {
            entries: List::new(alloc),
            own: List::new(alloc),
            entry_marks: List::new(alloc),
            own_marks: List::new(alloc),
        };
        for k in order {
            let slot = &slots[*k];
            let number = counter.number(slot.cycle);
            self.add_pipeline_moment(spot, site, pipeline, slot, number, &mut moments)?;
        }
        Ok(moments)
    }
}
