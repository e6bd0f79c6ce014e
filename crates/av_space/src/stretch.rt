//! Links of one tap site on one cell: the stretches of its readings.

ghost use Rattle.std.specs.Prelude.{◌≡◌, ◌↔◌, [], ◌∷◌, ◌++◌, IsTrue, OnOk};
ghost use Rattle.av_space.specs.inner.Stretches.{HasLinks, IsAt, Told, AreByCycle};

use crate::cells::Link;
use crate::numbers::CellNumber;
use av_base::{List, Memory};

/// In this cycle a tap site reads what the producer had some cycles before.
#[derive(Clone, Copy, Debug, PartialEq, Eq)]
pub struct TapReading {
    pub cycle: u32,
    pub producer: CellNumber,
    pub delay: u32,
}

/// A tap site on a cell: the cell, which reads, and the number of the site among those of its node.
#[derive(Clone, Copy)]
pub(crate) struct TapAt {
    pub(crate) consumer: CellNumber,
    pub(crate) site: u32,
}

// The link that begins with a reading.
fn begun(at: TapAt, reading: &TapReading) -> Link
    ensures { result ≡ record {
      consumer = at.consumer.0;
      producer = reading.now.producer.0;
      site = at.site;
      delay = reading.now.delay;
      first = reading.now.cycle;
      last = reading.now.cycle;
    } }
{
    Link {
        consumer: at.consumer.0,
        producer: reading.producer.0,
        site: at.site,
        delay: reading.delay,
        first: reading.cycle,
        last: reading.cycle,
    }
}

// Whether the reading has the producer and the delay of the link.
fn continues(link: &Link, reading: &TapReading) -> bool
    ensures { IsTrue result ↔ ((reading.now.producer.0 ≡ link.now.producer)
        × (reading.now.delay ≡ link.now.delay)) }
{
    reading.producer.0 == link.producer && reading.delay == link.delay
}

// The link up to a later cycle.
fn prolonged(link: Link, cycle: u32) -> Link
    ensures { result ≡ record link { last = cycle } }
{
    Link {
        last: cycle,
        ..link
    }
}

/// Appends the links of a tap site: the stretches of its readings.
pub(crate) fn site_links(
    at: TapAt,
    readings: &[TapReading],
    links: &mut List<Link>,
) -> Result<(), Memory>
    requires { AreByCycle readings.now }
    ensures { OnOk result
        (HasLinks (Told readings.now) (IsAt at.consumer.0 at.site) links.old links.new) }
{
    let Some((first, rest)) = readings.split_first() else {
        return Ok(());
    };
    let mut last = begun(at, first);
    for reading in rest {
        if continues(&last, reading) {
            last = prolonged(last, reading.cycle);
        } else {
            links.push(last)?;
            last = begun(at, reading);
        }
    }
    links.push(last)
}
