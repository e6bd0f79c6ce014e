//! How far readers are ahead of what they read.

ghost use Rattle.std.specs.Prelude.{◌≡◌, ◌≤◌, ◌<◌, ◌^◌, ◌*ℤ◌, length, unsigned_abs, All};
ghost use Rattle.av_affine.specs.Numbers.{dot, AtMost};
ghost use Rattle.av_sched.specs.Leads.{lead, IsLeastLead, IsSmallPoint, IsSmallPart, IsSmallMap, IsUsable, IsArcOf};

use crate::arc::Arc;
use av_affine::Map;
use av_base::Point;
use av_depend::Edge;

// The product of small numbers.
fn product(a: i64, b: i64) -> i64
    requires first { unsigned_abs a ≤ 4 }
    requires second { unsigned_abs b ≤ 2 ^ 25 }
    ensures value { result ≡ a *ℤ b }
    ensures small { unsigned_abs result ≤ 2 ^ 27 }
{
    a * b
}

/// The sum of the products of numbers.
pub fn products(linear: &[i64], z: &[i64]) -> i64
    requires linear { AtMost 4 linear.now }
    requires z { AtMost (2 ^ 25) z.now }
    requires fits { length z.now ≤ 4 }
    requires sizes { length z.now ≤ length linear.now }
    ensures value { result ≡ dot linear.now z.now }
    ensures small { unsigned_abs result ≤ 2 ^ 29 }
{
    let mut sum: i64 = 0;
    for k in 0..z.len() {
        let term = product(linear[k], z[k]);
        sum += term;
    }
    sum
}

/// How far the reader is ahead at a point, before offsets are added.
pub(crate) fn lead_at(consumer: &Point, producer: &Point, map: &Map, z: &Point) -> i64
    requires consumer { IsSmallPart (length z.now) consumer.now }
    requires producer { IsSmallPart (length producer.now) producer.now }
    requires map { IsSmallMap (length z.now) (length producer.now) map.now }
    requires point { AtMost 4095 z.now }
    ensures value { result ≡ lead consumer.now producer.now map.now z.now }
    ensures small { unsigned_abs result ≤ 2 ^ 30 }
{
    let image = map.apply(z);
    products(consumer.as_slice(), z.as_slice()) - products(producer.as_slice(), image.as_slice())
}

// The least lead over points.
fn least_lead(consumer: &Point, producer: &Point, map: &Map, points: &[Point]) -> i64
    requires consumer { IsSmallPart (length consumer.now) consumer.now }
    requires producer { IsSmallPart (length producer.now) producer.now }
    requires map { IsSmallMap (length consumer.now) (length producer.now) map.now }
    requires some { 0 < length points.now }
    requires points { All (IsSmallPoint (length consumer.now)) points.now }
    ensures value { IsLeastLead consumer.now producer.now map.now points.now result }
    ensures small { unsigned_abs result ≤ 2 ^ 30 }
{
    let mut least = lead_at(consumer, producer, map, &points[0]);
    for k in 1..points.len() {
        let next = lead_at(consumer, producer, map, &points[k]);
        least = least.min(next);
    }
    least
}

/// The edge as a difference of offsets: what the reader's offset is at least above that of what it reads.
pub(crate) fn arc_of(edge: &Edge, linear: &[Point]) -> Arc
    requires { IsUsable linear.now edge.now }
    ensures { IsArcOf linear.now edge.now result }
{
    let consumer = edge.consumer as usize;
    let producer = edge.producer as usize;
    let least = least_lead(
        &linear[consumer],
        &linear[producer],
        &edge.map,
        edge.points.as_slice(),
    );
    Arc {
        reader: consumer,
        read: producer,
        weight: 1 - least,
    }
}
