ghost use Rattle.std.specs.Prelude.{◌≡◌, ◌≤◌, ◌^◌, length, unsigned_abs};
ghost use Rattle.av_affine.specs.Numbers.{dot, AtMost};
ghost use Rattle.av_flat.specs.Schedules.{cycle};

use arrayvec::ArrayVec;
use av_affine::dot;
use av_base::{List, Point};
use av_flat::Time;
use std::marker::Model;

/// When the points of a node are computed, and the rows by which their coordinates are taken.
#[derive(Debug, Drop)]
pub(crate) struct Placement {
    pub(crate) time: Time,
    pub(crate) rows: List<Point>,
}

impl Model for Placement {
    ghost use Rattle.av_space.specs.Coordinates.{Placing};

    ghost Value = { Placing };

    ghost view = { λ p. record { time = p.time; rows = p.rows } };
}

/// The cycle of a point at a time.
pub(crate) fn cycle_of(time: &Time, z: &Point) -> i128
    requires { AtMost 4095 z.now }
    ensures value { result ≡ cycle time.now z.now }
    ensures small { unsigned_abs result ≤ 2 ^ 106 }
{
    dot(time.linear.as_slice(), z.as_slice()) + i128::from(time.offset)
}

// The coordinate of a point by a row.
fn coordinate(row: &Point, z: &Point) -> i64
    requires row { AtMost 1 row.now }
    requires small { AtMost 4095 z.now }
    ensures value { result ≡ dot row.now z.now }
    ensures small { unsigned_abs result ≤ 16380 }
{
    dot(row.as_slice(), z.as_slice()) as i64
}

impl Placement {
    ghost use Rattle.av_space.specs.Coordinates.{IsPlacing, along};

    /// The cycle of a point.
    pub(crate) fn cycle(&self, z: &Point) -> i128
        requires { AtMost 4095 z.now }
        ensures value { result ≡ cycle self.now.time z.now }
        ensures small { unsigned_abs result ≤ 2 ^ 106 }
    {
        cycle_of(&self.time, z)
    }

    /// The coordinates of a point.
    pub(crate) fn coordinates(&self, z: &Point) -> Point
        requires placing { IsPlacing self.now }
        requires few { length self.now.time.linear ≤ 4 }
        requires fits { length z.now ≤ 4 }
        requires small { AtMost 4095 z.now }
        ensures value { result ≡ along self.now.rows z.now }
        ensures small { AtMost 16380 result }
    {
        let mut entries: ArrayVec<i64, 4> = ArrayVec::new();
        for row in self.rows.as_slice() {
            entries.push(coordinate(row, z));
        }
        Point::from_slice(entries.as_slice())
    }
}
