ghost use Rattle.av_lanes.specs.Calls.{LanesFollow};

/// A law on lanes: a lane has after any calls the words that a clock of the same sound module has after the same calls with the lane's
/// values, those of ports and registers, and where they are settled, those of all names.
///
/// What a call does to a state, `Takes`, is what the clauses of the calls of `Lanes` say of each lane, and those of `Clock` of its words:
/// of `set` the clauses `port` and `others`, of `settle` the clauses `settled` and `given`, of `tick` and `reset` the clauses `edge` and
/// `ports`, and of each whether it leaves settled words. So lanes that are called take the calls by `LanesTake`, and a clock by `ClockTakes`.
/// After `new` all words are 0 in both, and they are alike.
pub fn lanes_follow()
    ensures { LanesFollow }
{}
