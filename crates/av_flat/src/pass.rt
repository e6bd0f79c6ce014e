ghost use Rattle.std.specs.Prelude.{IfOk, IfErr};
ghost use Rattle.av_flat.specs.Shown.{Showing, Declaring, SameMeaning};

use std::alloc::Global;

/// A system that shows words at declared points.
pub trait Meant: Drop {
    /// For these inputs this point of this variable has this word.
    ghost shows: { Self → Showing };

    /// A variable of this kind and name has this declared point.
    ghost declares: { Self → Declaring };
}

/// A step from one system to another that shows the same.
pub trait Pass {
    type In: Meant;

    type Out: Meant;

    type Fault;

    /// The condition on what is given.
    ghost takes: { Self.In → Type 0 };

    /// Holds of what is given and each answer.
    ghost gives: { Self.In → Self.Out → Type 0 };

    /// Holds of what is given and each fault.
    ghost refuses: { Self.In → Self.Fault → Type 0 };

    /// The other system, or why there is none. The allocator gives all memory.
    fn run(&self, alloc: Global, from: &Self::In) -> Result<Self::Out, Self::Fault>
        requires takes { takes from.now }
        ensures gives { IfOk result (λ to. gives from.now to) }
        ensures refuses { IfErr result (λ fault. refuses from.now fault) }
        ensures same { IfOk result (λ to. SameMeaning (Self.In.shows from.now)
            (Self.In.declares from.now) (Self.Out.shows to) (Self.Out.declares to)) };

    /// What the one shows the other shows, and nothing else, and their declared points are the same.
    ghost same: { (from : Self.In) (to : Self.Out) → takes from → gives from to → SameMeaning
        (Self.In.shows from) (Self.In.declares from) (Self.Out.shows to) (Self.Out.declares to) };
}

/// A pass whose answers another pass takes.
pub trait Feeds<B: Pass>: Pass<Out = B::In> {
    ghost fits: { (from : Self.In) (to : B.In)
        → Self.takes from → Self.gives from to → B.takes to };
}
