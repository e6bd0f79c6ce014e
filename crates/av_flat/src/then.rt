use crate::pass::{Feeds, Pass};
use std::alloc::Global;

/// One pass, and then another on what the first one gives.
#[derive(Clone, Copy, Debug, Drop)]
pub struct Then<A, B> {
    pub first: A,
    pub second: B,
}

/// Which of two passes refuses, with its fault.
#[derive(Clone, Copy, Debug, Drop)]
pub enum ThenFault<F, G> {
    First(F),
    Second(G),
}

impl<B: Pass, A: Feeds<B>> Pass for Then<A, B> {
    ghost use Rattle.av_flat.specs.Faults.{RefusesThen};
    ghost use Rattle.av_flat.specs.Shown.{same_meaning_trans};

    type In = A::In;

    type Out = B::Out;

    type Fault = ThenFault<A::Fault, B::Fault>;

    ghost takes = { λ from. A.takes from };

    ghost gives = { λ from to. (middle : B.In) × A.gives from middle × B.gives middle to };

    ghost refuses = { λ from fault. RefusesThen (λ f. A.refuses from f)
        (λ g. (middle : B.In) × A.gives from middle × B.refuses middle g) fault };

    fn run(&self, alloc: Global, from: &A::In) -> Result<B::Out, ThenFault<A::Fault, B::Fault>> {
        match self.first.run(alloc, from) {
            Ok(middle) => match self.second.run(alloc, &middle) {
                Ok(to) => Ok(to),
                Err(fault) => Err(ThenFault::Second(fault)),
            },
            Err(fault) => Err(ThenFault::First(fault)),
        }
    }

    ghost same = { λ from to takes gives. same_meaning_trans
        (A.In.shows from) (A.In.declares from) (B.In.shows gives.0) (B.In.declares gives.0)
        (B.Out.shows to) (B.Out.declares to) (A.same from gives.0 takes gives.1)
        (B.same gives.0 to (A.fits from gives.0 takes gives.1) gives.2) };
}

impl<C: Pass, B: Feeds<C>, A: Feeds<B>> Feeds<C> for Then<A, B> {
    ghost fits = { λ from to takes gives.
        B.fits gives.0 to (A.fits from gives.0 takes gives.1) gives.2 };
}
