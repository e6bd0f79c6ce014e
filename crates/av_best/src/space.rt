use crate::span::PartSpan;
use av_base::List;
use av_depend::Edge;
use av_flat::{Flat, Reach};
use av_sched::{Price, Scratch, SearchPlan, Witness};

// What is searched: a system with its edges, the box, all nodes, and of each node the parts that it can have in the box, with
// what they cost and how far they reach.
#[derive(Drop)]
pub(crate) struct SearchSpace<'a> {
    pub flat: &'a Flat,
    pub edges: &'a [Edge],
    pub reach: Reach,
    pub nodes: &'a [u32],
    pub plan: &'a SearchPlan,
    pub table: &'a [List<PartSpan>],
}

// What the parts of the first nodes cost, and a number of cycles that no schedule with them is below.
#[derive(Clone, Copy, Debug)]
pub(crate) struct Estimate {
    pub spent: Price,
    pub cycles: u64,
}

// Witnesses by which most choices are seen to have no schedule, and memory for their tests.
#[derive(Debug, Drop)]
pub(crate) struct Pool {
    pub witnesses: Vec<Witness>,
    pub scratch: Scratch,
}
