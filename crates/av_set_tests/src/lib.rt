//! Tests of affine forms and maps, of sets and their bounds, and of flat systems, which call these crates as their users do.
//! They stand in a crate of their own, so that a check of the tests proves none of these crates a second time.
#![tactic(auto)]

#[cfg(test)]
mod affine;
#[cfg(test)]
mod elim;
#[cfg(test)]
mod flat;
#[cfg(test)]
mod poly;
#[cfg(test)]
mod sets;
