//! Tests of the crates that schedule systems and make arrays of them, which call these as their users do. They stand in a
//! crate of their own, so that a check of the tests proves none of these crates a second time.
#![tactic(auto)]

#[cfg(test)]
mod asserts;
#[cfg(test)]
mod best;
#[cfg(test)]
mod build;
#[cfg(test)]
mod data;
#[cfg(test)]
mod depend;
#[cfg(test)]
mod kernels;
#[cfg(test)]
mod lanes;
#[cfg(test)]
mod pipe;
#[cfg(test)]
mod sched;
#[cfg(test)]
mod streams;
