//! Tests of the command line, which call it as the program does. They stand in a crate of their own, so that a check of
//! the tests does not prove the command line a second time.
#![tactic(auto)]

#[cfg(test)]
mod answers;
#[cfg(test)]
mod bests;
#[cfg(test)]
mod checks;
#[cfg(test)]
mod demos;
#[cfg(test)]
mod designs;
#[cfg(test)]
mod eights;
#[cfg(test)]
mod emits;
#[cfg(test)]
mod faults;
#[cfg(test)]
mod pieces;
#[cfg(test)]
mod quantities;
#[cfg(test)]
mod runs;
#[cfg(test)]
mod schedules;
#[cfg(test)]
mod shows;
#[cfg(test)]
mod sims;
#[cfg(test)]
mod standard;
#[cfg(test)]
mod stimuli;
#[cfg(test)]
mod streams;
#[cfg(test)]
mod tables;
#[cfg(test)]
mod texts;
#[cfg(test)]
mod waves;
