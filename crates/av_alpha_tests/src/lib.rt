//! Tests of the crates that read programs and check them, which call these as their users do. They stand in a crate of
//! their own, so that a check of the tests proves none of these crates a second time.
#![tactic(auto)]

#[cfg(test)]
mod answers;
#[cfg(test)]
mod asserts;
#[cfg(test)]
mod base;
#[cfg(test)]
mod check;
#[cfg(test)]
mod compile;
#[cfg(test)]
mod lex;
#[cfg(test)]
mod names;
#[cfg(test)]
mod normal;
#[cfg(test)]
mod parse;
#[cfg(test)]
mod serial;
