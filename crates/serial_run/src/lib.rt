//! A phase run by one thread alone, in order, over a memory's cells.
//!
//! Read `specs/Hands.antt` first: how far a unit is.
#![tactic(auto)]

mod hand;
mod run;
mod site;
#[cfg(test)]
mod tests;

pub use run::run_phase;
