//! A team of passes over a board: each thread drives its own, and a caller may drive many.
//!
//! Read `specs/Teams.antt` first: what holds of passes that may be driven.
#![tactic(auto)]

mod gate;
mod team;
#[cfg(test)]
mod tests;
mod turn;

pub use gate::{CountGate, Gate, HoldGate};
pub use team::{run_region, work};
