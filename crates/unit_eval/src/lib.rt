//! A unit of a phase, run on a board by the pass that claimed it.
//!
//! Read `specs/Sites.antt` first: how far a pass is in its unit.
#![tactic(auto)]

mod site;
mod unit;

pub use unit::run_unit;
