//! Which masks, right sides and addresses of a module are saved, and which targets are checked for duplicates. Read `specs/Saved.antt` first.
#![tactic(auto)]

mod counting;
mod duplicates;
mod entry;
mod harm;
mod item;
mod kinds;
mod look;
mod planning;
mod reach;
mod scheduling;
mod steps;
mod walk;
mod way;
mod writes;

pub use entry::{Planned, PlannedList, Schedule};
pub use scheduling::schedule;
pub use writes::left_side;
