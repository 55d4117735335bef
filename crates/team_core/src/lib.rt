//! The core: a team over a list of phases, as a pure machine of nine steps.
//!
//! Read `specs/Core.antt` first (the state and what is sound), then `specs/Runs.antt` (the steps) and `specs/Laws.antt`.
#![tactic(auto)]

pub mod laws;
mod machine;
mod member;
mod rehearsal;
pub mod samples;
mod scratch;
mod state;
mod steps;
mod team;
#[cfg(test)]
mod tests;
mod units;

pub use machine::{Machine, NotNow, UnitWork};
pub use member::{MemberState, StepKind};
pub use state::{CellList, CoreState, Counts, CountsList, Member, MemberList, Numbers};
pub use team::Core;
pub use units::{count_of, longest};
