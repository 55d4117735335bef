//! The phases of a group of statements, and what each does to the cells of a region's memory.
//!
//! Read `specs/Phases.antt` first (the effects of a phase), then `specs/Free.antt` (free of races) and
//! `specs/Laws.antt` (what holds of every such phase).
#![tactic(auto)]

mod effect;
mod faults;
mod laws;
mod phase;
#[cfg(test)]
mod tests;

pub use effect::{Effect, Turn};
pub use faults::fault_of;
pub use laws::{frame_law, key_law, race_law, strand_law};
pub use phase::{
    Act, ActList, Address, Group, GroupList, Label, Layout, Micro, MicroList, OneOp, Phase,
    PhaseList, Range, RangeList, ScalarOp, Source, Term, TermList,
};
