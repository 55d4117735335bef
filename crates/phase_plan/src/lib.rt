//! Which phases each group of a module has, over the module and its schedule: a definition, and no code yet. Read `specs/Outlines.antt` first (a phase without
//! its acts and cells, and those of a step), then `specs/Stages.antt` (what is evaluated before any element) and `specs/PhasesText.antt`.
#![tactic(auto)]

mod examples;
mod laws;

pub use examples::{
    assignments_examples, combinations_examples, masks_examples, reductions_examples,
};
pub use laws::groups_law;
