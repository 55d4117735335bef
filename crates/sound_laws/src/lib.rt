//! An expression in which no rule is broken can be lowered as the laws on values want it. Read `specs/Laws.antt`.
#![tactic(auto)]

mod laws;

pub use laws::accepted_expressions_are_sound;
