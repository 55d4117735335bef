//! Values in a lowered source are defined where they are used, and those of array expressions are used once. Read `specs/Laws.antt`.
#![tactic(auto)]

mod laws;

pub use laws::every_use_keeps_the_rules;
