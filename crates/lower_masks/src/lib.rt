//! The module of a source, as one that keeps the rules of its ops. `lower_constructs` defines it, and `specs/Laws.antt` says what holds of it.
#![tactic(auto)]

mod laws;
mod lowering;

pub use laws::{every_module_keeps_the_rules, every_module_means_its_source};
pub use lowering::lower;
