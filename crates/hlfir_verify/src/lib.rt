//! Whether a module keeps the rules of its ops: those on statements, and the walk that joins all. Read `specs/Rules.antt` of `hlfir_ops`
//! first.
#![tactic(auto)]

mod broken;
mod check;
mod defined;
mod ending;
mod going;
mod keeping;
mod laws;
mod lists;
mod look;
mod masks;
mod statements;
#[cfg(test)]
mod tests;
mod walk;

pub use check::verify;
pub use ending::{Rule, VerifyEnd};
pub use keeping::Verified;
pub use laws::{each_module_has_one_answer, ops_are_judged_in_printed_order};
