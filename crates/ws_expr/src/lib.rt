//! Expressions, from tokens to their trees (Fortran 2018, 10.1.2): exact against the grammar.
//! Read `specs/Grammar.antt`, then `Readings.antt` and `Ranks.antt`.
#![tactic(auto)]

mod calls;
mod operators;
mod parse;
mod reading;
#[cfg(test)]
mod tests;

pub use calls::Callee;
pub use parse::{Failed, after, expression, subs, whole};
pub use reading::{Gathered, Reading, node};
