//! The checks of a source: what is refused, at which line and why. Read `specs/Statements.antt` and `Checks.antt` first.
#![tactic(auto)]

mod checked;
mod checking;
mod decl;
mod laws;
mod stmt;
#[cfg(test)]
mod tests;
mod walk;
mod within;

pub use checked::{CheckEnd, Checked};
pub use checking::{check, first_fault};
pub use laws::{declaration_examples, expression_examples, statement_examples};
