//! A module as text.
//!
//! Read `specs/ModuleText.antt` first (the text of a module), then `specs/OpText.antt` (what each op adds).
#![tactic(auto)]

mod form;
mod head;
mod kind;
mod operands;
mod printing;
#[cfg(test)]
mod tests;
mod words;

pub use printing::print;
