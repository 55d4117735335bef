//! The plain evaluator: it computes what the definitions of a program's meaning say, statement by statement.
//! Read `specs/Machine.antt` first (a machine as the state of the meaning, and what a run makes of it).
#![tactic(auto)]

mod allocation;
mod declarations;
mod input;
mod machine;
mod program;
mod reading;
mod statements;

pub use program::evaluate;
