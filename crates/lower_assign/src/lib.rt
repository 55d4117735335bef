//! Lowering of left sides, assignments, ALLOCATE, DEALLOCATE and READ to ops. Read `specs/Statements.antt` first; `lower_values` lowers
//! expressions.
#![tactic(auto)]

mod known;
mod lowering;
mod sides;
mod statements;

pub use known::names_of;
pub use lowering::{lower_left, lower_plain, lower_value};
pub use sides::yield_value;
pub use statements::plain;
