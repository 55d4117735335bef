//! What statements and regions count, and the limits on it. Read `specs/Counts.antt` and `Limits.antt` first.
#![tactic(auto)]

mod expressions;
mod limits;
mod statements;
mod tally;

pub use limits::check_limits;
