//! The limits on a module, and what they count: ops in printed order, the phases and temporaries of statements. Read
//! `specs/RulesLimits.antt` of `hlfir_ops` first.
#![tactic(auto)]

mod around;
mod limits;
mod order;
mod tally;

pub use around::{Around, OUTERMOST, around_in};
pub use limits::{declares, limits_fit};
pub use order::{ops_in_order, ops_inside};
