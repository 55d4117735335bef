//! An assignment and a WHERE mean what their sources mean, where expressions and left sides do. Read `specs/Laws.antt`, then `specs/Steps.antt`.
#![tactic(auto)]

mod laws;

pub use laws::{assignments_and_wheres_mean, terms_have_their_ranks};
