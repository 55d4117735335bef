//! What lists of phases do, one behind the other. Read `specs/Laws.antt`, then `specs/Lists.antt`.
#![tactic(auto)]

mod laws;

pub use laws::{joins_law, list_law};
