//! Bodies and lists in the module of an accepted source hold what they may. Read `specs/Laws.antt`.
#![tactic(auto)]

mod laws;

pub use laws::{bodies_hold_what_they_may, lists_hold_what_they_may};
