//! A lowered program means what its source means, where its scalars, left sides, assignments and constructs do. Read `specs/Laws.antt`.
#![tactic(auto)]

mod laws;

pub use laws::{parts_make_programs, worlds_fit_names};
