//! Laws of accepted programs.
//! Read `specs/Laws.antt` first (that the numbers of every accepted program fit).
#![tactic(auto)]

mod laws;

pub use laws::every_accepted_program_is_small;
