//! The region of an expression or of a left side means what its source means, in a world that the names fit. Read
//! `specs/Laws.antt`, and `world_laws/specs/Yields.antt` for what is stated.
#![tactic(auto)]

mod laws;

pub use laws::{names_agree, regions_mean};
