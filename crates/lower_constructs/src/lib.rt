//! Lowering of whole sources. Read `specs/Modules.antt` first.
#![tactic(auto)]

mod constructs;
mod headers;
mod sources;

pub use sources::lowered;
