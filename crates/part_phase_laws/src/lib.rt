//! Reductions in parts: a Part, whose units leave partials, the Join behind it, and the Sets around both. Read `specs/Parts.antt`, then
//! `specs/Stretch.antt`.
#![tactic(auto)]

mod laws;

pub use laws::{part_law, reduction_law, stretch_law};
