//! The ops of an iteration, run wherever its loads and stores go.
//!
//! `Site` says where. Read `specs/Sites.antt` first (what is left to do at a site, and what may be read there), then
//! `specs/Strands.antt` (what is known where a strand begins).
#![tactic(auto)]

mod acts;
mod chunks;
mod joins;
mod number;
mod ops;
mod parts;
mod site;
mod strands;
#[cfg(test)]
mod tests;
mod values;

pub use acts::run_acts;
pub use chunks::Chunks;
pub use joins::run_join;
pub use number::{binary_value, unary_value};
pub use parts::run_part;
pub use site::{End, Site, Worth};
pub use strands::{run_strand, run_strands, strands_of, units_of};
pub use values::value_at;
