//! Which cells belong to the variables of a module, and how cells stand for a state.
//!
//! Read `specs/Layouts.antt` first (who owns which cells).
#![tactic(auto)]

mod groups;
mod laws;
mod needs;
mod owners;
mod rows;
mod sizes;
#[cfg(test)]
mod tests;
mod variables;

pub use groups::{groups_of, is_region};
pub use laws::{
    effects_law, frame_law, matter_law, others_law, pack_law, replace_law, room_law, unowned_law,
    unpack_law, update_law,
};
pub use needs::Needs;
pub use owners::{layout, region_layout};
