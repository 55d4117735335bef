//! The ops of an act that evaluate values of a module at a place.
//!
//! Read `specs/Sections.antt` and `specs/Code.antt` first (which ops these are), then `specs/Standing.antt` (what they leave).
#![tactic(auto)]

mod body;
mod examples;
mod laws;
mod operand;
mod section;

pub use body::{add_body, add_op};
pub use examples::{backward_example, copy_example, stencil_example};
pub use laws::{leads_law, section_law, sound_law, value_law, walk_law};
pub use operand::{appended, fetch, fetch_all, seat_in, seat_of};
pub use section::Pick;
