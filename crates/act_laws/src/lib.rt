//! What the ops of an act do at many places, each op at all of them and then the next op, and how that follows a meaning.
//!
//! Read `specs/Together.antt` first (`Follows`), then `specs/Seats.antt` (where values stand) and `specs/Strands.antt` (one place and many).
#![tactic(auto)]

mod laws;
mod seat;

pub use laws::{digits_law, fetch_law, loop_law, places_law, strand_law, words_law};
pub use seat::{Seat, Seated};
