//! The steps of the plain evaluator: an assignment, the steps of a WHERE, and a FORALL, each as the definitions of the meaning have it.
//! Read `specs/Halts.antt` first (what a step gives or leaves), then `specs/Masked.antt` and `specs/Forall.antt`.
#![tactic(auto)]

mod assignment;
mod combinations;
mod construct;
mod events;
mod faults;
mod forall;
mod halt;
mod header;
mod masked;
mod masks;
mod replace;
mod shaped;
mod vars;
mod where_construct;

pub use assignment::{assign, every_place, stored, target_name};
pub use construct::{MaskTerm, Places, Under};
pub use events::{AssignmentOf, Event, MaskOf};
pub use faults::at_lines;
pub use forall::run_forall;
pub use halt::Halt;
pub use header::stepping;
pub use replace::store;
pub use shaped::{dims_held, extents_of, kept};
pub use vars::{is_logical, set_state};
pub use where_construct::run_where;
pub use ws_space::shape_from;
