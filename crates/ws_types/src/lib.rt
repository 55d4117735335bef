//! What names stand for, constants, types and ranks of expressions with the faults in them, and the least fault. Beside
//! it, in specs/: the steps of a statement, which the checks, the meaning and the schedule all count.
//! Read `specs/Kinds.antt` first, then `Names`, `Expressions` and `Steps`.
#![tactic(auto)]

mod constant;
mod least;
mod names;
mod operations;
mod tables;
mod types;
mod typing;

pub use constant::{
    Constancy, Constant, check_constant, evaluate, is_arithmetic, is_sign, joined, signed,
    truth_constancy, value_of,
};
pub use least::note;
pub use names::{
    check_name, check_target, is_active, is_constant, is_no_allocatable, name_type, standing_of,
    target_type,
};
pub use operations::{check_scalar, is_above, is_inquiry, is_other_type, is_reduction};
pub use tables::{push_rows, with_indexes};
pub use types::{Arguments, Entry, Row, Standing, Subscripts, Typed};
pub use typing::{expr, subs_of, triplet_part};
