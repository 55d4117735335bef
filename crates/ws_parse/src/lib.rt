//! From the tokens of a source to its tree (Fortran 2018, 5.1; OpenMP 5.2, 11.4).
//! Read `specs/Turns.antt`, then `Blocks.antt`; the forms of statements are those of `ws_stmt`.
#![tactic(auto)]

mod advance;
mod frame;
mod place;
mod step;
#[cfg(test)]
mod tests;
mod turn;
mod unit;
mod walk;

pub use frame::{Frame, Part, State};
pub use place::{Move, Naming, Opening, Place, move_of};
pub use turn::{Turn, turn_of};
pub use unit::{parse, parse_front};
pub use walk::{ParseEnd, Walked};
