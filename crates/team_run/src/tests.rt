//! Teams over small regions and large ones.

mod boards;
mod limits;
mod loops;
mod reductions;
mod shifts;
