//! The merging of what the units of a reduction have found (Fortran 2018, 16.9: ALL, ANY, COUNT, MAXVAL, MINVAL, PRODUCT,
//! SUM).
//!
//! The definitions stand in `phase_ops`, `specs/Partials.antt`: the partial of some values, how two are merged, and the total.
#![tactic(auto)]

mod laws;
mod merge;
mod part;
#[cfg(test)]
mod tests;

pub use laws::merging_law;
pub use merge::Merge;
pub use part::{AllPart, AnyPart, CountPart, MaxvalPart, MinvalPart, ProductPart, SumPart};
