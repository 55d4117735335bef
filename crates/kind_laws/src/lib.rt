//! A lowered expression has the kind of its type. Read `specs/Standing.antt`, then `specs/Laws.antt`.
#![tactic(auto)]

mod laws;

pub use laws::{
    declared_names_are_known, declares_and_regions_are_found, lowered_expressions_are_found,
    lowered_expressions_have_their_types,
};
