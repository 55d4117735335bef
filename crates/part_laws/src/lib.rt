//! A lowered designator means what its source means. Read `specs/Selects.antt`, `specs/Laws.antt`, then `specs/Joined.antt`.
#![tactic(auto)]

mod laws;

pub use laws::{
    designators_select, left_regions_reach, left_sides_are_the_same, only_names_are_variables,
    parts_stand, regions_yield, selections_are_the_same, subscripts_are_taken, subscripts_select,
    whole_expressions_stand, whole_parts_stand,
};
