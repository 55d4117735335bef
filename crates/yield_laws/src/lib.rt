//! What the regions of a lowered source yield, and where its declares stand. Read `specs/Laws.antt`.
#![tactic(auto)]

mod laws;

pub use laws::{
    each_assignment_keeps_its_sides, each_declare_keeps_its_place, each_region_yields_its_form,
};
