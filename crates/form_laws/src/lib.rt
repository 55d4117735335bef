//! Each op of a lowered source has the regions, operands and result of its form. Read `specs/Laws.antt`.
#![tactic(auto)]

mod laws;

pub use laws::every_op_has_its_form;
