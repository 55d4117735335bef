//! The modules of accepted sources keep the limits. Read `specs/Laws.antt`.
#![tactic(auto)]

mod laws;

pub use laws::every_lowered_op_keeps_the_limits;
