//! A lowered expression means what its source means. Read `specs/Standing.antt`, then `specs/Laws.antt`.
#![tactic(auto)]

mod laws;

pub use laws::{
    calls_are_settled, calls_stand, constant_expressions_stand, constructors_stand, copies_stand,
    expressions_are_clear, expressions_stand, expressions_yield, inquiries_stand,
    names_and_constants_stand, names_stand, nested_calls_stand, operators_stand, reductions_stand,
    values_are_the_same, vector_subscripts_are_settled,
};
