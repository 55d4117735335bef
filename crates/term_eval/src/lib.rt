//! The plain evaluator: it computes what the definitions of a program's meaning say, step by step. Here are the expressions of a step:
//! its first stage (`walk`, `left_side`), its conformance (`operands`, `agreed`) and its second stage (`values`, `targets`).
//! Read `specs/Limits.antt` first (what keeps each number within its type), then `specs/Made.antt` (what a computation gives).
#![tactic(auto)]

mod designators;
mod expressions;
mod inquiries;
mod left_sides;
mod maps;
mod names;
mod operand_shapes;
mod places;
mod shapes;
mod stop;
mod terms;
#[cfg(test)]
mod tests;

pub use expressions::{scalar, walk};
pub use inquiries::{inquiry, is_inquiry};
pub use left_sides::{Target, left_side};
pub use maps::{binary_map, call_map, everywhere, same_value, unary_map};
pub use names::{allocated, constant_of, state_of};
pub use operand_shapes::{count, operands};
pub use places::{elements_over, targets_over};
pub use shapes::{Extents, agreed, all_places, dims_of, is_too_large};
pub use stop::Stop;
pub use terms::{beyond, targets, triplet_column, values, whole};
