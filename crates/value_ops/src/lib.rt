//! Operators, elemental calls and reductions on single values of default INTEGER and LOGICAL. A LOGICAL value is 0 or 1. Each
//! function gives the exact result, or Overflow where that is out of range. Read specs/Numbers.antt of `ws_base` first (what each
//! of them gives).
#![tactic(auto)]

mod calls;
mod operators;
mod reductions;

pub use calls::call_value;
pub use operators::{binary_value, in_kind, is_true, truth, unary_value};
pub use reductions::reduction;
