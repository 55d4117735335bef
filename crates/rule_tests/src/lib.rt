//! The rules on the form of one op: its operands, its result, and what its regions yield.
//!
//! Read `specs/Seen.antt` first (how the code has the values of a module).
#![tactic(auto)]

mod assignments;
mod forms;
mod kinds;
mod regions;
mod results;
mod table;
mod value;

pub use assignments::{realloc_fits, sides_fit, yields_fit};
pub use forms::operands_fit;
pub use kinds::{is_expression, is_mask, is_place, is_reference, is_section};
pub use regions::{ops_in, parts, parts_in};
pub use results::{have_rank, result_fits};
pub use table::{names_at, uses_of, values_of};
pub use value::{
    Source, Value, first_kind, is_allocatable_declare, is_designate, is_whole, value_at,
};
