//! Arrays in array element order, and the state of a program. Read specs/Shapes.antt first (what a shape, a place and a count are).
#![tactic(auto)]

mod elements;
mod laws;
mod selection;
mod shape;
mod state;
#[cfg(test)]
mod tests;

pub use elements::{is_shape, next_subscripts, place, shape_from, size, subscripts_at};
pub use laws::{
    a_place_is_a_position, each_target_takes_its_value, other_elements_stay,
    the_count_is_the_number_of_subscripts, the_first_repeated_target_is_found,
    the_size_is_the_number_of_elements,
};
pub use selection::count;
pub use shape::{Dim, ELEMENT_LIMIT, Shape, Subs, Triplet};
pub use state::{ArrayValue, Ended, State, ValueList, Var, VarList, VarState};
