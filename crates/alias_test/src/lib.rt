//! Which elements of a variable a designator names, and whether two designators name the same ones, none in common, or may do either. Read
//! `specs/Relations.antt` and `specs/Normal.antt` first.
#![tactic(auto)]

mod constants;
mod designator;
mod euclid;
mod laws;
mod listing;
mod meeting;
mod normal_form;
mod relating;
mod run;
mod symbol;
mod table;
#[cfg(test)]
mod tests;
mod tree;
mod variable;

pub use designator::{Designator, Form, FormList, Relation, Sym, SymList};
pub use laws::{
    disjoint_have_no_element_in_common, each_has_its_dimensions, each_is_of_a_declare,
    same_have_the_same_elements,
};
pub use normal_form::{designator_in, designator_of};
pub use relating::relate;
pub use table::givers;
