//! Laws of the grammar.
#![tactic(auto)]

mod laws;

pub use laws::every_tree_is_grammatical;
