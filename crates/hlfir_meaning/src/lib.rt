//! What a module of ops means. The whole meaning stands in specs/: begin with Environments, then Stage2, Stage1, Masks, Combinations,
//! Statements and Meaning.
#![tactic(auto)]

mod examples;

pub use examples::{
    arithmetic_examples, bodies_examples, combinations_examples, entries_examples, masks_examples,
    runs_examples, sections_examples,
};
