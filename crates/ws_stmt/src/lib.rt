//! The forms of statements, from the tokens of one statement: exact against the grammar (Fortran 2018, 5.1; OpenMP 5.2, 11.4).
//! Read `specs/Roles.antt`, then `Statements.antt`.
#![tactic(auto)]

mod attributes;
mod built;
mod declare;
mod form;
mod list;
mod part;
mod role;
mod statement;
mod token;
mod words;

pub use form::{Attribute, Form, Said, Start};
pub use role::{
    Block, Role, assigns, has_foreign, is_crowded, is_left_out, is_left_out_by_words, role_of,
};
pub use statement::say;
