//! The source form: from the bytes of a source to its tokens (Fortran 2018, 6.2 and 6.3; OpenMP 5.2, 3.1).
//! Read `specs/Lines.antt`, `Text.antt`, `Spelling.antt` and `Tokens.antt`, in this order.
#![tactic(auto)]

mod laws;
mod lex;
mod line;
mod piece;
mod spell;
#[cfg(test)]
mod tests;
mod text;
mod token;

pub use laws::{
    nothing_is_passed_over, the_longest_token_is_taken, the_token_taken_is_spelled,
    worked_rows_hold,
};
pub use lex::tokens;
pub use piece::{Cell, Front, LineKind, Shape, Spelled, Text};
pub use token::{LexEnd, Sign, Token, TokenKind, TokenList};
