//! The attributes of a declaration.
use ws_lex::Token;

/// The attributes of a declaration. `dimension` begins with the shape of the last DIMENSION; without one there are no tokens.
#[derive(Clone, Copy)]
pub struct Attributes<'a> {
    pub constant: bool,
    pub allocatable: bool,
    pub dimension: &'a [Token],
    pub some: bool,
}
