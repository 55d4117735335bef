//! Tokens, and the answers of the crate.

use sqlite_items::Items;
use ws_base::Name;

/// An operator, a bracket, a mark or a truth value. A relation has one sign for both of its spellings, as `==` and `.eq.` (Fortran 2018, 10.1.5.5).
#[derive(Clone, Copy, Debug, PartialEq, Eq)]
pub enum Sign {
    Plus,
    Minus,
    Star,
    Slash,
    Power,
    Equal,
    NotEqual,
    Less,
    LessEqual,
    Greater,
    GreaterEqual,
    Not,
    And,
    Or,
    Eqv,
    Neqv,
    True,
    False,
    Open,
    Close,
    OpenSquare,
    CloseSquare,
    OpenSlash,
    CloseSlash,
    Comma,
    Colon,
    DoubleColon,
    Becomes,
}

/// What a token is. `Foreign` is one that makes its statement unsupported: a real literal, quoted text, a literal with a kind, `%`, `=>`, `//`, the `&` of a directive that would go on, or a whole line that begins `!$` and a blank (OpenMP 5.2, 3.3).
/// `Word` is a name or keyword in lower case of at most 63 bytes, and `Digits` a digit string of any length.
/// `Directive` stands where a directive line begins, in place of its `!$omp`, and `End` after the last statement of a source.
#[derive(Debug, Drop)]
pub enum TokenKind {
    Word(Name),
    Digits(Name),
    Sign(Sign),
    Foreign,
    Directive,
    End,
}

/// A token, with the line of its first byte, from 1. `ends` marks the last one of a statement.
#[derive(Debug, Drop)]
pub struct Token {
    pub line: u32,
    pub ends: bool,
    pub what: TokenKind,
}

pub type TokenList = Items<Token>;

/// Why a source has no tokens. `line` is the first line that breaks the source form, and `before` has the statements that end on a line before it.
#[derive(Debug, Drop)]
pub enum LexEnd {
    Syntax { line: u32, before: TokenList },
    Memory,
}
