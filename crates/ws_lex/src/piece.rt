//! What one layer hands to the next: lines, the cells of a text, and pieces.

use crate::token::Sign;
use sqlite_items::Items;

/// A line without statement text, one that begins `!$` and a blank, one that begins `!$omp`, and any other.
#[derive(Clone, Copy, Debug, PartialEq, Eq)]
pub enum LineKind {
    Blank,
    Conditional,
    Directive,
    Code,
}

/// What stands of a statement that goes on: its text so far, and the line of the `&`.
#[derive(Drop)]
pub struct Front {
    pub text: Items<Cell>,
    pub waits: Option<u32>,
}

/// The text of a source, and the line after its last.
#[derive(Drop)]
pub struct Text {
    pub cells: Items<Cell>,
    pub end: u32,
}

/// A byte of the text, and the line on which it stands.
#[derive(Clone, Copy, Debug, PartialEq, Eq)]
pub struct Cell {
    pub byte: u8,
    pub line: u32,
}

/// What a piece of the text is: a token, the `;` after a statement, a blank, or what breaks the source form.
#[derive(Clone, Copy, Debug, PartialEq, Eq)]
pub enum Shape {
    Word,
    Digits,
    Sign(Sign),
    Foreign,
    Directive,
    Separator,
    Blank,
    Broken,
}

/// The piece at the front of a text: how many bytes it has, and what it is.
#[derive(Clone, Copy, Debug, PartialEq, Eq)]
pub struct Spelled {
    pub size: usize,
    pub shape: Shape,
}
