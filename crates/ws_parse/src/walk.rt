//! The answers of the crate.
use ws_base::Refusal;
use ws_tree::Tree;

/// What the statements of a source are: a unit, a unit up to a statement on this line that is not of the grammar in its place, or the beginning of a unit.
#[derive(Drop)]
pub enum Walked {
    Unit(Tree),
    Bad(u32),
    Early,
}

/// Why tokens have no tree: a refusal of kind Syntax, or want of memory.
#[derive(Drop)]
pub enum ParseEnd {
    Refused(Refusal),
    Memory,
}
