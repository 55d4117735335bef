//! Open blocks.
use crate::place::{Naming, Opening, Place};
use sqlite_items::Items;
use ws_tree::{Decl, Else, Expr, Stmt};

/// The part of a block that is read: the first one, or that of an ELSEWHERE, whose line and mask stand beside the parts in front of it.
#[derive(Drop)]
pub enum Part {
    First,
    Later(Items<Stmt>, Items<Else>, u32, Option<Expr>),
}

/// An open block: the line and words that begin it, the place and the statements around it, and the part that is read.
#[derive(Drop)]
pub struct Frame {
    pub line: u32,
    pub opening: Opening,
    pub place: Place,
    pub before: Items<Stmt>,
    pub part: Part,
}

/// What is read of a unit: the innermost place and its statements so far, the open blocks from the outermost on, the name and the declarations.
#[derive(Drop)]
pub struct State {
    pub place: Place,
    pub here: Items<Stmt>,
    pub frames: Items<Frame>,
    pub naming: Naming,
    pub decls: Items<Decl>,
}
