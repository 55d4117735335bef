//! What is decided for a module.

use sqlite_items::Items;

pub type PlannedList = Items<Planned>;

/// The decision for a mask, or for an assignment to an array or an element of one. `saved` says that the mask, or the right side, is kept in
/// a temporary before any store; `addresses` that so are the targets' addresses; `dup` that these are checked for duplicates. The op's place
/// counts from 0 in printed order. For a mask `addresses` and `dup` are false.
#[derive(Clone, Copy, Debug, PartialEq, Eq)]
pub struct Planned {
    pub line: u32,
    pub mask: bool,
    pub saved: bool,
    pub addresses: bool,
    pub dup: bool,
    pub first_op: u32,
}

/// The decisions for a module, in printed order.
#[derive(Debug, Drop)]
pub struct Schedule {
    pub steps: PlannedList,
}
