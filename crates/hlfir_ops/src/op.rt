//! Ops, regions and modules.

use crate::kinds::ValueKind;
use crate::what::What;
use sqlite_items::Items;
use ws_base::Name;

pub type ValueIdList = Items<ValueId>;

pub type OpList = Items<Op>;

pub type RegionList = Items<Region>;

/// The number of a value.
#[derive(Clone, Copy, Debug, PartialEq, Eq)]
pub struct ValueId {
    pub number: u32,
}

/// An op. It gives a value exactly where it has a kind. The operands of a yield and of a designator are its values from left to right.
#[cycle(op)]
#[derive(Debug, Drop)]
pub struct Op {
    pub what: What,
    pub line: u32,
    pub operands: ValueIdList,
    pub kind: Option<ValueKind>,
    pub regions: Items<Region>,
}

/// Ops inside an op.
#[cycle(op)]
#[derive(Debug, Drop)]
pub struct Region {
    pub ops: Items<Op>,
}

/// A program's ops, from its declarations on.
#[derive(Debug, Drop)]
pub struct Module {
    pub name: Name,
    pub ops: OpList,
}
