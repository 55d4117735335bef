//! The ops around a place.

ghost use Rattle.std.specs.Prelude.{◌+◌, ◌-◌, ◌^◌, ◌<◌, vec_len, vec_capacity, length};
ghost use Rattle.hlfir_ops.specs.Numbers.{names_in};

use crate::kinds::ValueKind;
use crate::op::{Op, RegionList, ValueIdList};
use crate::what::What;

/// An op of which a region is entered, taken apart, and the ops before it at its place. These keep room for it, and its last region
/// stands for the one that is entered, so that leaving that takes no memory. `first` is the number of the first value in it, index names
/// counted.
#[derive(Debug, Drop)]
pub struct Entered {
    pub before: Vec<Op>,
    pub what: What,
    pub line: u32,
    pub operands: ValueIdList,
    pub kind: Option<ValueKind>,
    pub regions: RegionList,
    pub first: u32,
    ghost room: { vec_len before < vec_capacity before },
    ghost stands: { 0 < length regions },
    ghost counted: { first + length (names_in what (length regions - 1)) < 2 ^ 32 },
}
