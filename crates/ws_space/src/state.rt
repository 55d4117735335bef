//! The state of a program.

use crate::shape::Shape;
use sqlite_items::Items;
use ws_base::{Fault, Name};

/// Values in array element order. A LOGICAL value is 0 or 1.
pub type ValueList = Items<i64>;

/// The variables in order of declaration.
pub type VarList = Items<Var>;

/// An array's shape and values, as many as its size.
#[derive(Debug, Drop)]
pub struct ArrayValue {
    pub shape: Shape,
    pub values: ValueList,
}

/// What a variable holds.
#[derive(Debug, Drop)]
pub enum VarState {
    Scalar(i64),
    Array(ArrayValue),
    Unallocated { rank: u32 },
}

/// A variable, which is LOGICAL where `truth` is true and INTEGER elsewhere.
#[derive(Debug, Drop)]
pub struct Var {
    pub name: Name,
    pub truth: bool,
    pub state: VarState,
}

/// The variables, how many bytes of the data were read, and the counts of statements and of executed regions.
#[derive(Debug, Drop)]
pub struct State {
    pub vars: VarList,
    pub read_to: u64,
    pub steps: u64,
    pub regions: u64,
}

/// The end of a run.
#[derive(Debug, Drop)]
pub enum Ended {
    Done(State),
    Faulted(Fault),
}
