//! Designators in normal form, and how two of them lie to one another.

use sqlite_items::Items;
use ws_base::{BinOp, UnOp};
use ws_space::Triplet;

pub type FormList = Items<Form>;

pub type SymList = Items<Sym>;

/// What two designators select: the same elements in the same order; no element in common; or what is not known before the run.
#[derive(Clone, Copy, Debug, PartialEq, Eq)]
pub enum Relation {
    Same,
    Disjoint,
    May,
}

/// A variable or a part of it: the number of its declare, and a form for each dimension.
#[derive(Debug, Drop)]
pub struct Designator {
    pub var: u32,
    pub forms: FormList,
}

/// What a dimension of a designator selects (Fortran 2018, 9.5.3): a constant subscript; a triplet of constants, whose stride is not 0; the
/// tree of another scalar subscript; the three trees of another triplet, one after the other; a vector subscript.
#[derive(Debug, Drop)]
pub enum Form {
    Index(i32),
    Range(Triplet),
    OpaqueIndex(SymList),
    OpaqueRange(SymList),
    Vector,
}

/// One symbol of a tree in postfix order. `Scalar` and `var` have the number of a declare, and `Index` that of an index name. A dimension
/// counts from 1, and is 0 in SIZE without one. `Kept` is a bound as the array keeps it, and `Bound` what LBOUND or UBOUND gives. `Other`
/// stands for every other part.
#[derive(Clone, Copy, Debug, PartialEq, Eq)]
pub enum Sym {
    Number(i64),
    Truth(bool),
    Scalar(u32),
    Index(u32),
    Unary(UnOp),
    Binary(BinOp),
    Kept { var: u32, dim: u32, upper: bool },
    Size { var: u32, dim: u32 },
    Bound { var: u32, dim: u32, upper: bool },
    Other,
}
