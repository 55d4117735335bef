//! What the first stage of a step leaves of an expression.

use sqlite_items::{Boxed, Items};
use ws_base::{BinOp, CallWord, UnOp};
use ws_space::{ArrayValue, Dim, Triplet};

/// An expression of which all that has one value for the whole step is evaluated: scalars are values, array operands are sections of
/// known arrays, and reductions are done.
#[cycle(term)]
#[derive(Debug, Drop)]
pub enum Term {
    Scalar(i64),
    Listed(Items<i64>),
    Section(ArrayValue, Items<Pick>),
    Unary(UnOp, Boxed<Term>),
    Binary(BinOp, Boxed<Term>, Boxed<Term>),
    Call(CallWord, Items<Term>),
}

/// What a section has of one dimension. A whole dimension has a form of its own, since the upper bound of an array without elements may
/// be above the greatest INTEGER, which no triplet holds.
#[cycle(term)]
#[derive(Debug, Drop)]
pub enum Pick {
    One(i64),
    Full(Dim),
    Range(Triplet),
    Vector(Term),
}
