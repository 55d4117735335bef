//! Expressions.

use sqlite_items::{Boxed, Items};
use ws_base::{BinOp, CallWord, Name, UnOp};

pub type ExprList = Items<Expr>;

pub type SubList = Items<Sub>;

/// An expression. `TooWide` is a digit string above 2147483647, and `TooDeep` an expression whose depth is above 64.
#[cycle(expr)]
#[derive(Debug, Drop)]
pub enum Expr {
    Number(u32),
    TooWide,
    TooDeep,
    Truth(bool),
    Named(Name),
    Part(Name, Items<Sub>),
    Call(CallWord, Items<Expr>),
    Vector(Items<Expr>),
    Paren(Boxed<Expr>),
    Unary(UnOp, Boxed<Expr>),
    Binary(BinOp, Boxed<Expr>, Boxed<Expr>),
}

/// A subscript, or a triplet of which each part may be omitted.
#[cycle(expr)]
#[derive(Debug, Drop)]
pub enum Sub {
    One(Expr),
    Range {
        l: Option<Expr>,
        u: Option<Expr>,
        s: Option<Expr>,
    },
}
