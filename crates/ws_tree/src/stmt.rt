//! Declarations and statements.

use crate::expr::{Expr, ExprList};
use sqlite_items::Items;
use ws_base::Name;

/// The names of DEALLOCATE.
pub type NameList = Items<Name>;

/// The bounds of one dimension: `u`, `l:u`, or `:` alone.
#[derive(Debug, Drop)]
pub enum Bound {
    Upper(Expr),
    Both(Expr, Expr),
    Deferred,
}

pub type BoundList = Items<Bound>;

/// A declared entity, with the line of its statement.
#[derive(Debug, Drop)]
pub struct Decl {
    pub line: u32,
    pub truth: bool,
    pub constant: Option<Expr>,
    pub allocatable: bool,
    pub name: Name,
    pub shape: BoundList,
}

pub type DeclList = Items<Decl>;

/// An index of a FORALL header.
#[derive(Debug, Drop)]
pub struct Index {
    pub name: Name,
    pub l: Expr,
    pub u: Expr,
    pub s: Option<Expr>,
}

pub type IndexList = Items<Index>;

/// An array that ALLOCATE allocates.
#[derive(Debug, Drop)]
pub struct Part {
    pub name: Name,
    pub shape: BoundList,
}

pub type PartList = Items<Part>;

/// ELSEWHERE with its mask, if it has one, and its block.
#[cycle(stmt)]
#[derive(Debug, Drop)]
pub struct Else {
    pub line: u32,
    pub mask: Option<Expr>,
    pub block: Items<Stmt>,
}

pub type ElseList = Items<Else>;

#[cycle(stmt)]
#[derive(Debug, Drop)]
pub struct Stmt {
    pub line: u32,
    pub body: Body,
}

pub type StmtList = Items<Stmt>;

/// What a statement does. `TooDeep` is a block nested more than 64 deep, or a statement with more than 256 open brackets.
#[cycle(stmt)]
#[derive(Debug, Drop)]
pub enum Body {
    Assign {
        left: Expr,
        right: Expr,
    },
    Masked {
        mask: Expr,
        block: Items<Stmt>,
        rest: Items<Else>,
    },
    Forall {
        indexes: IndexList,
        mask: Option<Expr>,
        block: Items<Stmt>,
    },
    Loop {
        var: Name,
        l: Expr,
        u: Expr,
        s: Option<Expr>,
        block: Items<Stmt>,
    },
    Allocate(PartList),
    Deallocate(NameList),
    Read(ExprList),
    Shared {
        block: Items<Stmt>,
    },
    Unsupported,
    TooDeep,
}

/// A main program.
#[derive(Debug, Drop)]
pub struct Tree {
    pub name: Name,
    pub decls: DeclList,
    pub body: StmtList,
}
