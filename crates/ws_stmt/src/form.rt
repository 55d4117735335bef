//! The forms of statements.

use crate::role::Block;
use ws_base::Name;
use ws_tree::{Body, DeclList, Expr, Index, IndexList};

/// What a statement says, apart from its place. `Acts` is a statement that is whole in itself, and the forms that open, go on with or close a block are its parts.
#[derive(Drop)]
pub enum Form {
    Program(Name),
    ImplicitNone,
    Declares(DeclList),
    Acts(Body),
    OpensWhere(Expr),
    OpensElse(Option<Expr>),
    OpensForall(IndexList, Option<Expr>),
    OpensDo(Index),
    OpensRegion(Block),
    Closes(Block),
    EndsProgram(Option<Name>),
}

/// A statement that was read. It is odd where a part of it is of the grammar and left out, as a call that is not supported; the form then has no meaning but its sort.
#[derive(Drop)]
pub struct Said {
    pub form: Form,
    pub odd: bool,
}

/// The form that the first tokens of a statement allow. A declaration tells whether it is one of LOGICAL.
#[derive(Clone, Copy, Debug, PartialEq, Eq)]
pub enum Start {
    Assignment,
    Program,
    Implicit,
    Declaration(bool),
    Where,
    Elsewhere,
    Else,
    Forall,
    Do,
    Allocate,
    Deallocate,
    Read,
    End,
    EndOf(Block),
    EndProgram,
    Directive,
    Other,
}

/// The attributes of declarations.
#[derive(Clone, Copy, Debug, PartialEq, Eq)]
pub enum Attribute {
    Parameter,
    Allocatable,
    Dimension,
}
