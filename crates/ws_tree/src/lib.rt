//! The tree of a source.
#![tactic(auto)]

mod calls;
mod expr;
mod stmt;
mod words;

pub use calls::takes;
pub use expr::{Expr, ExprList, Sub, SubList};
pub use stmt::{
    Body, Bound, BoundList, Decl, DeclList, Else, ElseList, Index, IndexList, NameList, Part,
    PartList, Stmt, StmtList, Tree,
};
pub use words::{
    CALL_WORDS, OTHER_CALL_WORDS, OTHER_STATEMENT_WORDS, STATEMENT_WORDS, is_keyword,
    is_other_call, is_other_statement,
};
