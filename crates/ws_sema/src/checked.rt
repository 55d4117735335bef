//! An accepted tree, and why another one is not.

ghost use Rattle.std.specs.Prelude.{◌≡◌, []};
ghost use Rattle.ws_sema.specs.declared.checked.CheckEnd.TheVariants.{Memory};
ghost use Rattle.ws_sema.specs.Checks.{IsAccepted, IsKnown};
ghost use Rattle.ws_sema.specs.Declarations.{constants_after, table_of};

use std::alloc::AllocError;
use std::marker::Model;
use ws_base::Refusal;
use ws_tree::Tree;
use ws_types::{Constant, Row};

/// A tree that `check` accepted, which contracts see as this tree, with its names and constants.
#[derive(Drop)]
pub struct Checked {
    tree: Tree,
    table: Vec<Row>,
    constants: Vec<Constant>,
}

impl Model for Checked {
    ghost use Rattle.std.specs.Coded.{codes};
    ghost use Rattle.ws_tree.specs.declared.stmt.Tree.{Tree};
    ghost use Rattle.ws_tree.specs.contracts.expr.Expr as expression;
    ghost use Rattle.ws_tree.specs.contracts.stmt.Body as statement;
    ghost use Rattle.ws_sema.specs.Checks.{IsKnown};

    ghost Value = { Tree };

    ghost coded = { Prim.hlevel (codes, expression.the_row.coded, statement.the_row.coded) };

    ghost view = { λ c. c.tree };

    ghost invariant = { λ c. IsKnown c.tree c.table.items c.constants.items };
}

impl Checked {
    /// The tree that was checked.
    pub fn tree(&self) -> &Tree
        ensures same { result.now ≡ self.now }
        ensures accepted { IsAccepted self.now }
    {
        &self.tree
    }

    /// What is declared: type, rank and attributes of each variable and named constant, in order of declaration.
    pub fn table(&self) -> &[Row]
        ensures { result.now ≡ table_of self.now.decls }
    {
        self.table.as_slice()
    }

    /// The named INTEGER constants with their values, in order of declaration.
    pub fn constants(&self) -> &[Constant]
        ensures { result.now ≡ constants_after [] self.now.decls }
    {
        self.constants.as_slice()
    }
}

/// Why a tree is not accepted: its first fault, or want of memory.
#[derive(Clone, Copy, Debug, PartialEq, Eq)]
pub enum CheckEnd {
    Refused(Refusal),
    Memory,
}

impl From<AllocError> for CheckEnd {
    ghost from_gives = { λ _ e. e ≡ Memory };

    fn from(_: AllocError) -> CheckEnd {
        CheckEnd::Memory
    }
}

/// What was accepted of a tree and its names.
pub fn accept(tree: Tree, table: Vec<Row>, constants: Vec<Constant>) -> Checked
    requires { IsKnown tree table.items constants.items }
    ensures { result ≡ tree }
{
    Checked {
        tree,
        table,
        constants,
    }
}
