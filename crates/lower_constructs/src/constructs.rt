//! The lowering of statements, and of those in them.

ghost use Rattle.std.specs.Prelude.{◌≡◌, ◌<◌, [], ◌∷◌, length, OnOk};
ghost use Rattle.lower_values.specs.declared.names.Names.{Names};
ghost use Rattle.lower_values.specs.Lowerings.{Appends};
ghost use Rattle.lower_constructs.specs.Filled.{Fills};
ghost use Rattle.lower_constructs.specs.Lists as lists;
ghost use Rattle.lower_constructs.specs.Modules as modules;

use crate::headers::{
    begin_elsewhere, begin_forall, begin_loop, begin_masked, begin_statement, forall_mask,
};
use hlfir_ops::{Builder, What};
use lower_assign::plain;
use lower_values::Names;
use sqlite_items::Items;
use std::alloc::{AllocError, Global};
use ws_tree::{Body, Else, Expr, Stmt};

/// A statement: one op, but for ALLOCATE, DEALLOCATE and READ, which give one op per item.
#[cycle(lowering)]
fn statement(
    alloc: Global,
    build: &mut Builder,
    names: &Names,
    stmt: &Stmt,
) -> Result<(), AllocError>
    ensures { OnOk result (Appends names.now (modules.statement stmt.now.line stmt.now.body) build.old build.new tt) }
{
    let line = stmt.line;
    match &stmt.body {
        Body::Masked { mask, block, rest } => {
            begin_masked(alloc, build, names, What::Masked, line, mask)?;
            block_region(alloc, build, names, block.as_slice())?;
            else_region(alloc, build, names, rest.as_slice())
        }
        Body::Forall {
            indexes,
            mask,
            block,
        } => {
            begin_forall(alloc, build, names, line, indexes.as_slice())?;
            forall_region(alloc, build, names, block.as_slice(), mask)
        }
        Body::Loop {
            var,
            l,
            u,
            s,
            block,
        } => {
            begin_loop(alloc, build, names, line, var, l, u, s)?;
            block_region(alloc, build, names, block.as_slice())
        }
        Body::Shared { block } => {
            begin_statement(alloc, build, What::Workshare, line, Items::new(alloc))?;
            block_region(alloc, build, names, block.as_slice())
        }
        Body::Assign { .. }
        | Body::Allocate(_)
        | Body::Deallocate(_)
        | Body::Read(_)
        | Body::Unsupported
        | Body::TooDeep => plain(alloc, build, names, line, &stmt.body),
    }
}

/// Statements, one after another.
#[cycle(lowering)]
pub fn statements(
    alloc: Global,
    build: &mut Builder,
    names: &Names,
    block: &[Stmt],
) -> Result<(), AllocError>
    ensures { OnOk result (Appends names.now (modules.statement_list block.now) build.old build.new tt) }
{
    'each: for stmt in block {
        statement(alloc, build, names, stmt)?;
    }
    Ok(())
}

/// The next region of the op that stands last, which holds the statements of a block.
#[cycle(lowering)]
fn block_region(
    alloc: Global,
    build: &mut Builder,
    names: &Names,
    block: &[Stmt],
) -> Result<(), AllocError>
    requires { 0 < length build.old.ops }
    ensures { OnOk result (Fills names.now (modules.statement_list block.now ∷ []) build.old build.new) }
{
    build.enter_region()?;
    statements(alloc, build, names, block)?;
    build.leave_region();
    Ok(())
}

/// The second region of a FORALL: its mask, and then its assignments.
#[cycle(lowering)]
fn forall_region(
    alloc: Global,
    build: &mut Builder,
    names: &Names,
    block: &[Stmt],
    mask: &Option<Expr>,
) -> Result<(), AllocError>
    requires { 0 < length build.old.ops }
    ensures { OnOk result (Fills names.now (lists.forall_body mask.now block.now ∷ []) build.old build.new) }
{
    build.enter_region()?;
    forall_mask(alloc, build, names, mask)?;
    statements(alloc, build, names, block)?;
    build.leave_region();
    Ok(())
}

/// The third region of a WHERE, which has one only where it has an ELSEWHERE.
#[cycle(lowering)]
fn else_region(
    alloc: Global,
    build: &mut Builder,
    names: &Names,
    rest: &[Else],
) -> Result<(), AllocError>
    requires { 0 < length build.old.ops }
    ensures { OnOk result (Fills names.now (lists.third_of rest.now) build.old build.new) }
{
    if rest.is_empty() {
        return Ok(());
    }
    build.enter_region()?;
    'each: for part in rest {
        else_part(alloc, build, names, part)?;
    }
    build.leave_region();
    Ok(())
}

/// `elsewhere (MASK)` or `elsewhere`, with its block (Fortran 2018, 10.2.3).
#[cycle(lowering)]
fn else_part(
    alloc: Global,
    build: &mut Builder,
    names: &Names,
    part: &Else,
) -> Result<(), AllocError>
    ensures { OnOk result (Appends names.now (lists.else_part part.now) build.old build.new tt) }
{
    begin_elsewhere(alloc, build, names, part.line, &part.mask)?;
    block_region(alloc, build, names, part.block.as_slice())
}
