//! The lowering of one part of a source at the place of a builder.

ghost use Rattle.std.specs.Prelude.{IfOk, OnOk};
ghost use Rattle.lower_assign.specs.Known.{names_of};
ghost use Rattle.lower_values.specs.Lowerings.{Appends};
ghost use Rattle.lower_assign.specs.Statements as statements;
ghost use Rattle.lower_values.specs.Values as values;

use crate::known::names_of;
use crate::sides::left;
use crate::statements::plain;
use hlfir_ops::{Builder, ValueId};
use lower_values::value;
use std::alloc::{AllocError, Global};
use ws_sema::Checked;
use ws_tree::{Expr, Stmt};

/// Appends the ops of an expression in a value place, and gives the number of its value. After want of memory the builder holds a
/// prefix of them.
pub fn lower_value(
    alloc: Global,
    build: &mut Builder,
    source: &Checked,
    e: &Expr,
) -> Result<ValueId, AllocError>
    ensures { IfOk result (λ id. Appends (names_of source.now) (statements.number_of (values.value e.now)) build.old build.new id) }
{
    let names = names_of(alloc, source)?;
    let x = value(alloc, build, &names, e)?;
    Ok(x.value)
}

/// Appends the ops of a left side, and gives the number of its reference or section. After want of memory the builder holds a prefix of
/// them.
pub fn lower_left(
    alloc: Global,
    build: &mut Builder,
    source: &Checked,
    e: &Expr,
) -> Result<ValueId, AllocError>
    ensures { IfOk result (λ id. Appends (names_of source.now) (statements.number_of (statements.left e.now)) build.old build.new id) }
{
    let names = names_of(alloc, source)?;
    let x = left(alloc, build, &names, e)?;
    Ok(x.value)
}

/// Appends the ops of an assignment, ALLOCATE, DEALLOCATE or READ. After want of memory the builder holds a prefix of them.
pub fn lower_plain(
    alloc: Global,
    build: &mut Builder,
    source: &Checked,
    s: &Stmt,
) -> Result<(), AllocError>
    ensures { OnOk result (Appends (names_of source.now) (statements.plain s.now.line s.now.body) build.old build.new tt) }
{
    let names = names_of(alloc, source)?;
    plain(alloc, build, &names, s.line, &s.body)
}
