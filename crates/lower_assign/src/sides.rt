//! What regions yield, and left sides.

ghost use Rattle.std.specs.Prelude.{◌≡◌, [], ◌∷◌, Some, IfOk, OnOk};
ghost use Rattle.hlfir_ops.specs.declared.what.What.TheVariants.{Yield};
ghost use Rattle.hlfir_ops.specs.RulesValues as kinds;
ghost use Rattle.lower_values.specs.declared.names.Names.{Names};
ghost use Rattle.lower_values.specs.Lowerings as lowerings;
ghost use Rattle.lower_assign.specs.Statements as statements;
ghost use Rattle.lower_values.specs.Values as values;

use hlfir_ops::{Builder, ValueKind, What};
use lower_values::{NOTHING, Names, Operand, act, boxed, declare_of, part, value};
use sqlite_items::Items;
use std::alloc::{AllocError, Global};
use ws_tree::Expr;

// ---- what regions yield

/// The yield of one value.
fn yielded(alloc: Global, build: &mut Builder, x: Operand) -> Result<(), AllocError>
    ensures { OnOk result ((names : Names) → lowerings.Appends names (lowerings.acting Yield (x.value ∷ [])) build.old build.new tt) }
{
    let operands = Items::from_slice(alloc, &[x.value])?;
    act(alloc, build, What::Yield, operands)
}

/// An expression, and its yield.
pub fn yield_value(
    alloc: Global,
    build: &mut Builder,
    names: &Names,
    e: &Expr,
) -> Result<(), AllocError>
    ensures { OnOk result (lowerings.Appends names.now (statements.yielded (values.value e.now)) build.old build.new tt) }
{
    let x = value(alloc, build, names, e)?;
    yielded(alloc, build, x)
}

// ---- left sides

/// A whole allocatable is its box in a WHERE, and else its declare.
fn whole_left(
    alloc: Global,
    build: &mut Builder,
    by_box: bool,
    declare: Operand,
) -> Result<Operand, AllocError>
    ensures { IfOk result (λ x. (names : Names) → lowerings.Appends names (statements.whole_left by_box declare) build.old build.new x) }
{
    if by_box {
        boxed(alloc, build, declare)
    } else {
        Ok(declare)
    }
}

/// A designator that is assigned or read, without a load. `by_box` says whether a whole allocatable is its box.
#[tactic(auto, unfolding(ws_tree::specs::Opened::trees_open))]
fn left_of(
    alloc: Global,
    build: &mut Builder,
    names: &Names,
    by_box: bool,
    e: &Expr,
) -> Result<Operand, AllocError>
    ensures { IfOk result (λ x. lowerings.Appends names.now (statements.left_of by_box e.now) build.old build.new x) }
{
    match e {
        Expr::Named(name) => whole_left(alloc, build, by_box, declare_of(names, name)),
        Expr::Part(name, subs) => part(alloc, build, names, name, subs.as_slice()),
        Expr::Number(_)
        | Expr::TooWide
        | Expr::TooDeep
        | Expr::Truth(_)
        | Expr::Call(..)
        | Expr::Vector(_)
        | Expr::Paren(_)
        | Expr::Unary(..)
        | Expr::Binary(..) => Ok(NOTHING),
    }
}

/// The left side of an assignment (Fortran 2018, 10.2.1.2).
pub fn left(
    alloc: Global,
    build: &mut Builder,
    names: &Names,
    e: &Expr,
) -> Result<Operand, AllocError>
    ensures { IfOk result (λ x. lowerings.Appends names.now (statements.left e.now) build.old build.new x) }
{
    let by_box = build.masked();
    left_of(alloc, build, names, by_box, e)
}

/// A left side or an item of READ, and its yield. `by_box` says whether a whole allocatable is its box.
pub fn yield_designator(
    alloc: Global,
    build: &mut Builder,
    names: &Names,
    by_box: bool,
    e: &Expr,
) -> Result<(), AllocError>
    ensures { OnOk result (lowerings.Appends names.now (statements.yielded (statements.left_of by_box e.now)) build.old build.new tt) }
{
    let x = left_of(alloc, build, names, by_box, e)?;
    yielded(alloc, build, x)
}

fn is_allocatable(kind: ValueKind) -> bool
    ensures { result ≡ kinds.is_allocatable (Some kind) }
{
    match kind {
        ValueKind::Allocatable { .. } => true,
        _ => false,
    }
}

pub fn is_whole_allocatable(names: &Names, e: &Expr) -> bool
    ensures { result ≡ statements.is_whole_allocatable names.now e.now }
{
    match e {
        Expr::Named(name) => is_allocatable(declare_of(names, name).kind),
        _ => false,
    }
}
