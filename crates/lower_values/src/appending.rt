//! Appending ops to a builder.

ghost use Rattle.std.specs.Prelude.{◌≡◌, [], ◌∷◌, IfOk, OnOk};
ghost use Rattle.hlfir_ops.specs.Built.{taken, HasNoRegions};
ghost use Rattle.lower_values.specs.declared.names.Names.{Names};
ghost use Rattle.lower_values.specs.Lowerings as lowerings;
ghost use Rattle.lower_values.specs.Operations as operations;

use crate::operand::Operand;
use hlfir_ops::{Builder, Op, ValueId, ValueIdList, ValueKind, What};
use sqlite_items::Items;
use std::alloc::{AllocError, Global};

/// The numbers of operands.
pub fn values_of(alloc: Global, xs: &[Operand]) -> Result<ValueIdList, AllocError>
    ensures { IfOk result (λ values. values ≡ operations.values_of xs.now) }
{
    let mut values = Items::new(alloc);
    'each: for x in xs {
        values.push(x.value)?;
    }
    Ok(values)
}

fn push(build: &mut Builder, op: Op) -> Result<ValueId, AllocError>
    requires { HasNoRegions op }
    ensures { IfOk result (λ id. (id.number ≡ taken build.old) × (build.new ≡ lowerings.grown build.old (op ∷ []))) }
{
    match build.push(op) {
        Ok(id) => Ok(id),
        Err(_) => Err(AllocError),
    }
}

/// Appends an op that gives a value of this kind, on the line of its place.
pub fn give(
    alloc: Global,
    build: &mut Builder,
    what: What,
    operands: ValueIdList,
    kind: ValueKind,
) -> Result<Operand, AllocError>
    ensures { IfOk result (λ x. (names : Names) → lowerings.Appends names (lowerings.giving what operands kind) build.old build.new x) }
{
    let op = Op {
        what,
        line: build.line(),
        operands,
        kind: Some(kind),
        regions: Items::new(alloc),
    };
    let value = push(build, op)?;
    Ok(Operand { value, kind })
}

/// Appends an op of one operand that gives a value of this kind.
pub fn give_of(
    alloc: Global,
    build: &mut Builder,
    what: What,
    x: Operand,
    kind: ValueKind,
) -> Result<Operand, AllocError>
    ensures { IfOk result (λ y. (names : Names) → lowerings.Appends names (lowerings.giving what (x.value ∷ []) kind) build.old build.new y) }
{
    let operands = Items::from_slice(alloc, &[x.value])?;
    give(alloc, build, what, operands, kind)
}

/// Appends an op that gives no value, on the line of its place.
pub fn act(
    alloc: Global,
    build: &mut Builder,
    what: What,
    operands: ValueIdList,
) -> Result<(), AllocError>
    ensures { OnOk result ((names : Names) → lowerings.Appends names (lowerings.acting what operands) build.old build.new tt) }
{
    let op = Op {
        what,
        line: build.line(),
        operands,
        kind: None,
        regions: Items::new(alloc),
    };
    push(build, op)?;
    Ok(())
}

/// Appends an op that is to hold regions, which are entered and left one after another.
pub fn begin(
    alloc: Global,
    build: &mut Builder,
    what: What,
    line: u32,
    operands: ValueIdList,
    kind: Option<ValueKind>,
) -> Result<ValueId, AllocError>
    ensures value { IfOk result (λ id. id.number ≡ taken build.old) }
    ensures begun { OnOk result (build.new ≡ lowerings.opened build.old what line operands kind []) }
{
    let op = Op {
        what,
        line,
        operands,
        kind,
        regions: Items::new(alloc),
    };
    push(build, op)
}
