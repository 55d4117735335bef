//! What the declarations of a source make known.

ghost use Rattle.std.specs.Prelude.{◌≡◌, ◌++◌, IfOk, OnOk, map};
ghost use Rattle.ws_space.specs.Shapes.{natural, declared_dim};
ghost use Rattle.lower_assign.specs.Known as known;

use hlfir_ops::{Elem, ValueId, ValueKind};
use lower_values::{NamedTruth, Names, Operand, Variable};
use sqlite_items::Items;
use std::alloc::{AllocError, Global};
use ws_base::Name;
use ws_sema::Checked;
use ws_space::{Dim, Shape, shape_from};
use ws_tree::{Bound, Decl, Expr};
use ws_types::{Constancy, Constant, evaluate};

const UNUSED: Dim = Dim {
    lower: 1,
    extent: 1,
};

// ---- kinds of variables

fn elem(truth: bool) -> Elem
    ensures { result ≡ known.elem truth }
{
    if truth { Elem::I1 } else { Elem::I32 }
}

fn value_or_zero(value: Constancy) -> i32
    ensures { result ≡ known.value_or_zero value }
{
    match value {
        Constancy::Value(value) => value,
        _ => 0,
    }
}

/// A value, or 0 where it is below 0.
fn natural(value: i64) -> u64
    ensures { result ≡ natural value }
{
    if value < 0 { 0 } else { value.unsigned_abs() }
}

/// `l:u`
fn declared_dim(l: i32, u: i32) -> Dim
    ensures { result ≡ declared_dim l u }
{
    Dim {
        lower: l,
        extent: natural(i64::from(u) - i64::from(l) + 1),
    }
}

fn bound_dim(constants: &[Constant], bound: &Bound) -> Dim
    ensures { result ≡ known.bound_dim constants.now bound.now }
{
    match bound {
        Bound::Upper(u) => declared_dim(1, value_or_zero(evaluate(constants, u))),
        Bound::Both(l, u) => declared_dim(
            value_or_zero(evaluate(constants, l)),
            value_or_zero(evaluate(constants, u)),
        ),
        Bound::Deferred => UNUSED,
    }
}

fn bound_dims(
    alloc: Global,
    constants: &[Constant],
    bounds: &[Bound],
) -> Result<Items<Dim>, AllocError>
    ensures { IfOk result (λ dims. dims ≡ map (known.bound_dim constants.now) bounds.now) }
{
    let mut dims = Items::new(alloc);
    'each: for bound in bounds {
        dims.push(bound_dim(constants, bound))?;
    }
    Ok(dims)
}

fn declared_kind(elem: Elem, shape: Shape, bounds: &[Bound]) -> ValueKind
    ensures { result ≡ known.declared_kind elem shape bounds.now }
{
    match bounds {
        [] => ValueKind::Place(elem),
        _ => ValueKind::Declared { elem, shape },
    }
}

fn variable_kind(allocatable: bool, elem: Elem, shape: Shape, bounds: &[Bound]) -> ValueKind
    ensures { result ≡ known.variable_kind allocatable elem shape bounds.now }
{
    if allocatable {
        ValueKind::Allocatable {
            elem,
            rank: shape.rank,
        }
    } else {
        declared_kind(elem, shape, bounds)
    }
}

fn kind_of(alloc: Global, constants: &[Constant], decl: &Decl) -> Result<ValueKind, AllocError>
    ensures { IfOk result (λ kind. kind ≡ known.kind_of constants.now decl.now) }
{
    let bounds = decl.shape.as_slice();
    let dims = bound_dims(alloc, constants, bounds)?;
    let shape = shape_from(dims.as_slice());
    Ok(variable_kind(decl.allocatable, elem(decl.truth), shape, bounds))
}

// ---- variables and LOGICAL constants, in order of declaration

/// The variable of a declaration, whose declare has this number.
fn variable(
    alloc: Global,
    constants: &[Constant],
    number: u32,
    decl: &Decl,
) -> Result<Variable, AllocError>
    ensures { IfOk result (λ v. v ≡ known.variable number constants.now decl.now) }
{
    let kind = kind_of(alloc, constants, decl)?;
    Ok(Variable {
        name: decl.name.copy(alloc)?,
        declare: Operand {
            value: ValueId { number },
            kind,
        },
    })
}

fn declares_variable(decl: &Decl) -> bool
    ensures { result ≡ known.declares_variable decl.now.constant }
{
    match decl.constant {
        None => true,
        Some(_) => false,
    }
}

/// The variables. Want of memory comes also where there are more than an id can number.
fn variables(
    alloc: Global,
    constants: &[Constant],
    decls: &[Decl],
) -> Result<Items<Variable>, AllocError>
    ensures { IfOk result (λ variables. variables ≡ known.numbered 0 constants.now (known.variable_decls decls.now)) }
{
    let mut variables = Items::new(alloc);
    let mut next: u32 = 0;
    'each: for decl in decls {
        if declares_variable(decl) {
            variables.push(variable(alloc, constants, next, decl)?)?;
            let Some(after) = next.checked_add(1) else {
                return Err(AllocError);
            };
            next = after;
        }
    }
    Ok(variables)
}

fn push_truth(
    alloc: Global,
    truths: &mut Items<NamedTruth>,
    truth: bool,
    name: &Name,
    value: &Option<Expr>,
) -> Result<(), AllocError>
    ensures { OnOk result (truths.new ≡ truths.old ++ known.truth_rows truth name.now value.now) }
{
    if !truth {
        return Ok(());
    }
    match value {
        Some(Expr::Truth(value)) => {
            let name = name.copy(alloc)?;
            truths.push(NamedTruth {
                name,
                value: *value,
            })
        }
        _ => Ok(()),
    }
}

fn truths_of(alloc: Global, decls: &[Decl]) -> Result<Items<NamedTruth>, AllocError>
    ensures { IfOk result (λ truths. truths ≡ known.truths_of decls.now) }
{
    let mut truths = Items::new(alloc);
    'each: for decl in decls {
        push_truth(alloc, &mut truths, decl.truth, &decl.name, &decl.constant)?;
    }
    Ok(truths)
}

fn copied(alloc: Global, constants: &[Constant]) -> Result<Items<Constant>, AllocError>
    ensures { IfOk result (λ copies. copies ≡ constants.now) }
{
    let mut copies = Items::new(alloc);
    'each: for constant in constants {
        copies.push(Constant {
            name: constant.name.copy(alloc)?,
            value: constant.value,
        })?;
    }
    Ok(copies)
}

/// What the names of a source stand for.
pub fn names_of(alloc: Global, source: &Checked) -> Result<Names, AllocError>
    ensures { IfOk result (λ names. names ≡ known.names_of source.now) }
{
    let constants = source.constants();
    let decls = source.tree().decls.as_slice();
    Ok(Names {
        variables: variables(alloc, constants, decls)?,
        constants: copied(alloc, constants)?,
        truths: truths_of(alloc, decls)?,
    })
}
