//! The lowering of expressions: operands before operators, from left to right.

ghost use Rattle.std.specs.Prelude.{◌≡◌, ◌+◌, pos, IfOk, None};
ghost use Rattle.ws_types.specs.Constants as constants;
ghost use Rattle.ws_types.specs.Operations.{is_inquiry};
ghost use Rattle.lower_values.specs.declared.names.Names.{Names};
ghost use Rattle.lower_values.specs.Folding as folding;
ghost use Rattle.lower_values.specs.Lists as lists;
ghost use Rattle.lower_values.specs.Lowerings as lowerings;
ghost use Rattle.lower_values.specs.Operations as operations;
ghost use Rattle.lower_values.specs.References as references;
ghost use Rattle.lower_values.specs.Values as values;

use crate::elementals::{
    binary_of, binary_operation, call_on, constant, in_parentheses, joined, nesting_of,
    number_constant, truth_constant, unary_operation, vector,
};
use crate::folding::{Reached, is_arithmetic, is_sign, joined_value, signed_value};
use crate::names::Names;
use crate::operand::{Operand, Subscript};
use crate::references::{
    NOTHING, bound, designated, inquiry, loaded, named, reference, subscript_of,
};
use hlfir_ops::{BoundWord, Builder, Elem, ValueBinary};
use sqlite_items::Items;
use std::alloc::{AllocError, Global};
use ws_base::{BinOp, CallWord, Name, UnOp};
use ws_tree::{Expr, Sub};
use ws_types::{evaluate, value_of};

// ---- constant expressions

/// The operand, for which an op stands now.
fn finished(alloc: Global, build: &mut Builder, reached: Reached) -> Result<Operand, AllocError>
    ensures { IfOk result (λ x. (names : Names) → lowerings.Appends names (folding.rest_of reached) build.old build.new x) }
{
    match reached {
        Reached::Known(value) => number_constant(alloc, build, value),
        Reached::Given(x) => Ok(x),
    }
}

/// A digit string. One above 2147483647 has no value.
fn number(alloc: Global, build: &mut Builder, n: u32) -> Result<Reached, AllocError>
    ensures { IfOk result (λ r. (names : Names) → folding.Reaches names (constants.number_constancy n) (operations.constant Elem.I32 (pos n)) build.old build.new r) }
{
    if n <= 2_147_483_647 {
        Ok(Reached::Known(n as i32))
    } else {
        let x = constant(alloc, build, Elem::I32, i64::from(n))?;
        Ok(Reached::Given(x))
    }
}

fn parenthesized(
    alloc: Global,
    build: &mut Builder,
    reached: Reached,
) -> Result<Reached, AllocError>
    ensures { IfOk result (λ r. (names : Names) → folding.Reaches names (folding.known reached) (lowerings.next (folding.rest_of reached) operations.in_parentheses) build.old build.new r) }
{
    match reached {
        Reached::Known(value) => Ok(Reached::Known(value)),
        Reached::Given(x) => Ok(Reached::Given(in_parentheses(alloc, build, x)?)),
    }
}

fn known_unary(op: UnOp, reached: Reached) -> Option<i32>
    ensures { result ≡ constants.value_of (folding.signed op (folding.known reached)) }
{
    match reached {
        Reached::Given(_) => None,
        Reached::Known(value) => {
            if is_sign(op) {
                signed_value(op, value)
            } else {
                None
            }
        }
    }
}

fn unary(
    alloc: Global,
    build: &mut Builder,
    op: UnOp,
    reached: Reached,
) -> Result<Reached, AllocError>
    ensures { IfOk result (λ r. (names : Names) → folding.Reaches names (folding.signed op (folding.known reached)) (lowerings.next (folding.rest_of reached) (operations.unary_operation op)) build.old build.new r) }
{
    match known_unary(op, reached) {
        Some(value) => Ok(Reached::Known(value)),
        None => {
            let x = finished(alloc, build, reached)?;
            Ok(Reached::Given(unary_operation(alloc, build, op, x)?))
        }
    }
}

fn known_binary(names: &Names, op: BinOp, a: Reached, b: &Expr) -> Option<i32>
    ensures { result ≡ constants.value_of (folding.joined op (folding.known a) (constants.constancy names.now.constants b.now)) }
{
    match a {
        Reached::Given(_) => None,
        Reached::Known(a) => {
            if is_arithmetic(op) {
                joined_value(op, a, evaluate(names.constants.as_slice(), b))
            } else {
                None
            }
        }
    }
}

/// An operator after its left operand.
#[cycle(valuing)]
fn binary(
    alloc: Global,
    build: &mut Builder,
    names: &Names,
    op: BinOp,
    a: Reached,
    b: &Expr,
) -> Result<Reached, AllocError>
    ensures { IfOk result (λ r. folding.Reaches names.now (folding.joined op (folding.known a) (constants.constancy names.now.constants b.now)) (lowerings.next (folding.rest_of a) (folding.with_right op (values.value b.now))) build.old build.new r) }
{
    match known_binary(names, op, a, b) {
        Some(value) => Ok(Reached::Known(value)),
        None => {
            let x = finished(alloc, build, a)?;
            let y = value(alloc, build, names, b)?;
            let z = binary_operation(alloc, build, binary_of(op), x, y)?;
            Ok(Reached::Given(z))
        }
    }
}

// ---- expressions

/// A constant expression that has a value is one constant, so its value is known before an op stands for it.
#[cycle(valuing)]
#[tactic(auto, unfolding(ws_tree::specs::Opened::trees_open))]
fn walk(alloc: Global, build: &mut Builder, names: &Names, e: &Expr) -> Result<Reached, AllocError>
    ensures { IfOk result (λ r. folding.Reaches names.now (constants.constancy names.now.constants e.now) (values.value e.now) build.old build.new r) }
{
    match e {
        Expr::Number(n) => number(alloc, build, *n),
        Expr::TooWide | Expr::TooDeep => { Ok(Reached::Given(number_constant(alloc, build, 0)?)) }
        Expr::Truth(value) => Ok(Reached::Given(truth_constant(alloc, build, *value)?)),
        Expr::Named(name) => match value_of(evaluate(names.constants.as_slice(), e)) {
            Some(value) => Ok(Reached::Known(value)),
            None => Ok(Reached::Given(named(alloc, build, names, name)?)),
        },
        Expr::Part(name, subs) => {
            let place = part(alloc, build, names, name, subs.as_slice())?;
            Ok(Reached::Given(loaded(alloc, build, place)?))
        }
        Expr::Call(word, es) => {
            let x = called(alloc, build, names, *word, es.as_slice())?;
            Ok(Reached::Given(x))
        }
        Expr::Vector(es) => {
            let xs = values(alloc, build, names, es.as_slice())?;
            Ok(Reached::Given(vector(alloc, build, xs.as_slice())?))
        }
        Expr::Paren(e) => {
            let x = walk(alloc, build, names, e.get())?;
            parenthesized(alloc, build, x)
        }
        Expr::Unary(op, e) => {
            let x = walk(alloc, build, names, e.get())?;
            unary(alloc, build, *op, x)
        }
        Expr::Binary(op, a, b) => {
            let x = walk(alloc, build, names, a.get())?;
            binary(alloc, build, names, *op, x, b.get())
        }
    }
}

/// The value of an expression: what reads it stands after its ops (Fortran 2018, 10.1).
#[cycle(valuing)]
pub fn value(
    alloc: Global,
    build: &mut Builder,
    names: &Names,
    e: &Expr,
) -> Result<Operand, AllocError>
    ensures { IfOk result (λ x. lowerings.Appends names.now (values.value e.now) build.old build.new x) }
{
    let reached = walk(alloc, build, names, e)?;
    finished(alloc, build, reached)
}

#[cycle(valuing)]
fn values(
    alloc: Global,
    build: &mut Builder,
    names: &Names,
    es: &[Expr],
) -> Result<Items<Operand>, AllocError>
    ensures { IfOk result (λ xs. lowerings.Appends names.now (lists.values es.now) build.old build.new xs) }
{
    let mut xs = Items::new(alloc);
    'each: for e in es {
        let x = value(alloc, build, names, e)?;
        xs.push(x)?;
    }
    Ok(xs)
}

/// MIN or MAX, which nest to the left.
#[cycle(valuing)]
fn nested(
    alloc: Global,
    build: &mut Builder,
    names: &Names,
    op: ValueBinary,
    es: &[Expr],
) -> Result<Operand, AllocError>
    ensures { IfOk result (λ x. lowerings.Appends names.now (lists.nested op None es.now) build.old build.new x) }
{
    let mut before: Option<Operand> = None;
    'each: for e in es {
        let y = value(alloc, build, names, e)?;
        before = Some(joined(alloc, build, op, before, y)?);
    }
    match before {
        Some(x) => Ok(x),
        None => Ok(NOTHING),
    }
}

fn is_inquiry(word: CallWord) -> bool
    ensures { result ≡ is_inquiry word }
{
    match word {
        CallWord::Size | CallWord::Lbound | CallWord::Ubound | CallWord::Allocated => true,
        _ => false,
    }
}

#[cycle(valuing)]
fn called(
    alloc: Global,
    build: &mut Builder,
    names: &Names,
    word: CallWord,
    es: &[Expr],
) -> Result<Operand, AllocError>
    ensures { IfOk result (λ x. lowerings.Appends names.now (lists.called word es.now) build.old build.new x) }
{
    match nesting_of(word) {
        Some(op) => nested(alloc, build, names, op, es),
        None => {
            if is_inquiry(word) {
                return inquiry(alloc, build, names, word, es);
            }
            let xs = values(alloc, build, names, es)?;
            call_on(alloc, build, word, xs.as_slice())
        }
    }
}

// ---- parts of arrays

/// The element or section of a variable, as a place (Fortran 2018, 9.5.3).
#[cycle(valuing)]
pub fn part(
    alloc: Global,
    build: &mut Builder,
    names: &Names,
    name: &Name,
    subs: &[Sub],
) -> Result<Operand, AllocError>
    ensures { IfOk result (λ x. lowerings.Appends names.now (lists.part name.now subs.now) build.old build.new x) }
{
    let array = reference(alloc, build, names, name)?;
    let subscripts = subscripts(alloc, build, names, array, subs)?;
    designated(alloc, build, array, subscripts.as_slice())
}

/// The number of the dimension at this place.
fn dimension_at(place: usize) -> Result<u32, AllocError>
    ensures { IfOk result (λ dim. dim ≡ place + 1) }
{
    let Ok(place) = u32::try_from(place) else {
        return Err(AllocError);
    };
    match place.checked_add(1) {
        Some(dim) => Ok(dim),
        None => Err(AllocError),
    }
}

#[cycle(valuing)]
fn subscripts(
    alloc: Global,
    build: &mut Builder,
    names: &Names,
    array: Operand,
    subs: &[Sub],
) -> Result<Items<Subscript>, AllocError>
    ensures { IfOk result (λ ss. lowerings.Appends names.now (lists.subscripts array 1 subs.now) build.old build.new ss) }
{
    let mut subscripts = Items::new(alloc);
    'each: for i in 0..subs.len() {
        let dim = dimension_at(i)?;
        let s = subscript(alloc, build, names, array, dim, &subs[i])?;
        subscripts.push(s)?;
    }
    Ok(subscripts)
}

#[cycle(valuing)]
#[tactic(auto, unfolding(ws_tree::specs::Opened::trees_open))]
fn subscript(
    alloc: Global,
    build: &mut Builder,
    names: &Names,
    array: Operand,
    dim: u32,
    sub: &Sub,
) -> Result<Subscript, AllocError>
    ensures { IfOk result (λ s. lowerings.Appends names.now (values.subscript array dim sub.now) build.old build.new s) }
{
    match sub {
        Sub::One(e) => {
            let x = value(alloc, build, names, e)?;
            Ok(subscript_of(x))
        }
        Sub::Range { l, u, s } => {
            let x = bound_or(alloc, build, names, BoundWord::Lower, array, dim, l)?;
            let y = bound_or(alloc, build, names, BoundWord::Upper, array, dim, u)?;
            let z = stride(alloc, build, names, s)?;
            Ok(Subscript::Range {
                l: x.value,
                u: y.value,
                s: z.value,
            })
        }
    }
}

/// A bound of a triplet. An omitted one is that of the dimension.
#[cycle(valuing)]
fn bound_or(
    alloc: Global,
    build: &mut Builder,
    names: &Names,
    word: BoundWord,
    array: Operand,
    dim: u32,
    e: &Option<Expr>,
) -> Result<Operand, AllocError>
    ensures { IfOk result (λ x. lowerings.Appends names.now (lists.given_or (references.bound word dim array) e.now) build.old build.new x) }
{
    match e {
        None => bound(alloc, build, word, dim, array),
        Some(e) => value(alloc, build, names, e),
    }
}

/// A stride. An omitted one is 1.
#[cycle(valuing)]
pub fn stride(
    alloc: Global,
    build: &mut Builder,
    names: &Names,
    e: &Option<Expr>,
) -> Result<Operand, AllocError>
    ensures { IfOk result (λ x. lowerings.Appends names.now (lists.stride e.now) build.old build.new x) }
{
    match e {
        None => number_constant(alloc, build, 1),
        Some(e) => value(alloc, build, names, e),
    }
}
