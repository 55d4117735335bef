//! The first stage of a step: what has one value for the whole step, from left to right with operands before operators.

ghost use Rattle.std.specs.Prelude.{◌≡◌, ◌≤◌, length, IfOk, IfSome, map};
ghost use Rattle.std.specs.List.{All};
ghost use Rattle.ws_base.specs.Outcomes.{scalar_of};
ghost use Rattle.ws_space.specs.Sections as sections;
ghost use Rattle.ws_types.specs.Sections as typing;
ghost use Rattle.array_meaning.specs.Forall as forall;
ghost use Rattle.array_meaning.specs.Stage1 as stage1;
ghost use Rattle.term_eval.specs.Words.{Gives, IsSmall, IsSmallSub, IsSmallTerm, IsWorld};
ghost use Rattle.term_eval.specs.Lists as lists;

use crate::designators::{designator, named};
use crate::inquiries::{inquiry, is_inquiry};
use crate::names::allocated;
use crate::places::upper;
use crate::shapes::dims_of;
use crate::stop::Stop;
use crate::terms::whole;
use array_meaning::{Pick, Term, World};
use sqlite_items::{Boxed, Items};
use std::alloc::{AllocError, Global};
use value_ops::{binary_value, call_value, in_kind, reduction, truth, unary_value};
use ws_base::{BinOp, CallWord, FaultName, UnOp};
use ws_space::{Dim, Triplet};
use ws_tree::{Expr, Sub};
use ws_types::is_reduction;

// ---- operators and calls

#[tactic(auto, unfolding(array_meaning::specs::Terms::terms_open))]
fn unary_on(alloc: Global, op: UnOp, t: Term) -> Result<Term, Stop>
    ensures { Gives result (stage1.unary_on op t) }
{
    match t {
        Term::Scalar(value) => Ok(Term::Scalar(unary_value(op, value)?)),
        t => match op {
            UnOp::Plus => Ok(t),
            _ => Ok(Term::Unary(op, Boxed::new(alloc, t)?)),
        },
    }
}

#[tactic(auto, unfolding(array_meaning::specs::Terms::terms_open))]
fn binary_on(alloc: Global, op: BinOp, t: Term, u: Term) -> Result<Term, Stop>
    ensures { Gives result (stage1.binary_on op t u) }
{
    match (t, u) {
        (Term::Scalar(a), Term::Scalar(b)) => Ok(Term::Scalar(binary_value(op, a, b)?)),
        (t, u) => Ok(Term::Binary(op, Boxed::new(alloc, t)?, Boxed::new(alloc, u)?)),
    }
}

/// The values, if each term is one.
fn scalars(alloc: Global, ts: &[Term]) -> Result<Option<Items<i64>>, AllocError>
    ensures { IfOk result (λ values. values ≡ stage1.scalars ts.now) }
{
    let mut values = Items::new(alloc);
    for t in ts {
        match t {
            Term::Scalar(value) => values.push(*value)?,
            _ => return Ok(None),
        }
    }
    Ok(Some(values))
}

/// The exact reduction of all values of the argument.
fn reduced(alloc: Global, word: CallWord, ts: &[Term]) -> Result<Term, Stop>
    requires { All IsSmallTerm ts.now }
    ensures { Gives result (stage1.reduced word ts.now) }
{
    match ts {
        [] => Ok(Term::Scalar(0)),
        [t, ..] => {
            let values = whole(alloc, t)?;
            Ok(Term::Scalar(reduction(word, values.as_slice())?))
        }
    }
}

#[tactic(auto, unfolding(array_meaning::specs::Terms::terms_open))]
fn elemental_on(alloc: Global, word: CallWord, ts: Items<Term>) -> Result<Term, Stop>
    ensures { Gives result (stage1.elemental_on word ts (stage1.scalars ts)) }
{
    match scalars(alloc, ts.as_slice())? {
        Some(values) => Ok(Term::Scalar(call_value(word, values.as_slice())?)),
        None => Ok(Term::Call(word, ts)),
    }
}

fn called(alloc: Global, word: CallWord, ts: Items<Term>) -> Result<Term, Stop>
    requires { All IsSmallTerm ts }
    ensures { Gives result (stage1.called word ts) }
{
    if is_reduction(word) {
        reduced(alloc, word, ts.as_slice())
    } else {
        elemental_on(alloc, word, ts)
    }
}

// ---- subscripts

fn value_of(t: &Term) -> i64
    ensures { result ≡ stage1.value_of t.now }
{
    match t {
        Term::Scalar(value) => *value,
        _ => 0,
    }
}

/// The values of a constructor's items.
fn values_of(alloc: Global, ts: &[Term]) -> Result<Items<i64>, AllocError>
    ensures { IfOk result (λ values. values ≡ map stage1.value_of ts.now) }
{
    let mut values = Items::new(alloc);
    for t in ts {
        values.push(value_of(t))?;
    }
    Ok(values)
}

/// A scalar's value, which is a default integer.
fn integer_of(t: &Term) -> i32
    requires { IsSmallTerm t.now }
    ensures { result ≡ stage1.value_of t.now }
{
    value_of(t) as i32
}

fn omitted_upper(dim: Dim) -> Result<i32, FaultName>
    ensures { sections.omitted_upper dim ≡ scalar_of result }
{
    Ok(in_kind(upper(dim))? as i32)
}

/// A section or a constructor. Parentheses and a plus in front of one are no operation.
#[tactic(auto, unfolding(ws_tree::specs::Opened::trees_open))]
fn is_section(e: &Expr) -> bool
    ensures { result ≡ typing.is_section e.now }
{
    match e {
        Expr::Part(_, _) | Expr::Vector(_) => true,
        Expr::Paren(e) => is_section(e.get()),
        Expr::Unary(UnOp::Plus, e) => is_section(e.get()),
        _ => false,
    }
}

/// A vector subscript that is not evaluated whole.
fn is_designator(e: &Expr) -> bool
    ensures { result ≡ typing.is_designator e.now }
{
    match e {
        Expr::Named(_) => true,
        e => is_section(e),
    }
}

/// One subscript, or a vector of them.
fn subscript(alloc: Global, left_to_stage2: bool, t: Term) -> Result<Pick, Stop>
    requires { IsSmallTerm t }
    ensures { Gives result (stage1.subscript left_to_stage2 t) }
{
    match t {
        Term::Scalar(value) => Ok(Pick::One(value)),
        t => {
            if left_to_stage2 {
                return Ok(Pick::Vector(t));
            }
            Ok(Pick::Vector(Term::Listed(whole(alloc, &t)?)))
        }
    }
}

// ---- the walk

/// What the first stage leaves of an expression. In an accepted program no expression is too wide or too deep.
#[cycle(walking)]
#[tactic(auto, unfolding(ws_tree::specs::Opened::trees_open))]
pub fn walk(alloc: Global, world: &World, e: &Expr) -> Result<Term, Stop>
    requires world { IsWorld world.now }
    requires small { IsSmall e.now }
    ensures value { Gives result (stage1.walk world.now e.now) }
    ensures small { IfOk result IsSmallTerm }
{
    match e {
        Expr::Number(n) => Ok(Term::Scalar(i64::from(*n))),
        Expr::TooWide | Expr::TooDeep => Ok(Term::Scalar(0)),
        Expr::Truth(value) => Ok(Term::Scalar(truth(*value))),
        Expr::Named(name) => named(alloc, world, name.as_str()),
        Expr::Part(name, subs) => {
            let array = allocated(world.vars.as_slice(), name.as_str())?;
            let dims = dims_of(alloc, &array.shape)?;
            let picks = picks(alloc, world, dims.as_slice(), subs.as_slice())?;
            designator(alloc, array, picks)
        }
        Expr::Call(word, es) => {
            if is_inquiry(*word) {
                return Ok(Term::Scalar(inquiry(world, *word, es.as_slice())?));
            }
            let ts = walks(alloc, world, es.as_slice())?;
            called(alloc, *word, ts)
        }
        Expr::Vector(es) => {
            let ts = walks(alloc, world, es.as_slice())?;
            Ok(Term::Listed(values_of(alloc, ts.as_slice())?))
        }
        Expr::Paren(e) => walk(alloc, world, e.get()),
        Expr::Unary(op, e) => {
            let t = walk(alloc, world, e.get())?;
            unary_on(alloc, *op, t)
        }
        Expr::Binary(op, e, f) => {
            let t = walk(alloc, world, e.get())?;
            let u = walk(alloc, world, f.get())?;
            binary_on(alloc, *op, t, u)
        }
    }
}

#[cycle(walking)]
fn walks(alloc: Global, world: &World, es: &[Expr]) -> Result<Items<Term>, Stop>
    requires world { IsWorld world.now }
    requires small { All IsSmall es.now }
    ensures value { Gives result (lists.walks world.now es.now) }
    ensures small { IfOk result (All IsSmallTerm) }
{
    let mut ts = Items::new(alloc);
    'each: for e in es {
        let t = walk(alloc, world, e)?;
        ts.push(t)?;
    }
    Ok(ts)
}

/// The subscripts of an array with these dimensions.
#[cycle(walking)]
pub fn picks(alloc: Global, world: &World, dims: &[Dim], subs: &[Sub]) -> Result<Items<Pick>, Stop>
    requires world { IsWorld world.now }
    requires small { All IsSmallSub subs.now }
    ensures value { Gives result (lists.picks world.now dims.now subs.now) }
    ensures few { IfOk result (λ picks. length picks ≤ length dims.now) }
{
    let mut picks = Items::new(alloc);
    'each: for i in 0..subs.len() {
        if i >= dims.len() {
            return Ok(picks);
        }
        let pick = one_pick(alloc, world, dims[i], &subs[i])?;
        picks.push(pick)?;
    }
    Ok(picks)
}

#[cycle(walking)]
#[tactic(auto, unfolding(ws_tree::specs::Opened::trees_open))]
fn one_pick(alloc: Global, world: &World, dim: Dim, sub: &Sub) -> Result<Pick, Stop>
    requires world { IsWorld world.now }
    requires small { IsSmallSub sub.now }
    ensures { Gives result (stage1.one_pick world.now dim sub.now) }
{
    match sub {
        Sub::One(e) => {
            let t = walk(alloc, world, e)?;
            subscript(alloc, is_designator(e), t)
        }
        Sub::Range { l, u, s } => {
            let l = part(alloc, world, Ok(dim.lower), l)?;
            let u = part(alloc, world, omitted_upper(dim), u)?;
            let s = part(alloc, world, Ok(1), s)?;
            Ok(Pick::Range(Triplet { l, u, s }))
        }
    }
}

/// A part of a triplet, or what stands for it.
#[cycle(walking)]
#[tactic(auto, unfolding(ws_tree::specs::Opened::trees_open))]
fn part(
    alloc: Global,
    world: &World,
    other: Result<i32, FaultName>,
    e: &Option<Expr>,
) -> Result<i32, Stop>
    requires world { IsWorld world.now }
    requires small { IfSome e.now IsSmall }
    ensures { Gives result (lists.end world.now (scalar_of other) e.now) }
{
    match e {
        None => Ok(other?),
        Some(e) => {
            let t = walk(alloc, world, e)?;
            Ok(integer_of(&t))
        }
    }
}

/// The value of an expression of rank 0, as a bound, a header or a DO has it.
pub fn scalar(alloc: Global, world: &World, e: &Expr) -> Result<i32, Stop>
    requires world { IsWorld world.now }
    requires small { IsSmall e.now }
    ensures { Gives result (forall.scalar world.now e.now) }
{
    let t = walk(alloc, world, e)?;
    Ok(integer_of(&t))
}
