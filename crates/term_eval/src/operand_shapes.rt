//! The shapes of the array operands of a term.

ghost use Rattle.std.specs.Prelude.{◌≡◌, [], ◌∷◌, length, IfOk};
ghost use Rattle.std.specs.List.{All};
ghost use Rattle.ws_space.specs.Shapes as shapes;
ghost use Rattle.array_meaning.specs.Stage1 as stage1;
ghost use Rattle.array_meaning.specs.Stage2 as stage2;
ghost use Rattle.term_eval.specs.Words.{IsFew, IsSmallTerm};
ghost use Rattle.term_eval.specs.Lists as lists;

use crate::shapes::Extents;
use array_meaning::{Pick, Term};
use sqlite_items::Items;
use std::alloc::{AllocError, Global};
use ws_space::Triplet;

/// How many subscripts a triplet selects, and 0 where its stride is 0.
pub fn count(triplet: &Triplet) -> u64
    ensures { result ≡ shapes.count triplet.now }
{
    match ws_space::count(triplet) {
        Ok(count) => count,
        Err(_) => 0,
    }
}

fn one_shape(alloc: Global, shape: Extents) -> Result<Items<Extents>, AllocError>
    ensures { IfOk result (λ shapes. shapes ≡ shape ∷ []) }
{
    let mut shapes = Items::new(alloc);
    shapes.push(shape)?;
    Ok(shapes)
}

/// A section without a dimension is no array operand.
fn array_operand(alloc: Global, shape: Extents) -> Result<Items<Extents>, AllocError>
    ensures { IfOk result (λ shapes. shapes ≡ stage2.array_operand shape) }
{
    if shape.is_empty() {
        return Ok(Items::new(alloc));
    }
    one_shape(alloc, shape)
}

fn list_shape(alloc: Global, values: &Items<i64>) -> Result<Items<Extents>, AllocError>
    ensures { IfOk result (λ shapes. shapes ≡ (length values.now ∷ []) ∷ []) }
{
    let mut shape = Items::new(alloc);
    shape.push(values.len() as u64)?;
    one_shape(alloc, shape)
}

/// The shape of each array operand, but for those in subscripts.
#[cycle(shaping)]
#[tactic(auto, unfolding(array_meaning::specs::Terms::terms_open))]
pub fn operands(alloc: Global, t: &Term) -> Result<Items<Extents>, AllocError>
    ensures value { IfOk result (λ shapes. shapes ≡ stage2.operands t.now) }
    ensures few { IsSmallTerm t.now → IfOk result (All IsFew) }
{
    match t {
        Term::Scalar(_) => Ok(Items::new(alloc)),
        Term::Listed(values) => list_shape(alloc, values),
        Term::Section(_, picks) => array_operand(alloc, extents(alloc, picks.as_slice())?),
        Term::Unary(_, t) => operands(alloc, t.get()),
        Term::Binary(_, t, u) => {
            let mut shapes = operands(alloc, t.get())?;
            let more = operands(alloc, u.get())?;
            shapes.append(more)?;
            Ok(shapes)
        }
        Term::Call(_, ts) => all_operands(alloc, ts.as_slice()),
    }
}

#[cycle(shaping)]
fn all_operands(alloc: Global, ts: &[Term]) -> Result<Items<Extents>, AllocError>
    ensures { IfOk result (λ shapes. shapes ≡ lists.all_operands ts.now) }
{
    let mut shapes = Items::new(alloc);
    'each: for t in ts {
        let more = operands(alloc, t)?;
        shapes.append(more)?;
    }
    Ok(shapes)
}

/// The extents of a section.
#[cycle(shaping)]
pub fn extents(alloc: Global, picks: &[Pick]) -> Result<Extents, AllocError>
    ensures { IfOk result (λ extents. extents ≡ stage1.picked picks.now) }
{
    let mut extents = Items::new(alloc);
    'each: for pick in picks {
        if let Some(extent) = reach(alloc, pick)? {
            extents.push(extent)?;
        }
    }
    Ok(extents)
}

/// How many subscripts a section has in a dimension, unless it is one.
#[cycle(shaping)]
#[tactic(auto, unfolding(array_meaning::specs::Terms::terms_open))]
pub fn reach(alloc: Global, pick: &Pick) -> Result<Option<u64>, AllocError>
    ensures { IfOk result (λ reach. reach ≡ lists.reach pick.now) }
{
    match pick {
        Pick::One(_) => Ok(None),
        Pick::Full(dim) => Ok(Some(dim.extent)),
        Pick::Range(triplet) => Ok(Some(count(triplet))),
        Pick::Vector(t) => Ok(Some(vector_extent(alloc, t)?)),
    }
}

/// How many subscripts a vector gives: the extent of its array operands.
#[cycle(shaping)]
pub fn vector_extent(alloc: Global, t: &Term) -> Result<u64, AllocError>
    ensures { IfOk result (λ extent. extent ≡ stage2.vector_extent (stage2.operands t.now)) }
{
    let shapes = operands(alloc, t)?;
    Ok(first_extent(shapes.as_slice()))
}

fn first_extent(shapes: &[Extents]) -> u64
    ensures { result ≡ stage2.vector_extent shapes.now }
{
    let [shape, ..] = shapes else {
        return 1;
    };
    match shape.as_slice() {
        [] => 1,
        [extent, ..] => *extent,
    }
}
