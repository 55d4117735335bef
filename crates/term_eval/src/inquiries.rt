//! SIZE, LBOUND, UBOUND and ALLOCATED (Fortran 2018, 16.9).

ghost use Rattle.std.specs.Prelude.{◌≡◌, ◌≤◌};
ghost use Rattle.ws_base.specs.Outcomes.{scalar_of};
ghost use Rattle.ws_space.specs.{Shapes.dims, WellFormed.elements};
ghost use Rattle.ws_space.specs.Inquiries as inquiries;
ghost use Rattle.ws_space.specs.Values as values;
ghost use Rattle.ws_types.specs.Operations as operations;
ghost use Rattle.array_meaning.specs.Stage1 as stage1;
ghost use Rattle.term_eval.specs.Words.{IsWorld};
ghost use Rattle.term_eval.specs.Lists as lists;

use crate::names::{allocated, state_of};
use crate::places::upper;
use array_meaning::World;
use value_ops::{in_kind, truth};
use ws_base::{CallWord, FaultName};
use ws_space::{Dim, ELEMENT_LIMIT, Shape, Var, VarState, size};
use ws_tree::Expr;

const UNUSED: Dim = Dim {
    lower: 1,
    extent: 1,
};

pub fn is_inquiry(word: CallWord) -> bool
    ensures { result ≡ operations.is_inquiry word }
{
    match word {
        CallWord::Size | CallWord::Lbound | CallWord::Ubound | CallWord::Allocated => true,
        _ => false,
    }
}

/// A dimension of a shape, from 1. One that the shape has not got has bounds 1 and 1.
fn dim_at(shape: &Shape, k: u32) -> Dim
    ensures { result ≡ inquiries.dim_at (dims shape.now) k }
{
    match (shape.rank, k) {
        (0, _) => UNUSED,
        (_, 0 | 1) => shape.d1,
        (1, _) => UNUSED,
        (_, 2) => shape.d2,
        (2, _) => UNUSED,
        (_, 3) => shape.d3,
        _ => UNUSED,
    }
}

fn lower_bound(dim: Dim) -> i128
    ensures { result ≡ inquiries.lower_bound dim }
{
    if dim.extent == 0 {
        1
    } else {
        i128::from(dim.lower)
    }
}

fn upper_bound(dim: Dim) -> i128
    ensures { result ≡ inquiries.upper_bound dim }
{
    if dim.extent == 0 { 0 } else { upper(dim) }
}

/// The first argument's name. In an accepted program there is one.
fn name_in(es: &[Expr]) -> &str
    ensures { result.now ≡ lists.name_in es.now }
{
    match es {
        [Expr::Named(name), ..] => name.as_str(),
        _ => "",
    }
}

fn dimension_in(es: &[Expr]) -> Option<u32>
    ensures { result ≡ lists.dimension_in es.now }
{
    match es {
        [_, Expr::Number(k), ..] => Some(*k),
        _ => None,
    }
}

fn size_value(shape: &Shape, dimension: Option<u32>) -> Result<i64, FaultName>
    requires { elements shape.now ≤ ELEMENT_LIMIT }
    ensures { result ≡ inquiries.size_value (dims shape.now) dimension }
{
    match dimension {
        None => in_kind(i128::from(size(shape))),
        Some(k) => in_kind(i128::from(dim_at(shape, k).extent)),
    }
}

fn bound_at(shape: &Shape, dimension: Option<u32>) -> Dim
    ensures { result ≡ inquiries.dim_at (dims shape.now) (stage1.dimension dimension) }
{
    match dimension {
        None => dim_at(shape, 1),
        Some(k) => dim_at(shape, k),
    }
}

fn is_allocated(vars: &[Var], name: &str) -> bool
    ensures { result ≡ stage1.is_allocated (values.state_of vars.now name.now) }
{
    match state_of(vars, name) {
        None => true,
        Some(VarState::Scalar(_)) => true,
        Some(VarState::Array(_)) => true,
        Some(VarState::Unallocated { .. }) => false,
    }
}

/// SIZE, LBOUND, UBOUND or ALLOCATED with these arguments. Unallocated where the array is not, and Overflow where the value is no
/// default integer.
pub fn inquiry(world: &World, word: CallWord, es: &[Expr]) -> Result<i64, FaultName>
    requires { IsWorld world.now }
    ensures { lists.inquiry world.now word es.now ≡ scalar_of result }
{
    let vars = world.vars.as_slice();
    let name = name_in(es);
    let dimension = dimension_in(es);
    match word {
        CallWord::Size => size_value(&allocated(vars, name)?.shape, dimension),
        CallWord::Lbound => {
            let dim = bound_at(&allocated(vars, name)?.shape, dimension);
            in_kind(lower_bound(dim))
        }
        CallWord::Ubound => {
            let dim = bound_at(&allocated(vars, name)?.shape, dimension);
            in_kind(upper_bound(dim))
        }
        CallWord::Allocated => Ok(truth(is_allocated(vars, name))),
        _ => Ok(0),
    }
}
