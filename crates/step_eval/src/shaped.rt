//! The shapes that an assignment gives and takes (Fortran 2018, 10.2.1.3).

ghost use Rattle.std.specs.Prelude.{◌≡◌, IfOk, if◌then◌else◌};
ghost use Rattle.std.specs.List.{All};
ghost use Rattle.ws_space.specs.Values as space;
ghost use Rattle.ws_space.specs.Replace as replace;
ghost use Rattle.ws_space.specs.Shapes as shapes;
ghost use Rattle.array_meaning.specs.Assign as meaning;
ghost use Rattle.term_eval.specs.Limits.{IsVar, IsFew, IsWorld, IsInteger, IsSmallArray, IsSmallState};
ghost use Rattle.step_eval.specs.Narrow.{AreDims, IsNarrow};
ghost use Rattle.term_eval.specs.Made.{Gives};

use array_meaning::World;
use sqlite_items::Items;
use std::alloc::{AllocError, Global};
use term_eval::{Extents, Stop, dims_of, state_of};
use ws_base::{FaultName, Name};
use ws_space::{ArrayValue, Dim, Var, VarState, shape_from};
use ws_tree::Expr;

/// What a variable of these dimensions holds with these values. One of rank 0 is a scalar.
#[tactic(auto, using(crate::proofs::KeptLimits::small_kept))]
pub fn kept(dims: &[Dim], values: Items<i64>) -> VarState
    requires dims { AreDims dims.now }
    requires integers { All IsInteger values }
    ensures value { result ≡ space.kept dims.now values }
    ensures small { IsSmallState result }
{
    if dims.is_empty() {
        return VarState::Scalar(match values.get(0) {
            Some(value) => *value,
            None => 0,
        });
    }
    VarState::Array(ArrayValue {
        shape: shape_from(dims),
        values,
    })
}

/// The dimensions of an array.
#[tactic(auto, using(crate::proofs::KeptLimits::dims_are))]
pub fn dims_held(alloc: Global, array: &ArrayValue) -> Result<Items<Dim>, AllocError>
    requires { IsSmallArray array.now }
    ensures value { IfOk result (λ dims. dims ≡ shapes.dims array.now.shape) }
    ensures dims { IfOk result AreDims }
{
    dims_of(alloc, &array.shape)
}

/// The extent in each of these dimensions.
pub fn extents_of(alloc: Global, dims: &[Dim]) -> Result<Extents, AllocError>
    ensures { IfOk result (λ extents. extents ≡ shapes.extents_of dims.now) }
{
    let mut extents = Items::new(alloc);
    for dim in dims {
        extents.push(dim.extent)?;
    }
    Ok(extents)
}

fn same_extents(dims: &[Dim], extents: &[u64]) -> bool
    ensures { result ≡ shapes.same_extents (shapes.extents_of dims.now) extents.now }
{
    if dims.len() != extents.len() {
        return false;
    }
    for i in 0..dims.len() {
        if dims[i].extent != extents[i] {
            return false;
        }
    }
    true
}

/// Each lower bound, and 1 in a dimension of extent 0.
fn handed_on(alloc: Global, held: &[Dim]) -> Result<Items<Dim>, AllocError>
    ensures { IfOk result (λ dims. dims ≡ replace.handed_on held.now) }
{
    let mut dims = Items::new(alloc);
    for dim in held {
        let lower = if dim.extent == 0 { 1 } else { dim.lower };
        dims.push(Dim {
            lower,
            extent: dim.extent,
        })?;
    }
    Ok(dims)
}

/// The bounds that a whole array hands on.
#[tactic(auto, using(crate::proofs::KeptLimits::handed_on_are))]
fn bounds_of(alloc: Global, array: &ArrayValue) -> Result<Items<Dim>, AllocError>
    requires { IsSmallArray array.now }
    ensures value { IfOk result (λ dims. dims ≡ replace.handed_on (shapes.dims array.now.shape)) }
    ensures dims { IfOk result AreDims }
{
    let dims = dims_held(alloc, array)?;
    handed_on(alloc, dims.as_slice())
}

/// Dimensions of these extents from 1 on.
fn from_one(alloc: Global, extents: &[u64]) -> Result<Items<Dim>, AllocError>
    ensures { IfOk result (λ dims. dims ≡ replace.from_one extents.now) }
{
    let mut dims = Items::new(alloc);
    for extent in extents {
        dims.push(Dim {
            lower: 1,
            extent: *extent,
        })?;
    }
    Ok(dims)
}

/// The bounds from 1 on that a shape of these extents has.
#[tactic(auto, using(crate::proofs::KeptLimits::from_one_are))]
fn first_bounds(alloc: Global, extents: &[u64]) -> Result<Items<Dim>, AllocError>
    requires narrow { IsNarrow extents.now }
    requires few { IsFew extents.now }
    ensures value { IfOk result (λ dims. dims ≡ replace.from_one extents.now) }
    ensures dims { IfOk result AreDims }
{
    from_one(alloc, extents)
}

/// The bounds of a new left side: those of a whole array on the right, and 1 in front otherwise.
#[tactic(auto, using(crate::proofs::KeptLimits::state_held))]
fn new_bounds(
    alloc: Global,
    world: &World,
    right: &Expr,
    extents: &[u64],
) -> Result<Items<Dim>, AllocError>
    requires world { IsWorld world.now }
    requires narrow { IsNarrow extents.now }
    requires few { IsFew extents.now }
    ensures dims { IfOk result AreDims }
    ensures value { IfOk result (λ dims. dims ≡ meaning.new_bounds world.now right.now extents.now) }
{
    let Expr::Named(name) = right else {
        return first_bounds(alloc, extents);
    };
    match state_of(world.vars.as_slice(), name.as_str()) {
        Some(VarState::Array(array)) => bounds_of(alloc, array),
        _ => first_bounds(alloc, extents),
    }
}

/// The dimensions that a whole allocatable has after an assignment of these extents: its own where it has them.
#[tactic(auto, using(crate::proofs::KeptLimits::state_held))]
pub fn moved_dims(
    alloc: Global,
    world: &World,
    name: &Name,
    right: &Expr,
    extents: &[u64],
) -> Result<Items<Dim>, AllocError>
    requires world { IsWorld world.now }
    requires narrow { IsNarrow extents.now }
    requires few { IsFew extents.now }
    ensures dims { IfOk result AreDims }
    ensures value { IfOk result (λ dims. dims ≡ (if replace.has_extents (space.state_of world.now.vars name.now) extents.now then replace.dims_of (space.state_of world.now.vars name.now) else meaning.new_bounds world.now right.now extents.now)) }
{
    if let Some(VarState::Array(array)) = state_of(world.vars.as_slice(), name.as_str()) {
        let dims = dims_held(alloc, array)?;
        if same_extents(dims.as_slice(), extents) {
            return Ok(dims);
        }
    }
    new_bounds(alloc, world, right, extents)
}

/// The shape in which a whole allocatable takes a value of these extents. A value without array operands takes the variable's own.
#[tactic(auto, using(crate::proofs::KeptLimits::state_held, crate::proofs::KeptLimits::extents_narrow, crate::proofs::KeptLimits::extents_few))]
pub fn moved_shape(
    alloc: Global,
    vars: &[Var],
    name: &Name,
    others: &[Extents],
    extents: Extents,
) -> Result<Extents, Stop>
    requires vars { All IsVar vars.now }
    requires narrow { IsNarrow extents }
    requires few { IsFew extents }
    ensures value { Gives result (replace.moved_shape others.now (space.state_of vars.now name.now) extents) }
    ensures narrow { IfOk result IsNarrow }
    ensures few { IfOk result IsFew }
{
    if !others.is_empty() {
        return Ok(extents);
    }
    match state_of(vars, name.as_str()) {
        Some(VarState::Unallocated { .. }) => Err(Stop::from(FaultName::Unallocated)),
        Some(VarState::Array(array)) => {
            let dims = dims_held(alloc, array)?;
            Ok(extents_of(alloc, dims.as_slice())?)
        }
        _ => Ok(extents),
    }
}
