//! ALLOCATE and DEALLOCATE (Fortran 2018, 9.7.1 and 9.7.3).

ghost use Rattle.std.specs.Prelude.{◌≡◌, ◌≤◌, IfOk, OnOk, length, replicate, pos};
ghost use Rattle.std.specs.List.{All};
ghost use Rattle.ws_space.specs.Faults as faults;
ghost use Rattle.ws_space.specs.Replace as replace;
ghost use Rattle.ws_space.specs.Sections.{limited};
ghost use Rattle.ws_space.specs.Shapes as shapes;
ghost use Rattle.ws_space.specs.Values as space;
ghost use Rattle.array_meaning.specs.Program as program;
ghost use Rattle.term_eval.specs.Limits.{IsInteger, IsSmallState, IsWorld};
ghost use Rattle.term_eval.specs.Made.{Gives};
ghost use Rattle.slow_eval.specs.Allocation.{allocated_as};
ghost use Rattle.step_eval.specs.Halts.{Leaves};
ghost use Rattle.step_eval.specs.Narrow.{AreDims};
ghost use Rattle.step_eval.specs.Small.{IsSmallBound, IsSmallPart};

use array_meaning::World;
use sqlite_items::Items;
use std::alloc::{AllocError, Global};
use step_eval::{Halt, at_lines, extents_of, kept, set_state, shape_from};
use term_eval::{Stop, is_too_large, scalar, state_of};
use ws_base::{FaultName, Name};
use ws_space::{Dim, Var, VarState, size};
use ws_tree::{Bound, Part};

// ---- bounds

/// A value, or 0 where it is below 0.
fn natural(value: i64) -> u64
    ensures { result ≡ shapes.natural value }
{
    if value < 0 { 0 } else { value.unsigned_abs() }
}

/// The dimension with these bounds.
fn declared_dim(lower: i32, upper: i32) -> Dim
    ensures { result ≡ shapes.declared_dim lower upper }
{
    Dim {
        lower,
        extent: natural(i64::from(upper) - i64::from(lower) + 1),
    }
}

/// The dimension that a bound gives. `:` alone is no bound here in an accepted program.
fn bound_dim(alloc: Global, world: &World, bound: &Bound) -> Result<Dim, Stop>
    requires world { IsWorld world.now }
    requires small { IsSmallBound bound.now }
    ensures { Gives result (program.bound_dim world.now bound.now) }
{
    match bound {
        Bound::Upper(e) => {
            let upper = scalar(alloc, world, e)?;
            Ok(declared_dim(1, upper))
        }
        Bound::Both(e, f) => {
            let lower = scalar(alloc, world, e)?;
            let upper = scalar(alloc, world, f)?;
            Ok(declared_dim(lower, upper))
        }
        Bound::Deferred => Ok(declared_dim(1, 0)),
    }
}

/// The dimensions that these bounds give, from left to right.
pub fn bound_dims(alloc: Global, world: &World, bounds: &[Bound]) -> Result<Items<Dim>, Stop>
    requires world { IsWorld world.now }
    requires small { All IsSmallBound bounds.now }
    ensures value { Gives result (program.bound_dims world.now bounds.now) }
    ensures as_many { IfOk result (λ dims. length dims ≡ length bounds.now) }
{
    let mut dims = Items::new(alloc);
    'each: for bound in bounds {
        let dim = bound_dim(alloc, world, bound)?;
        dims.push(dim)?;
    }
    Ok(dims)
}

// ---- elements

/// So many values 0, each of which is also false.
#[tactic(auto, using(crate::proofs::Allocated::zeros_integers))]
fn zero_values(alloc: Global, count: usize) -> Result<Items<i64>, AllocError>
    ensures value { IfOk result (λ values. values ≡ replicate count (pos 0)) }
    ensures integers { IfOk result (All IsInteger) }
{
    Ok(Items::from_vec(vec![in alloc; 0; count]?))
}

/// What a variable of these dimensions holds at first.
#[tactic(auto, using(crate::proofs::Allocated::elements_are))]
pub fn zeros(alloc: Global, dims: &[Dim]) -> Result<VarState, AllocError>
    requires { AreDims dims.now }
    ensures value { IfOk result (λ state. state ≡ replace.zeros dims.now) }
    ensures small { IfOk result IsSmallState }
{
    let count = size(&shape_from(dims));
    let values = zero_values(alloc, count as usize)?;
    Ok(kept(dims, values))
}

/// What an array of these dimensions holds once it is allocated. TooLarge past the limit of elements.
fn limited_zeros(alloc: Global, dims: &[Dim]) -> Result<VarState, Stop>
    requires { length dims.now ≤ 3 }
    ensures value { Gives result (limited (shapes.extents_of dims.now) (replace.zeros dims.now)) }
    ensures small { IfOk result IsSmallState }
{
    let extents = extents_of(alloc, dims)?;
    if is_too_large(extents.as_slice()) {
        return Err(Stop::from(FaultName::TooLarge));
    }
    Ok(zeros(alloc, dims)?)
}

// ---- the statements

/// What an array holds once it is allocated. Allocated where it was before.
fn allocated(alloc: Global, world: &World, part: &Part) -> Result<VarState, Stop>
    requires world { IsWorld world.now }
    requires small { IsSmallPart part.now }
    ensures value { Gives result (allocated_as world.now part.now) }
    ensures small { IfOk result IsSmallState }
{
    let dims = bound_dims(alloc, world, part.shape.as_slice())?;
    let Some(VarState::Unallocated { .. }) = state_of(world.vars.as_slice(), part.name.as_str())
    else {
        return Err(Stop::from(FaultName::Allocated));
    };
    limited_zeros(alloc, dims.as_slice())
}

/// ALLOCATE: array after array, where the bounds of one see those before it.
pub fn allocate(alloc: Global, world: &mut World, line: u32, parts: &[Part]) -> Result<(), Halt>
    requires world { IsWorld world.old }
    requires small { All IsSmallPart parts.now }
    ensures value { Leaves result (faults.at_line line (program.allocate world.old parts.now)) world.new }
    ensures kept { OnOk result (IsWorld world.new) }
{
    'each: for part in parts {
        let state = match allocated(alloc, world, part) {
            Ok(state) => state,
            Err(stop) => return Err(at_lines(line, line, stop)),
        };
        set_state(alloc, &mut world.vars, &part.name, state)?;
    }
    Ok(())
}

/// What an array holds once it is deallocated. Unallocated where it was not allocated.
fn freed(vars: &[Var], name: &Name) -> Result<VarState, Stop>
    ensures value { Gives result (replace.freed (space.state_of vars.now name.now)) }
    ensures small { IfOk result IsSmallState }
{
    match state_of(vars, name.as_str()) {
        Some(VarState::Array(array)) => Ok(VarState::Unallocated {
            rank: array.shape.rank,
        }),
        _ => Err(Stop::from(FaultName::Unallocated)),
    }
}

/// DEALLOCATE: array after array.
pub fn deallocate(alloc: Global, world: &mut World, line: u32, names: &[Name]) -> Result<(), Halt>
    requires world { IsWorld world.old }
    ensures value { Leaves result (faults.at_line line (program.deallocate world.old names.now)) world.new }
    ensures kept { OnOk result (IsWorld world.new) }
{
    'each: for name in names {
        let state = match freed(world.vars.as_slice(), name) {
            Ok(state) => state,
            Err(stop) => return Err(at_lines(line, line, stop)),
        };
        set_state(alloc, &mut world.vars, name, state)?;
    }
    Ok(())
}
