//! Left sides of assignments (Fortran 2018, 10.2.1).

ghost use Rattle.std.specs.Prelude.{◌≡◌, IfOk, Some};
ghost use Rattle.std.specs.List.{All};
ghost use Rattle.ws_space.specs.Values as space;
ghost use Rattle.array_meaning.specs.Assign as assign;
ghost use Rattle.term_eval.specs.Words.{Gives, GivesTarget, IsSmall, IsSmallSub, IsSmallTarget, IsWorld};
ghost use Rattle.term_eval.specs.Lists as lists;

use crate::designators::{copy_of, selected, whole_array};
use crate::expressions::picks;
use crate::names::{allocated, is_named, state_of};
use crate::shapes::dims_of;
use crate::stop::Stop;
use array_meaning::{Term, World};
use sqlite_items::Items;
use std::alloc::{AllocError, Global};
use ws_base::{FaultName, Name};
use ws_space::{ArrayValue, Dim, Shape, VarState};
use ws_tree::{Expr, Sub};

/// A left side: a selection of what its variable holds, or a whole allocatable that may change its shape.
#[derive(Debug, Drop)]
pub enum Target {
    Selection(Term),
    Movable,
}

fn is_name_in(names: &[Name], name: &str) -> bool
    ensures { result ≡ assign.is_name_in names.now name.now }
{
    for other in names {
        if is_named(other, name) {
            return true;
        }
    }
    false
}

/// A scalar as an array of rank 0.
fn scalar_array(alloc: Global, value: i64) -> Result<ArrayValue, AllocError>
    ensures { IfOk result (λ array. Some array ≡ space.held (VarState.Scalar value)) }
{
    let unused = Dim {
        lower: 1,
        extent: 1,
    };
    let mut values = Items::new(alloc);
    values.push(value)?;
    Ok(ArrayValue {
        shape: Shape {
            rank: 0,
            d1: unused,
            d2: unused,
            d3: unused,
        },
        values,
    })
}

/// All elements of what a variable holds.
fn whole_variable(alloc: Global, world: &World, name: &str) -> Result<Term, Stop>
    ensures { Gives result (lists.whole_of world.now name.now) }
{
    match state_of(world.vars.as_slice(), name) {
        None => Ok(whole_array(alloc, &scalar_array(alloc, 0)?)?),
        Some(VarState::Scalar(value)) => Ok(whole_array(alloc, &scalar_array(alloc, *value)?)?),
        Some(VarState::Array(array)) => Ok(whole_array(alloc, array)?),
        Some(VarState::Unallocated { .. }) => Err(Stop::from(FaultName::Unallocated)),
    }
}

/// The elements of a variable that its subscripts select.
fn part_of(alloc: Global, world: &World, name: &str, subs: &[Sub]) -> Result<Term, Stop>
    requires world { IsWorld world.now }
    requires small { All IsSmallSub subs.now }
    ensures { Gives result (lists.part_of world.now name.now subs.now) }
{
    let array = allocated(world.vars.as_slice(), name)?;
    let dims = dims_of(alloc, &array.shape)?;
    let picks = picks(alloc, world, dims.as_slice(), subs)?;
    selected(alloc, array, picks.as_slice())?;
    Ok(Term::Section(copy_of(alloc, array)?, picks))
}

/// The left side of an assignment, which in a WHERE does not change its shape. In an accepted program it is a name, with subscripts
/// or without.
#[tactic(auto, unfolding(ws_tree::specs::Opened::trees_open))]
pub fn left_side(alloc: Global, in_where: bool, world: &World, left: &Expr) -> Result<Target, Stop>
    requires world { IsWorld world.now }
    requires small { IsSmall left.now }
    ensures value { GivesTarget (space.state_of world.now.vars (assign.target_name left.now)) result (assign.target in_where world.now left.now) }
    ensures small { IfOk result IsSmallTarget }
{
    match left {
        Expr::Named(name) => {
            let name = name.as_str();
            if !in_where && is_name_in(world.allocatables.as_slice(), name) {
                return Ok(Target::Movable);
            }
            Ok(Target::Selection(whole_variable(alloc, world, name)?))
        }
        Expr::Part(name, subs) => {
            let part = part_of(alloc, world, name.as_str(), subs.as_slice())?;
            Ok(Target::Selection(part))
        }
        _ => Err(Stop::from(FaultName::Unallocated)),
    }
}
