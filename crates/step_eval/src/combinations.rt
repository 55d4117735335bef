//! The values of an expression at combinations of the indexes of a FORALL: each of its operations is one map over them (Fortran 2018,
//! 10.2.4.2.4). What each index goes through stands in its triplet. A combination is a place among all of them, of which the first
//! index varies fastest.

ghost use Rattle.std.specs.Prelude.{◌≡◌, [], length, map, IfOk};
ghost use Rattle.std.specs.List.{All};
ghost use Rattle.ws_space.specs.Sections as sections;
ghost use Rattle.array_meaning.specs.Forall as forall;
ghost use Rattle.term_eval.specs.Limits.{IsSmall, IsSmallSub, IsWorld};
ghost use Rattle.term_eval.specs.Made.{Gives};
ghost use Rattle.step_eval.specs.Combinations.{combinations_at, index_values, over_all, over_subs, AreCombinations};

use array_meaning::World;
use sqlite_items::Items;
use std::alloc::{AllocError, Global};
use term_eval::{
    Stop, beyond, binary_map, call_map, constant_of, count, elements_over, everywhere, inquiry,
    is_inquiry, same_value, state_of, targets_over, triplet_column, unary_map,
};
use value_ops::truth;
use ws_base::Name;
use ws_space::{Triplet, VarState};
use ws_tree::{Expr, Index, Sub};

// ---- names

/// The places in the indexes after one of so many values. One of a single value leaves them as they are.
#[tactic(auto, using(crate::proofs::IndexValues::beyond_one))]
fn after(alloc: Global, extent: u64, places: Items<u32>) -> Result<Items<u32>, AllocError>
    ensures { IfOk result (λ made. made ≡ sections.beyond extent places) }
{
    if extent == 1 {
        return Ok(places);
    }
    beyond(alloc, extent, places.as_slice())
}

/// The values of the index of this name, if there is one.
fn values_of_index(
    alloc: Global,
    indexes: &[Index],
    triplets: &[Triplet],
    places: &[u32],
    name: &Name,
) -> Result<Option<Items<i64>>, AllocError>
    ensures { IfOk result (λ values. values ≡ index_values indexes.now triplets.now name.now places.now) }
{
    let mut rest = Items::from_slice(alloc, places)?;
    'each: for i in 0..indexes.len() {
        if i >= triplets.len() {
            return Ok(None);
        }
        if indexes[i].name == *name {
            return Ok(Some(triplet_column(alloc, &triplets[i], rest.as_slice())?));
        }
        rest = after(alloc, count(&triplets[i]), rest)?;
    }
    Ok(None)
}

/// The value of a name that is no index: a named constant or a scalar variable. In an accepted program no other name stands alone.
fn value_outside(world: &World, name: &Name) -> i64
    ensures { result ≡ forall.name_value world.now name.now [] }
{
    if let Some(value) = constant_of(world.constants.as_slice(), name.as_str()) {
        return value;
    }
    match state_of(world.vars.as_slice(), name.as_str()) {
        Some(VarState::Scalar(value)) => *value,
        _ => 0,
    }
}

/// The values of a name at these combinations.
#[tactic(auto, using(crate::proofs::IndexValues::values_found, crate::proofs::IndexValues::values_absent))]
fn values_of_name(
    alloc: Global,
    world: &World,
    indexes: &[Index],
    triplets: &[Triplet],
    places: &[u32],
    name: &Name,
) -> Result<Items<i64>, AllocError>
    ensures { IfOk result (λ values. values ≡ map (forall.name_value world.now name.now) (combinations_at indexes.now triplets.now places.now)) }
{
    if let Some(values) = values_of_index(alloc, indexes, triplets, places, name)? {
        return Ok(values);
    }
    same_value(alloc, value_outside(world, name), places)
}

// ---- expressions

/// The values at these combinations. Sections, constructors and reductions do not stand in the mask or body of a FORALL of an accepted
/// program.
#[cycle(over)]
#[tactic(auto, unfolding(ws_tree::specs::Opened::trees_open))]
pub fn over(
    alloc: Global,
    world: &World,
    indexes: &[Index],
    triplets: &[Triplet],
    places: &[u32],
    e: &Expr,
) -> Result<Items<i64>, Stop>
    requires world { IsWorld world.now }
    requires small { IsSmall e.now }
    requires combinations { AreCombinations triplets.now places.now }
    ensures { Gives result (forall.over world.now e.now (combinations_at indexes.now triplets.now places.now)) }
{
    match e {
        Expr::Number(n) => Ok(same_value(alloc, i64::from(*n), places)?),
        Expr::TooWide | Expr::TooDeep | Expr::Vector(_) => Ok(same_value(alloc, 0, places)?),
        Expr::Truth(value) => Ok(same_value(alloc, truth(*value), places)?),
        Expr::Named(name) => Ok(values_of_name(alloc, world, indexes, triplets, places, name)?),
        Expr::Part(name, subs) => {
            let subscripts = subscripts_over(
                alloc,
                world,
                indexes,
                triplets,
                places,
                subs.as_slice(),
            )?;
            let vars = world.vars.as_slice();
            elements_over(alloc, vars, name.as_str(), places, subscripts.as_slice())
        }
        Expr::Call(word, es) => {
            if is_inquiry(*word) {
                return everywhere(alloc, inquiry(world, *word, es.as_slice()), places);
            }
            let arguments = arguments_over(alloc, world, indexes, triplets, places, es.as_slice())?;
            call_map(alloc, *word, places, arguments.as_slice())
        }
        Expr::Paren(e) => over(alloc, world, indexes, triplets, places, e.get()),
        Expr::Unary(op, e) => {
            let operand = over(alloc, world, indexes, triplets, places, e.get())?;
            unary_map(alloc, *op, operand.as_slice())
        }
        Expr::Binary(op, e, f) => {
            let left = over(alloc, world, indexes, triplets, places, e.get())?;
            let right = over(alloc, world, indexes, triplets, places, f.get())?;
            binary_map(alloc, *op, places, left.as_slice(), right.as_slice())
        }
    }
}

/// A column for each argument.
#[cycle(over)]
fn arguments_over(
    alloc: Global,
    world: &World,
    indexes: &[Index],
    triplets: &[Triplet],
    places: &[u32],
    es: &[Expr],
) -> Result<Items<Items<i64>>, Stop>
    requires world { IsWorld world.now }
    requires small { All IsSmall es.now }
    requires combinations { AreCombinations triplets.now places.now }
    ensures { Gives result (over_all world.now es.now (combinations_at indexes.now triplets.now places.now)) }
{
    let mut columns = Items::new(alloc);
    'each: for e in es {
        let column = over(alloc, world, indexes, triplets, places, e)?;
        columns.push(column)?;
    }
    Ok(columns)
}

/// A column for each subscript.
#[cycle(over)]
fn subscripts_over(
    alloc: Global,
    world: &World,
    indexes: &[Index],
    triplets: &[Triplet],
    places: &[u32],
    subs: &[Sub],
) -> Result<Items<Items<i64>>, Stop>
    requires world { IsWorld world.now }
    requires small { All IsSmallSub subs.now }
    requires combinations { AreCombinations triplets.now places.now }
    ensures { Gives result (over_subs world.now subs.now (combinations_at indexes.now triplets.now places.now)) }
{
    let mut columns = Items::new(alloc);
    'each: for sub in subs {
        if let Sub::One(e) = sub {
            let column = over(alloc, world, indexes, triplets, places, e)?;
            columns.push(column)?;
        }
    }
    Ok(columns)
}

/// The places of the targets at these combinations. In an accepted program each left side has subscripts.
#[tactic(auto, unfolding(ws_tree::specs::Opened::trees_open))]
pub fn targets_over_all(
    alloc: Global,
    world: &World,
    indexes: &[Index],
    triplets: &[Triplet],
    places: &[u32],
    left: &Expr,
) -> Result<Items<u32>, Stop>
    requires world { IsWorld world.now }
    requires small { IsSmall left.now }
    requires combinations { AreCombinations triplets.now places.now }
    ensures { Gives result (forall.over_targets world.now left.now (combinations_at indexes.now triplets.now places.now)) }
{
    match left {
        Expr::Part(name, subs) => {
            let subscripts = subscripts_over(
                alloc,
                world,
                indexes,
                triplets,
                places,
                subs.as_slice(),
            )?;
            let vars = world.vars.as_slice();
            targets_over(alloc, vars, name.as_str(), places, subscripts.as_slice())
        }
        _ => Ok(Items::new(alloc)),
    }
}
