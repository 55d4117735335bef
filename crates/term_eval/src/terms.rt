//! The second stage of a step: each operation of rank above 0 as one map over all active places, operands before operators.

ghost use Rattle.std.specs.Prelude.{◌≡◌, ◌≤◌, ◌<◌, ◌^◌, ◌/◌, ◌%◌, length, IfOk, IfSome};
ghost use Rattle.std.specs.List.{All};
ghost use Rattle.ws_base.specs.Outcomes as outcomes;
ghost use Rattle.ws_space.specs.Sections as sections;
ghost use Rattle.ws_space.specs.Subscripts as subscripts;
ghost use Rattle.array_meaning.specs.Stage2 as stage2;
ghost use Rattle.term_eval.specs.Words.{Gives, IsAlong, IsSmallPick, IsSmallTerm};
ghost use Rattle.term_eval.specs.Lists as lists;

use crate::maps::{binary_map, call_map, same_value, unary_map};
use crate::operand_shapes::{count, operands, reach, vector_extent};
use crate::places::{listed, places_at};
use crate::shapes::{agreed, all_places};
use crate::stop::Stop;
use array_meaning::{Pick, Term};
use sqlite_items::Items;
use std::alloc::{AllocError, Global};
use ws_base::Trouble;
use ws_space::{Dim, Triplet};

// ---- columns of subscripts

/// The place in a dimension of this extent. What remains by 0 is the place itself, where no place can be.
fn place_here(extent: u64, place: u32) -> u32
    ensures { result ≡ place % extent }
{
    if extent == 0 {
        place
    } else {
        (u64::from(place) % extent) as u32
    }
}

/// The place in the dimensions after one of this extent.
fn place_beyond(extent: u64, place: u32) -> u32
    ensures { result ≡ place / extent }
{
    if extent == 0 {
        0
    } else {
        (u64::from(place) / extent) as u32
    }
}

fn here(alloc: Global, extent: u64, places: &[u32]) -> Result<Items<u32>, AllocError>
    ensures { IfOk result (λ made. made ≡ sections.here extent places.now) }
{
    let mut made = Items::new(alloc);
    for place in places {
        made.push(place_here(extent, *place))?;
    }
    Ok(made)
}

/// The places in the dimensions after one of this extent.
pub fn beyond(alloc: Global, extent: u64, places: &[u32]) -> Result<Items<u32>, AllocError>
    ensures { IfOk result (λ made. made ≡ sections.beyond extent places.now) }
{
    let mut made = Items::new(alloc);
    for place in places {
        made.push(place_beyond(extent, *place))?;
    }
    Ok(made)
}

fn past(alloc: Global, reach: Option<u64>, places: Items<u32>) -> Result<Items<u32>, AllocError>
    ensures { IfOk result (λ made. made ≡ lists.past reach places) }
{
    match reach {
        None => Ok(places),
        Some(extent) => beyond(alloc, extent, places.as_slice()),
    }
}

/// `l + k * s`.
fn stepped(triplet: &Triplet, k: u32) -> i64
    ensures { result ≡ subscripts.stepped triplet.now k }
{
    i64::from(triplet.l) + i64::from(k) * i64::from(triplet.s)
}

/// The subscripts of a triplet at these places of its dimension and the ones after it.
pub fn triplet_column(
    alloc: Global,
    triplet: &Triplet,
    places: &[u32],
) -> Result<Items<i64>, AllocError>
    ensures { IfOk result (λ column. column ≡ sections.triplet_column triplet.now places.now) }
{
    let extent = count(triplet);
    let mut column = Items::new(alloc);
    for place in places {
        column.push(stepped(triplet, place_here(extent, *place)))?;
    }
    Ok(column)
}

fn full_column(alloc: Global, dim: Dim, places: &[u32]) -> Result<Items<i64>, AllocError>
    ensures { IfOk result (λ column. column ≡ sections.full_column dim places.now) }
{
    let mut column = Items::new(alloc);
    for place in places {
        column.push(i64::from(dim.lower) + i64::from(place_here(dim.extent, *place)))?;
    }
    Ok(column)
}

// ---- values

/// The values at these places of the term's shape. A fault's element is the place in the list.
#[cycle(valuing)]
#[tactic(auto, unfolding(array_meaning::specs::Terms::terms_open))]
pub fn values(alloc: Global, t: &Term, places: &[u32]) -> Result<Items<i64>, Stop>
    requires small { IsSmallTerm t.now }
    requires few { length places.now ≤ 2 ^ 32 }
    ensures value { Gives result (stage2.values t.now places.now) }
    ensures along { IsAlong result (length places.now) }
{
    match t {
        Term::Scalar(value) => Ok(same_value(alloc, *value, places)?),
        Term::Listed(values) => Ok(listed(alloc, values.as_slice(), places)?),
        Term::Section(array, picks) => {
            let columns = columns(alloc, picks.as_slice(), places)?;
            let selected = places_at(alloc, array, places, columns.as_slice())?;
            Ok(listed(alloc, array.values.as_slice(), selected.as_slice())?)
        }
        Term::Unary(op, t) => {
            let operand = values(alloc, t.get(), places)?;
            unary_map(alloc, *op, operand.as_slice())
        }
        Term::Binary(op, t, u) => {
            let left = values(alloc, t.get(), places)?;
            let right = values(alloc, u.get(), places)?;
            binary_map(alloc, *op, places, left.as_slice(), right.as_slice())
        }
        Term::Call(word, ts) => {
            let columns = all_values(alloc, ts.as_slice(), places)?;
            call_map(alloc, *word, places, columns.as_slice())
        }
    }
}

#[cycle(valuing)]
fn all_values(alloc: Global, ts: &[Term], places: &[u32]) -> Result<Items<Items<i64>>, Stop>
    requires small { All IsSmallTerm ts.now }
    requires few { length places.now ≤ 2 ^ 32 }
    ensures value { Gives result (lists.all_values ts.now places.now) }
    ensures along { IfOk result (All (λ column. length column ≡ length places.now)) }
{
    let mut columns = Items::new(alloc);
    'each: for t in ts {
        let column = values(alloc, t, places)?;
        columns.push(column)?;
    }
    Ok(columns)
}

/// The subscripts that a section has at these places, dimension by dimension.
#[cycle(valuing)]
fn columns(alloc: Global, picks: &[Pick], places: &[u32]) -> Result<Items<Items<i64>>, Stop>
    requires small { All IsSmallPick picks.now }
    requires few { length places.now ≤ 2 ^ 32 }
    ensures value { Gives result (lists.columns picks.now places.now) }
    ensures along { IfOk result (All (λ column. length column ≡ length places.now)) }
{
    let mut columns = Items::new(alloc);
    let mut rest = Items::from_slice(alloc, places)?;
    'each: for pick in picks {
        let first = column(alloc, pick, rest.as_slice())?;
        columns.push(first)?;
        rest = past(alloc, reach(alloc, pick)?, rest)?;
    }
    Ok(columns)
}

#[cycle(valuing)]
#[tactic(auto, unfolding(array_meaning::specs::Terms::terms_open))]
fn column(alloc: Global, pick: &Pick, places: &[u32]) -> Result<Items<i64>, Stop>
    requires small { IsSmallPick pick.now }
    requires few { length places.now ≤ 2 ^ 32 }
    ensures { Gives result (lists.column pick.now places.now) }
{
    match pick {
        Pick::One(subscript) => Ok(same_value(alloc, *subscript, places)?),
        Pick::Full(dim) => Ok(full_column(alloc, *dim, places)?),
        Pick::Range(triplet) => Ok(triplet_column(alloc, triplet, places)?),
        Pick::Vector(t) => {
            let here = here(alloc, vector_extent(alloc, t)?, places)?;
            values(alloc, t, here.as_slice())
        }
    }
}

// ---- whole values and targets

/// A fault in operations over all places, whose elements count from 1.
fn later(trouble: Trouble) -> Trouble
    requires { trouble.element < 4294967295 }
    ensures { result ≡ outcomes.later trouble }
{
    Trouble {
        element: trouble.element + 1,
        name: trouble.name,
    }
}

/// A value with all its places active: conformance, and then the second stage.
pub fn whole(alloc: Global, t: &Term) -> Result<Items<i64>, Stop>
    requires { IsSmallTerm t.now }
    ensures { Gives result (stage2.whole t.now) }
{
    let shape = agreed(alloc, operands(alloc, t)?.as_slice())?;
    let places = all_places(alloc, shape.as_slice())?;
    match values(alloc, t, places.as_slice()) {
        Ok(values) => Ok(values),
        Err(Stop::Memory) => Err(Stop::Memory),
        Err(Stop::Failed(trouble)) => Err(Stop::Failed(later(trouble))),
    }
}

/// The places of the elements of the section's array that stand at these places of the section.
#[tactic(auto, unfolding(array_meaning::specs::Terms::terms_open))]
pub fn targets(alloc: Global, t: &Term, places: &[u32]) -> Result<Items<u32>, Stop>
    requires small { IsSmallTerm t.now }
    requires few { length places.now ≤ 2 ^ 32 }
    ensures value { Gives result (stage2.targets t.now places.now) }
    ensures along { IfSome (stage2.array_of t.now) (λ _. IsAlong result (length places.now)) }
{
    match t {
        Term::Section(array, picks) => {
            let columns = columns(alloc, picks.as_slice(), places)?;
            places_at(alloc, array, places, columns.as_slice())
        }
        // In an accepted program a left side is a section.
        _ => Ok(Items::new(alloc)),
    }
}
