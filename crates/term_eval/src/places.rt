//! The place of an element (Fortran 2018, 9.5.3.3), and the elements at columns of subscripts.

ghost use Rattle.std.specs.Prelude.{◌≡◌, ◌≤◌, ◌<◌, ◌+◌, ◌*◌, ◌^◌, length, map, true, false, IfOk, MatchOption};
ghost use Rattle.std.specs.List.{All};
ghost use Rattle.ws_base.specs.Outcomes.{each, rows};
ghost use Rattle.ws_space.specs.Shapes as spec;
ghost use Rattle.ws_space.specs.Shapes.{extents_of, distance};
ghost use Rattle.ws_space.specs.Values as space;
ghost use Rattle.ws_space.specs.Sections as sections;
ghost use Rattle.ws_space.specs.WellFormed.{elements};
ghost use Rattle.array_meaning.specs.Forall.{element_of, place_in};
ghost use Rattle.term_eval.specs.Words.{Gives, IsFew, IsVar};
ghost use Rattle.term_eval.specs.Lists.{element_in, values_in};

use crate::maps::{fails, keep, row};
use crate::names::allocated;
use crate::shapes::dims_of;
use crate::stop::Stop;
use sqlite_items::Items;
use std::alloc::{AllocError, Global};
use ws_base::FaultName;
use ws_space::{ArrayValue, Dim, ELEMENT_LIMIT, Var};

/// The last subscript of a dimension.
pub fn upper(dim: Dim) -> i128
    ensures { result ≡ spec.upper dim }
{
    i128::from(dim.lower) + i128::from(dim.extent) - 1
}

pub fn is_within(dim: Dim, subscript: i128) -> bool
    ensures { result ≡ spec.within dim subscript }
{
    i128::from(dim.lower) <= subscript && subscript <= upper(dim)
}

/// How far a subscript is above the lower bound, where it is within the dimension.
fn offset(dim: Dim, subscript: i64) -> Option<u64>
    ensures { MatchOption result (spec.within dim subscript ≡ false) (λ far. (spec.within dim subscript ≡ true) × (far ≡ distance dim.lower subscript)) }
{
    let far = i128::from(subscript) - i128::from(dim.lower);
    if far < 0 {
        return None;
    }
    let far = far.unsigned_abs();
    if far < u128::from(dim.extent) {
        Some(far as u64)
    } else {
        None
    }
}

/// `inner` in a row of `extent`, and `outer` rows before.
fn onto(inner: u64, extent: u64, outer: u32) -> u32
    requires { inner + extent * outer < 65536 }
    ensures { result ≡ inner + extent * outer }
{
    (inner + extent * u64::from(outer)) as u32
}

/// The place of the element with these subscripts, from 0. Bounds where one is out of bounds. An array has at most three
/// dimensions, so the recursion is as deep.
pub fn place(dims: &[Dim], subscripts: &[i64]) -> Result<u32, FaultName>
    requires { IsFew (extents_of dims.now) }
    ensures value { result ≡ spec.place dims.now subscripts.now }
    ensures below { IfOk result (λ place. place < spec.size (extents_of dims.now)) }
{
    match dims {
        [] => Ok(0),
        [dim, dims @ ..] => match subscripts {
            [] => Err(FaultName::Bounds),
            [subscript, subscripts @ ..] => {
                let Some(offset) = offset(*dim, *subscript) else {
                    return Err(FaultName::Bounds);
                };
                let rest = place(dims, subscripts)?;
                Ok(onto(offset, dim.extent, rest))
            }
        },
    }
}

/// The value at a place, and 0 past the end.
pub fn value_at(values: &[i64], place: u32) -> i64
    ensures { result ≡ space.value_at values.now place }
{
    match values.get(place as usize) {
        Some(value) => *value,
        None => 0,
    }
}

/// The element with these subscripts.
pub fn element(dims: &[Dim], values: &[i64], subscripts: &[i64]) -> Result<i64, FaultName>
    requires { IsFew (extents_of dims.now) }
    ensures { result ≡ element_in dims.now values.now subscripts.now }
{
    let place = place(dims, subscripts)?;
    Ok(value_at(values, place))
}

/// The values at these places, and 0 past the end.
pub fn listed(alloc: Global, values: &[i64], places: &[u32]) -> Result<Items<i64>, AllocError>
    ensures { IfOk result (λ made. made ≡ map (space.value_at values.now) places.now) }
{
    let mut made = Items::new(alloc);
    for place in places {
        made.push(value_at(values, *place))?;
    }
    Ok(made)
}

/// The places of the elements with the subscripts of each row of the columns, of which there is one for each dimension.
pub fn places_at(
    alloc: Global,
    array: &ArrayValue,
    places: &[u32],
    columns: &[Items<i64>],
) -> Result<Items<u32>, Stop>
    requires array { elements array.now.shape ≤ ELEMENT_LIMIT }
    requires few { length places.now ≤ 2 ^ 32 }
    requires columns { All (λ column. length column ≡ length places.now) columns.now }
    ensures { Gives result (sections.places_at array.now places.now columns.now) }
{
    let dims = dims_of(alloc, &array.shape)?;
    let mut made = Items::new(alloc);
    for i in 0..places.len() {
        let subscripts = row(alloc, columns, i)?;
        keep(&mut made, place(dims.as_slice(), subscripts.as_slice()))?;
    }
    Ok(made)
}

/// The elements that stand at these places of a variable. One that is no array has none.
#[tactic(auto, using(crate::proofs::Variables::values_held, crate::proofs::Variables::nothing_held))]
fn elements_of(
    alloc: Global,
    vars: &[Var],
    name: &str,
    places: &[u32],
) -> Result<Items<i64>, AllocError>
    ensures { IfOk result (λ made. made ≡ map (space.value_at (values_in (space.state_of vars.now name.now))) places.now) }
{
    match allocated(vars, name) {
        Ok(array) => listed(alloc, array.values.as_slice(), places),
        Err(_) => listed(alloc, &[], places),
    }
}

/// The places of the elements of a variable in a FORALL, one for each combination. Unallocated where it is no array.
pub fn targets_over(
    alloc: Global,
    vars: &[Var],
    name: &str,
    places: &[u32],
    columns: &[Items<i64>],
) -> Result<Items<u32>, Stop>
    requires vars { All IsVar vars.now }
    requires few { length places.now ≤ 2 ^ 32 }
    requires columns { All (λ column. length column ≡ length places.now) columns.now }
    ensures { Gives result (each (place_in (space.state_of vars.now name.now)) (rows places.now columns.now)) }
{
    match allocated(vars, name) {
        Ok(array) => places_at(alloc, array, places, columns),
        Err(fault) => fails(alloc, fault, places),
    }
}

/// The elements of a variable in a FORALL, one for each combination. Unallocated where it is no array.
pub fn elements_over(
    alloc: Global,
    vars: &[Var],
    name: &str,
    places: &[u32],
    columns: &[Items<i64>],
) -> Result<Items<i64>, Stop>
    requires vars { All IsVar vars.now }
    requires few { length places.now ≤ 2 ^ 32 }
    requires columns { All (λ column. length column ≡ length places.now) columns.now }
    ensures { Gives result (each (element_of (space.state_of vars.now name.now)) (rows places.now columns.now)) }
{
    let targets = targets_over(alloc, vars, name, places, columns)?;
    Ok(elements_of(alloc, vars, name, targets.as_slice())?)
}
