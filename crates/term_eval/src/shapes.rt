//! Dimensions, extents and places of arrays, in array element order (Fortran 2018, 9.5.3.3).

ghost use Rattle.std.specs.Prelude.{◌≡◌, ◌≤◌, ◌<◌, ◌∷◌, IfOk, nat_lt};
ghost use Rattle.std.specs.List.{All};
ghost use Rattle.ws_space.specs.Shapes as spec;
ghost use Rattle.term_eval.specs.Words.{Gives, IsFew};

use crate::stop::Stop;
use sqlite_items::Items;
use std::alloc::{AllocError, Global};
use ws_base::FaultName;
use ws_space::{Dim, ELEMENT_LIMIT, Shape};

/// The extent in each dimension.
pub type Extents = Items<u64>;

/// The dimensions of a shape, as many as its rank.
pub fn dims_of(alloc: Global, shape: &Shape) -> Result<Items<Dim>, AllocError>
    ensures { IfOk result (λ dims. dims ≡ spec.dims shape.now) }
{
    let dims = [shape.d1, shape.d2, shape.d3];
    match shape.rank {
        0 => Ok(Items::new(alloc)),
        1 => Items::from_slice(alloc, &dims[..1]),
        2 => Items::from_slice(alloc, &dims[..2]),
        _ => Items::from_slice(alloc, &dims),
    }
}

/// The product of the extents. One above the limit may be given as another that is. An array has at most three extents and a header at
/// most 1,024, so the recursion is as deep.
fn size(extents: &[u64]) -> u64
    ensures few { spec.size extents.now ≤ ELEMENT_LIMIT → result ≡ spec.size extents.now }
    ensures many { ELEMENT_LIMIT < spec.size extents.now → ELEMENT_LIMIT < result }
{
    match extents {
        [] => 1,
        [extent, more @ ..] => extent.saturating_mul(size(more)),
    }
}

/// Whether these are more elements than an array, a section or a header may have.
pub fn is_too_large(extents: &[u64]) -> bool
    ensures { result ≡ nat_lt ELEMENT_LIMIT (spec.size extents.now) }
{
    ELEMENT_LIMIT < size(extents)
}

fn same_extents(a: &[u64], b: &[u64]) -> bool
    ensures { result ≡ spec.same_extents a.now b.now }
{
    match a {
        [] => b.is_empty(),
        [m, ms @ ..] => match b {
            [] => false,
            [n, ns @ ..] => *m == *n && same_extents(ms, ns),
        },
    }
}

/// The shape that all of these have. Shape where two differ.
fn agreed_on(alloc: Global, first: &Extents, more: &[Extents]) -> Result<Extents, Stop>
    ensures value { Gives result (spec.agreed (first.now ∷ more.now)) }
    ensures few { IsFew first.now → All IsFew more.now → IfOk result IsFew }
{
    let mut last = first;
    for shape in more {
        if !same_extents(last.as_slice(), shape.as_slice()) {
            return Err(Stop::from(FaultName::Shape));
        }
        last = shape;
    }
    Ok(Items::from_slice(alloc, last.as_slice())?)
}

/// The one shape of all array operands, and none where there are none. Shape where two differ.
pub fn agreed(alloc: Global, shapes: &[Extents]) -> Result<Extents, Stop>
    ensures value { Gives result (spec.agreed shapes.now) }
    ensures few { All IsFew shapes.now → IfOk result IsFew }
{
    match shapes {
        [] => Ok(Items::new(alloc)),
        [first, more @ ..] => agreed_on(alloc, first, more),
    }
}

/// The places of all elements, from 0.
pub fn all_places(alloc: Global, extents: &[u64]) -> Result<Items<u32>, AllocError>
    requires { IsFew extents.now }
    ensures { IfOk result (λ places. places ≡ spec.all_places extents.now) }
{
    let mut places = Items::new(alloc);
    for place in 0..size(extents) as u32 {
        places.push(place)?;
    }
    Ok(places)
}
