//! The elements of an array in array element order, where the first subscript varies fastest (Fortran 2018, 9.5.3.3).

ghost use Rattle.std.specs.Prelude.{IsTrue, ◌↔◌, ◌≡◌, ℕ, suc, ◌+◌, ◌*◌, ◌%◌, ◌<◌, ◌≤◌, ◌+ℤ◌, pos, false, true, length, MatchOption, IsOk, Some, Ok, Err, ⊤};
ghost use Rattle.std.specs.List.{Contains, slice_get};
ghost use Rattle.std.specs.Option.{option_map};
ghost use Rattle.ws_base.specs.declared.fault.FaultName.TheVariants.{Bounds};
ghost use Rattle.ws_space.specs.Shapes.{dims, shape_of, within, distance};
ghost use Rattle.ws_space.specs.Shapes as shapes;
ghost use Rattle.ws_space.specs.Subscripts.{listed, subs_of, all_subscripts};
ghost use Rattle.ws_space.specs.WellFormed.{elements, HasLast, IsFilled, IsShape};

use crate::shape::{Dim, ELEMENT_LIMIT, Shape, Subs};

const UNUSED: Dim = Dim {
    lower: 1,
    extent: 1,
};

/// The shape with these dimensions, of which there are at most three.
pub fn shape_from(dims: &[Dim]) -> Shape
    ensures { result ≡ shape_of dims.now }
{
    match dims {
        [] => Shape {
            rank: 0,
            d1: UNUSED,
            d2: UNUSED,
            d3: UNUSED,
        },
        [a] => Shape {
            rank: 1,
            d1: *a,
            d2: UNUSED,
            d3: UNUSED,
        },
        [a, b] => Shape {
            rank: 2,
            d1: *a,
            d2: *b,
            d3: UNUSED,
        },
        [a, b, c, ..] => Shape {
            rank: 3,
            d1: *a,
            d2: *b,
            d3: *c,
        },
    }
}

/// The shape with lower bound 1 and extent 1 in each dimension past its rank.
fn with_unused(shape: &Shape) -> Shape
    ensures { result ≡ shape_of (dims shape.now) }
{
    match shape.rank {
        0 => Shape {
            rank: 0,
            d1: UNUSED,
            d2: UNUSED,
            d3: UNUSED,
        },
        1 => Shape {
            rank: 1,
            d1: shape.d1,
            d2: UNUSED,
            d3: UNUSED,
        },
        2 => Shape {
            rank: 2,
            d1: shape.d1,
            d2: shape.d2,
            d3: UNUSED,
        },
        _ => Shape {
            rank: 3,
            d1: shape.d1,
            d2: shape.d2,
            d3: shape.d3,
        },
    }
}

/// The subscripts with 1 for each past the rank.
fn with_unused_ones(subs: &Subs) -> Subs
    ensures { result ≡ subs_of (listed subs.now) }
{
    match subs.rank {
        0 => Subs {
            rank: 0,
            s1: 1,
            s2: 1,
            s3: 1,
        },
        1 => Subs {
            rank: 1,
            s1: subs.s1,
            s2: 1,
            s3: 1,
        },
        2 => Subs {
            rank: 2,
            s1: subs.s1,
            s2: subs.s2,
            s3: 1,
        },
        _ => Subs {
            rank: 3,
            s1: subs.s1,
            s2: subs.s2,
            s3: subs.s3,
        },
    }
}

/// The product of the extents. One above the limit may be given as another that is.
fn product(whole: Shape) -> u64
    ensures few { whole.d1.extent * (whole.d2.extent * whole.d3.extent) ≤ ELEMENT_LIMIT → result ≡ whole.d1.extent * (whole.d2.extent * whole.d3.extent) }
    ensures many { ELEMENT_LIMIT < whole.d1.extent * (whole.d2.extent * whole.d3.extent) → ELEMENT_LIMIT < result }
{
    whole
        .d1
        .extent
        .saturating_mul(whole.d2.extent)
        .saturating_mul(whole.d3.extent)
}

/// Whether the last subscript is a default integer.
fn has_last(dim: Dim) -> bool
    ensures { IsTrue result ↔ HasLast dim }
{
    if dim.extent > 4_294_967_296 {
        return false;
    }
    i64::from(dim.lower) + dim.extent as i64 - 1 <= 2_147_483_647
}

fn have_last(whole: Shape) -> bool
    ensures { IsTrue result ↔ (HasLast whole.d1 × HasLast whole.d2 × HasLast whole.d3) }
{
    has_last(whole.d1) && has_last(whole.d2) && has_last(whole.d3)
}

/// Whether the other functions take this shape: rank at most 3, at most 65,536 elements, and where it has any, last
/// subscripts that are default integers.
pub fn is_shape(shape: &Shape) -> bool
    ensures { IsTrue result ↔ IsShape shape.now }
{
    if shape.rank > 3 {
        return false;
    }
    let whole = with_unused(shape);
    let elements = product(whole);
    if elements > ELEMENT_LIMIT {
        return false;
    }
    if elements == 0 {
        return true;
    }
    have_last(whole)
}

/// How many elements an array of this shape has, which is the product of its extents.
pub fn size(shape: &Shape) -> u64
    requires { elements shape.now ≤ ELEMENT_LIMIT }
    ensures listed { result ≡ length (all_subscripts shape.now) }
    ensures product { result ≡ elements shape.now }
{
    product(with_unused(shape))
}

/// How far a subscript is above the lower bound, where it is within the dimension.
fn offset(dim: Dim, subscript: i32) -> Option<u64>
    ensures { MatchOption result (within dim subscript ≡ false) (λ far. (within dim subscript ≡ true) × (far ≡ distance dim.lower subscript)) }
{
    let far = i64::from(subscript) - i64::from(dim.lower);
    if far < 0 {
        return None;
    }
    let far = far.unsigned_abs();
    if far < dim.extent { Some(far) } else { None }
}

/// The number of an element in array element order, from 0, or None where a subscript is out of bounds.
pub fn place(shape: &Shape, subs: &Subs) -> Option<u32>
    requires shape { IsShape shape.now }
    requires rank { subs.now.rank ≡ shape.now.rank }
    ensures listed { MatchOption result (Contains (all_subscripts shape.now) (listed subs.now) → ⊥) (λ at. slice_get (all_subscripts shape.now) at ≡ Some (listed subs.now)) }
    ensures place { MatchOption result (shapes.place (dims shape.now) (listed subs.now) ≡ Err Bounds) (λ at. shapes.place (dims shape.now) (listed subs.now) ≡ Ok at) }
{
    let whole = with_unused(shape);
    let subs = with_unused_ones(subs);
    let Some(first) = offset(whole.d1, subs.s1) else {
        return None;
    };
    let Some(second) = offset(whole.d2, subs.s2) else {
        return None;
    };
    let Some(third) = offset(whole.d3, subs.s3) else {
        return None;
    };
    let plane = onto(second, whole.d2.extent, third);
    let at = onto(first, whole.d1.extent, plane);
    Some(at as u32)
}

/// `inner` in a row of `extent`, and `outer` rows before.
fn onto(inner: u64, extent: u64, outer: u64) -> u64
    requires { inner + extent * outer < 65536 }
    ensures { result ≡ inner + extent * outer }
{
    inner + extent * outer
}

/// The subscript in this dimension of the element with number `at`, where the dimensions before have one element.
fn subscript_at(dim: Dim, at: u64) -> i32
    requires { IsFilled dim }
    ensures { result ≡ dim.lower +ℤ pos (at % dim.extent) }
{
    (i64::from(dim.lower) + (at % dim.extent) as i64) as i32
}

/// The subscripts of the element with this number in array element order, from 0. Each past the rank is 1.
pub fn subscripts_at(shape: &Shape, at: u32) -> Subs
    requires shape { IsShape shape.now }
    requires within { at < elements shape.now }
    ensures listed { slice_get (all_subscripts shape.now) at ≡ Some (listed result) }
    ensures place { shapes.place (dims shape.now) (listed result) ≡ Ok at }
    ensures rank { result.rank ≡ shape.now.rank }
    ensures unused { subs_of (listed result) ≡ result }
{
    let whole = with_unused(shape);
    let at = u64::from(at);
    let column = at / whole.d1.extent;
    let plane = column / whole.d2.extent;
    Subs {
        rank: whole.rank,
        s1: subscript_at(whole.d1, at),
        s2: subscript_at(whole.d2, column),
        s3: subscript_at(whole.d3, plane),
    }
}

/// The subscripts of the element after this one in array element order, or None after the last.
pub fn next_subscripts(shape: &Shape, subs: &Subs) -> Option<Subs>
    requires shape { IsShape shape.now }
    requires rank { subs.now.rank ≡ shape.now.rank }
    requires within { IsOk (shapes.place (dims shape.now) (listed subs.now)) }
    ensures listed { (at : ℕ) → slice_get (all_subscripts shape.now) at ≡ Some (listed subs.now) → option_map listed result ≡ slice_get (all_subscripts shape.now) (suc at) }
    ensures unused { MatchOption result ⊤ (λ next. (next.rank ≡ shape.now.rank) × (subs_of (listed next) ≡ next)) }
{
    let at = place(shape, subs)?;
    if u64::from(at) + 1 < size(shape) {
        Some(subscripts_at(shape, at + 1))
    } else {
        None
    }
}
