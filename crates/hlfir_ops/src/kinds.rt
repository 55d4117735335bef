//! The kinds of values.

use ws_space::Shape;

/// INTEGER or LOGICAL, as an element of an array or as a scalar.
#[derive(Clone, Copy, Debug, PartialEq, Eq)]
pub enum Elem {
    I32,
    I1,
}

/// The kind of a value: a scalar; a scalar variable or an element of an array, as a place to load from or to assign to; a declared
/// array; an allocatable; a section; an array that an expression gives.
#[derive(Clone, Copy, Debug, PartialEq, Eq)]
pub enum ValueKind {
    Scalar(Elem),
    Place(Elem),
    Declared { elem: Elem, shape: Shape },
    Allocatable { elem: Elem, rank: u32 },
    Section { elem: Elem, rank: u32 },
    Array { elem: Elem, rank: u32 },
}
