//! Tests on kinds. A value that the module lacks has none, and passes no test.

ghost use Rattle.std.specs.Prelude.{◌≡◌};
ghost use Rattle.hlfir_ops.specs.RulesValues as values;

use hlfir_ops::{Elem, ValueKind, elem_of, rank_of, same_elem};

/// A scalar value of this type.
pub fn is_scalar(elem: Elem, kind: Option<ValueKind>) -> bool
    ensures { result ≡ values.is_scalar elem kind }
{
    match kind {
        Some(ValueKind::Scalar(other)) => same_elem(elem, other),
        _ => false,
    }
}

pub fn is_place_of(elem: Elem, kind: ValueKind) -> bool
    ensures { result ≡ values.is_place_of elem kind }
{
    match kind {
        ValueKind::Place(other) => same_elem(elem, other),
        _ => false,
    }
}

pub fn is_place(kind: Option<ValueKind>) -> bool
    ensures { result ≡ values.is_place kind }
{
    matches!(kind, Some(ValueKind::Place(_)))
}

pub fn is_allocatable(kind: Option<ValueKind>) -> bool
    ensures { result ≡ values.is_allocatable kind }
{
    matches!(kind, Some(ValueKind::Allocatable { .. }))
}

/// A reference to an array.
pub fn is_reference(kind: Option<ValueKind>) -> bool
    ensures { result ≡ values.is_reference kind }
{
    matches!(
        kind,
        Some(ValueKind::Declared { .. } | ValueKind::Allocatable { .. })
    )
}

/// A reference to an array, a section or an array value.
pub fn is_array(kind: Option<ValueKind>) -> bool
    ensures { result ≡ values.is_array kind }
{
    match kind {
        Some(ValueKind::Scalar(_) | ValueKind::Place(_)) | None => false,
        Some(_) => true,
    }
}

/// What an assignment or a READ may fill: a reference or a section.
pub fn is_target(kind: Option<ValueKind>) -> bool
    ensures { result ≡ values.is_target kind }
{
    match kind {
        Some(ValueKind::Scalar(_) | ValueKind::Array { .. }) | None => false,
        Some(_) => true,
    }
}

/// The value of an array expression.
pub fn is_expression(kind: Option<ValueKind>) -> bool
    ensures { result ≡ values.is_expression kind }
{
    matches!(kind, Some(ValueKind::Array { .. }))
}

pub fn is_section(kind: Option<ValueKind>) -> bool
    ensures { result ≡ values.is_section kind }
{
    matches!(kind, Some(ValueKind::Section { .. }))
}

pub fn has_elem(elem: Elem, kind: Option<ValueKind>) -> bool
    ensures { result ≡ values.has_elem elem kind }
{
    match kind {
        Some(kind) => same_elem(elem, elem_of(kind)),
        None => false,
    }
}

pub fn has_rank(rank: u32, kind: Option<ValueKind>) -> bool
    ensures { result ≡ values.has_rank rank kind }
{
    match kind {
        Some(kind) => rank_of(kind) == rank,
        None => false,
    }
}

/// A vector of subscripts.
pub fn is_index_vector(kind: Option<ValueKind>) -> bool
    ensures { result ≡ values.is_index_vector kind }
{
    is_array(kind) && has_elem(Elem::I32, kind) && has_rank(1, kind)
}

/// What the mask of a WHERE gives.
pub fn is_mask(kind: Option<ValueKind>) -> bool
    ensures { result ≡ values.is_mask kind }
{
    match kind {
        Some(kind) => same_elem(Elem::I1, elem_of(kind)) && 0 < rank_of(kind),
        None => false,
    }
}
