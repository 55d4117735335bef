//! Tests on what an op does.

ghost use Rattle.std.specs.Prelude.{◌≡◌};
ghost use Rattle.hlfir_ops.specs.RulesValues as values;
ghost use Rattle.hlfir_ops.specs.RulesPlaces as places;
ghost use Rattle.hlfir_ops.specs.Sorts as sorts;

use crate::what::{SubKind, What};

/// What stands in the module after its declares, and in a do_loop.
pub fn is_statement(what: &What) -> bool
    ensures { result ≡ sorts.is_statement what.now }
{
    match what {
        What::Assign { .. }
        | What::Masked
        | What::Forall(_)
        | What::Workshare
        | What::DoLoop
        | What::Allocmem { .. }
        | What::Freemem { .. }
        | What::Read { .. } => true,
        _ => false,
    }
}

pub fn has_body(what: &What) -> bool
    ensures { result ≡ sorts.has_body what.now }
{
    matches!(
        what,
        What::Masked | What::Forall(_) | What::Workshare | What::DoLoop
    )
}

/// The ops that give values, without the declares.
pub fn is_value_op(what: &What) -> bool
    ensures { result ≡ sorts.is_value_op what.now }
{
    match what {
        What::Constant(_)
        | What::Unary(_)
        | What::Binary(_)
        | What::Select
        | What::Load
        | What::Boxed
        | What::Bound { .. }
        | What::Size
        | What::Allocated
        | What::Designate(_)
        | What::Vector
        | What::AsExpr
        | What::Elemental
        | What::Apply
        | What::Reduce(_) => true,
        _ => false,
    }
}

/// The operations on elements.
pub fn is_operation(what: &What) -> bool
    ensures { result ≡ sorts.is_operation what.now }
{
    matches!(what, What::Unary(_) | What::Binary(_) | What::Select)
}

/// A reduction, a vector or an elemental.
pub fn is_whole_op(what: &What) -> bool
    ensures { result ≡ sorts.is_whole_op what.now }
{
    matches!(what, What::Reduce(_) | What::Vector | What::Elemental)
}

pub fn is_declare(what: &What) -> bool
    ensures { result ≡ sorts.is_declare what.now }
{
    matches!(what, What::Declare(_))
}

pub fn is_assign(what: &What) -> bool
    ensures { result ≡ sorts.is_assign what.now }
{
    matches!(what, What::Assign { .. })
}

pub fn is_where(what: &What) -> bool
    ensures { result ≡ sorts.is_where what.now }
{
    matches!(what, What::Masked)
}

pub fn is_elsewhere(what: &What) -> bool
    ensures { result ≡ sorts.is_elsewhere what.now }
{
    matches!(what, What::Elsewhere)
}

pub fn is_forall(what: &What) -> bool
    ensures { result ≡ sorts.is_forall what.now }
{
    matches!(what, What::Forall(_))
}

pub fn is_forall_mask(what: &What) -> bool
    ensures { result ≡ sorts.is_forall_mask what.now }
{
    matches!(what, What::ForallMask)
}

/// A workshare.
pub fn shares(what: &What) -> bool
    ensures { result ≡ sorts.shares what.now }
{
    matches!(what, What::Workshare)
}

/// A where or forall.
pub fn masks(what: &What) -> bool
    ensures { result ≡ places.masks what.now }
{
    is_where(what) || is_forall(what)
}

pub fn is_yield(what: &What) -> bool
    ensures { result ≡ sorts.is_yield what.now }
{
    matches!(what, What::Yield)
}

pub fn is_yield_element(what: &What) -> bool
    ensures { result ≡ sorts.is_yield_element what.now }
{
    matches!(what, What::YieldElement)
}

pub fn is_elemental(what: &What) -> bool
    ensures { result ≡ sorts.is_elemental what.now }
{
    matches!(what, What::Elemental)
}

pub fn is_apply(what: &What) -> bool
    ensures { result ≡ sorts.is_apply what.now }
{
    matches!(what, What::Apply)
}

// ---- subscripts

fn is_vector(sub: SubKind) -> bool
    ensures { result ≡ values.is_vector sub }
{
    match sub {
        SubKind::One | SubKind::Range => false,
        SubKind::Vector => true,
    }
}

/// Some subscript is a vector.
pub fn has_vector(subs: &[SubKind]) -> bool
    ensures { result ≡ values.has_vector subs.now }
{
    'each: for sub in subs {
        if is_vector(*sub) {
            return true;
        }
    }
    false
}
