//! Tests on values.

ghost use Rattle.std.specs.Prelude.{◌≡◌, slice_get};
ghost use Rattle.hlfir_ops.specs.RulesValues as values;
ghost use Rattle.hlfir_ops.specs.RulesRegions as held;
ghost use Rattle.alias_test.specs.Givers.{op_at};
ghost use Rattle.assign_schedule.specs.Looks.{givers_seen};
ghost use Rattle.assign_schedule.specs.Parts as designators;

use crate::look::Look;
use hlfir_ops::{Op, Region, ValueId, ValueKind, What};

/// The op that gives the value. An index name is given by its forall.
#[tactic(auto, using(crate::proofs::Giving::giver_rules))]
pub fn giver_of<'a>(look: &Look<'a>, v: ValueId) -> Option<&'a Op>
    ensures { op_at result ≡ slice_get (givers_seen look.now) v.number }
{
    match look.givers.get(v.number as usize) {
        Some(op) => Some(*op),
        None => None,
    }
}

fn is_reference(kind: Option<ValueKind>) -> bool
    ensures { result ≡ values.is_reference kind }
{
    match kind {
        Some(ValueKind::Declared { .. } | ValueKind::Allocatable { .. }) => true,
        _ => false,
    }
}

fn is_section(kind: Option<ValueKind>) -> bool
    ensures { result ≡ values.is_section kind }
{
    match kind {
        Some(ValueKind::Section { .. }) => true,
        _ => false,
    }
}

fn is_array_by(what: &What, kind: Option<ValueKind>) -> bool
    ensures { result ≡ designators.is_array_by what.now kind }
{
    match what {
        What::Declare(_) | What::Boxed => is_reference(kind),
        What::Designate(_) => is_section(kind),
        _ => false,
    }
}

/// A whole array or a section.
pub fn is_array(giver: Option<&Op>) -> bool
    ensures { result ≡ designators.is_array_given (op_at giver.entry) }
{
    match giver {
        Some(op) => is_array_by(&op.what, op.kind),
        None => false,
    }
}

fn is_place(kind: Option<ValueKind>) -> bool
    ensures { result ≡ values.is_place kind }
{
    match kind {
        Some(ValueKind::Place(_)) => true,
        _ => false,
    }
}

/// The place of an element.
pub fn is_element(giver: Option<&Op>) -> bool
    ensures { result ≡ designators.is_element_given (op_at giver.entry) }
{
    match giver {
        Some(op) => is_element_by(&op.what, op.kind),
        None => false,
    }
}

fn is_element_by(what: &What, kind: Option<ValueKind>) -> bool
    ensures { result ≡ designators.is_element_by what.now kind }
{
    match what {
        What::Designate(_) => is_place(kind),
        _ => false,
    }
}

/// An array, a section or an element.
pub fn is_part_of_array(giver: Option<&Op>) -> bool
    ensures { result ≡ designators.is_part_of_array (op_at giver.entry) }
{
    is_array(giver) || is_element(giver)
}

/// The ops of the region of this number, and none where there is no such region.
pub fn ops_in(regions: &[Region], k: usize) -> &[Op]
    ensures { result.now ≡ held.ops_in regions.now k }
{
    match sqlite_items::at(regions, k) {
        Some(region) => region.ops.as_slice(),
        None => &[],
    }
}

/// The values that the last op yields, from left to right.
pub fn parts(ops: &[Op]) -> &[ValueId]
    ensures { result.now ≡ held.parts ops.now }
{
    match ops.last() {
        Some(op) => match op.what {
            What::Yield | What::YieldElement => op.operands.as_slice(),
            _ => &[],
        },
        None => &[],
    }
}
