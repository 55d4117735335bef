//! What regions hold and yield.

ghost use Rattle.std.specs.Prelude.{◌≡◌, ◌*◌, ◌==◌};
ghost use Rattle.std.specs.List.{list_all, list_any};
ghost use Rattle.hlfir_ops.specs.RulesRegions as held;
ghost use Rattle.rule_tests.specs.Seen.{seen};

use crate::kinds::{is_place, is_scalar, is_target};
use crate::value::{Value, first_kind, first_value, is_vector_designate, kind_at};
use hlfir_ops::{
    Elem, Op, Region, ValueId, ValueKind, is_apply, is_operation, is_value_op, is_yield,
    is_yield_element,
};
use ws_base::Name;

/// The ops of the region of this number, and none where there is no such region.
pub fn ops_in(regions: &[Region], k: usize) -> &[Op]
    ensures { result.now ≡ held.ops_in regions.now k }
{
    match sqlite_items::at(regions, k) {
        Some(region) => region.ops.as_slice(),
        None => &[],
    }
}

fn ends_in_yield(ops: &[Op]) -> bool
    ensures { result ≡ held.is_last held.is_yield (held.last_of ops.now) }
{
    match ops.last() {
        Some(op) => is_yield(&op.what),
        None => false,
    }
}

fn ends_in_yield_element(ops: &[Op]) -> bool
    ensures { result ≡ held.is_last held.is_yield_element (held.last_of ops.now) }
{
    match ops.last() {
        Some(op) => is_yield_element(&op.what),
        None => false,
    }
}

/// The ops before the last one.
fn front_of(ops: &[Op]) -> &[Op]
    ensures { result.now ≡ held.front_of ops.now }
{
    &ops[..ops.len().saturating_sub(1)]
}

/// The values that the last op yields, from left to right.
pub fn parts(ops: &[Op]) -> &[ValueId]
    ensures { result.now ≡ held.parts ops.now }
{
    match ops.last() {
        Some(op) => {
            if is_yield(&op.what) || is_yield_element(&op.what) {
                op.operands.as_slice()
            } else {
                &[]
            }
        }
        None => &[],
    }
}

pub fn parts_in(regions: &[Region], k: usize) -> &[ValueId]
    ensures { result.now ≡ held.parts_in regions.now k }
{
    parts(ops_in(regions, k))
}

fn give_values(ops: &[Op]) -> bool
    ensures { result ≡ list_all held.gives_value ops.now }
{
    ops.iter().all(|op| is_value_op(&op.what))
}

/// Value ops, and last the one yield.
fn yields(ops: &[Op]) -> bool
    ensures { result ≡ held.yields ops.now }
{
    ends_in_yield(ops) && give_values(front_of(ops))
}

fn yields_one(ops: &[Op]) -> bool
    ensures { result ≡ held.yields_one ops.now }
{
    yields(ops) && parts(ops).len() == 1
}

/// A value, and no place.
pub fn yields_value(table: &[Value], ops: &[Op]) -> bool
    ensures { result ≡ held.yields_value (seen table.now) ops.now }
{
    yields_one(ops) && !is_place(first_kind(table, parts(ops)))
}

/// What an assignment fills.
pub fn yields_target(table: &[Value], ops: &[Op]) -> bool
    ensures { result ≡ held.yields_target (seen table.now) ops.now }
{
    yields_one(ops) && is_target(first_kind(table, parts(ops)))
}

/// What a READ fills.
pub fn yields_item(table: &[Value], ops: &[Op]) -> bool
    ensures { result ≡ held.yields_item (seen table.now) ops.now }
{
    yields_target(table, ops) && !is_vector_designate(first_value(table, parts(ops)))
}

/// The mask of a FORALL.
pub fn yields_truth(table: &[Value], ops: &[Op]) -> bool
    ensures { result ≡ held.yields_truth (seen table.now) ops.now }
{
    yields_one(ops) && is_scalar(Elem::I1, first_kind(table, parts(ops)))
}

fn are_integers(table: &[Value], vs: &[ValueId]) -> bool
    ensures { result ≡ list_all (held.is_integer (seen table.now)) vs.now }
{
    vs.iter().all(|v| is_scalar(Elem::I32, kind_at(table, *v)))
}

fn yields_integers(table: &[Value], ops: &[Op]) -> bool
    ensures { result ≡ held.yields_integers (seen table.now) ops.now }
{
    yields(ops) && are_integers(table, parts(ops))
}

/// The header of a FORALL, which has a triplet for each name.
pub fn yields_header(table: &[Value], names: &[Name], ops: &[Op]) -> bool
    ensures { result ≡ held.yields_header (seen table.now) names.now ops.now }
{
    yields_integers(table, ops) && 0 < names.len() && is_triple_of(parts(ops).len(), names.len())
}

fn is_triple_of(n: usize, third: usize) -> bool
    ensures { result ≡ n == third * 3 }
{
    n % 3 == 0 && n / 3 == third
}

/// The bounds and the stride of a DO.
pub fn yields_triplet(table: &[Value], ops: &[Op]) -> bool
    ensures { result ≡ held.yields_triplet (seen table.now) ops.now }
{
    yields_integers(table, ops) && parts(ops).len() == 3
}

/// The bounds of an ALLOCATE, in pairs.
pub fn yields_pairs(table: &[Value], ops: &[Op]) -> bool
    ensures { result ≡ held.yields_pairs (seen table.now) ops.now }
{
    yields_integers(table, ops) && parts(ops).len() % 2 == 0
}

fn is_any_scalar(kind: Option<ValueKind>) -> bool
    ensures { result ≡ held.is_any_scalar kind }
{
    matches!(kind, Some(ValueKind::Scalar(_)))
}

fn work_on_elements(ops: &[Op]) -> bool
    ensures { result ≡ list_all held.works_on_elements ops.now }
{
    ops.iter()
        .all(|op| is_apply(&op.what) || is_operation(&op.what))
}

fn some_apply(ops: &[Op]) -> bool
    ensures { result ≡ list_any held.applies ops.now }
{
    ops.iter().any(|op| is_apply(&op.what))
}

fn some_operate(ops: &[Op]) -> bool
    ensures { result ≡ list_any held.operates ops.now }
{
    ops.iter().any(|op| is_operation(&op.what))
}

/// The body of an elemental applies arrays and works on their elements.
pub fn yields_element(table: &[Value], ops: &[Op]) -> bool
    ensures { result ≡ held.yields_element (seen table.now) ops.now }
{
    let front = front_of(ops);
    ends_in_yield_element(ops)
        && work_on_elements(front)
        && some_apply(front)
        && some_operate(front)
        && parts(ops).len() == 1
        && is_any_scalar(first_kind(table, parts(ops)))
}
