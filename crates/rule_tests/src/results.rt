//! The result of an op by its form.

ghost use Rattle.std.specs.Prelude.{◌≡◌, ◌≤◌, length};
ghost use Rattle.std.specs.List.{list_all};
ghost use Rattle.hlfir_ops.specs.RulesForms as forms;
ghost use Rattle.hlfir_ops.specs.RulesValues as values;
ghost use Rattle.hlfir_ops.specs.Rules as rules;
ghost use Rattle.rule_tests.specs.Seen.{seen};

use crate::kinds::{has_rank, is_scalar};
use crate::regions::{ops_in, parts_in};
use crate::value::{Value, first_kind, kind_at};
use hlfir_ops::{
    Elem, Op, Region, SubKind, ValueId, ValueKind, What, elem_of, is_apply, rank_of, result_elem,
    same_elem, total_elem, unary_elem,
};

/// What a declare gives: a scalar's place, an array or an allocatable.
fn is_variable(kind: Option<ValueKind>) -> bool
    ensures { result ≡ forms.is_variable kind }
{
    match kind {
        Some(ValueKind::Place(_)) => true,
        Some(ValueKind::Declared { shape, .. }) => 0 < shape.rank,
        Some(ValueKind::Allocatable { rank, .. }) => 0 < rank,
        _ => false,
    }
}

/// The kind has this value.
fn has_constant(value: i64, kind: Option<ValueKind>) -> bool
    ensures { result ≡ forms.has_constant value kind }
{
    match kind {
        Some(ValueKind::Scalar(Elem::I32)) => -2_147_483_648 <= value && value <= 2_147_483_647,
        Some(ValueKind::Scalar(Elem::I1)) => value == 0 || value == 1,
        _ => false,
    }
}

/// A scalar of the type of this operand.
fn is_scalar_of(operand: Option<ValueKind>, kind: Option<ValueKind>) -> bool
    ensures { result ≡ forms.is_scalar_of operand kind }
{
    match operand {
        Some(operand) => is_scalar(elem_of(operand), kind),
        None => false,
    }
}

fn second_kind(table: &[Value], operands: &[ValueId]) -> Option<ValueKind>
    ensures { result ≡ forms.second_kind (seen table.now) operands.now }
{
    match operands {
        [_, second, ..] => kind_at(table, *second),
        _ => None,
    }
}

/// An allocatable of the operand's type and rank.
fn is_boxed(operand: Option<ValueKind>, kind: Option<ValueKind>) -> bool
    ensures { result ≡ forms.is_boxed operand kind }
{
    match (operand, kind) {
        (Some(operand), Some(ValueKind::Allocatable { elem, rank })) => {
            same_elem(elem_of(operand), elem) && rank == rank_of(operand)
        }
        _ => false,
    }
}

/// An array value of the operand's type and of this rank.
fn is_array_of(operand: Option<ValueKind>, n: u32, kind: Option<ValueKind>) -> bool
    ensures { result ≡ forms.is_array_of operand n kind }
{
    match (operand, kind) {
        (Some(operand), Some(ValueKind::Array { elem, rank })) => {
            same_elem(elem_of(operand), elem) && rank == n
        }
        _ => false,
    }
}

fn rank_of_kind(kind: Option<ValueKind>) -> u32
    ensures { result ≡ forms.rank_of_kind kind }
{
    match kind {
        Some(kind) => rank_of(kind),
        None => 0,
    }
}

/// How many subscripts are no scalar.
fn section_rank(subs: &[SubKind]) -> usize
    ensures value { result ≡ forms.section_rank subs.now }
    ensures within { result ≤ length subs.now }
{
    match subs {
        [] => 0,
        [SubKind::One, more @ ..] => section_rank(more),
        [_, more @ ..] => section_rank(more) + 1,
    }
}

/// The part of this array that a designator of this rank gives: an element's place, or a section.
fn is_part_of(operand: Option<ValueKind>, n: usize, kind: Option<ValueKind>) -> bool
    ensures { result ≡ forms.is_part_of operand n kind }
{
    match (operand, kind) {
        (Some(operand), Some(ValueKind::Place(elem))) => same_elem(elem_of(operand), elem)
            && n == 0,
        (Some(operand), Some(ValueKind::Section { elem, rank })) => {
            same_elem(elem_of(operand), elem) && 0 < n && rank as usize == n
        }
        _ => false,
    }
}

/// These values have this rank.
pub fn have_rank(table: &[Value], n: u32, vs: &[ValueId]) -> bool
    ensures { result ≡ list_all (λ v. values.has_rank n (values.kind_at (seen table.now) v)) vs.now }
{
    'each: for v in vs {
        if !has_rank(n, kind_at(table, *v)) {
            return false;
        }
    }
    true
}

/// Each apply takes arrays of this rank.
fn apply_rank(table: &[Value], n: u32, ops: &[Op]) -> bool
    ensures { result ≡ list_all (forms.applies_rank (seen table.now) n) ops.now }
{
    'each: for op in ops {
        if is_apply(&op.what) && !have_rank(table, n, op.operands.as_slice()) {
            return false;
        }
    }
    true
}

/// What an elemental with this body gives.
fn is_elemental_of(
    table: &[Value],
    ops: &[Op],
    element: Option<ValueKind>,
    kind: Option<ValueKind>,
) -> bool
    ensures { result ≡ forms.is_elemental_of (seen table.now) ops.now element kind }
{
    match (element, kind) {
        (Some(element), Some(ValueKind::Array { elem, rank })) => {
            same_elem(elem_of(element), elem) && 0 < rank && apply_rank(table, rank, ops)
        }
        _ => false,
    }
}

fn is_none(kind: Option<ValueKind>) -> bool
    ensures { result ≡ forms.is_none kind }
{
    match kind {
        Some(_) => false,
        None => true,
    }
}

/// The result is the one that the op's form gives.
fn gives(
    table: &[Value],
    what: &What,
    operands: &[ValueId],
    kind: Option<ValueKind>,
    regions: &[Region],
) -> bool
    ensures { result ≡ forms.gives (seen table.now) what.now operands.now kind regions.now }
{
    let first = first_kind(table, operands);
    match what {
        What::Declare(_) => is_variable(kind),
        What::Constant(value) => has_constant(*value, kind),
        What::Unary(op) => is_scalar(unary_elem(*op), kind),
        What::Binary(op) => is_scalar(result_elem(*op), kind),
        What::Select => is_scalar_of(second_kind(table, operands), kind),
        What::Load | What::Apply => is_scalar_of(first, kind),
        What::Boxed => is_boxed(first, kind),
        What::Bound { .. } | What::Size => is_scalar(Elem::I32, kind),
        What::Allocated => is_scalar(Elem::I1, kind),
        What::Designate(subs) => is_part_of(first, section_rank(subs.as_slice()), kind),
        What::Vector => is_array_of(first, 1, kind),
        What::AsExpr => is_array_of(first, rank_of_kind(first), kind),
        What::Elemental => {
            let element = first_kind(table, parts_in(regions, 0));
            is_elemental_of(table, ops_in(regions, 0), element, kind)
        }
        What::Reduce(reduction) => is_scalar(total_elem(*reduction), kind),
        _ => is_none(kind),
    }
}

#[tactic(auto, unfolding(hlfir_ops::specs::Rules::result_fits))]
pub fn result_fits(table: &[Value], op: &Op) -> bool
    ensures { result ≡ rules.result_fits (seen table.now) op.now }
{
    gives(
        table,
        &op.what,
        op.operands.as_slice(),
        op.kind,
        op.regions.as_slice(),
    )
}
