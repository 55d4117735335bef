//! The regions and operands of an op by its form.

ghost use Rattle.std.specs.Prelude.{◌≡◌, ◌==◌, length};
ghost use Rattle.std.specs.List.{list_all};
ghost use Rattle.hlfir_ops.specs.RulesForms as forms;
ghost use Rattle.hlfir_ops.specs.Rules as rules;
ghost use Rattle.hlfir_ops.specs.RulesValues.{kind_at, has_rank};
ghost use Rattle.rule_tests.specs.Seen.{seen, value_seen};

use crate::kinds::{
    has_elem, has_rank, is_allocatable, is_array, is_index_vector, is_place, is_reference,
    is_scalar,
};
use crate::regions::{ops_in, parts_in};
use crate::value::{
    Value, is_allocatable_declare, is_integer_declare, kind_at, only_kind, only_value,
};
use hlfir_ops::{
    Elem, Op, Reduction, Region, SubKind, ValueId, ValueKind, What, operand_elem, rank_of,
    reduced_elem, same_elem, unary_elem,
};

/// An op of this sort has so many regions.
fn has_regions(what: &What, n: usize) -> bool
    ensures { result ≡ forms.has_regions what.now n }
{
    match what {
        What::Assign { .. } | What::Forall(_) | What::DoLoop => n == 2,
        What::Masked => n == 2 || n == 3,
        What::Elsewhere => n == 1 || n == 2,
        What::ForallMask
        | What::Workshare
        | What::Allocmem { .. }
        | What::Read { .. }
        | What::Elemental => n == 1,
        _ => n == 0,
    }
}

/// A where has no third region without an elsewhere.
fn is_filled_where(what: &What, regions: &[Region]) -> bool
    ensures { result ≡ forms.is_filled_where what.now regions.now }
{
    match what {
        What::Masked => regions.len() != 3 || 0 < ops_in(regions, 2).len(),
        _ => true,
    }
}

fn are_two(elem: Elem, table: &[Value], operands: &[ValueId]) -> bool
    ensures { result ≡ forms.are_two elem (seen table.now) operands.now }
{
    match operands {
        [a, b] => is_scalar(elem, kind_at(table, *a)) && is_scalar(elem, kind_at(table, *b)),
        _ => false,
    }
}

fn same_scalars(a: Option<ValueKind>, b: Option<ValueKind>) -> bool
    ensures { result ≡ forms.same_scalars a b }
{
    match (a, b) {
        (Some(ValueKind::Scalar(e)), Some(ValueKind::Scalar(f))) => same_elem(e, f),
        _ => false,
    }
}

/// A truth value, and two scalars of one kind.
fn are_choices(table: &[Value], operands: &[ValueId]) -> bool
    ensures { result ≡ forms.are_choices (seen table.now) operands.now }
{
    match operands {
        [m, t, f] => {
            is_scalar(Elem::I1, kind_at(table, *m))
                && same_scalars(kind_at(table, *t), kind_at(table, *f))
        }
        _ => false,
    }
}

fn are_like(table: &[Value], first: Option<ValueKind>, operands: &[ValueId]) -> bool
    ensures { result ≡ list_all (λ w. forms.same_scalars first (kind_at (seen table.now) w)) operands.now }
{
    'each: for v in operands {
        if !same_scalars(first, kind_at(table, *v)) {
            return false;
        }
    }
    true
}

/// One or more scalars of one kind.
fn are_items(table: &[Value], operands: &[ValueId]) -> bool
    ensures { result ≡ forms.are_items (seen table.now) operands.now }
{
    match operands {
        [] => false,
        [first, ..] => are_like(table, kind_at(table, *first), operands),
    }
}

/// These subscripts take these operands.
fn take_subscripts(table: &[Value], subs: &[SubKind], operands: &[ValueId]) -> bool
    ensures { result ≡ forms.take_subscripts (seen table.now) subs.now operands.now }
{
    match (subs, operands) {
        ([], []) => true,
        ([SubKind::One, subs @ ..], [i, more @ ..]) => {
            is_scalar(Elem::I32, kind_at(table, *i)) && take_subscripts(table, subs, more)
        }
        ([SubKind::Range, subs @ ..], [l, u, s, more @ ..]) => {
            is_scalar(Elem::I32, kind_at(table, *l))
                && is_scalar(Elem::I32, kind_at(table, *u))
                && is_scalar(Elem::I32, kind_at(table, *s))
                && take_subscripts(table, subs, more)
        }
        ([SubKind::Vector, subs @ ..], [v, more @ ..]) => {
            is_index_vector(kind_at(table, *v)) && take_subscripts(table, subs, more)
        }
        _ => false,
    }
}

fn is_rank(n: usize, kind: Option<ValueKind>) -> bool
    ensures { result ≡ has_rank n kind }
{
    match kind {
        Some(kind) => rank_of(kind) as usize == n,
        None => false,
    }
}

/// A reference, and subscripts for each of its dimensions.
fn are_designator(table: &[Value], subs: &[SubKind], operands: &[ValueId]) -> bool
    ensures { result ≡ forms.are_designator (seen table.now) subs.now operands.now }
{
    match operands {
        [] => false,
        [r, more @ ..] => {
            is_reference(kind_at(table, *r))
                && is_rank(subs.len(), kind_at(table, *r))
                && take_subscripts(table, subs, more)
        }
    }
}

fn has_dimension(dim: u32, kind: Option<ValueKind>) -> bool
    ensures { result ≡ forms.has_dimension dim kind }
{
    match kind {
        Some(kind) => 0 < dim && dim <= rank_of(kind),
        None => false,
    }
}

fn is_reduced(reduction: Reduction, kind: Option<ValueKind>) -> bool
    ensures { result ≡ forms.is_reduced reduction kind }
{
    is_array(kind) && has_elem(reduced_elem(reduction), kind)
}

fn rank_of_value(value: Option<Value>) -> u32
    ensures { result ≡ forms.rank_of_value (value_seen value) }
{
    match value {
        Some(value) => rank_of(value.kind),
        None => 0,
    }
}

/// A pair of bounds for each dimension. An odd number of them is no fault of the operands.
fn has_pairs(value: Option<Value>, n: usize) -> bool
    ensures { result ≡ forms.has_pairs (value_seen value) n }
{
    n % 2 != 0 || n == rank_of_value(value) as usize * 2
}

fn take_bounds(table: &[Value], operands: &[ValueId], regions: &[Region]) -> bool
    ensures { result ≡ forms.takes_bounds (seen table.now) operands.now regions.now }
{
    let value = only_value(table, operands);
    is_allocatable_declare(value) && has_pairs(value, parts_in(regions, 0).len())
}

fn takes_dimension(table: &[Value], dim: u32, operands: &[ValueId]) -> bool
    ensures { result ≡ forms.takes_dimension (seen table.now) dim operands.now }
{
    let kind = only_kind(table, operands);
    is_reference(kind) && has_dimension(dim, kind)
}

/// The operands of an op. Those of a yield are judged with its region.
fn takes(
    elemental: bool,
    table: &[Value],
    what: &What,
    operands: &[ValueId],
    regions: &[Region],
) -> bool
    ensures { result ≡ forms.takes elemental (seen table.now) what.now operands.now regions.now }
{
    match what {
        What::Yield => true,
        What::YieldElement => operands.len() == 1,
        What::DoLoop => is_integer_declare(only_value(table, operands)),
        What::Allocmem { .. } => take_bounds(table, operands, regions),
        What::Freemem { .. } => is_allocatable_declare(only_value(table, operands)),
        What::Unary(op) => is_scalar(unary_elem(*op), only_kind(table, operands)),
        What::Binary(op) => are_two(operand_elem(*op), table, operands),
        What::Select => are_choices(table, operands),
        What::Load => is_place(only_kind(table, operands)),
        What::Boxed | What::Allocated => is_allocatable(only_kind(table, operands)),
        What::Bound { dim, .. } => takes_dimension(table, *dim, operands),
        What::Size | What::AsExpr => is_reference(only_kind(table, operands)),
        What::Designate(subs) => are_designator(table, subs.as_slice(), operands),
        What::Vector => are_items(table, operands),
        What::Apply => elemental && is_array(only_kind(table, operands)),
        What::Reduce(reduction) => is_reduced(*reduction, only_kind(table, operands)),
        _ => operands.is_empty(),
    }
}

/// The regions and operands are those of the op's form.
#[tactic(auto, unfolding(hlfir_ops::specs::Rules::operands_fit))]
pub fn operands_fit(elemental: bool, table: &[Value], op: &Op) -> bool
    ensures { result ≡ rules.operands_fit elemental (seen table.now) op.now }
{
    let regions = op.regions.as_slice();
    has_regions(&op.what, regions.len())
        && is_filled_where(&op.what, regions)
        && takes(elemental, table, &op.what, op.operands.as_slice(), regions)
}
