//! Where and forall.

ghost use Rattle.std.specs.Prelude.{◌≡◌, IfOk};
ghost use Rattle.std.specs.List.{list_all};
ghost use Rattle.hlfir_ops.specs.declared.op.Op.{out-Op};
ghost use Rattle.hlfir_ops.specs.RulesRegions.{first_kind, parts_in};
ghost use Rattle.hlfir_ops.specs.RulesStatements as statements;
ghost use Rattle.hlfir_ops.specs.RulesValues as values;
ghost use Rattle.hlfir_ops.specs.Rules as rules;
ghost use Rattle.rule_tests.specs.Seen.{seen};
ghost use Rattle.rule_tests.specs.Orders.{ops_of};

use crate::statements::{all_in_where, are_elsewheres, is_forall_body, works_on_scalars};
use hlfir_ops::{Op, Region, ValueId, ValueKind, What, rank_of};
use rule_limits::{ops_in_order, ops_inside};
use rule_tests::{Value, first_kind, have_rank, is_designate, is_mask, ops_in, parts_in, value_at};
use std::alloc::{AllocError, Global};

/// What a mask controls has this rank: the left side of an assignment, and the mask of a where or elsewhere.
fn controls_rank(table: &[Value], n: u32, what: &What, regions: &[Region]) -> bool
    ensures { result ≡ statements.controls_rank (seen table.now) n what.now regions.now }
{
    match what {
        What::Assign { .. } => have_rank(table, n, parts_in(regions, 1)),
        What::Masked => have_rank(table, n, parts_in(regions, 0)),
        What::Elsewhere => regions.len() == 1 || have_rank(table, n, parts_in(regions, 0)),
        _ => true,
    }
}

fn are_controlled(table: &[Value], n: u32, order: &[&Op]) -> bool
    ensures { result ≡ list_all (statements.is_controlled (seen table.now) n) (ops_of order.now) }
{
    'each: for op in order {
        if !controls_rank(table, n, &op.what, op.regions.as_slice()) {
            return false;
        }
    }
    true
}

/// A mask of truth values has the rank of all that it controls, which stands inside these regions.
fn mask_fits(
    alloc: Global,
    table: &[Value],
    kind: Option<ValueKind>,
    regions: &[Region],
) -> Result<bool, AllocError>
    ensures { IfOk result (λ b. b ≡ statements.mask_fits (seen table.now) kind regions.now) }
{
    let Some(kind) = kind else {
        return Ok(false);
    };
    if !is_mask(Some(kind)) {
        return Ok(false);
    }
    let order = ops_inside(alloc, regions)?;
    Ok(are_controlled(table, rank_of(kind), order.as_slice()))
}

/// So has the mask that the first of these regions yields.
fn own_mask_fits(alloc: Global, table: &[Value], regions: &[Region]) -> Result<bool, AllocError>
    ensures { IfOk result (λ b. b ≡ statements.mask_fits (seen table.now) (first_kind (seen table.now) (parts_in regions.now 0)) regions.now) }
{
    let kind = first_kind(table, parts_in(regions, 0));
    mask_fits(alloc, table, kind, regions)
}

#[tactic(auto, unfolding(hlfir_ops::specs::Rules::where_of))]
fn masked_fits(alloc: Global, table: &[Value], regions: &[Region]) -> Result<bool, AllocError>
    ensures { IfOk result (λ b. b ≡ rules.where_of (seen table.now) What.Masked regions.now) }
{
    if !all_in_where(ops_in(regions, 1)) || !are_elsewheres(ops_in(regions, 2)) {
        return Ok(false);
    }
    own_mask_fits(alloc, table, regions)
}

#[tactic(auto, unfolding(hlfir_ops::specs::Rules::where_of))]
fn elsewhere_fits(alloc: Global, table: &[Value], regions: &[Region]) -> Result<bool, AllocError>
    ensures { IfOk result (λ b. b ≡ rules.where_of (seen table.now) What.Elsewhere regions.now) }
{
    if regions.len() == 1 {
        return Ok(all_in_where(ops_in(regions, 0)));
    }
    if !all_in_where(ops_in(regions, 1)) {
        return Ok(false);
    }
    own_mask_fits(alloc, table, regions)
}

/// What a where and an elsewhere hold, and the type and rank of their masks.
#[tactic(auto, unfolding(hlfir_ops::specs::Rules::where_of))]
pub fn where_fits(alloc: Global, table: &[Value], op: &Op) -> Result<bool, AllocError>
    ensures { IfOk result (λ b. b ≡ rules.where_of (seen table.now) (out-Op op.now).what (out-Op op.now).regions) }
{
    let regions = op.regions.as_slice();
    match &op.what {
        What::Masked => masked_fits(alloc, table, regions),
        What::Elsewhere => elsewhere_fits(alloc, table, regions),
        _ => Ok(true),
    }
}

fn are_designates(table: &[Value], vs: &[ValueId]) -> bool
    ensures { result ≡ list_all (λ v. values.is_designate (values.value_at (seen table.now) v)) vs.now }
{
    'each: for v in vs {
        if !is_designate(value_at(table, *v)) {
            return false;
        }
    }
    true
}

/// The left side is a designate, and the right side has rank 0.
fn fills_element(table: &[Value], what: &What, regions: &[Region]) -> bool
    ensures { result ≡ statements.fills_element (seen table.now) what.now regions.now }
{
    match what {
        What::Assign { .. } => {
            are_designates(table, parts_in(regions, 1)) && have_rank(table, 0, parts_in(regions, 0))
        }
        _ => true,
    }
}

fn fill_elements(table: &[Value], ops: &[Op]) -> bool
    ensures { result ≡ list_all (statements.fills_elements (seen table.now)) ops.now }
{
    'each: for op in ops {
        if !fills_element(table, &op.what, op.regions.as_slice()) {
            return false;
        }
    }
    true
}

fn work_on_scalars(order: &[&Op]) -> bool
    ensures { result ≡ list_all statements.works_on_scalars (ops_of order.now) }
{
    'each: for op in order {
        if !works_on_scalars(op) {
            return false;
        }
    }
    true
}

fn fits_forall(alloc: Global, table: &[Value], ops: &[Op]) -> Result<bool, AllocError>
    ensures { IfOk result (λ b. b ≡ statements.fits_forall (seen table.now) ops.now) }
{
    if !is_forall_body(ops) {
        return Ok(false);
    }
    let order = ops_in_order(alloc, ops)?;
    Ok(work_on_scalars(order.as_slice()) && fill_elements(table, ops))
}

/// What the body of a forall holds.
#[tactic(auto, unfolding(hlfir_ops::specs::Rules::forall_of))]
pub fn forall_fits(alloc: Global, table: &[Value], op: &Op) -> Result<bool, AllocError>
    ensures { IfOk result (λ b. b ≡ rules.forall_of (seen table.now) (out-Op op.now).what (out-Op op.now).regions) }
{
    match &op.what {
        What::Forall(_) => fits_forall(alloc, table, ops_in(op.regions.as_slice(), 1)),
        _ => Ok(true),
    }
}
