//! What is counted of a statement, and the counting.

ghost use Rattle.std.specs.Prelude.{◌≡◌, IfOk};
ghost use Rattle.hlfir_ops.specs.RulesLimits as limits;
ghost use Rattle.rule_tests.specs.Seen.{seen, value_seen};
ghost use Rattle.rule_tests.specs.Orders.{ops_of};
ghost use Rattle.rule_limits.specs.Tallies as tallies;
ghost use Rattle.rule_limits.specs.Tallies.{capped};

use crate::order::ops_inside;
use hlfir_ops::{Op, ValueId, What};
use rule_tests::{Value, is_whole, value_at};
use std::alloc::{AllocError, Global};

/// What is counted of a statement up to some op, as far as a `u32` goes: the phases of the steps that have ended, with what the step that
/// has not ended adds to 6; the greatest number of temporaries of a step; the masks, the vector subscripts evaluated whole in them, and
/// the reductions and other vector subscripts of the step; whether something of the step, and whether its assignment, stands before; and
/// whether the op stands in a mask.
#[derive(Clone, Copy, Debug)]
pub struct Tally {
    pub phases: u32,
    pub temporaries: u32,
    pub masks: u32,
    pub held: u32,
    pub pending: u32,
    pub begun: bool,
    pub assigned: bool,
    pub masked: bool,
}

const NOTHING: Tally = Tally {
    phases: 0,
    temporaries: 0,
    masks: 0,
    held: 0,
    pending: 0,
    begun: false,
    assigned: false,
    masked: false,
};

/// A step ends.
fn end(tally: &mut Tally)
    ensures { tally.new ≡ tallies.ended tally.old }
{
    let step = tally
        .masks
        .saturating_add(tally.held)
        .saturating_add(tally.pending)
        .saturating_add(2);
    tally.phases = tally.phases.saturating_add(6);
    tally.temporaries = tally.temporaries.max(step);
    tally.pending = 0;
    tally.begun = false;
    tally.assigned = false;
}

/// A new mask, an assignment or a header stands after the assignment of the step before it.
#[tactic(auto, unfolding(crate::specs::Tallies::after_assignment))]
fn leave_assignment(tally: &mut Tally)
    ensures { tally.new ≡ tallies.after_assignment tally.old }
{
    if tally.assigned {
        end(tally);
    }
}

fn add_mask(tally: &mut Tally)
    ensures { tally.new ≡ tallies.with_mask (tallies.after_assignment tally.old) }
{
    leave_assignment(tally);
    tally.phases = tally.phases.saturating_add(1);
    tally.masks = tally.masks.saturating_add(1);
    tally.begun = true;
    tally.masked = true;
}

fn add_header(tally: &mut Tally)
    ensures { tally.new ≡ tallies.with_header (tallies.after_assignment tally.old) }
{
    leave_assignment(tally);
    tally.begun = true;
    tally.masked = false;
}

fn add_assignment(tally: &mut Tally)
    ensures { tally.new ≡ tallies.with_assignment (tallies.after_assignment tally.old) }
{
    add_header(tally);
    tally.assigned = true;
}

fn add_reduction(tally: &mut Tally)
    ensures { tally.new ≡ tallies.with_reduction tally.old }
{
    tally.phases = tally.phases.saturating_add(3);
    tally.pending = tally.pending.saturating_add(1);
    tally.begun = true;
}

/// A vector subscript that is evaluated whole.
#[tactic(auto, unfolding(crate::specs::Tallies::with_whole))]
fn add_whole(tally: &mut Tally)
    ensures { tally.new ≡ tallies.with_whole tally.old }
{
    tally.phases = tally.phases.saturating_add(2);
    if tally.masked {
        tally.held = tally.held.saturating_add(1);
    } else {
        tally.pending = tally.pending.saturating_add(1);
    }
    tally.begun = true;
}

#[tactic(auto, unfolding(crate::specs::Tallies::with_operand))]
fn add_operand(table: &[Value], tally: &mut Tally, v: ValueId)
    ensures { tally.new ≡ tallies.with_operand (seen table.now) tally.old v }
{
    if is_whole(value_at(table, v)) {
        add_whole(tally);
    }
}

fn add_operands(table: &[Value], tally: &mut Tally, operands: &[ValueId])
    ensures { tally.new ≡ tallies.with_wholes (seen table.now) tally.old operands.now }
{
    'each: for v in operands {
        add_operand(table, tally, *v);
    }
}

/// An elsewhere with a mask has two regions.
#[tactic(auto, unfolding(crate::specs::Tallies::with_elsewhere))]
fn add_elsewhere(tally: &mut Tally, regions: usize)
    ensures { tally.new ≡ tallies.with_elsewhere tally.old regions }
{
    if regions != 1 {
        add_mask(tally);
    }
}

fn count_as(table: &[Value], tally: &mut Tally, what: &What, operands: &[ValueId], regions: usize)
    ensures { tally.new ≡ tallies.counted_as (seen table.now) tally.old what.now operands.now regions }
{
    match what {
        What::Masked | What::ForallMask => add_mask(tally),
        What::Elsewhere => add_elsewhere(tally, regions),
        What::Assign { .. } => add_assignment(tally),
        What::Forall(_) => add_header(tally),
        What::Reduce(_) => add_reduction(tally),
        What::Designate(_) => add_operands(table, tally, operands),
        _ => {}
    }
}

#[tactic(auto, unfolding(crate::specs::Tallies::counted))]
fn count(table: &[Value], tally: &mut Tally, op: &Op)
    ensures { tally.new ≡ tallies.counted (seen table.now) tally.old op.now }
{
    count_as(
        table,
        tally,
        &op.what,
        op.operands.as_slice(),
        op.regions.len(),
    );
}

fn count_all(table: &[Value], tally: &mut Tally, order: &[&Op])
    ensures { tally.new ≡ tallies.counted_all (seen table.now) tally.old (ops_of order.now) }
{
    'each: for op in order {
        count(table, tally, op);
    }
}

/// What stands after the last assignment is a step of its own.
#[tactic(auto, unfolding(crate::specs::Tallies::finished))]
fn finish(tally: &mut Tally)
    ensures { tally.new ≡ tallies.finished tally.old }
{
    if tally.begun {
        end(tally);
    }
}

/// What is counted of a statement, which is its op and those inside it.
pub fn statement_count(alloc: Global, table: &[Value], op: &Op) -> Result<Tally, AllocError>
    ensures { IfOk result (λ tally. tally ≡ capped (limits.statement_count (seen table.now) op.now)) }
{
    let regions = op.regions.as_slice();
    let order = ops_inside(alloc, regions)?;
    let order = order.as_slice();
    let mut tally = NOTHING;
    count(table, &mut tally, op);
    count_all(table, &mut tally, order);
    finish(&mut tally);
    Ok(tally)
}

/// What is counted of expressions, which are one step.
pub fn step_count(table: &[Value], order: &[&Op]) -> Tally
    ensures { result ≡ capped (limits.step_count (seen table.now) (ops_of order.now)) }
{
    let mut tally = NOTHING;
    count_all(table, &mut tally, order);
    end(&mut tally);
    tally
}

/// What is counted of several statements, as far as a `u32` goes: the sum of their phases, and the greatest number of temporaries.
#[derive(Clone, Copy, Debug)]
pub struct Sum {
    pub phases: u32,
    pub temporaries: u32,
}

fn add(sum: &mut Sum, tally: Tally)
    ensures { sum.new ≡ tallies.added sum.old tally }
{
    sum.phases = sum.phases.saturating_add(tally.phases);
    sum.temporaries = sum.temporaries.max(tally.temporaries);
}

/// What is counted of these statements.
pub fn sum_of(alloc: Global, table: &[Value], ops: &[Op]) -> Result<Sum, AllocError>
    ensures { IfOk result (λ sum. sum ≡ tallies.sum_of (limits.phases_of (seen table.now) ops.now) (limits.temporaries_of (seen table.now) ops.now)) }
{
    let mut sum = Sum {
        phases: 0,
        temporaries: 0,
    };
    'each: for op in ops {
        let tally = statement_count(alloc, table, op)?;
        add(&mut sum, tally);
    }
    Ok(sum)
}
