//! The limits on a module.

ghost use Rattle.std.specs.Prelude.{◌≡◌, ◌*◌, ◌<◌, ◌≤◌, nat_le, length, IfOk};
ghost use Rattle.hlfir_ops.specs.declared.op.Op.{out-Op};
ghost use Rattle.hlfir_ops.specs.RulesLimits as limits;
ghost use Rattle.hlfir_ops.specs.RulesStatements as statements;
ghost use Rattle.hlfir_ops.specs.Rules as rules;
ghost use Rattle.rule_limits.specs.Arounds.{around_seen};
ghost use Rattle.rule_tests.specs.Seen.{seen};

use crate::around::Around;
use crate::order::{is_small as is_small_order, ops_in_order, ops_inside};
use crate::tally::{statement_count, step_count, sum_of};
use hlfir_ops::{Op, ValueId, ValueKind, What, has_body, is_declare};
use rule_tests::{Value, ops_in};
use std::alloc::{AllocError, Global};
use ws_space::Shape;

/// The most declares.
const DECLARE_LIMIT: usize = 64;

/// The greatest rank of a variable.
const RANK_LIMIT: u32 = 3;

/// The most elements of a declared array.
const ELEMENT_LIMIT: u64 = 65_536;

/// The most items of a constructor.
const ITEM_LIMIT: usize = 256;

/// How deep bodies nest.
const BODY_LIMIT: u32 = 65;

/// The most phases of a statement or a region.
const PHASE_LIMIT: u32 = 512;

/// The most temporaries.
const TEMPORARY_LIMIT: u32 = 64;

pub fn declares(op: &Op) -> bool
    ensures { result ≡ statements.declares op.now }
{
    is_declare(&op.what)
}

fn declares_in(ops: &[Op]) -> usize
    ensures value { result ≡ limits.declares_in ops.now }
    ensures within { result ≤ length ops.now }
{
    let mut count: usize = 0;
    'each: for op in ops {
        if declares(op) {
            count += 1;
        }
    }
    count
}

/// The product. One above the limit may be given as another that is.
fn product(a: u64, b: u64, c: u64) -> u64
    ensures few { a * (b * c) ≤ 65536 → result ≡ a * (b * c) }
    ensures many { 65536 < a * (b * c) → 65536 < result }
{
    a.saturating_mul(b).saturating_mul(c)
}

fn is_few(a: u64, b: u64, c: u64) -> bool
    ensures { result ≡ nat_le (a * (b * c)) 65536 }
{
    product(a, b, c) <= ELEMENT_LIMIT
}

/// The rank and the number of elements.
fn is_small_shape(shape: Shape) -> bool
    ensures { result ≡ limits.is_small_shape shape }
{
    match shape.rank {
        0 => true,
        1 => is_few(shape.d1.extent, 1, 1),
        2 => is_few(shape.d1.extent, shape.d2.extent, 1),
        3 => is_few(shape.d1.extent, shape.d2.extent, shape.d3.extent),
        _ => false,
    }
}

fn is_small(kind: Option<ValueKind>) -> bool
    ensures { result ≡ limits.is_small kind }
{
    match kind {
        Some(ValueKind::Declared { shape, .. }) => is_small_shape(shape),
        Some(ValueKind::Allocatable { rank, .. }) => rank <= RANK_LIMIT,
        _ => true,
    }
}

/// The limits on declares, vectors and bodies.
fn own_limits(
    bodies: u32,
    before: &[Op],
    what: &What,
    operands: &[ValueId],
    kind: Option<ValueKind>,
) -> bool
    ensures { result ≡ rules.own_limits bodies before.now what.now operands.now kind }
{
    match what {
        What::Declare(_) => declares_in(before) < DECLARE_LIMIT && is_small(kind),
        What::Vector => operands.len() <= ITEM_LIMIT,
        _ => !has_body(what) || bodies < BODY_LIMIT,
    }
}

fn fits_count(phases: u32, temporaries: u32) -> bool
    ensures { result ≡ limits.fits_count phases temporaries }
{
    phases <= PHASE_LIMIT && temporaries <= TEMPORARY_LIMIT
}

/// The limits on what stands inside an assignment, where or forall.
#[tactic(auto, using(crate::proofs::Capped::fits_capped))]
fn statement_fits(
    alloc: Global,
    masked: bool,
    shared: bool,
    table: &[Value],
    op: &Op,
) -> Result<bool, AllocError>
    ensures { IfOk result (λ b. b ≡ rules.statement_fits masked shared (seen table.now) op.now) }
{
    if masked {
        return Ok(true);
    }
    let order = ops_inside(alloc, op.regions.as_slice())?;
    if !is_small_order(order.as_slice()) {
        return Ok(false);
    }
    if shared {
        return Ok(true);
    }
    let tally = statement_count(alloc, table, op)?;
    Ok(fits_count(tally.phases, tally.temporaries))
}

/// The limits on the expressions of a do_loop, allocmem or read.
#[tactic(auto, using(crate::proofs::Capped::fits_capped))]
fn expressions_fit(alloc: Global, table: &[Value], ops: &[Op]) -> Result<bool, AllocError>
    ensures { IfOk result (λ b. b ≡ rules.expressions_fit (seen table.now) ops.now) }
{
    let order = ops_in_order(alloc, ops)?;
    let order = order.as_slice();
    let tally = step_count(table, order);
    Ok(is_small_order(order) && fits_count(tally.phases, tally.temporaries))
}

/// The limits on a workshare.
#[tactic(auto, using(crate::proofs::Capped::fits_capped))]
fn workshare_fits(alloc: Global, table: &[Value], ops: &[Op]) -> Result<bool, AllocError>
    ensures { IfOk result (λ b. b ≡ rules.workshare_fits (seen table.now) ops.now) }
{
    let sum = sum_of(alloc, table, ops)?;
    Ok(fits_count(sum.phases, sum.temporaries))
}

fn counts_fit(
    alloc: Global,
    masked: bool,
    shared: bool,
    table: &[Value],
    op: &Op,
) -> Result<bool, AllocError>
    ensures { IfOk result (λ b. b ≡ rules.counts_fit masked shared (seen table.now) (out-Op op.now).what op.now) }
{
    match &op.what {
        What::Assign { .. } | What::Masked | What::Forall(_) => {
            statement_fits(alloc, masked, shared, table, op)
        }
        What::Workshare => workshare_fits(alloc, table, ops_in(op.regions.as_slice(), 0)),
        What::DoLoop | What::Allocmem { .. } | What::Read { .. } => {
            expressions_fit(alloc, table, ops_in(op.regions.as_slice(), 0))
        }
        _ => Ok(true),
    }
}

/// The limits.
#[tactic(auto, unfolding(hlfir_ops::specs::Rules::limits_fit))]
pub fn limits_fit(
    alloc: Global,
    around: Around,
    table: &[Value],
    before: &[Op],
    op: &Op,
) -> Result<bool, AllocError>
    ensures { IfOk result (λ b. b ≡ rules.limits_fit (around_seen around) (seen table.now) before.now op.now) }
{
    if !own_limits(
        around.bodies,
        before,
        &op.what,
        op.operands.as_slice(),
        op.kind,
    ) {
        return Ok(false);
    }
    counts_fit(alloc, around.masked, around.shared, table, op)
}
