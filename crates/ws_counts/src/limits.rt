//! The limits on what one statement, one region, or the expressions of one DO, ALLOCATE or READ may count.

ghost use Rattle.std.specs.Prelude.{◌≡◌, false, ◌||◌, nat_lt, List, [], ◌∷◌, ◌++◌, OnOk};
ghost use Rattle.ws_types.specs.Kinds.{least_from};
ghost use Rattle.ws_counts.specs.declared.tally.Piece.{Piece};
ghost use Rattle.ws_counts.specs.Counts.{statement_steps, steps_from};
ghost use Rattle.ws_counts.specs.Limits as limits;
ghost use Rattle.ws_counts.specs.Tallies.{nothing, tallied, total_of, no_sum, all_summed};

use crate::expressions::{count_expr, count_given};
use crate::statements::count_statement;
use crate::tally::{NO_SUM, NOTHING, Piece, Sum, Tally, Total, add, count, finish};
use std::alloc::{AllocError, Global};
use ws_base::{Refusal, RefusalKind};
use ws_tree::{Body, Bound, Expr, Part, Stmt};
use ws_types::{Row, note};

/// The greatest number of operators, calls, arguments, constructor items, subscripts and header indexes.
const PART_LIMIT: u32 = 1024;

/// The greatest number of phases.
const PHASE_LIMIT: u32 = 512;

/// The greatest number of temporaries.
const TEMPORARY_LIMIT: u32 = 64;

fn check_parts(found: &mut Option<Refusal>, line: u32, total: Total)
    ensures { (ss : List (List Piece)) → total ≡ total_of ss → found.new ≡ least_from found.old (limits.parts_faults line ss) }
{
    note(
        found,
        PART_LIMIT < total.parts,
        line,
        RefusalKind::OverLimit,
    );
}

fn is_over(sum: Sum) -> bool
    ensures { result ≡ (nat_lt 512 sum.phases || nat_lt 64 sum.temporaries) }
{
    PHASE_LIMIT < sum.phases || TEMPORARY_LIMIT < sum.temporaries
}

fn check_sum(found: &mut Option<Refusal>, line: u32, sum: Sum)
    ensures { (all : List (List (List Piece))) → sum ≡ all_summed no_sum all → found.new ≡ least_from found.old (limits.steps_faults line all) }
{
    note(found, is_over(sum), line, RefusalKind::OverLimit);
}

/// The steps of a statement in a region count for the region.
fn check_total(found: &mut Option<Refusal>, shared: bool, line: u32, total: Total)
    ensures { (ss : List (List Piece)) → total ≡ total_of ss → found.new ≡ least_from found.old (limits.statement_faults shared line ss) }
{
    check_parts(found, line, total);
    if shared {
        return;
    }
    let mut sum = NO_SUM;
    add(&mut sum, total);
    check_sum(found, line, sum);
}

/// What was counted is one step.
fn check_step(found: &mut Option<Refusal>, line: u32, tally: Tally)
    ensures { (ps : List Piece) → tally ≡ tallied nothing ps → found.new ≡ least_from found.old (limits.statement_faults false line (steps_from [] (ps ++ Piece.Assigned ∷ []))) }
{
    let mut tally = tally;
    count(&mut tally, Piece::Assigned);
    check_total(found, false, line, finish(tally));
}

#[tactic(auto, using(crate::proofs::Tallied::tallied_rules))]
fn check_loop(
    found: &mut Option<Refusal>,
    table: &[Row],
    line: u32,
    l: &Expr,
    u: &Expr,
    s: &Option<Expr>,
)
    ensures { found.new ≡ least_from found.old (limits.expressions_faults line (limits.loop_pieces table.now l.now u.now s.now)) }
{
    let mut tally = NOTHING;
    count_expr(&mut tally, table, false, false, l);
    count_expr(&mut tally, table, false, false, u);
    count_given(&mut tally, table, false, false, s);
    check_step(found, line, tally);
}

#[tactic(auto, using(crate::proofs::Tallied::tallied_rules))]
fn count_bound(tally: &mut Tally, table: &[Row], bound: &Bound)
    ensures { tally.new ≡ tallied tally.old (limits.bound_pieces table.now bound.now) }
{
    match bound {
        Bound::Upper(u) => count_expr(tally, table, false, false, u),
        Bound::Both(l, u) => {
            count_expr(tally, table, false, false, l);
            count_expr(tally, table, false, false, u);
        }
        Bound::Deferred => {}
    }
}

#[tactic(auto, using(crate::proofs::Tallied::tallied_rules))]
fn count_bounds(tally: &mut Tally, table: &[Row], part: &Part)
    ensures { tally.new ≡ tallied tally.old (limits.part_pieces table.now part.now) }
{
    let bounds = part.shape.as_slice();
    'each: for bound in bounds {
        count_bound(tally, table, bound);
    }
}

#[tactic(auto, using(crate::proofs::Tallied::tallied_rules))]
fn count_parts(tally: &mut Tally, table: &[Row], parts: &[Part])
    ensures { tally.new ≡ tallied tally.old (limits.allocate_pieces table.now parts.now) }
{
    'each: for part in parts {
        count_bounds(tally, table, part);
    }
}

fn check_allocate(found: &mut Option<Refusal>, table: &[Row], line: u32, parts: &[Part])
    ensures { found.new ≡ least_from found.old (limits.expressions_faults line (limits.allocate_pieces table.now parts.now)) }
{
    let mut tally = NOTHING;
    count_parts(&mut tally, table, parts);
    check_step(found, line, tally);
}

#[tactic(auto, using(crate::proofs::Tallied::tallied_rules))]
fn count_items(tally: &mut Tally, table: &[Row], es: &[Expr])
    ensures { tally.new ≡ tallied tally.old (limits.read_pieces table.now es.now) }
{
    'each: for e in es {
        count_expr(tally, table, false, false, e);
    }
}

fn check_read(found: &mut Option<Refusal>, table: &[Row], line: u32, es: &[Expr])
    ensures { found.new ≡ least_from found.old (limits.expressions_faults line (limits.read_pieces table.now es.now)) }
{
    let mut tally = NOTHING;
    count_items(&mut tally, table, es);
    check_step(found, line, tally);
}

/// An assignment, WHERE or FORALL, which is added to the sum.
fn check_statement(
    alloc: Global,
    found: &mut Option<Refusal>,
    sum: &mut Sum,
    table: &[Row],
    shared: bool,
    line: u32,
    body: &Body,
) -> Result<(), AllocError>
    ensures faults { OnOk result (found.new ≡ least_from found.old (limits.statement_faults shared line (statement_steps table.now line body.now))) }
    ensures steps { OnOk result (sum.new ≡ all_summed sum.old (statement_steps table.now line body.now ∷ [])) }
{
    let mut tally = NOTHING;
    count_statement(alloc, &mut tally, table, false, body)?;
    let total = finish(tally);
    check_total(found, shared, line, total);
    add(sum, total);
    Ok(())
}

/// A statement, and those in it. `shared` says that it stands in a region, whose steps are added to the sum.
#[cycle(limiting)]
#[tactic(auto, using(crate::proofs::Summed::summed_rules), unfolding(ws_tree::specs::Opened::trees_open))]
fn check_body(
    alloc: Global,
    found: &mut Option<Refusal>,
    sum: &mut Sum,
    table: &[Row],
    shared: bool,
    line: u32,
    body: &Body,
) -> Result<(), AllocError>
    ensures faults { OnOk result (found.new ≡ least_from found.old (limits.body_limits table.now shared line body.now)) }
    ensures steps { OnOk result (sum.new ≡ all_summed sum.old (limits.body_steps table.now line body.now)) }
{
    match body {
        Body::Assign { .. } | Body::Masked { .. } | Body::Forall { .. } => {
            check_statement(alloc, found, sum, table, shared, line, body)?;
            Ok(())
        }
        Body::Loop { l, u, s, block, .. } => {
            check_loop(found, table, line, l, u, s);
            check_block(alloc, found, sum, table, shared, block.as_slice())?;
            Ok(())
        }
        Body::Allocate(parts) => {
            check_allocate(found, table, line, parts.as_slice());
            Ok(())
        }
        Body::Read(es) => {
            check_read(found, table, line, es.as_slice());
            Ok(())
        }
        Body::Shared { block } => {
            if shared {
                return Ok(());
            }
            let mut region = NO_SUM;
            check_block(alloc, found, &mut region, table, true, block.as_slice())?;
            check_sum(found, line, region);
            Ok(())
        }
        Body::Deallocate(_) | Body::Unsupported | Body::TooDeep => Ok(()),
    }
}

#[cycle(limiting)]
#[tactic(auto, using(crate::proofs::Summed::summed_rules))]
fn check_block(
    alloc: Global,
    found: &mut Option<Refusal>,
    sum: &mut Sum,
    table: &[Row],
    shared: bool,
    block: &[Stmt],
) -> Result<(), AllocError>
    ensures faults { OnOk result (found.new ≡ least_from found.old (limits.stmts_limits table.now shared block.now)) }
    ensures steps { OnOk result (sum.new ≡ all_summed sum.old (limits.stmts_steps table.now block.now)) }
{
    'each: for stmt in block {
        check_stmt(alloc, found, sum, table, shared, stmt)?;
    }
    Ok(())
}

#[cycle(limiting)]
#[tactic(auto, using(crate::proofs::Summed::summed_rules))]
fn check_stmt(
    alloc: Global,
    found: &mut Option<Refusal>,
    sum: &mut Sum,
    table: &[Row],
    shared: bool,
    stmt: &Stmt,
) -> Result<(), AllocError>
    ensures faults { OnOk result (found.new ≡ least_from found.old (limits.stmt_limits table.now shared stmt.now)) }
    ensures steps { OnOk result (sum.new ≡ all_summed sum.old (limits.stmt_steps table.now stmt.now)) }
{
    check_body(alloc, found, sum, table, shared, stmt.line, &stmt.body)?;
    Ok(())
}

/// Takes note of each statement and region of a program that counts more than the limits allow, with its first line: 1024 parts,
/// 512 phases, 64 temporaries. The table has what is declared.
pub fn check_limits(
    alloc: Global,
    found: &mut Option<Refusal>,
    table: &[Row],
    body: &[Stmt],
) -> Result<(), AllocError>
    ensures { OnOk result (found.new ≡ least_from found.old (limits.stmts_limits table.now false body.now)) }
{
    let mut sum = NO_SUM;
    check_block(alloc, found, &mut sum, table, false, body)?;
    Ok(())
}
