//! The walk over statements.

ghost use Rattle.std.specs.Prelude.{◌≡◌, OnOk, IfOk};
ghost use Rattle.ws_types.specs.Kinds.{least_from};
ghost use Rattle.ws_types.specs.Tables as tables;
ghost use Rattle.ws_sema.specs.Statements as statements;

use crate::stmt::{
    allocations, assignment, check_loop, check_mask, deallocations, enclosing_rank, forall_mask,
    header, is_inside, items, rank_of, scalar_expr,
};
use crate::within::Within;
use std::alloc::{AllocError, Global};
use ws_base::{Name, Refusal, RefusalKind};
use ws_tree::{Body, Else, Expr, Index, Stmt};
use ws_types::{Row, Standing, expr, note, push_rows, standing_of, triplet_part, with_indexes};

fn is_shared(within: Within) -> bool
    ensures { result ≡ statements.is_shared within }
{
    matches!(within, Within::Shared)
}

fn is_masked(within: Within) -> bool
    ensures { result ≡ statements.is_masked within }
{
    matches!(within, Within::Masked { .. } | Within::Forall)
}

fn is_outside(within: Within) -> bool
    ensures { result ≡ statements.is_outside within }
{
    matches!(within, Within::Outside)
}

/// DO, ALLOCATE, DEALLOCATE or READ, which may not stand in a workshare block (OpenMP 5.2, 11.4).
#[tactic(auto, unfolding(crate::specs::Statements::serial_faults))]
fn check_serial(found: &mut Option<Refusal>, within: Within, line: u32)
    ensures { found.new ≡ least_from found.old (statements.serial_faults within line) }
{
    note(found, is_shared(within), line, RefusalKind::NotInWorkshare);
}

fn active_row(alloc: Global, name: &Name, standing: Standing) -> Result<Row, AllocError>
    ensures { IfOk result (λ row. row ≡ record { name = name.now; standing = standing }) }
{
    Ok(Row {
        name: name.copy(alloc)?,
        standing,
    })
}

/// The table in the block of a DO, where its variable is active.
fn with_active(alloc: Global, table: &[Row], name: &Name) -> Result<Vec<Row>, AllocError>
    ensures { IfOk result (λ rows. rows.items ≡ statements.with_active table.now name.now) }
{
    let mut rows = Vec::new(alloc);
    match standing_of(table, name) {
        Some(Standing::Declared(entry)) => {
            rows.push(active_row(alloc, name, Standing::Active(entry))?)?;
        }
        _ => {}
    }
    push_rows(alloc, &mut rows, table)?;
    Ok(rows)
}

/// A statement, and those in it.
#[cycle(walking)]
#[tactic(auto, using(crate::proofs::Blocks::block_rules), unfolding(ws_tree::specs::Opened::trees_open))]
fn body(
    alloc: Global,
    found: &mut Option<Refusal>,
    table: &[Row],
    within: Within,
    line: u32,
    body: &Body,
) -> Result<(), AllocError>
    ensures { OnOk result (found.new ≡ least_from found.old (statements.body_faults table.now within line body.now)) }
{
    match body {
        Body::Assign { left, right } => {
            assignment(found, table, within, line, left, right);
            Ok(())
        }
        Body::Masked { mask, block, rest } => {
            if is_inside(within) {
                note(found, true, line, RefusalKind::Unsupported);
                return Ok(());
            }
            let rank = where_mask(found, table, within, line, mask);
            stmts(
                alloc,
                found,
                table,
                Within::Masked { line, rank },
                block.as_slice(),
            )?;
            elses(alloc, found, table, line, rank, rest.as_slice())?;
            Ok(())
        }
        Body::Forall {
            indexes,
            mask,
            block,
        } => {
            if is_masked(within) {
                note(found, true, line, RefusalKind::Unsupported);
                return Ok(());
            }
            let inner = forall_header(alloc, found, table, line, indexes.as_slice(), mask)?;
            stmts(
                alloc,
                found,
                inner.as_slice(),
                Within::Forall,
                block.as_slice(),
            )?;
            Ok(())
        }
        Body::Loop {
            var,
            l,
            u,
            s,
            block,
        } => {
            if is_masked(within) {
                note(found, true, line, RefusalKind::Unsupported);
                return Ok(());
            }
            loop_header(found, table, within, line, var, l, u, s);
            let inner = with_active(alloc, table, var)?;
            stmts(alloc, found, inner.as_slice(), within, block.as_slice())?;
            Ok(())
        }
        Body::Shared { block } => {
            if !is_outside(within) {
                note(found, true, line, RefusalKind::Unsupported);
                return Ok(());
            }
            stmts(alloc, found, table, Within::Shared, block.as_slice())?;
            Ok(())
        }
        Body::Unsupported => {
            note(found, true, line, RefusalKind::Unsupported);
            Ok(())
        }
        Body::TooDeep => {
            note(found, true, line, RefusalKind::OverLimit);
            Ok(())
        }
        Body::Allocate(_) | Body::Deallocate(_) | Body::Read(_) => {
            serial(found, table, within, line, body);
            Ok(())
        }
    }
}

/// ALLOCATE, DEALLOCATE or READ.
#[tactic(auto, using(ws_types::proofs::Appended::least_rules))]
fn serial(found: &mut Option<Refusal>, table: &[Row], within: Within, line: u32, body: &Body)
    ensures { found.new ≡ least_from found.old (statements.serial_body_faults table.now within line body.now) }
{
    if is_masked(within) {
        note(found, true, line, RefusalKind::Unsupported);
        return;
    }
    check_serial(found, within, line);
    match body {
        Body::Allocate(parts) => allocations(found, table, line, parts.as_slice()),
        Body::Deallocate(names) => deallocations(found, table, line, names.as_slice()),
        Body::Read(es) => items(found, table, line, es.as_slice()),
        _ => {}
    }
}

#[cycle(walking)]
#[tactic(auto, using(crate::proofs::Blocks::block_rules))]
pub fn stmts(
    alloc: Global,
    found: &mut Option<Refusal>,
    table: &[Row],
    within: Within,
    block: &[Stmt],
) -> Result<(), AllocError>
    ensures { OnOk result (found.new ≡ least_from found.old (statements.stmts_faults table.now within block.now)) }
{
    'each: for stmt in block {
        statement(alloc, found, table, within, stmt)?;
    }
    Ok(())
}

#[cycle(walking)]
#[tactic(auto, using(crate::proofs::Blocks::block_rules))]
fn statement(
    alloc: Global,
    found: &mut Option<Refusal>,
    table: &[Row],
    within: Within,
    stmt: &Stmt,
) -> Result<(), AllocError>
    ensures { OnOk result (found.new ≡ least_from found.old (statements.stmt_faults table.now within stmt.now)) }
{
    body(alloc, found, table, within, stmt.line, &stmt.body)?;
    Ok(())
}

/// The variable and the expressions of a DO (Fortran 2018, 11.1.7.2).
#[tactic(auto, using(ws_types::proofs::Appended::least_rules))]
fn loop_header(
    found: &mut Option<Refusal>,
    table: &[Row],
    within: Within,
    line: u32,
    var: &Name,
    l: &Expr,
    u: &Expr,
    s: &Option<Expr>,
)
    ensures { found.new ≡ least_from found.old (statements.loop_header_faults table.now within line var.now l.now u.now s.now) }
{
    check_serial(found, within, line);
    check_loop(found, within, line, standing_of(table, var));
    scalar_expr(found, table, line, l);
    scalar_expr(found, table, line, u);
    triplet_part(found, table, false, line, s);
}

/// The mask of a WHERE; gives its rank.
#[tactic(auto, using(ws_types::proofs::Appended::least_rules))]
fn where_mask(
    found: &mut Option<Refusal>,
    table: &[Row],
    within: Within,
    line: u32,
    mask: &Expr,
) -> Option<usize>
    ensures value { result ≡ statements.mask_rank table.now mask.now }
    ensures faults { found.new ≡ least_from found.old (statements.where_mask_faults table.now within line mask.now) }
{
    let mask = expr(found, table, false, line, mask);
    check_mask(found, line, enclosing_rank(within), mask);
    rank_of(mask)
}

#[cycle(walking)]
#[tactic(auto, using(crate::proofs::Blocks::block_rules))]
fn elses(
    alloc: Global,
    found: &mut Option<Refusal>,
    table: &[Row],
    line: u32,
    first: Option<usize>,
    rest: &[Else],
) -> Result<(), AllocError>
    ensures { OnOk result (found.new ≡ least_from found.old (statements.else_list_faults table.now line first rest.now)) }
{
    'each: for part in rest {
        else_part(alloc, found, table, line, first, part)?;
    }
    Ok(())
}

/// ELSEWHERE, whose block is under its own mask, or else under that of the WHERE.
#[cycle(walking)]
#[tactic(auto, using(crate::proofs::Blocks::block_rules), unfolding(ws_tree::specs::Opened::trees_open))]
fn else_part(
    alloc: Global,
    found: &mut Option<Refusal>,
    table: &[Row],
    line: u32,
    first: Option<usize>,
    part: &Else,
) -> Result<(), AllocError>
    ensures { OnOk result (found.new ≡ least_from found.old (statements.else_faults table.now line first part.now)) }
{
    let control = else_mask(found, table, part.line, line, first, &part.mask);
    stmts(alloc, found, table, control, part.block.as_slice())?;
    Ok(())
}

#[tactic(auto, using(ws_types::proofs::Appended::least_rules))]
fn else_mask(
    found: &mut Option<Refusal>,
    table: &[Row],
    own: u32,
    line: u32,
    first: Option<usize>,
    mask: &Option<Expr>,
) -> Within
    ensures value { result ≡ statements.else_control table.now own line first mask.now }
    ensures faults { found.new ≡ least_from found.old (statements.else_mask_faults table.now own first mask.now) }
{
    match mask {
        None => Within::Masked { line, rank: first },
        Some(e) => {
            let mask = expr(found, table, false, own, e);
            check_mask(found, own, first, mask);
            Within::Masked {
                line: own,
                rank: rank_of(mask),
            }
        }
    }
}

/// The header and mask of a FORALL; gives the table in which its index names stand for its own variables.
#[tactic(auto, using(ws_types::proofs::Appended::least_rules))]
fn forall_header(
    alloc: Global,
    found: &mut Option<Refusal>,
    table: &[Row],
    line: u32,
    indexes: &[Index],
    mask: &Option<Expr>,
) -> Result<Vec<Row>, AllocError>
    ensures value { IfOk result (λ rows. rows.items ≡ tables.inner table.now indexes.now) }
    ensures faults { OnOk result (found.new ≡ least_from found.old (statements.forall_header_faults table.now line indexes.now mask.now)) }
{
    let barred = with_indexes(alloc, Standing::Barred, indexes, table)?;
    let inner = with_indexes(alloc, Standing::Index, indexes, table)?;
    header(found, table, barred.as_slice(), line, indexes);
    forall_mask(found, inner.as_slice(), line, mask);
    Ok(inner)
}
