//! The counts of assignments, WHERE and FORALL.

ghost use Rattle.std.specs.Prelude.{◌≡◌, List, [], if◌then◌else◌, IfOk, OnOk};
ghost use Rattle.ws_counts.specs.declared.tally.Piece.{Piece};
ghost use Rattle.ws_types.specs.Tables.{inner};
ghost use Rattle.ws_counts.specs.Pieces as pieces;
ghost use Rattle.ws_counts.specs.Lists as lists;
ghost use Rattle.ws_counts.specs.Tallies.{tallied};

use crate::expressions::{count_expr, count_given};
use crate::tally::{Piece, Tally, count};
use std::alloc::{AllocError, Global};
use ws_tree::{Body, Else, Expr, Index, Stmt};
use ws_types::{Row, Standing, with_indexes};

#[tactic(auto, using(crate::proofs::Tallied::tallied_rules))]
fn count_mask(tally: &mut Tally, table: &[Row], inside: bool, e: &Expr)
    ensures { tally.new ≡ tallied tally.old (pieces.mask_pieces table.now inside e.now) }
{
    count(tally, Piece::Mask);
    count_expr(tally, table, inside, true, e);
}

#[tactic(auto, using(crate::proofs::Tallied::tallied_rules))]
fn count_given_mask(tally: &mut Tally, table: &[Row], inside: bool, e: &Option<Expr>)
    ensures { tally.new ≡ tallied tally.old (pieces.given_mask_pieces table.now inside e.now) }
{
    match e {
        None => {}
        Some(e) => count_mask(tally, table, inside, e),
    }
}

#[tactic(auto, using(crate::proofs::Tallied::tallied_rules))]
fn count_assignment(tally: &mut Tally, table: &[Row], inside: bool, left: &Expr, right: &Expr)
    ensures { tally.new ≡ tallied tally.old (pieces.assigned_pieces table.now inside left.now right.now) }
{
    count_expr(tally, table, inside, false, left);
    count_expr(tally, table, inside, false, right);
    count(tally, Piece::Assigned);
}

#[tactic(auto, using(crate::proofs::Tallied::tallied_rules))]
fn count_index(tally: &mut Tally, table: &[Row], index: &Index)
    ensures { tally.new ≡ tallied tally.old (pieces.index_pieces table.now index.now) }
{
    count(tally, Piece::Part);
    count_expr(tally, table, false, false, &index.l);
    count_expr(tally, table, false, false, &index.u);
    count_given(tally, table, false, false, &index.s);
}

#[tactic(auto, using(crate::proofs::Tallied::tallied_rules))]
fn count_indexes(tally: &mut Tally, table: &[Row], indexes: &[Index])
    ensures { tally.new ≡ tallied tally.old (pieces.indexes_pieces table.now indexes.now) }
{
    'each: for index in indexes {
        count_index(tally, table, index);
    }
}

/// The header and mask of a FORALL; gives the table inside it.
#[tactic(auto, using(crate::proofs::Tallied::tallied_rules))]
fn count_header(
    alloc: Global,
    tally: &mut Tally,
    table: &[Row],
    indexes: &[Index],
    mask: &Option<Expr>,
) -> Result<Vec<Row>, AllocError>
    ensures value { IfOk result (λ rows. rows.items ≡ inner table.now indexes.now) }
    ensures counted { OnOk result (tally.new ≡ tallied tally.old (pieces.header_pieces table.now indexes.now mask.now)) }
{
    let barred = with_indexes(alloc, Standing::Barred, indexes, table)?;
    let inner = with_indexes(alloc, Standing::Index, indexes, table)?;
    count_indexes(tally, barred.as_slice(), indexes);
    count_given_mask(tally, inner.as_slice(), true, mask);
    Ok(inner)
}

fn is_last(part: &Else) -> bool
    ensures { (ps : List Piece) → pieces.unless_last part.now ps ≡ (if result then [] else ps) }
{
    match part.mask {
        None => true,
        Some(_) => false,
    }
}

/// An assignment or WHERE, as it stands in a WHERE or in a FORALL.
#[cycle(masking)]
#[tactic(auto, using(crate::proofs::Tallied::tallied_rules), unfolding(ws_tree::specs::Opened::trees_open))]
fn count_where(tally: &mut Tally, table: &[Row], inside: bool, body: &Body)
    ensures { tally.new ≡ tallied tally.old (pieces.where_pieces table.now inside body.now) }
{
    match body {
        Body::Assign { left, right } => count_assignment(tally, table, inside, left, right),
        Body::Masked { mask, block, rest } => {
            count_mask(tally, table, inside, mask);
            count_block(tally, table, inside, block.as_slice());
            count_elses(tally, table, inside, rest.as_slice());
        }
        Body::Forall { .. }
        | Body::Loop { .. }
        | Body::Allocate(_)
        | Body::Deallocate(_)
        | Body::Read(_)
        | Body::Shared { .. }
        | Body::Unsupported
        | Body::TooDeep => {}
    }
}

#[cycle(masking)]
#[tactic(auto, using(crate::proofs::Tallied::tallied_rules))]
fn count_block(tally: &mut Tally, table: &[Row], inside: bool, block: &[Stmt])
    ensures { tally.new ≡ tallied tally.old (lists.block_pieces table.now inside block.now) }
{
    'each: for stmt in block {
        count_stmt(tally, table, inside, stmt);
    }
}

#[cycle(masking)]
#[tactic(auto, using(crate::proofs::Tallied::tallied_rules))]
fn count_stmt(tally: &mut Tally, table: &[Row], inside: bool, stmt: &Stmt)
    ensures { tally.new ≡ tallied tally.old (lists.stmt_pieces table.now inside stmt.now) }
{
    count_where(tally, table, inside, &stmt.body);
}

#[cycle(masking)]
#[tactic(auto, using(crate::proofs::Tallied::tallied_rules))]
fn count_elses(tally: &mut Tally, table: &[Row], inside: bool, rest: &[Else])
    ensures { tally.new ≡ tallied tally.old (lists.elses_pieces table.now inside rest.now) }
{
    'each: for part in rest {
        count_else(tally, table, inside, part);
        if is_last(part) {
            return;
        }
    }
}

#[cycle(masking)]
#[tactic(auto, using(crate::proofs::Tallied::tallied_rules), unfolding(ws_tree::specs::Opened::trees_open))]
fn count_else(tally: &mut Tally, table: &[Row], inside: bool, part: &Else)
    ensures { tally.new ≡ tallied tally.old (pieces.else_pieces table.now inside part.now) }
{
    count_given_mask(tally, table, inside, &part.mask);
    count_block(tally, table, inside, part.block.as_slice());
}

/// An assignment, WHERE or FORALL.
#[cycle(stating)]
#[tactic(auto, using(crate::proofs::Tallied::tallied_rules), unfolding(ws_tree::specs::Opened::trees_open))]
pub fn count_statement(
    alloc: Global,
    tally: &mut Tally,
    table: &[Row],
    inside: bool,
    body: &Body,
) -> Result<(), AllocError>
    ensures { OnOk result (tally.new ≡ tallied tally.old (pieces.statement_pieces table.now inside body.now)) }
{
    match body {
        Body::Forall {
            indexes,
            mask,
            block,
        } => {
            let inner = count_header(alloc, tally, table, indexes.as_slice(), mask)?;
            count_forall(alloc, tally, inner.as_slice(), block.as_slice())?;
            Ok(())
        }
        Body::Assign { .. }
        | Body::Masked { .. }
        | Body::Loop { .. }
        | Body::Allocate(_)
        | Body::Deallocate(_)
        | Body::Read(_)
        | Body::Shared { .. }
        | Body::Unsupported
        | Body::TooDeep => {
            count_where(tally, table, inside, body);
            Ok(())
        }
    }
}

/// What stands in a FORALL.
#[cycle(stating)]
#[tactic(auto, using(crate::proofs::Tallied::tallied_rules))]
fn count_forall(
    alloc: Global,
    tally: &mut Tally,
    table: &[Row],
    block: &[Stmt],
) -> Result<(), AllocError>
    ensures { OnOk result (tally.new ≡ tallied tally.old (lists.forall_pieces table.now block.now)) }
{
    'each: for stmt in block {
        count_part(alloc, tally, table, stmt)?;
    }
    Ok(())
}

#[cycle(stating)]
#[tactic(auto, using(crate::proofs::Tallied::tallied_rules))]
fn count_part(
    alloc: Global,
    tally: &mut Tally,
    table: &[Row],
    stmt: &Stmt,
) -> Result<(), AllocError>
    ensures { OnOk result (tally.new ≡ tallied tally.old (lists.part_pieces table.now stmt.now)) }
{
    count_statement(alloc, tally, table, true, &stmt.body)?;
    Ok(())
}
