//! What assignments, where, forall and the lists of statements hold.

ghost use Rattle.std.specs.Prelude.{◌≡◌};
ghost use Rattle.std.specs.List.{list_all};
ghost use Rattle.hlfir_ops.specs.RulesStatements as statements;

use hlfir_ops::{
    Op, is_assign, is_elsewhere, is_forall, is_forall_mask, is_statement, is_where, is_whole_op,
};
use rule_limits::declares;
use rule_tests::is_section;

pub fn all_declare(ops: &[Op]) -> bool
    ensures { result ≡ list_all statements.declares ops.now }
{
    ops.iter().all(|op| declares(op))
}

pub fn assigns(op: &Op) -> bool
    ensures { result ≡ statements.assigns op.now }
{
    is_assign(&op.what)
}

pub fn all_assign(ops: &[Op]) -> bool
    ensures { result ≡ list_all statements.assigns ops.now }
{
    ops.iter().all(|op| assigns(op))
}

/// Assignments and where.
pub fn all_in_where(ops: &[Op]) -> bool
    ensures { result ≡ list_all statements.stands_in_where ops.now }
{
    ops.iter()
        .all(|op| is_assign(&op.what) || is_where(&op.what))
}

fn stands_in_workshare(op: &Op) -> bool
    ensures { result ≡ statements.stands_in_workshare op.now }
{
    is_assign(&op.what) || is_where(&op.what) || is_forall(&op.what)
}

/// Assignments, where and forall.
pub fn all_in_workshare(ops: &[Op]) -> bool
    ensures { result ≡ list_all statements.stands_in_workshare ops.now }
{
    ops.iter().all(|op| stands_in_workshare(op))
}

pub fn stands_in_program(op: &Op) -> bool
    ensures { result ≡ statements.stands_in_program op.now }
{
    is_statement(&op.what)
}

/// Statements.
pub fn all_in_program(ops: &[Op]) -> bool
    ensures { result ≡ list_all statements.stands_in_program ops.now }
{
    ops.iter().all(|op| stands_in_program(op))
}

/// Elsewheres, of which only the last one may have no mask.
pub fn are_elsewheres(ops: &[Op]) -> bool
    ensures { result ≡ statements.are_elsewheres ops.now }
{
    'each: for i in 0..ops.len() {
        let masked = 1 < ops[i].regions.len();
        if !is_elsewhere(&ops[i].what) || !masked && i + 1 != ops.len() {
            return false;
        }
    }
    true
}

/// A mask at most, and then assignments.
pub fn is_forall_body(ops: &[Op]) -> bool
    ensures { result ≡ statements.is_forall_body ops.now }
{
    match ops {
        [] => true,
        [first, more @ ..] => (is_forall_mask(&first.what) || assigns(first)) && all_assign(more),
    }
}

/// No reduction, vector, elemental or section.
pub fn works_on_scalars(op: &Op) -> bool
    ensures { result ≡ statements.works_on_scalars op.now }
{
    !is_whole_op(&op.what) && !is_section(op.kind)
}
