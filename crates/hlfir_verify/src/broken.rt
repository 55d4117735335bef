//! The least rule that an op breaks.

ghost use Rattle.std.specs.Prelude.{◌≡◌, [], IfOk};
ghost use Rattle.std.specs.List.Sorted.{IsNonDecreasing};
ghost use Rattle.hlfir_ops.specs.Rules.{keeps_forms, keeps_statements};
ghost use Rattle.rule_limits.specs.Arounds.{around_seen};
ghost use Rattle.hlfir_verify.specs.Looks.{facts_seen};
ghost use Rattle.hlfir_verify.specs.Verdicts as verdicts;

use crate::defined::{are_defined, is_used_once};
use crate::ending::Rule;
use crate::lists::{declares_fit, lists_fit};
use crate::look::Look;
use crate::masks::{forall_fits, where_fits};
use hlfir_ops::Op;
use rule_limits::{Around, limits_fit};
use rule_tests::{operands_fit, realloc_fits, result_fits, sides_fit, yields_fit};
use std::alloc::AllocError;

/// The least rule that it breaks on the form of an op and what its regions yield.
fn broken_form(
    look: &Look,
    around: Around,
    number: u32,
    defined: &[u32],
    op: &Op,
) -> Result<Option<Rule>, AllocError>
    requires { IsNonDecreasing defined.now }
    ensures { IfOk result (λ rule. rule ≡ verdicts.first_broken verdicts.form_rules (keeps_forms (facts_seen look.now) (record { around = around_seen around; before = []; number = number; defined = defined.now }) op.now)) }
{
    let table = look.table.as_slice();
    let regions = op.regions.as_slice();
    if !are_defined(defined, op.operands.as_slice()) {
        return Ok(Some(Rule::Defined));
    }
    if !operands_fit(around.elemental, table, op) {
        return Ok(Some(Rule::Operands));
    }
    if !result_fits(table, op) {
        return Ok(Some(Rule::Result));
    }
    if !is_used_once(look.uses.as_slice(), number, op.kind)? {
        return Ok(Some(Rule::Once));
    }
    if !yields_fit(table, &op.what, regions) {
        return Ok(Some(Rule::Yield));
    }
    if !sides_fit(table, &op.what, regions) {
        return Ok(Some(Rule::Sides));
    }
    if !realloc_fits(around.masked, table, &op.what, regions) {
        return Ok(Some(Rule::Realloc));
    }
    Ok(None)
}

/// The least rule that it breaks on statements.
fn broken_statement(
    look: &Look,
    around: Around,
    before: &[Op],
    op: &Op,
) -> Result<Option<Rule>, AllocError>
    ensures { IfOk result (λ rule. rule ≡ verdicts.first_broken verdicts.statement_rules (keeps_statements (facts_seen look.now) (record { around = around_seen around; before = before.now; number = 0; defined = [] }) op.now)) }
{
    let table = look.table.as_slice();
    if !where_fits(look.alloc, table, op)? {
        return Ok(Some(Rule::Where));
    }
    if !forall_fits(look.alloc, table, op)? {
        return Ok(Some(Rule::Forall));
    }
    if !lists_fit(around.own, before, op) {
        return Ok(Some(Rule::Shared));
    }
    if !declares_fit(around.own, table, before, op) {
        return Ok(Some(Rule::Declares));
    }
    if !limits_fit(look.alloc, around, table, before, op)? {
        return Ok(Some(Rule::Limits));
    }
    Ok(None)
}

/// The least rule that an op breaks where it stands.
#[tactic(auto, unfolding(crate::specs::Verdicts::least_broken))]
pub fn least_broken(
    look: &Look,
    around: Around,
    before: &[Op],
    number: u32,
    defined: &[u32],
    op: &Op,
) -> Result<Option<Rule>, AllocError>
    requires { IsNonDecreasing defined.now }
    ensures { IfOk result (λ rule. rule ≡ verdicts.least_broken (facts_seen look.now) (record { around = around_seen around; before = before.now; number = number; defined = defined.now }) op.now) }
{
    match broken_form(look, around, number, defined, op)? {
        Some(rule) => Ok(Some(rule)),
        None => broken_statement(look, around, before, op),
    }
}
