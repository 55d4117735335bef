//! The check of a tree.

ghost use Rattle.std.specs.Prelude.{◌≡◌, [], IfOk, IfErr, MatchOption};
ghost use Rattle.ws_tree.specs.Grammatical.{IsGrammatical};
ghost use Rattle.ws_types.specs.Kinds.{IsLeast};
ghost use Rattle.ws_sema.specs.Checks.{rule_faults, IsAccepted, IsCheckEnd};
ghost use Rattle.ws_sema.specs.Declarations.{constants_after, table_of};

use crate::checked::{CheckEnd, Checked, accept};
use crate::decl::{check_decls, table_of};
use crate::walk::stmts;
use crate::within::Within;
use std::alloc::{AllocError, Global};
use ws_base::Refusal;
use ws_counts::check_limits;
use ws_tree::Tree;
use ws_types::{Constant, Row};

/// The first fault of a tree, if it has one, and what is known of its names.
#[derive(Drop)]
struct Findings {
    first: Option<Refusal>,
    table: Vec<Row>,
    constants: Vec<Constant>,
}

fn judge(alloc: Global, tree: &Tree) -> Result<Findings, AllocError>
    ensures first { IfOk result (λ findings. MatchOption findings.first (rule_faults tree.now ≡ []) (λ refusal. IsLeast refusal (rule_faults tree.now))) }
    ensures table { IfOk result (λ findings. findings.table.items ≡ table_of tree.now.decls) }
    ensures constants { IfOk result (λ findings. findings.constants.items ≡ constants_after [] tree.now.decls) }
{
    let mut first = None;
    let constants = check_decls(alloc, &mut first, tree.decls.as_slice())?;
    let table = table_of(alloc, tree.decls.as_slice())?;
    stmts(
        alloc,
        &mut first,
        table.as_slice(),
        Within::Outside,
        tree.body.as_slice(),
    )?;
    check_limits(alloc, &mut first, table.as_slice(), tree.body.as_slice())?;
    Ok(Findings {
        first,
        table,
        constants,
    })
}

/// The first line of a tree, of any form, at which a rule is broken, with the least kind there; None exactly where none is.
pub fn first_fault(alloc: Global, tree: &Tree) -> Result<Option<Refusal>, AllocError>
    ensures { IfOk result (λ found. MatchOption found (rule_faults tree.now ≡ []) (λ refusal. IsLeast refusal (rule_faults tree.now))) }
{
    let findings = judge(alloc, tree)?;
    Ok(findings.first)
}

/// Keeps a tree that breaks no rule, and refuses every other one, at the first line at which a rule is broken and with
/// the least kind there. Memory comes for want of memory alone.
pub fn check(alloc: Global, tree: Tree) -> Result<Checked, CheckEnd>
    requires { IsGrammatical tree }
    ensures same { IfOk result (λ checked. checked ≡ tree) }
    ensures accepted { IfOk result (λ checked. IsAccepted checked) }
    ensures refused { IfErr result (λ end. IsCheckEnd tree end) }
{
    let findings = judge(alloc, &tree)?;
    match findings.first {
        Some(refusal) => Err(CheckEnd::Refused(refusal)),
        None => Ok(accept(tree, findings.table, findings.constants)),
    }
}
