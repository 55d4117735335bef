//! Lists of statements, declares, and the uses of allocatables.

ghost use Rattle.std.specs.Prelude.{◌≡◌};
ghost use Rattle.std.specs.List.{list_all, list_any};
ghost use Rattle.std.specs.Option.{option_copied};
ghost use Rattle.hlfir_ops.specs.RulesStatements as statements;
ghost use Rattle.hlfir_ops.specs.Rules as rules;
ghost use Rattle.rule_tests.specs.Seen.{seen};

use crate::statements::{all_declare, all_in_program, all_in_workshare, stands_in_program};
use hlfir_ops::{Op, Region, ValueId, What};
use rule_limits::declares;
use rule_tests::{Value, is_allocatable_declare, ops_in, parts, value_at};
use ws_base::Name;

/// A workshare holds assignments, where and forall, and a do_loop statements.
fn holds_statements(what: &What, regions: &[Region]) -> bool
    ensures { result ≡ rules.holds_statements what.now regions.now }
{
    match what {
        What::Workshare => all_in_workshare(ops_in(regions, 0)),
        What::DoLoop => all_in_program(ops_in(regions, 1)),
        _ => true,
    }
}

/// A declare among the first ops, or a statement.
fn follows(before: &[Op], op: &Op) -> bool
    ensures { result ≡ statements.follows before.now op.now }
{
    stands_in_program(op) || declares(op) && all_declare(before)
}

fn same_sort(a: &What, b: &What) -> bool
    ensures { result ≡ statements.same_sort a.now b.now }
{
    match (a, b) {
        (What::Allocmem { .. }, What::Allocmem { .. })
        | (What::Freemem { .. }, What::Freemem { .. })
        | (What::Read { .. }, What::Read { .. }) => true,
        _ => false,
    }
}

fn is_also(what: &What) -> bool
    ensures { result ≡ statements.is_also what.now }
{
    match what {
        What::Allocmem { also } | What::Freemem { also } | What::Read { also } => *also,
        _ => false,
    }
}

fn is_like(last: Option<&Op>, op: &Op) -> bool
    ensures { result ≡ statements.is_like (option_copied last.entry) op.now }
{
    match last {
        Some(last) => same_sort(&last.what, &op.what) && last.line == op.line,
        None => false,
    }
}

/// An op with `also` follows one of its sort and line.
fn also_follows(before: &[Op], op: &Op) -> bool
    ensures { result ≡ statements.also_follows before.now op.now }
{
    !is_also(&op.what) || is_like(before.last(), op)
}

#[tactic(auto, unfolding(hlfir_ops::specs::Rules::lists_fit))]
pub fn lists_fit(own: bool, before: &[Op], op: &Op) -> bool
    ensures { result ≡ rules.lists_fit own before.now op.now }
{
    holds_statements(&op.what, op.regions.as_slice())
        && (!own || follows(before, op))
        && also_follows(before, op)
}

fn declares_name(name: &Name, what: &What) -> bool
    ensures { result ≡ statements.declares_name name.now what.now }
{
    match what {
        What::Declare(other) => other == name,
        _ => false,
    }
}

fn is_any_named(name: &Name, ops: &[Op]) -> bool
    ensures { result ≡ list_any (statements.is_named name.now) ops.now }
{
    'each: for op in ops {
        if declares_name(name, &op.what) {
            return true;
        }
    }
    false
}

/// A declare follows declares alone, each with another name.
fn declares_first(before: &[Op], what: &What) -> bool
    ensures { result ≡ statements.declares_first before.now what.now }
{
    match what {
        What::Declare(name) => all_declare(before) && !is_any_named(name, before),
        _ => true,
    }
}

fn may_take_allocatable(what: &What) -> bool
    ensures { result ≡ statements.may_take_allocatable what.now }
{
    match what {
        What::Boxed
        | What::Allocated
        | What::Allocmem { .. }
        | What::Freemem { .. }
        | What::Yield
        | What::YieldElement => true,
        _ => false,
    }
}

fn no_allocatable(table: &[Value], vs: &[ValueId]) -> bool
    ensures { result ≡ statements.no_allocatable (seen table.now) vs.now }
{
    'each: for v in vs {
        if is_allocatable_declare(value_at(table, *v)) {
            return false;
        }
    }
    true
}

fn yield_no_allocatable(table: &[Value], regions: &[Region]) -> bool
    ensures { result ≡ list_all (statements.yields_no_allocatable (seen table.now)) regions.now }
{
    'each: for region in regions {
        if !no_allocatable(table, parts(region.ops.as_slice())) {
            return false;
        }
    }
    true
}

/// The regions yield no allocatable's declare, but as the left side of an assignment with `realloc`.
fn yields_judged(table: &[Value], what: &What, regions: &[Region]) -> bool
    ensures { result ≡ list_all (statements.yields_no_allocatable (seen table.now)) (statements.regions_judged what.now regions.now) }
{
    match (what, regions) {
        (What::Assign { realloc: true }, [right, _, more @ ..]) => {
            no_allocatable(table, parts(right.ops.as_slice())) && yield_no_allocatable(table, more)
        }
        _ => yield_no_allocatable(table, regions),
    }
}

/// What an allocatable holds is reached by its box.
fn reaches_by_box(table: &[Value], op: &Op) -> bool
    ensures { result ≡ statements.reaches_by_box (seen table.now) op.now }
{
    (may_take_allocatable(&op.what) || no_allocatable(table, op.operands.as_slice()))
        && yields_judged(table, &op.what, op.regions.as_slice())
}

/// Declares stand first, with different names, and what an allocatable holds is reached by its box.
#[tactic(auto, unfolding(hlfir_ops::specs::Rules::declares_fit))]
pub fn declares_fit(own: bool, table: &[Value], before: &[Op], op: &Op) -> bool
    ensures { result ≡ rules.declares_fit own (seen table.now) before.now op.now }
{
    (!own || declares_first(before, &op.what)) && reaches_by_box(table, op)
}
