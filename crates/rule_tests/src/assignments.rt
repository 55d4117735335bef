//! What the regions of an op yield, and the sides of an assignment.

ghost use Rattle.std.specs.Prelude.{◌≡◌};
ghost use Rattle.hlfir_ops.specs.RulesStatements as statements;
ghost use Rattle.hlfir_ops.specs.Rules as rules;
ghost use Rattle.rule_tests.specs.Seen.{seen};

use crate::regions::{
    ops_in, parts_in, yields_element, yields_header, yields_item, yields_pairs, yields_target,
    yields_triplet, yields_truth, yields_value,
};
use crate::value::{Value, first_kind, first_value, is_allocatable_declare};
use hlfir_ops::{Region, ValueKind, What, elem_of, rank_of, same_elem};

/// A region that yields ends with a yield of its form.
#[tactic(auto, unfolding(hlfir_ops::specs::Rules::yields_of))]
pub fn yields_fit(table: &[Value], what: &What, regions: &[Region]) -> bool
    ensures { result ≡ rules.yields_of (seen table.now) what.now regions.now }
{
    let first = ops_in(regions, 0);
    match what {
        What::Assign { .. } => yields_value(table, first)
            && yields_target(table, ops_in(regions, 1)),
        What::Masked => yields_value(table, first),
        What::Elsewhere => regions.len() == 1 || yields_value(table, first),
        What::Forall(names) => yields_header(table, names.as_slice(), first),
        What::ForallMask => yields_truth(table, first),
        What::DoLoop => yields_triplet(table, first),
        What::Allocmem { .. } => yields_pairs(table, first),
        What::Read { .. } => yields_item(table, first),
        What::Elemental => yields_element(table, first),
        _ => true,
    }
}

fn sides_agree(right: Option<ValueKind>, left: Option<ValueKind>) -> bool
    ensures { result ≡ statements.sides_agree right left }
{
    match (right, left) {
        (Some(right), Some(left)) => {
            same_elem(elem_of(right), elem_of(left))
                && (rank_of(right) == 0 || rank_of(right) == rank_of(left))
        }
        _ => false,
    }
}

/// The right side is a scalar or has the left side's rank, and has its type.
#[tactic(auto, unfolding(hlfir_ops::specs::Rules::sides_of))]
pub fn sides_fit(table: &[Value], what: &What, regions: &[Region]) -> bool
    ensures { result ≡ rules.sides_of (seen table.now) what.now regions.now }
{
    match what {
        What::Assign { .. } => sides_agree(
            first_kind(table, parts_in(regions, 0)),
            first_kind(table, parts_in(regions, 1)),
        ),
        _ => true,
    }
}

/// `realloc` stands where the left side is an allocatable's declare, outside where and forall.
#[tactic(auto, unfolding(hlfir_ops::specs::Rules::realloc_of))]
pub fn realloc_fits(masked: bool, table: &[Value], what: &What, regions: &[Region]) -> bool
    ensures { result ≡ rules.realloc_of masked (seen table.now) what.now regions.now }
{
    match what {
        What::Assign { realloc } => {
            let movable = !masked
                && is_allocatable_declare(first_value(table, parts_in(regions, 1)));
            if *realloc { movable } else { !movable }
        }
        _ => true,
    }
}
