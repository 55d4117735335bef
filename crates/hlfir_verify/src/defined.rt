//! Operands and the values that are defined.

ghost use Rattle.std.specs.Prelude.{◌≡◌, ℕ, ◌<◌, List, length, min, slice_index, count_by, ◌==◌, IfOk};
ghost use Rattle.std.specs.List.{list_all};
ghost use Rattle.std.specs.List.Sorted.{IsNonDecreasing};
ghost use Rattle.hlfir_ops.specs.Rules as rules;
ghost use Rattle.rule_tests.specs.Uses.{AreUses};

use hlfir_ops::{ValueId, ValueKind};
use rule_tests::is_expression;
use std::alloc::AllocError;

fn is_in(defined: &[u32], number: u32) -> bool
    requires { IsNonDecreasing defined.now }
    ensures { result ≡ rules.is_in defined.now number }
{
    defined.binary_search(&number).is_ok()
}

/// Each operand is a value that is defined.
#[tactic(auto, unfolding(hlfir_ops::specs::Rules::are_defined))]
pub fn are_defined(defined: &[u32], operands: &[ValueId]) -> bool
    requires { IsNonDecreasing defined.now }
    ensures { result ≡ rules.are_defined defined.now operands.now }
{
    'each: for v in operands {
        if !is_in(defined, v.number) {
            return false;
        }
    }
    true
}

/// The value of an array expression is used once. The table has each number of a value, so that it is no want of memory.
#[tactic(auto, unfolding(hlfir_ops::specs::Rules::is_used_once))]
pub fn is_used_once(uses: &[u8], number: u32, kind: Option<ValueKind>) -> Result<bool, AllocError>
    ensures { IfOk result (λ b. (used : List ℕ) → AreUses uses.now used → b ≡ rules.is_used_once used number kind) }
{
    if !is_expression(kind) {
        return Ok(true);
    }
    let number = number as usize;
    if uses.len() <= number {
        return Err(AllocError);
    }
    Ok(uses[number] == 1)
}
