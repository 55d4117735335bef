//! What steps write.

ghost use Rattle.std.specs.Prelude.{◌≡◌, IfOk, IfSome};
ghost use Rattle.hlfir_ops.specs.declared.op.Op.{out-Op};
ghost use Rattle.hlfir_ops.specs.RulesRegions.{parts_in};
ghost use Rattle.alias_test.specs.Normal.{designator_at};
ghost use Rattle.assign_schedule.specs.Looks.{givers_seen};
ghost use Rattle.assign_schedule.specs.Parts.{IsPart};
ghost use Rattle.assign_schedule.specs.Seen.{items_seen};
ghost use Rattle.assign_schedule.specs.Steps as made;
ghost use Rattle.assign_schedule.specs.Targets.{IsTarget};

use crate::item::Item;
use crate::kinds::{giver_of, is_part_of_array, ops_in, parts};
use crate::look::Look;
use crate::steps::assigns;
use alias_test::{Designator, designator_in};
use hlfir_ops::{Op, ValueId};
use std::alloc::AllocError;

/// The first of these values, where that is an array, a section or an element.
fn written(look: &Look, vs: &[ValueId]) -> Option<ValueId>
    ensures same { result ≡ made.written (givers_seen look.now) vs.now }
    ensures part { IfSome result (λ v. IsPart (givers_seen look.now) v.number) }
{
    match vs {
        [] => None,
        [first, ..] => {
            if is_part_of_array(giver_of(look, *first)) {
                Some(*first)
            } else {
                None
            }
        }
    }
}

/// What the left side of an assignment yields.
pub fn left_side(op: &Op) -> &[ValueId]
    ensures { result.now ≡ parts_in (out-Op op.now).regions 1 }
{
    parts(ops_in(op.regions.as_slice(), 1))
}

/// The left side of an assignment, where that is no scalar variable.
pub fn target_of(look: &Look, op: &Op) -> Option<ValueId>
    ensures same { result ≡ made.target_of (givers_seen look.now) op.now }
    ensures part { IfSome result (λ v. IsPart (givers_seen look.now) v.number) }
{
    written(look, left_side(op))
}

/// What the step writes. A step without an assignment writes nothing.
pub fn write_of(look: &Look, step: &[Item]) -> Option<ValueId>
    ensures same { result ≡ made.write_of (givers_seen look.now) (items_seen step.now) }
    ensures part { IfSome result (λ v. IsPart (givers_seen look.now) v.number) }
{
    'each: for item in step {
        if assigns(item.op) {
            return target_of(look, item.op);
        }
    }
    None
}

/// The designator of a target.
pub fn target_at(look: &Look, v: ValueId) -> Result<Designator, AllocError>
    requires { IsPart (givers_seen look.now) v.number }
    ensures same { IfOk result (λ target. target ≡ designator_at (givers_seen look.now) v.number) }
    ensures target { IfOk result (IsTarget (givers_seen look.now)) }
{
    let target = designator_in(look.alloc, look.givers.as_slice(), v)?;
    Ok(target)
}
