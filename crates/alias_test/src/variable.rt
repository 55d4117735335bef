//! The variable to which a value refers.

ghost use Rattle.std.specs.Prelude.{◌≡◌};
ghost use Rattle.hlfir_ops.specs.declared.op.Op.{out-Op};
ghost use Rattle.alias_test.specs.Givers.{ops_at};
ghost use Rattle.alias_test.specs.Givers as givers;

use crate::table::giver;
use hlfir_ops::{Op, ValueId, What};

/// What this op holds, which gives the value, where it is a box of an earlier value.
fn held_by(op: &Op, v: ValueId) -> Option<ValueId>
    ensures { result ≡ givers.held_by (out-Op op.now).what (out-Op op.now).operands v.number }
{
    match &op.what {
        What::Boxed => match op.operands.as_slice() {
            [held, ..] => {
                if held.number < v.number {
                    Some(*held)
                } else {
                    None
                }
            }
            [] => None,
        },
        _ => None,
    }
}

/// What the box holds, where the value is a box of an earlier one.
fn held_at(table: &[&Op], v: ValueId) -> Option<ValueId>
    ensures { result ≡ givers.held_at (ops_at table.now) v.number }
{
    held_by(giver(table, v)?, v)
}

/// The declare of the variable to which this value refers, under however many boxes.
pub fn variable_of(table: &[&Op], v: ValueId) -> u32
    ensures { result ≡ givers.variable_of (ops_at table.now) v.number }
{
    let mut at = v;
    'boxes: while let Some(held) = held_at(table, at) {
        at = held;
    }
    at.number
}
