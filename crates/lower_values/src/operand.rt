//! What stands for an expression once its ops are appended.

use hlfir_ops::{ValueId, ValueKind};

/// A value, by its number and kind.
#[derive(Clone, Copy, Debug, PartialEq, Eq)]
pub struct Operand {
    pub value: ValueId,
    pub kind: ValueKind,
}

/// What a designate takes of one dimension.
#[derive(Clone, Copy, Debug, PartialEq, Eq)]
pub enum Subscript {
    One(ValueId),
    Range { l: ValueId, u: ValueId, s: ValueId },
    Vector(ValueId),
}
