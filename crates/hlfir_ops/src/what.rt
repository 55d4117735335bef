//! What an op does.

ghost use Rattle.std.specs.Prelude.{◌≡◌};
ghost use Rattle.hlfir_ops.specs.Sorts as sorts;

use crate::sorts::{is_elsewhere, is_statement};
use sqlite_items::Items;
use ws_base::Name;

pub type NameList = Items<Name>;

pub type SubKindList = Items<SubKind>;

/// What an op does. `Masked` is WHERE, and `Boxed` the reference to an allocatable's array. `also` stands in an op whose statement has
/// given one before it. A truth constant is 0 or 1.
#[derive(Debug, Drop)]
pub enum What {
    Declare(Name),
    Assign { realloc: bool },
    Masked,
    Elsewhere,
    Forall(NameList),
    ForallMask,
    Workshare,
    DoLoop,
    Allocmem { also: bool },
    Freemem { also: bool },
    Read { also: bool },
    Yield,
    YieldElement,
    Constant(i64),
    Unary(ValueUnary),
    Binary(ValueBinary),
    Select,
    Load,
    Boxed,
    Bound { word: BoundWord, dim: u32 },
    Size,
    Allocated,
    Designate(SubKindList),
    Vector,
    AsExpr,
    Elemental,
    Apply,
    Reduce(Reduction),
}

impl What {
    /// An op of this sort has a line of its own. Any other has that of the nearest op around it that has one.
    pub fn has_line(&self) -> bool
        ensures { result ≡ sorts.has_line self.now }
    {
        is_statement(self) || is_elsewhere(self)
    }
}

/// An operation of one operand.
#[derive(Clone, Copy, Debug, PartialEq, Eq)]
pub enum ValueUnary {
    Neg,
    Abs,
    Not,
}

/// An operation of two operands.
#[derive(Clone, Copy, Debug, PartialEq, Eq)]
pub enum ValueBinary {
    Add,
    Sub,
    Mul,
    Div,
    Min,
    Max,
    Pow,
    Mod,
    Modulo,
    Eq,
    Ne,
    Lt,
    Le,
    Gt,
    Ge,
    And,
    Or,
    Eqv,
    Neqv,
}

/// A bound of one dimension: as the array keeps it, or as LBOUND and UBOUND give it; or its extent.
#[derive(Clone, Copy, Debug, PartialEq, Eq)]
pub enum BoundWord {
    Lower,
    Upper,
    Lbound,
    Ubound,
    Extent,
}

/// What one dimension of a designator takes: one operand, the three of a triplet, or a vector.
#[derive(Clone, Copy, Debug, PartialEq, Eq)]
pub enum SubKind {
    One,
    Range,
    Vector,
}

/// A reduction of an array.
#[derive(Clone, Copy, Debug, PartialEq, Eq)]
pub enum Reduction {
    Sum,
    Product,
    Minval,
    Maxval,
    Count,
    Any,
    All,
}
