//! The types and ranks of kinds, operands and results.

ghost use Rattle.std.specs.Prelude.{◌≡◌};
ghost use Rattle.hlfir_ops.specs.RulesForms as forms;
ghost use Rattle.hlfir_ops.specs.RulesValues as values;

use crate::kinds::{Elem, ValueKind};
use crate::what::{Reduction, ValueBinary, ValueUnary};

pub fn same_elem(a: Elem, b: Elem) -> bool
    ensures { result ≡ values.same_elem a b }
{
    match (a, b) {
        (Elem::I32, Elem::I32) | (Elem::I1, Elem::I1) => true,
        (Elem::I32, Elem::I1) | (Elem::I1, Elem::I32) => false,
    }
}

pub fn elem_of(kind: ValueKind) -> Elem
    ensures { result ≡ values.elem_of kind }
{
    match kind {
        ValueKind::Scalar(elem) | ValueKind::Place(elem) => elem,
        ValueKind::Declared { elem, .. } => elem,
        ValueKind::Allocatable { elem, .. } => elem,
        ValueKind::Section { elem, .. } => elem,
        ValueKind::Array { elem, .. } => elem,
    }
}

pub fn rank_of(kind: ValueKind) -> u32
    ensures { result ≡ values.rank_of kind }
{
    match kind {
        ValueKind::Scalar(_) | ValueKind::Place(_) => 0,
        ValueKind::Declared { shape, .. } => shape.rank,
        ValueKind::Allocatable { rank, .. } => rank,
        ValueKind::Section { rank, .. } => rank,
        ValueKind::Array { rank, .. } => rank,
    }
}

/// The type of the operand and the result.
pub fn unary_elem(op: ValueUnary) -> Elem
    ensures { result ≡ forms.unary_elem op }
{
    match op {
        ValueUnary::Neg | ValueUnary::Abs => Elem::I32,
        ValueUnary::Not => Elem::I1,
    }
}

/// The type of both operands.
pub fn operand_elem(op: ValueBinary) -> Elem
    ensures { result ≡ forms.operand_elem op }
{
    match op {
        ValueBinary::And | ValueBinary::Or | ValueBinary::Eqv | ValueBinary::Neqv => Elem::I1,
        ValueBinary::Add
        | ValueBinary::Sub
        | ValueBinary::Mul
        | ValueBinary::Div
        | ValueBinary::Min
        | ValueBinary::Max
        | ValueBinary::Pow
        | ValueBinary::Mod
        | ValueBinary::Modulo
        | ValueBinary::Eq
        | ValueBinary::Ne
        | ValueBinary::Lt
        | ValueBinary::Le
        | ValueBinary::Gt
        | ValueBinary::Ge => Elem::I32,
    }
}

/// A comparison gives a truth value, and any other operation what it takes.
pub fn result_elem(op: ValueBinary) -> Elem
    ensures { result ≡ forms.result_elem op }
{
    match op {
        ValueBinary::Eq
        | ValueBinary::Ne
        | ValueBinary::Lt
        | ValueBinary::Le
        | ValueBinary::Gt
        | ValueBinary::Ge => Elem::I1,
        _ => operand_elem(op),
    }
}

/// The type of what is reduced.
pub fn reduced_elem(reduction: Reduction) -> Elem
    ensures { result ≡ forms.reduced_elem reduction }
{
    match reduction {
        Reduction::Sum | Reduction::Product | Reduction::Minval | Reduction::Maxval => Elem::I32,
        Reduction::Count | Reduction::Any | Reduction::All => Elem::I1,
    }
}

/// COUNT gives a number, and any other reduction what it takes.
pub fn total_elem(reduction: Reduction) -> Elem
    ensures { result ≡ forms.total_elem reduction }
{
    match reduction {
        Reduction::Count => Elem::I32,
        _ => reduced_elem(reduction),
    }
}
