//! The scalar operations of acts on registers of 64 bits: each is an operator or an elemental call (Fortran 2018, 10.1.5 and 16.9).

ghost use Rattle.std.specs.Prelude.{◌≡◌};
ghost use Rattle.ws_base.specs.Numbers.{default_half};
ghost use Rattle.phase_ops.specs.Scalars.{one_value, scalar_value};

use phase_ops::{OneOp, ScalarOp};
use value_ops::{call_value, in_kind, truth};
use ws_base::{BinOp, CallWord, FaultName, UnOp};

/// An operation on one value.
pub fn unary_value(op: OneOp, a: i64) -> Result<i64, FaultName>
    ensures { result ≡ one_value default_half op a }
{
    match op {
        OneOp::Minus => value_ops::unary_value(UnOp::Minus, a),
        OneOp::Plus => value_ops::unary_value(UnOp::Plus, a),
        OneOp::Not => value_ops::unary_value(UnOp::Not, a),
        OneOp::Abs => call_value(CallWord::Abs, &[a]),
    }
}

/// An operation on two values.
#[inline(always)]
pub fn binary_value(op: ScalarOp, a: i64, b: i64) -> Result<i64, FaultName>
    ensures { result ≡ scalar_value default_half op a b }
{
    match op {
        ScalarOp::Add => in_kind(i128::from(a) + i128::from(b)),
        ScalarOp::Sub => in_kind(i128::from(a) - i128::from(b)),
        ScalarOp::Mul => in_kind(i128::from(a) * i128::from(b)),
        ScalarOp::Div => value_ops::binary_value(BinOp::Div, a, b),
        ScalarOp::Pow => value_ops::binary_value(BinOp::Pow, a, b),
        ScalarOp::Eq => Ok(truth(a == b)),
        ScalarOp::Ne => Ok(truth(a != b)),
        ScalarOp::Lt => Ok(truth(a < b)),
        ScalarOp::Le => Ok(truth(a <= b)),
        ScalarOp::Gt => Ok(truth(a > b)),
        ScalarOp::Ge => Ok(truth(a >= b)),
        ScalarOp::And => value_ops::binary_value(BinOp::And, a, b),
        ScalarOp::Or => value_ops::binary_value(BinOp::Or, a, b),
        ScalarOp::Eqv => value_ops::binary_value(BinOp::Eqv, a, b),
        ScalarOp::Neqv => value_ops::binary_value(BinOp::Neqv, a, b),
        ScalarOp::Mod => call_value(CallWord::Mod, &[a, b]),
        ScalarOp::Modulo => call_value(CallWord::Modulo, &[a, b]),
        ScalarOp::Min => call_value(CallWord::Min, &[a, b]),
        ScalarOp::Max => call_value(CallWord::Max, &[a, b]),
    }
}
