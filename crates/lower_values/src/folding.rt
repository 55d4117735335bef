//! Constant expressions on the way up: a constant that has no op yet may still become part of a larger one.

ghost use Rattle.std.specs.Prelude.{◌≡◌, pos, IfOk, IsTrue};
ghost use Rattle.ws_base.specs.Numbers.{default_half, binary_value};
ghost use Rattle.ws_types.specs.declared.constant.Constancy.TheVariants.{Value};
ghost use Rattle.ws_types.specs.Constants as constants;

use crate::operand::Operand;
use ws_base::{BinOp, FaultName, UnOp, add32, div32, mul32, neg32, sub32};
use ws_types::Constancy;

/// What a walk leaves of an expression: the value of a constant one, for which no op stands yet, or an operand.
#[derive(Clone, Copy)]
pub enum Reached {
    Known(i32),
    Given(Operand),
}

fn negated(value: i32) -> Option<i32>
    ensures { result ≡ constants.value_of (constants.signed UnOp.Minus (Value value)) }
{
    match neg32(value) {
        Ok(value) => Some(value),
        Err(_) => None,
    }
}

/// The value under a sign, if it has one.
pub fn signed_value(op: UnOp, value: i32) -> Option<i32>
    requires { IsTrue (constants.is_sign op) }
    ensures { result ≡ constants.value_of (constants.signed op (Value value)) }
{
    match op {
        UnOp::Minus => negated(value),
        _ => Some(value),
    }
}

/// An operator in front of an operand of constant expressions.
pub fn is_sign(op: UnOp) -> bool
    ensures { result ≡ constants.is_sign op }
{
    match op {
        UnOp::Minus | UnOp::Plus => true,
        UnOp::Not => false,
    }
}

/// An operator between operands of constant expressions.
pub fn is_arithmetic(op: BinOp) -> bool
    ensures { result ≡ constants.is_arithmetic op }
{
    match op {
        BinOp::Add | BinOp::Sub | BinOp::Mul | BinOp::Div => true,
        _ => false,
    }
}

fn operated(op: BinOp, a: i32, b: i32) -> Result<i32, FaultName>
    requires { IsTrue (constants.is_arithmetic op) }
    ensures { result ≡ binary_value default_half op a b }
{
    match op {
        BinOp::Add => add32(a, b),
        BinOp::Sub => sub32(a, b),
        BinOp::Mul => mul32(a, b),
        _ => div32(a, b),
    }
}

/// The value of an operator between operands of which the first has one, if it has one.
pub fn joined_value(op: BinOp, a: i32, b: Constancy) -> Option<i32>
    requires { IsTrue (constants.is_arithmetic op) }
    ensures { result ≡ constants.value_of (constants.joined op (Value a) b) }
{
    match b {
        Constancy::Value(b) => match operated(op, a, b) {
            Ok(value) => Some(value),
            Err(_) => None,
        },
        _ => None,
    }
}
