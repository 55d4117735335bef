//! Constant expressions: digit strings, named INTEGER constants, parentheses, signs, `+ - * /`.

ghost use Rattle.std.specs.Prelude.{◌≡◌, true, IsTrue};
ghost use Rattle.ws_base.specs.Numbers.{default_half, unary_value, binary_value};
ghost use Rattle.ws_types.specs.Kinds.{least_from};
ghost use Rattle.ws_types.specs.Constants as constants;

use crate::least::note;
use ws_base::{
    BinOp, FaultName, Name, Refusal, RefusalKind, UnOp, add32, div32, mul32, neg32, sub32,
};
use ws_tree::Expr;

/// A named INTEGER constant, and its value, if it has one.
#[derive(Drop)]
pub struct Constant {
    pub name: Name,
    pub value: Option<i32>,
}

/// The value of a constant expression, one without a value, or no constant expression.
#[derive(Clone, Copy)]
pub enum Constancy {
    Value(i32),
    NoValue,
    NotConstant,
}

fn known(value: Option<i32>) -> Constancy
    ensures { result ≡ constants.known value }
{
    match value {
        Some(value) => Constancy::Value(value),
        None => Constancy::NoValue,
    }
}

fn constant_of(table: &[Constant], name: &Name) -> Constancy
    ensures { result ≡ constants.constant_of table.now name.now }
{
    'each: for constant in table {
        if constant.name == *name {
            return known(constant.value);
        }
    }
    Constancy::NotConstant
}

fn of_exact(value: Result<i32, FaultName>) -> Constancy
    ensures { result ≡ constants.of_exact value }
{
    match value {
        Ok(value) => Constancy::Value(value),
        Err(_) => Constancy::NoValue,
    }
}

fn with_sign(op: UnOp, value: i32) -> Result<i32, FaultName>
    requires { IsTrue (constants.is_sign op) }
    ensures { result ≡ unary_value default_half op value }
{
    match op {
        UnOp::Minus => neg32(value),
        _ => Ok(value),
    }
}

/// A sign in front of a constant expression.
pub fn signed(op: UnOp, operand: Constancy) -> Constancy
    requires { IsTrue (constants.is_sign op) }
    ensures { result ≡ constants.signed op operand }
{
    match operand {
        Constancy::Value(value) => of_exact(with_sign(op, value)),
        other => other,
    }
}

fn operated(op: BinOp, a: i32, b: i32) -> Result<i32, FaultName>
    requires { IsTrue (constants.is_arithmetic op) }
    ensures { result ≡ binary_value default_half op a b }
{
    match op {
        BinOp::Add => add32(a, b),
        BinOp::Sub => sub32(a, b),
        BinOp::Mul => mul32(a, b),
        _ => div32(a, b),
    }
}

/// An operator between constant expressions.
pub fn joined(op: BinOp, a: Constancy, b: Constancy) -> Constancy
    requires { IsTrue (constants.is_arithmetic op) }
    ensures { result ≡ constants.joined op a b }
{
    match (a, b) {
        (Constancy::Value(a), Constancy::Value(b)) => of_exact(operated(op, a, b)),
        (Constancy::NotConstant, _) => Constancy::NotConstant,
        (_, Constancy::NotConstant) => Constancy::NotConstant,
        _ => Constancy::NoValue,
    }
}

/// An operator in front of an operand of constant expressions.
pub fn is_sign(op: UnOp) -> bool
    ensures { result ≡ constants.is_sign op }
{
    match op {
        UnOp::Minus | UnOp::Plus => true,
        UnOp::Not => false,
    }
}

/// An operator between operands of constant expressions.
pub fn is_arithmetic(op: BinOp) -> bool
    ensures { result ≡ constants.is_arithmetic op }
{
    matches!(op, BinOp::Add | BinOp::Sub | BinOp::Mul | BinOp::Div)
}

fn number(n: u32) -> Constancy
    ensures { result ≡ constants.number_constancy n }
{
    if n <= 2_147_483_647 {
        Constancy::Value(n as i32)
    } else {
        Constancy::NoValue
    }
}

/// The value of a constant expression. It has none where a divisor is 0 or an intermediate value is out of range.
#[tactic(auto, unfolding(ws_tree::specs::Opened::trees_open))]
pub fn evaluate(table: &[Constant], e: &Expr) -> Constancy
    ensures { result ≡ constants.constancy table.now e.now }
{
    match e {
        Expr::Number(n) => number(*n),
        Expr::TooWide | Expr::TooDeep => Constancy::NoValue,
        Expr::Named(name) => constant_of(table, name),
        Expr::Paren(e) => evaluate(table, e.get()),
        Expr::Unary(op, e) => {
            if is_sign(*op) {
                signed(*op, evaluate(table, e.get()))
            } else {
                Constancy::NotConstant
            }
        }
        Expr::Binary(op, a, b) => {
            if is_arithmetic(*op) {
                joined(*op, evaluate(table, a.get()), evaluate(table, b.get()))
            } else {
                Constancy::NotConstant
            }
        }
        Expr::Truth(_) | Expr::Part(..) | Expr::Call(..) | Expr::Vector(_) => {
            Constancy::NotConstant
        }
    }
}

/// The value of a LOGICAL constant is a literal.
pub fn truth_constancy(e: &Expr) -> Constancy
    ensures { result ≡ constants.truth_constancy e.now }
{
    match e {
        Expr::Truth(value) => Constancy::Value(i32::from(*value)),
        Expr::TooDeep => Constancy::NoValue,
        _ => Constancy::NotConstant,
    }
}

fn is_no_constant(value: Constancy) -> bool
    ensures { result ≡ constants.is_no_constant value }
{
    matches!(value, Constancy::NotConstant)
}

fn has_no_value(value: Constancy) -> bool
    ensures { result ≡ constants.has_no_value value }
{
    matches!(value, Constancy::NoValue)
}

pub fn value_of(value: Constancy) -> Option<i32>
    ensures { result ≡ constants.value_of value }
{
    match value {
        Constancy::Value(value) => Some(value),
        _ => None,
    }
}

/// A bound or a constant's value is a constant expression, and has a value.
#[tactic(auto, using(crate::proofs::Appended::least_rules), unfolding(crate::specs::Constants::constant_faults))]
pub fn check_constant(found: &mut Option<Refusal>, line: u32, value: Constancy)
    ensures { found.new ≡ least_from found.old (constants.constant_faults line value) }
{
    note(found, is_no_constant(value), line, RefusalKind::Unsupported);
    note(found, has_no_value(value), line, RefusalKind::OverLimit);
}
