//! Operators on single values of default INTEGER and LOGICAL (Fortran 2018, 10.1.5).

ghost use Rattle.std.specs.Prelude.{◌≡◌, ◌≢◌, ◌≤◌, pos, int_div, int_rem};
ghost use Rattle.std.specs.Int.{int_pow};
ghost use Rattle.ws_base.specs.Numbers as numbers;
ghost use Rattle.ws_base.specs.Numbers.{default_half, exact, unless_zero, power};

use ws_base::{BinOp, FaultName, UnOp, reciprocal_power};

/// The number as a default integer. Overflow where it is out of range.
pub fn in_kind(value: i128) -> Result<i64, FaultName>
    ensures { result ≡ exact default_half value }
{
    if -2_147_483_648 <= value && value <= 2_147_483_647 {
        Ok(value as i64)
    } else {
        Err(FaultName::Overflow)
    }
}

/// A truth value as 0 or 1.
pub fn truth(value: bool) -> i64
    ensures { result ≡ numbers.truth value }
{
    if value { 1 } else { 0 }
}

/// Whether a value is true. Any but 0 is.
pub fn is_true(value: i64) -> bool
    ensures { result ≡ numbers.is_true value }
{
    value != 0
}

/// A sign or `.not.` in front of a value.
pub fn unary_value(op: UnOp, a: i64) -> Result<i64, FaultName>
    ensures { result ≡ numbers.unary_value default_half op a }
{
    match op {
        UnOp::Minus => in_kind(-i128::from(a)),
        UnOp::Plus => Ok(a),
        UnOp::Not => Ok(truth(!is_true(a))),
    }
}

fn quotient(a: i64, b: i64) -> Result<i64, FaultName>
    ensures { result ≡ unless_zero default_half b (int_div a b) }
{
    if b == 0 {
        return Err(FaultName::DivideByZero);
    }
    in_kind(i128::from(a) / i128::from(b))
}

pub fn remainder(a: i64, b: i64) -> Result<i64, FaultName>
    ensures { result ≡ unless_zero default_half b (int_rem a b) }
{
    if b == 0 {
        return Err(FaultName::DivideByZero);
    }
    in_kind(i128::from(a) % i128::from(b))
}

fn floor_remainder(a: i64, b: i64) -> i64
    requires { b ≢ pos 0 }
    ensures { result ≡ numbers.floor_rem a b }
{
    let rest = a.wrapping_rem(b);
    if rest < 0 && 0 < b {
        return rest + b;
    }
    if 0 < rest && b < 0 {
        return rest + b;
    }
    rest
}

pub fn modulo(a: i64, b: i64) -> Result<i64, FaultName>
    ensures { result ≡ unless_zero default_half b (numbers.floor_rem a b) }
{
    if b == 0 {
        return Err(FaultName::DivideByZero);
    }
    in_kind(i128::from(floor_remainder(a, b)))
}

/// The power, where no base but 0, 1 and -1 has one in range.
fn great_power(a: i64, exponent: u64) -> Result<i64, FaultName>
    requires { 32 ≤ exponent }
    ensures { result ≡ exact default_half (int_pow a exponent) }
{
    let size = a.unsigned_abs();
    if size > 1 {
        Err(FaultName::Overflow)
    } else if size == 0 {
        Ok(0)
    } else if exponent % 2 == 0 {
        Ok(1)
    } else {
        Ok(a)
    }
}

fn small_power(a: i64, exponent: u32) -> Result<i64, FaultName>
    ensures { result ≡ exact default_half (int_pow a exponent) }
{
    match a.checked_pow(exponent) {
        Some(value) => in_kind(i128::from(value)),
        None => Err(FaultName::Overflow),
    }
}

fn power_of(a: i64, b: i64) -> Result<i64, FaultName>
    ensures { result ≡ power default_half a b }
{
    if b < 0 {
        let value = reciprocal_power(a, b)?;
        return Ok(i64::from(value));
    }
    let exponent = b.unsigned_abs();
    if exponent < 32 {
        small_power(a, exponent as u32)
    } else {
        great_power(a, exponent)
    }
}

/// An operator between two values.
pub fn binary_value(op: BinOp, a: i64, b: i64) -> Result<i64, FaultName>
    ensures { result ≡ numbers.binary_value default_half op a b }
{
    match op {
        BinOp::Add => in_kind(i128::from(a) + i128::from(b)),
        BinOp::Sub => in_kind(i128::from(a) - i128::from(b)),
        BinOp::Mul => in_kind(i128::from(a) * i128::from(b)),
        BinOp::Div => quotient(a, b),
        BinOp::Pow => power_of(a, b),
        BinOp::Eq => Ok(truth(a == b)),
        BinOp::Ne => Ok(truth(a != b)),
        BinOp::Lt => Ok(truth(a < b)),
        BinOp::Le => Ok(truth(a <= b)),
        BinOp::Gt => Ok(truth(a > b)),
        BinOp::Ge => Ok(truth(a >= b)),
        BinOp::And => Ok(truth(is_true(a) && is_true(b))),
        BinOp::Or => Ok(truth(is_true(a) || is_true(b))),
        BinOp::Eqv => Ok(truth(a == b)),
        BinOp::Neqv => Ok(truth(a != b)),
    }
}
