//! Reductions of lists of values (Fortran 2018, 16.9).

ghost use Rattle.std.specs.Prelude.{◌≡◌, ◌≤◌, ◌<◌, ◌^◌, ◌*ℤ◌, ℤ, length, unsigned_abs};
ghost use Rattle.std.specs.List.{list_any, list_all};
ghost use Rattle.ws_base.specs.Numbers as numbers;
ghost use Rattle.ws_base.specs.Numbers.{default_half, exact};

use crate::calls::{greatest, least};
use crate::operators::{in_kind, is_true, truth};
use ws_base::{CallWord, FaultName};

const LEAST: i64 = -2_147_483_648;

const GREATEST: i64 = 2_147_483_647;

/// A number past the range, which stands for any other.
const PAST: i128 = 2_147_483_649;

/// The exact sum, which a list of these values cannot take out of the numbers of 128 bits.
fn sum(values: &[i64]) -> i128
    ensures { result ≡ numbers.sum_of values.now }
{
    let mut sum: i128 = 0;
    for value in values {
        sum += i128::from(*value);
    }
    sum
}

/// A number in whose place this one may stand as a factor.
fn clamped(value: i128) -> i128
    ensures within { unsigned_abs result ≤ 2147483649 }
    ensures same { (factor : ℤ) → exact default_half (result *ℤ factor) ≡ exact default_half (value *ℤ factor) }
{
    if value.unsigned_abs() > 2_147_483_648 {
        PAST
    } else {
        value
    }
}

/// `product * value`, or a number that may stand in its place.
fn times(product: i128, value: i64) -> i128
    requires { unsigned_abs product ≤ 2147483649 }
    ensures within { unsigned_abs result ≤ 2147483649 }
    ensures same { (factor : ℤ) → exact default_half (result *ℤ factor) ≡ exact default_half (product *ℤ value *ℤ factor) }
{
    clamped(product * i128::from(value))
}

// A magnitude past the range is kept as one, since a later 0 makes it 0, and nothing else brings it back.
fn product(values: &[i64]) -> Result<i64, FaultName>
    ensures { result ≡ exact default_half (numbers.product_of values.now) }
{
    let mut product: i128 = 1;
    for value in values {
        product = times(product, *value);
    }
    in_kind(product)
}

fn count(values: &[i64]) -> usize
    ensures value { result ≡ numbers.count_of values.now }
    ensures within { result ≤ length values.now }
{
    let mut count: usize = 0;
    for value in values {
        if is_true(*value) {
            count += 1;
        }
    }
    count
}

fn is_any_true(values: &[i64]) -> bool
    ensures { result ≡ list_any numbers.is_true values.now }
{
    for value in values {
        if is_true(*value) {
            return true;
        }
    }
    false
}

fn is_all_true(values: &[i64]) -> bool
    ensures { result ≡ list_all numbers.is_true values.now }
{
    for value in values {
        if !is_true(*value) {
            return false;
        }
    }
    true
}

/// The reduction of all values of its argument, each with its value for none: 0, 1, the greatest INTEGER, the least, 0, false and
/// true. SUM and PRODUCT are Overflow exactly where the exact total is out of range. Any other word gives 0.
pub fn reduction(word: CallWord, values: &[i64]) -> Result<i64, FaultName>
    requires { length values.now < 2 ^ 63 }
    ensures { result ≡ numbers.reduction default_half word values.now }
{
    match word {
        CallWord::Sum => in_kind(sum(values)),
        CallWord::Product => product(values),
        CallWord::Minval => Ok(least(GREATEST, values)),
        CallWord::Maxval => Ok(greatest(LEAST, values)),
        CallWord::Count => Ok(count(values) as i64),
        CallWord::Any => Ok(truth(is_any_true(values))),
        CallWord::All => Ok(truth(is_all_true(values))),
        _ => Ok(0),
    }
}
