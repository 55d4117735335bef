//! Elemental calls on single values (Fortran 2018, 16.9).

ghost use Rattle.std.specs.Prelude.{◌≡◌};
ghost use Rattle.ws_base.specs.Numbers as numbers;
ghost use Rattle.ws_base.specs.Numbers.{default_half};

use crate::operators::{in_kind, is_true, modulo, remainder};
use ws_base::{CallWord, FaultName};

/// The least of these values.
pub fn least(first: i64, more: &[i64]) -> i64
    ensures { result ≡ numbers.least first more.now }
{
    let mut least = first;
    for value in more {
        least = if least <= *value { least } else { *value };
    }
    least
}

/// The greatest of these values.
pub fn greatest(first: i64, more: &[i64]) -> i64
    ensures { result ≡ numbers.greatest first more.now }
{
    let mut greatest = first;
    for value in more {
        greatest = if greatest <= *value { *value } else { greatest };
    }
    greatest
}

/// An elemental call on the values of its arguments. Any other word, or number of arguments, gives 0.
pub fn call_value(word: CallWord, values: &[i64]) -> Result<i64, FaultName>
    ensures { result ≡ numbers.call_value default_half word values.now }
{
    match (word, values) {
        (CallWord::Abs, [a]) => in_kind(i128::from(*a).abs()),
        (CallWord::Mod, [a, b]) => remainder(*a, *b),
        (CallWord::Modulo, [a, b]) => modulo(*a, *b),
        (CallWord::Min, [first, more @ ..]) => Ok(least(*first, more)),
        (CallWord::Max, [first, more @ ..]) => Ok(greatest(*first, more)),
        (CallWord::Merge, [yes, no, mask]) => Ok(if is_true(*mask) { *yes } else { *no }),
        _ => Ok(0),
    }
}
