//! The subscripts that a triplet selects (Fortran 2018, 9.5.3.3.1).

ghost use Rattle.std.specs.Prelude.{◌≡◌, ◌≢◌, pos, ◌+ℤ◌, ◌-ℤ◌, int_div, length, MatchResult};
ghost use Rattle.ws_space.specs.Shapes as shapes;
ghost use Rattle.ws_space.specs.Subscripts.{selected};

use crate::shape::Triplet;
use ws_base::FaultName;

/// How many subscripts `l:u:s` selects. ZeroStride where `s` is 0.
pub fn count(triplet: &Triplet) -> Result<u64, FaultName>
    ensures listed { MatchResult result (λ n. (triplet.now.s ≢ pos 0) × (n ≡ length (selected triplet.now))) (λ fault. (triplet.now.s ≡ pos 0) × (fault ≡ FaultName.ZeroStride)) }
    ensures count { MatchResult result (λ n. n ≡ shapes.count triplet.now) (λ fault. triplet.now.s ≡ pos 0) }
{
    if triplet.s == 0 {
        return Err(FaultName::ZeroStride);
    }
    Ok(or_zero(steps(triplet)))
}

/// `(u - l + s) / s`, truncated toward zero.
fn steps(triplet: &Triplet) -> i64
    requires { triplet.now.s ≢ pos 0 }
    ensures { result ≡ int_div (triplet.now.u -ℤ triplet.now.l +ℤ triplet.now.s) triplet.now.s }
{
    let stride = i64::from(triplet.s);
    (i64::from(triplet.u) - i64::from(triplet.l) + stride) / stride
}

fn or_zero(value: i64) -> u64
    ensures { result ≡ shapes.natural value }
{
    if value < 0 { 0 } else { value.unsigned_abs() }
}
