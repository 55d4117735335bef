//! Multiples of one step that another step divides, after a distance.

ghost use Rattle.std.specs.Prelude.{◌+◌, ◌*◌, ◌<◌, ◌%◌, ◌-◌, ◌≡◌, ℕ, MatchOption};
ghost use Rattle.std.specs.Int.{◌∣◌, IsGcd};
ghost use Rattle.alias_test.specs.Runs.{Reaches, IsLeastReach};

/// The greatest common divisor of a step and another one, and how often the other one makes the divisor's negative, modulo the step.
struct Bezout {
    divisor: u32,
    factor: u32,
}

/// `(a + q * (step - b)) % step`.
fn back(step: u32, a: u32, q: u32, b: u32) -> u32
    requires some { 0 < step }
    requires within { b < step }
    ensures { result ≡ (a + q * (step - b)) % step }
{
    let sum = u64::from(a) + u64::from(q) * u64::from(step - b);
    (sum % u64::from(step)) as u32
}

/// Euclid's algorithm.
fn bezout_of(step: u32, other: u32) -> Bezout
    requires some { 0 < step }
    ensures gcd { IsGcd step other result.divisor }
    ensures makes { step ∣ other * result.factor + result.divisor }
    ensures within { result.factor < step }
{
    let mut divisor = step;
    let mut factor = 0;
    let mut rest = other;
    let mut next = step - 1;
    'euclid: while rest != 0 {
        let after = back(step, factor, divisor / rest, next);
        let smaller = divisor % rest;
        divisor = rest;
        factor = next;
        rest = smaller;
        next = after;
    }
    Bezout { divisor, factor }
}

/// The least number of the other step that reaches a multiple of the step from this distance. None where no number does.
pub fn least_reach(step: u32, other: u32, distance: u32) -> Option<u32>
    requires some { 0 < step }
    ensures { MatchOption result ((j : ℕ) → ¬ Reaches step other distance j) (IsLeastReach step other distance) }
{
    let Bezout { divisor, factor } = bezout_of(step, other);
    if distance % divisor != 0 {
        return None;
    }
    let reach = u64::from(factor) * u64::from(distance / divisor) % u64::from(step / divisor);
    Some(reach as u32)
}
