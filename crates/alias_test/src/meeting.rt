//! Whether two runs of subscripts have a number in common.

ghost use Rattle.std.specs.Prelude.{◌≡◌, ◌↔◌, IsTrue, pos, ◌-ℤ◌, ◌≤ℤ◌};
ghost use Rattle.alias_test.specs.Runs.{Meet};

use crate::euclid::least_reach;
use crate::run::Run;

fn distance_from(from: i32, to: i32) -> u32
    requires { from ≤ℤ to }
    ensures { pos result ≡ to -ℤ from }
{
    (i64::from(to) - i64::from(from)) as u32
}

/// Whether they meet, where `q` begins no earlier. Any number of both is as far from the first one of `q` as the least, or farther.
fn meets_after(p: Run, q: Run) -> bool
    requires { p.first ≤ℤ q.first }
    ensures { IsTrue result ↔ Meet p q }
{
    let distance = distance_from(p.first, q.first);
    match least_reach(p.step, q.step, distance) {
        None => false,
        Some(place) => {
            let place = u64::from(place);
            let reach = u64::from(distance) + place * u64::from(q.step);
            place < q.count && reach / u64::from(p.step) < p.count
        }
    }
}

/// Whether some number is in both.
pub fn meets(p: Run, q: Run) -> bool
    ensures { IsTrue result ↔ Meet p q }
{
    if p.first <= q.first {
        meets_after(p, q)
    } else {
        meets_after(q, p)
    }
}
