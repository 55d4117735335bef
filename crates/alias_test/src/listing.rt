//! The subscripts of constant forms as runs.

ghost use Rattle.std.specs.Prelude.{◌≡◌, ◌≢◌, ◌↔◌, ◌<◌, ◌-◌, None, Some, ℤ, pos, ◌<ℤ◌, MatchOption};
ghost use Rattle.ws_space.specs.Shapes as shapes;
ghost use Rattle.ws_space.specs.Subscripts.{stepped};
ghost use Rattle.alias_test.specs.Relations as relations;
ghost use Rattle.alias_test.specs.Relations.{constants_of, HasStride};
ghost use Rattle.alias_test.specs.Runs.{Lists};

use crate::designator::Form;
use crate::run::Run;
use ws_space::{Triplet, count};

/// How many subscripts a triplet selects.
fn count_of(triplet: &Triplet) -> u64
    requires { triplet.now.s ≢ pos 0 }
    ensures { result ≡ shapes.count triplet.now }
{
    match count(triplet) {
        Ok(n) => n,
        Err(_) => unreachable!(),
    }
}

/// The last subscript of so many.
fn last_of(triplet: &Triplet, count: u64) -> i32
    requires falls { triplet.now.s <ℤ pos 0 }
    requires count { count ≡ shapes.count triplet.now }
    requires some { 0 < count }
    ensures { result ≡ stepped triplet.now (count - 1) }
{
    (i128::from(triplet.l) + i128::from(count - 1) * i128::from(triplet.s)) as i32
}

/// The subscripts that a triplet selects, in rising order.
fn run_of_range(triplet: &Triplet) -> Run
    requires { triplet.now.s ≢ pos 0 }
    ensures { Lists (constants_of (Form.Range triplet.now)) result }
{
    let count = count_of(triplet);
    let step = triplet.s.unsigned_abs();
    if triplet.s > 0 || count == 0 {
        return Run {
            first: triplet.l,
            step,
            count,
        };
    }
    Run {
        first: last_of(triplet, count),
        step,
        count,
    }
}

/// The subscripts that a constant form selects. None where the form is not constant.
#[tactic(auto, unfolding(crate::specs::Relations::constants_of))]
pub fn run_of(form: &Form) -> Option<Run>
    requires { HasStride form.now }
    ensures { MatchOption result (constants_of form.now ≡ None) (Lists (constants_of form.now)) }
{
    match form {
        Form::Index(first) => Some(Run {
            first: *first,
            step: 1,
            count: 1,
        }),
        Form::Range(triplet) => Some(run_of_range(triplet)),
        Form::OpaqueIndex(_) | Form::OpaqueRange(_) | Form::Vector => None,
    }
}

/// Whether two triplets select the same subscripts in the same order.
pub fn same_range(t: &Triplet, u: &Triplet) -> bool
    requires t_stride { t.now.s ≢ pos 0 }
    requires u_stride { u.now.s ≢ pos 0 }
    ensures { result ≡ relations.same_range t.now u.now }
{
    let count = count_of(t);
    if count != count_of(u) {
        return false;
    }
    match count {
        0 => true,
        1 => t.l == u.l,
        _ => t.l == u.l && t.s == u.s,
    }
}
