//! Targets whose elements may be one.

ghost use Rattle.std.specs.Prelude.{◌≡◌, map};
ghost use Rattle.hlfir_ops.specs.Rules.{is_in};
ghost use Rattle.alias_test.specs.Givers.{op_at};
ghost use Rattle.assign_schedule.specs.Looks.{givers_seen};
ghost use Rattle.assign_schedule.specs.Saved as saved;

use crate::harm::subscripts_of;
use crate::item::Header;
use crate::kinds::giver_of;
use crate::look::Look;
use hlfir_ops::{Op, ValueId, What, has_vector};

fn has_vector_by(what: &What) -> bool
    ensures { result ≡ saved.has_vector_by what.now }
{
    match what {
        What::Designate(subs) => has_vector(subs.as_slice()),
        _ => false,
    }
}

/// A designator with a vector subscript gives the value.
fn has_vector_subscript(giver: Option<&Op>) -> bool
    ensures { result ≡ saved.has_vector_given (op_at giver.entry) }
{
    match giver {
        Some(op) => has_vector_by(&op.what),
        None => false,
    }
}

fn is_among(n: u64, vs: &[ValueId]) -> bool
    ensures { result ≡ is_in (map (λ v. v.number) vs.now) n }
{
    'each: for v in vs {
        if u64::from(v.number) == n {
            return true;
        }
    }
    false
}

/// Some index name is not by itself one of these subscripts.
fn misses_index(header: Option<Header>, vs: &[ValueId]) -> bool
    ensures { result ≡ saved.misses_index header vs.now }
{
    match header {
        Some(header) => misses_name(header, vs),
        None => false,
    }
}

fn misses_name(header: Header, vs: &[ValueId]) -> bool
    ensures { result ≡ saved.misses_name header vs.now }
{
    'each: for k in 0..header.count {
        if !is_among(u64::from(header.first) + u64::from(k), vs) {
            return true;
        }
    }
    false
}

/// The target has a vector subscript, or it stands in a FORALL with an index name that is by itself none of its subscripts.
pub fn needs_check(look: &Look, header: Option<Header>, v: ValueId) -> bool
    ensures { result ≡ saved.needs_check (givers_seen look.now) header v }
{
    has_vector_subscript(giver_of(look, v)) || misses_index(header, subscripts_of(look, v.number))
}
