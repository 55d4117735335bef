//! The least fault found so far.

ghost use Rattle.std.specs.Prelude.{◌≡◌};
ghost use Rattle.ws_types.specs.Kinds.{when, precedes, least_from};

use ws_base::{Refusal, RefusalKind};

/// An earlier line, or on one line a lesser kind.
fn precedes(a: Refusal, b: Refusal) -> bool
    ensures { result ≡ precedes a b }
{
    a.line < b.line || (a.line == b.line && a.kind.number() < b.kind.number())
}

/// Takes note of a fault where a rule is broken.
#[tactic(auto, unfolding(crate::specs::Kinds::when, crate::specs::Kinds::least_from))]
pub fn note(found: &mut Option<Refusal>, broken: bool, line: u32, kind: RefusalKind)
    ensures { found.new ≡ least_from found.old (when broken line kind) }
{
    if !broken {
        return;
    }
    let fault = Refusal { line, kind };
    match *found {
        None => *found = Some(fault),
        Some(least) => {
            if precedes(fault, least) {
                *found = Some(fault);
            }
        }
    }
}
