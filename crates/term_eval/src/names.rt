//! What a name stands for.

ghost use Rattle.std.specs.Prelude.{◌≡◌, Ok, bytes_eq, pos, MatchOption, MatchResult};
ghost use Rattle.ws_base.specs.Outcomes.{trouble};
ghost use Rattle.ws_space.specs.Values as values;
ghost use Rattle.array_meaning.specs.Stage1 as stage1;

use array_meaning::Constant;
use ws_base::{FaultName, Name};
use ws_space::{ArrayValue, Var, VarState};

pub fn is_named(name: &Name, text: &str) -> bool
    ensures { result ≡ bytes_eq name.now text.now }
{
    name.as_str() == text
}

/// The number that a name stands for.
pub fn constant_of(constants: &[Constant], name: &str) -> Option<i64>
    ensures { result ≡ stage1.constant_of constants.now name.now }
{
    for constant in constants {
        if is_named(&constant.name, name) {
            return Some(constant.value);
        }
    }
    None
}

/// What the variable of this name holds. A name without a variable counts as a scalar 0.
pub fn state_of<'a>(vars: &'a [Var], name: &str) -> Option<&'a VarState>
    ensures { MatchOption result (values.state_of vars.entry.now name.now ≡ VarState.Scalar (pos 0)) (λ state. values.state_of vars.entry.now name.now ≡ state.now) }
{
    for var in vars {
        if is_named(&var.name, name) {
            return Some(&var.state);
        }
    }
    None
}

/// The array of this name. Unallocated where there is none.
pub fn allocated<'a>(vars: &'a [Var], name: &str) -> Result<&'a ArrayValue, FaultName>
    ensures { MatchResult result (λ array. stage1.allocated (values.state_of vars.entry.now name.now) ≡ Ok array.now) (λ fault. stage1.allocated (values.state_of vars.entry.now name.now) ≡ trouble fault) }
{
    match state_of(vars, name) {
        Some(VarState::Array(array)) => Ok(array),
        _ => Err(FaultName::Unallocated),
    }
}
