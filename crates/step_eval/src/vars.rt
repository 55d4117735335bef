//! The variables by their names.

ghost use Rattle.std.specs.Prelude.{◌≡◌, MatchOption, OnOk};
ghost use Rattle.ws_space.specs.Values as space;
ghost use Rattle.ws_space.specs.Replace as replace;
ghost use Rattle.step_eval.specs.Variables.{IsAbsent, IsPlace};

use sqlite_items::Items;
use std::alloc::{AllocError, Global};
use ws_base::Name;
use ws_space::{Var, VarState};

/// Whether the variable of this name is LOGICAL.
pub fn is_logical(vars: &[Var], name: &Name) -> bool
    ensures { result ≡ replace.is_logical vars.now name.now }
{
    for var in vars {
        if var.name == *name {
            return var.truth;
        }
    }
    false
}

/// The place of the variable of this name.
fn place_of(vars: &[Var], name: &Name) -> Option<usize>
    ensures { MatchOption result (IsAbsent vars.now name.now) (IsPlace vars.now name.now) }
{
    for (i, var) in vars.iter().enumerate() {
        if var.name == *name {
            return Some(i);
        }
    }
    None
}

/// Gives the variable of this name another state.
pub fn set_state(
    alloc: Global,
    vars: &mut Items<Var>,
    name: &Name,
    state: VarState,
) -> Result<(), AllocError>
    ensures { OnOk result (vars.new ≡ space.with_state vars.old name.now state) }
{
    let Some(place) = place_of(vars.as_slice(), name) else {
        return Ok(());
    };
    let truth = vars.as_slice()[place].truth;
    let name = name.copy(alloc)?;
    vars.set(place, Var { name, truth, state });
    Ok(())
}
