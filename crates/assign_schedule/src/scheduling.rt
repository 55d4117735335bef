//! The schedule of a module.

ghost use Rattle.std.specs.Prelude.{◌≡◌, IfOk};
ghost use Rattle.hlfir_ops.specs.Rules.{KeepsRules};
ghost use Rattle.alias_test.specs.Givers.{givers_of};
ghost use Rattle.assign_schedule.specs.Looks.{givers_seen};
ghost use Rattle.assign_schedule.specs.Saved.{saved};

use crate::entry::Schedule;
use crate::look::Look;
use crate::planning::plans_of;
use crate::steps::steps_of;
use crate::walk::items_of;
use alias_test::givers;
use hlfir_ops::Module;
use hlfir_verify::Verified;
use std::alloc::{AllocError, Global};

fn look_at(alloc: Global, module: &Module) -> Result<Look<'_>, AllocError>
    requires { KeepsRules «module».now }
    ensures { IfOk result (λ look. givers_seen look ≡ givers_of «module».now.ops) }
{
    let givers = givers(alloc, module)?;
    Ok(Look { alloc, givers })
}

/// What is saved before it is stored over, and which targets are checked for duplicates: a decision for each mask and for each assignment
/// to an array or an element of one, in printed order.
pub fn schedule(alloc: Global, module: &Verified) -> Result<Schedule, AllocError>
    ensures { IfOk result (λ s. s ≡ saved «module».now) }
{
    let module = module.module();
    let look = look_at(alloc, module)?;
    let items = items_of(alloc, module)?;
    let steps = steps_of(alloc, items.as_slice())?;
    let steps = plans_of(&look, steps.as_slice())?;
    Ok(Schedule { steps })
}
