//! The layouts of a module.

ghost use Rattle.std.specs.Prelude.{◌≡◌, ◌*◌, min, IfOk};
ghost use Rattle.hlfir_ops.specs.RulesLimits as limits;
ghost use Rattle.rule_tests.specs.Orders.{ops_of};
ghost use Rattle.storage_owner.specs.Ranges.{IsApart, cells_of};
ghost use Rattle.storage_owner.specs.Groups as grouped;
ghost use Rattle.storage_owner.specs.Layouts as layouts;

use crate::needs::Needs;
use crate::rows::layout_of;
use crate::variables::{module_variables, region_variables};
use assign_schedule::{Planned, schedule};
use hlfir_ops::Op;
use hlfir_verify::Verified;
use phase_ops::Layout;
use rule_limits::ops_in_order;
use std::alloc::{AllocError, Global};

/// The temporaries outside regions.
const TEMPORARIES: u32 = 64;

/// The most ops and operands for which slots are kept.
const SIZE_LIMIT: usize = 131_072;

/// How many ops and operands these are, or the limit where there are more.
fn size_of(order: &[&Op]) -> usize
    ensures { result ≡ min (limits.size_of (ops_of order.now)) 131072 }
{
    let mut size: usize = 0;
    'each: for op in order {
        let operands = op.operands.len();
        if SIZE_LIMIT - size <= operands {
            return SIZE_LIMIT;
        }
        size += 1 + operands;
    }
    size
}

fn slots_of(alloc: Global, ops: &[Op]) -> Result<u32, AllocError>
    ensures { IfOk result (λ slots. slots ≡ layouts.module_slots ops.now) }
{
    let order = ops_in_order(alloc, ops)?;
    Ok(16 * size_of(order.as_slice()) as u32)
}

fn has_check(plans: &[Planned]) -> bool
    ensures { result ≡ layouts.has_check plans.now }
{
    'each: for plan in plans {
        if plan.dup {
            return true;
        }
    }
    false
}

/// What the groups outside regions need.
fn module_needs(alloc: Global, module: &Verified) -> Result<Needs, AllocError>
    ensures { IfOk result (λ needs. needs ≡ layouts.module_needs «module».now) }
{
    let plan = schedule(alloc, module)?;
    Ok(Needs {
        temps: TEMPORARIES,
        slots: slots_of(alloc, module.module().ops.as_slice())?,
        marks: has_check(plan.steps.as_slice()),
    })
}

/// The cells for the groups outside regions: those of all variables, and slots, temporaries and marks enough for each group and for the
/// expressions of each statement that has none.
pub fn layout(alloc: Global, module: &Verified) -> Result<Layout, AllocError>
    ensures owned { IfOk result (λ l. l ≡ layouts.module_layout «module».now) }
    ensures apart { IfOk result IsApart }
{
    let needs = module_needs(alloc, module)?;
    let kinds = module_variables(alloc, module.module())?;
    let layout = layout_of(alloc, kinds.as_slice(), &needs)?;
    Ok(layout)
}

/// The cells for one region: those of the variables whose declare is an operand in it, and then the slots, temporaries and marks that it
/// needs. There is none of more cells than have a number.
pub fn region_layout(
    alloc: Global,
    module: &Verified,
    group: u32,
    needs: &Needs,
) -> Result<Layout, AllocError>
    requires { grouped.IsRegion «module».now group }
    ensures owned { IfOk result (λ l. l ≡ layouts.region_layout «module».now group needs.now) }
    ensures apart { IfOk result IsApart }
{
    let kinds = region_variables(alloc, module.module(), group)?;
    let layout = layout_of(alloc, kinds.as_slice(), needs)?;
    Ok(layout)
}
