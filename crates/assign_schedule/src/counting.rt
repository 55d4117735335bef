//! How many ops there are.

ghost use Rattle.std.specs.Prelude.{◌≡◌, ◌+◌, length, IfOk};
ghost use Rattle.hlfir_ops.specs.Numbers.{op_order, order_of, order_in};

use hlfir_ops::{Op, Region};
use std::alloc::AllocError;

/// The number after so many more. No module has more ops or values than memory holds.
pub fn after(number: u32, more: u32) -> Result<u32, AllocError>
    ensures { IfOk result (λ next. next ≡ more + number) }
{
    match number.checked_add(more) {
        Some(next) => Ok(next),
        None => Err(AllocError),
    }
}

/// An op and those inside it.
pub fn count_op(op: &Op) -> Result<u32, AllocError>
    ensures { IfOk result (λ count. count ≡ length (op_order op.now)) }
{
    let inside = count_regions(op.regions.as_slice())?;
    let count = after(inside, 1)?;
    Ok(count)
}

/// These ops and those inside them.
#[cycle(counting)]
fn count_ops(ops: &[Op]) -> Result<u32, AllocError>
    ensures { IfOk result (λ count. count ≡ length (order_of ops.now)) }
{
    let mut count = 0;
    'each: for op in ops {
        let inside = count_regions(op.regions.as_slice())?;
        count = after(count, 1)?;
        count = after(count, inside)?;
    }
    Ok(count)
}

/// The ops inside these regions.
#[cycle(counting)]
fn count_regions(regions: &[Region]) -> Result<u32, AllocError>
    ensures { IfOk result (λ count. count ≡ length (order_in regions.now)) }
{
    let mut count = 0;
    'each: for region in regions {
        let inside = count_ops(region.ops.as_slice())?;
        count = after(count, inside)?;
    }
    Ok(count)
}
