//! How many cells each variable has, and each descriptor.

ghost use Rattle.std.specs.Prelude.{◌≡◌, ◌+◌, ◌*◌, ◌++◌, option_to_list, IfOk, OnOk};
ghost use Rattle.ws_space.specs.WellFormed.{elements};
ghost use Rattle.hlfir_ops.specs.declared.op.Op.{out-Op};
ghost use Rattle.storage_owner.specs.Layouts as layouts;

use hlfir_ops::{Op, ValueKind, What};
use std::alloc::{AllocError, Global};
use ws_space::Shape;

/// The cells of a temporary, of the marks, and of what an allocatable can hold.
pub const MOST_CELLS: u32 = 65_536;

/// The sum, where it is a number of cells.
pub fn plus(a: u32, b: u32) -> Result<u32, AllocError>
    ensures { IfOk result (λ n. n ≡ a + b) }
{
    match a.checked_add(b) {
        Some(n) => Ok(n),
        None => Err(AllocError),
    }
}

fn times(a: u64, b: u64) -> Result<u64, AllocError>
    ensures { IfOk result (λ n. n ≡ a * b) }
{
    match a.checked_mul(b) {
        Some(n) => Ok(n),
        None => Err(AllocError),
    }
}

/// The number of elements of an array of rank 1 or more.
fn product(shape: Shape) -> Result<u64, AllocError>
    ensures { IfOk result (λ n. n ≡ elements shape) }
{
    match shape.rank {
        0 => Ok(1),
        1 => Ok(shape.d1.extent),
        2 => times(shape.d1.extent, shape.d2.extent),
        _ => times(shape.d1.extent, times(shape.d2.extent, shape.d3.extent)?),
    }
}

fn as_cells(n: u64) -> Result<u32, AllocError>
    ensures { IfOk result (λ cells. cells ≡ n) }
{
    match u32::try_from(n) {
        Ok(cells) => Ok(cells),
        Err(_) => Err(AllocError),
    }
}

/// The cells of a variable's values.
fn var_cells(kind: ValueKind) -> Result<u32, AllocError>
    ensures { IfOk result (λ n. n ≡ layouts.var_cells kind) }
{
    match kind {
        ValueKind::Place(_) => Ok(1),
        ValueKind::Declared { shape, .. } => as_cells(product(shape)?),
        ValueKind::Allocatable { .. } => Ok(MOST_CELLS),
        _ => Ok(0),
    }
}

/// The cells of a variable's descriptor.
fn box_cells(kind: ValueKind) -> Result<u32, AllocError>
    ensures { IfOk result (λ n. n ≡ layouts.box_cells kind) }
{
    match kind {
        ValueKind::Allocatable { rank, .. } => plus(1, plus(rank, rank)?),
        _ => Ok(0),
    }
}

fn var_size(kind: Option<ValueKind>) -> Result<u32, AllocError>
    ensures { IfOk result (λ n. n ≡ layouts.cells_by layouts.var_cells kind) }
{
    match kind {
        Some(kind) => var_cells(kind),
        None => Ok(0),
    }
}

fn box_size(kind: Option<ValueKind>) -> Result<u32, AllocError>
    ensures { IfOk result (λ n. n ≡ layouts.cells_by layouts.box_cells kind) }
{
    match kind {
        Some(kind) => box_cells(kind),
        None => Ok(0),
    }
}

/// The cells of the values of each of these variables.
pub fn var_sizes(alloc: Global, kinds: &[Option<ValueKind>]) -> Result<Vec<u32>, AllocError>
    ensures { IfOk result (λ sizes. sizes.items ≡ layouts.var_sizes kinds.now) }
{
    let mut sizes = Vec::new(alloc);
    'each: for kind in kinds {
        sizes.push(var_size(*kind)?)?;
    }
    Ok(sizes)
}

/// The cells of the descriptor of each of these variables.
pub fn box_sizes(alloc: Global, kinds: &[Option<ValueKind>]) -> Result<Vec<u32>, AllocError>
    ensures { IfOk result (λ sizes. sizes.items ≡ layouts.box_sizes kinds.now) }
{
    let mut sizes = Vec::new(alloc);
    'each: for kind in kinds {
        sizes.push(box_size(*kind)?)?;
    }
    Ok(sizes)
}

fn declared(what: &What, kind: Option<ValueKind>) -> Option<ValueKind>
    ensures { layouts.own_declared what.now kind ≡ option_to_list result }
{
    match what {
        What::Declare(_) => kind,
        _ => None,
    }
}

fn add_declared(kinds: &mut Vec<ValueKind>, op: &Op) -> Result<(), AllocError>
    ensures { OnOk result (kinds.new.items ≡ kinds.old.items ++ layouts.own_declared (out-Op op.now).what (out-Op op.now).kind) }
{
    match declared(&op.what, op.kind) {
        Some(kind) => {
            kinds.push(kind)?;
            Ok(())
        }
        None => Ok(()),
    }
}

/// What these ops declare, in order.
pub fn declared_kinds(alloc: Global, ops: &[Op]) -> Result<Vec<ValueKind>, AllocError>
    ensures { IfOk result (λ kinds. kinds.items ≡ layouts.declared_kinds ops.now) }
{
    let mut kinds = Vec::new(alloc);
    'each: for op in ops {
        add_declared(&mut kinds, op)?;
    }
    Ok(kinds)
}
