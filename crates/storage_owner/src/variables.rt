//! Which variables matter: all of them, or those whose declare is an operand in a region.

ghost use Rattle.std.specs.Prelude.{◌≡◌, ◌<◌, ℕ, nat_lt, if◌then◌else◌, length, slice_get, slice_index, None, IfOk};
ghost use Rattle.rule_tests.specs.Orders.{ops_of};
ghost use Rattle.storage_owner.specs.Groups as grouped;
ghost use Rattle.storage_owner.specs.Layouts as layouts;

use crate::groups::groups_of;
use crate::sizes::declared_kinds;
use hlfir_ops::{Module, Op, ValueKind};
use rule_limits::ops_inside;
use rule_tests::uses_of;
use std::alloc::{AllocError, Global};

fn kind_at(kinds: &[ValueKind], k: usize) -> Option<ValueKind>
    ensures { result ≡ slice_get kinds.now k }
{
    match kinds.get(k) {
        Some(kind) => Some(*kind),
        None => None,
    }
}

fn if_used(uses: u8, kind: Option<ValueKind>) -> Option<ValueKind>
    ensures { result ≡ (if nat_lt 0 uses then kind else None) }
{
    if uses > 0 { kind } else { None }
}

/// The variables that are used, and None for each other.
fn only_used(
    alloc: Global,
    uses: &[u8],
    kinds: &[ValueKind],
) -> Result<Vec<Option<ValueKind>>, AllocError>
    requires { length uses.now ≡ length kinds.now }
    ensures { IfOk result (λ xs. xs.items ≡ layouts.only (λ n. nat_lt 0 (slice_index uses.now n)) 0 kinds.now) }
{
    let mut xs = Vec::new(alloc);
    'each: for k in 0..kinds.len() {
        xs.push(if_used(uses[k], kind_at(kinds, k)))?;
    }
    Ok(xs)
}

fn one_use(alloc: Global, len: usize) -> Result<Vec<u8>, AllocError>
    ensures len { IfOk result (λ uses. length uses.items ≡ len) }
    ensures each { IfOk result (λ uses. (n : ℕ) → n < len → slice_index uses.items n ≡ 1) }
{
    vec![in alloc; 1; len]
}

/// The variables of the module, all of which matter.
pub fn module_variables(
    alloc: Global,
    module: &Module,
) -> Result<Vec<Option<ValueKind>>, AllocError>
    ensures { IfOk result (λ xs. xs.items ≡ layouts.module_variables «module».now) }
{
    let kinds = declared_kinds(alloc, module.ops.as_slice())?;
    let uses = one_use(alloc, kinds.len())?;
    let xs = only_used(alloc, uses.as_slice(), kinds.as_slice())?;
    Ok(xs)
}

/// The ops inside a group.
fn inside(alloc: Global, module: &Module, group: u32) -> Result<Vec<&Op>, AllocError>
    ensures { IfOk result (λ order. ops_of order.items ≡ grouped.ops_inside «module».now group) }
{
    let groups = groups_of(alloc, module.ops.as_slice())?;
    match groups.get(group as usize) {
        Some(op) => ops_inside(alloc, op.regions.as_slice()),
        None => Ok(Vec::new(alloc)),
    }
}

/// The variables of a region, and None for each other. The table of uses has an entry for each declare.
pub fn region_variables(
    alloc: Global,
    module: &Module,
    group: u32,
) -> Result<Vec<Option<ValueKind>>, AllocError>
    ensures { IfOk result (λ xs. xs.items ≡ layouts.region_variables «module».now group) }
{
    let kinds = declared_kinds(alloc, module.ops.as_slice())?;
    let order = inside(alloc, module, group)?;
    let uses = uses_of(alloc, kinds.len(), order.as_slice())?;
    if uses.len() != kinds.len() {
        return Err(AllocError);
    }
    let xs = only_used(alloc, uses.as_slice(), kinds.as_slice())?;
    Ok(xs)
}
