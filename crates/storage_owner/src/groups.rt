//! The groups of a module: its regions, and its outermost assignments, WHERE and FORALL outside regions.

ghost use Rattle.std.specs.Prelude.{◌≡◌, [], ◌∷◌, ◌++◌, OnOk, IfOk, slice_get};
ghost use Rattle.hlfir_ops.specs.declared.op.Op.{out-Op};
ghost use Rattle.hlfir_ops.specs.RulesPlaces.{shares};
ghost use Rattle.rule_tests.specs.Orders.{ops_of};
ghost use Rattle.storage_owner.specs.Groups as grouped;

use hlfir_ops::{Module, Op, Region, What};
use std::alloc::{AllocError, Global};

#[tactic(auto, using(crate::proofs::Grouping::push_rules))]
fn add_group<'a>(groups: &mut Vec<&'a Op>, op: &'a Op) -> Result<(), AllocError>
    ensures { OnOk result (ops_of groups.new.items ≡ ops_of groups.old.items ++ op.now ∷ []) }
{
    groups.push(op)?;
    Ok(())
}

/// Adds the group that the op is, or those in the body of a DO.
#[cycle(grouping)]
fn add_own<'a>(groups: &mut Vec<&'a Op>, op: &'a Op) -> Result<(), AllocError>
    ensures { OnOk result (ops_of groups.new.items ≡ ops_of groups.old.items ++ grouped.own_group (out-Op op.now).what op.now (grouped.groups_in (out-Op op.now).regions)) }
{
    match &op.what {
        What::Workshare | What::Assign { .. } | What::Masked | What::Forall(_) => {
            add_group(groups, op)
        }
        What::DoLoop => add_inside(groups, op.regions.as_slice()),
        _ => Ok(()),
    }
}

#[cycle(grouping)]
fn add_inside<'a>(groups: &mut Vec<&'a Op>, regions: &'a [Region]) -> Result<(), AllocError>
    ensures { OnOk result (ops_of groups.new.items ≡ ops_of groups.old.items ++ grouped.groups_in regions.now) }
{
    'each: for region in regions {
        add_groups(groups, region.ops.as_slice())?;
    }
    Ok(())
}

#[cycle(grouping)]
fn add_groups<'a>(groups: &mut Vec<&'a Op>, ops: &'a [Op]) -> Result<(), AllocError>
    ensures { OnOk result (ops_of groups.new.items ≡ ops_of groups.old.items ++ grouped.groups_of ops.now) }
{
    'each: for op in ops {
        add_own(groups, op)?;
    }
    Ok(())
}

/// The groups among these ops, in printed order.
pub fn groups_of(alloc: Global, ops: &[Op]) -> Result<Vec<&Op>, AllocError>
    ensures { IfOk result (λ groups. ops_of groups.items ≡ grouped.groups_of ops.now) }
{
    let mut groups = Vec::new(alloc);
    add_groups(&mut groups, ops)?;
    Ok(groups)
}

fn is_workshare(what: &What) -> bool
    ensures { result ≡ shares what.now }
{
    match what {
        What::Workshare => true,
        _ => false,
    }
}

/// The group of this number is a region.
pub fn is_region(alloc: Global, module: &Module, group: u32) -> Result<bool, AllocError>
    ensures { IfOk result (λ b. b ≡ grouped.is_region_op (grouped.group_at «module».now group)) }
{
    let groups = groups_of(alloc, module.ops.as_slice())?;
    match groups.get(group as usize) {
        Some(op) => Ok(is_workshare(&op.what)),
        None => Ok(false),
    }
}
