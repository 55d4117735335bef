//! The op that gives each value of a module.

ghost use Rattle.std.specs.Prelude.{◌≡◌, [], ◌∷◌, ◌++◌, map, slice_get, OnOk, IfOk};
ghost use Rattle.hlfir_ops.specs.declared.op.Op.{out-Op};
ghost use Rattle.hlfir_ops.specs.Numbers.{names_in};
ghost use Rattle.alias_test.specs.Givers.{own_givers, givers_of, givers_in, ops_at, op_at};

use hlfir_ops::{Module, Op, Region, ValueId, What};
use std::alloc::{AllocError, Global};
use ws_base::Name;

/// The index names that the region of this number brings.
fn names_at(what: &What, k: usize) -> &[Name]
    ensures { result.now ≡ names_in what.now k }
{
    match what {
        What::Forall(names) => { if k == 1 { names.as_slice() } else { &[] } }
        _ => &[],
    }
}

#[tactic(auto, using(crate::proofs::Giving::push_rules))]
fn add_op<'a>(table: &mut Vec<&'a Op>, op: &'a Op) -> Result<(), AllocError>
    ensures { OnOk result (ops_at table.new.items ≡ ops_at table.old.items ++ op.now ∷ []) }
{
    table.push(op)?;
    Ok(())
}

#[tactic(auto, using(crate::proofs::Giving::push_rules))]
fn add_own<'a>(table: &mut Vec<&'a Op>, op: &'a Op) -> Result<(), AllocError>
    ensures { OnOk result (ops_at table.new.items ≡ ops_at table.old.items ++ own_givers op.now (out-Op op.now).kind) }
{
    match op.kind {
        Some(_) => add_op(table, op),
        None => Ok(()),
    }
}

fn add_names<'a>(table: &mut Vec<&'a Op>, op: &'a Op, names: &[Name]) -> Result<(), AllocError>
    ensures { OnOk result (ops_at table.new.items ≡ ops_at table.old.items ++ map (λ name. op.now) names.now) }
{
    'each: for _name in names {
        add_op(table, op)?;
    }
    Ok(())
}

/// Adds what gives the values of these ops and of those inside them.
#[cycle(giving)]
fn add_ops<'a>(table: &mut Vec<&'a Op>, ops: &'a [Op]) -> Result<(), AllocError>
    ensures { OnOk result (ops_at table.new.items ≡ ops_at table.old.items ++ givers_of ops.now) }
{
    'each: for op in ops {
        add_own(table, op)?;
        add_regions(table, op.regions.as_slice(), op)?;
    }
    Ok(())
}

#[cycle(giving)]
fn add_regions<'a>(
    table: &mut Vec<&'a Op>,
    regions: &'a [Region],
    op: &'a Op,
) -> Result<(), AllocError>
    ensures { OnOk result (ops_at table.new.items ≡ ops_at table.old.items ++ givers_in op.now (out-Op op.now).what 0 regions.now) }
{
    'each: for k in 0..regions.len() {
        add_names(table, op, names_at(&op.what, k))?;
        add_ops(table, regions[k].ops.as_slice())?;
    }
    Ok(())
}

/// The op that gives each value of the module, by the value's number. An index name is given by its forall.
pub fn givers(alloc: Global, module: &Module) -> Result<Vec<&Op>, AllocError>
    ensures { IfOk result (λ table. ops_at table.items ≡ givers_of «module».now.ops) }
{
    let mut table = Vec::new(alloc);
    add_ops(&mut table, module.ops.as_slice())?;
    Ok(table)
}

/// The op that gives the value. None where the table has no value of this number.
pub fn giver<'a>(table: &'a [&'a Op], v: ValueId) -> Option<&'a Op>
    ensures { op_at result ≡ slice_get (ops_at table.now) v.number }
{
    match table.get(v.number as usize) {
        Some(op) => Some(*op),
        None => None,
    }
}
