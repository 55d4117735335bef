//! The whole arrays and sections that an expression evaluates.

ghost use Rattle.std.specs.Prelude.{◌≡◌, ◌++◌, [], ◌∷◌, OnOk, IfOk};
ghost use Rattle.std.specs.List.{flat_map};
ghost use Rattle.hlfir_ops.specs.declared.op.Op.{out-Op};
ghost use Rattle.assign_schedule.specs.Looks.{givers_seen};
ghost use Rattle.assign_schedule.specs.Reads as reads;
ghost use Rattle.assign_schedule.specs.Wanted as wants;
ghost use Rattle.assign_schedule.specs.Wanted.{SameMembers, below, reached_all, AllBelow, AreArrays};

use crate::kinds::{giver_of, is_array, ops_in};
use crate::look::Look;
use crate::way::Way;
use hlfir_ops::{Op, ValueId, What};
use std::alloc::AllocError;
use std::collections::BTreeSet;

/// Below the bound, where there is one.
fn passes(bound: Option<u32>, n: u32) -> bool
    ensures { result ≡ wants.passes bound n }
{
    match bound {
        None => true,
        Some(bound) => n < bound,
    }
}

/// Wants this value too, where it passes.
fn want_one(wanted: &mut BTreeSet<u32>, bound: Option<u32>, v: ValueId) -> Result<(), AllocError>
    ensures { OnOk result (SameMembers wanted.new.keys (wanted.old.keys ++ below bound (v ∷ []))) }
{
    if !passes(bound, v.number) {
        return Ok(());
    }
    wanted.insert(v.number)?;
    Ok(())
}

/// Wants these values too, as far as they pass.
pub fn want(
    wanted: &mut BTreeSet<u32>,
    bound: Option<u32>,
    vs: &[ValueId],
) -> Result<(), AllocError>
    ensures { OnOk result (SameMembers wanted.new.keys (wanted.old.keys ++ below bound vs.now)) }
{
    'each: for v in vs {
        want_one(wanted, bound, *v)?;
    }
    Ok(())
}

/// Wants what the op applies.
fn want_operands(wanted: &mut BTreeSet<u32>, bound: Option<u32>, op: &Op) -> Result<(), AllocError>
    ensures { OnOk result (SameMembers wanted.new.keys (wanted.old.keys ++ below bound (reads.applied op.now))) }
{
    match op.what {
        What::Apply => want(wanted, bound, op.operands.as_slice()),
        _ => Ok(()),
    }
}

/// Wants what these ops apply.
fn want_applied(
    wanted: &mut BTreeSet<u32>,
    bound: Option<u32>,
    ops: &[Op],
) -> Result<(), AllocError>
    ensures { OnOk result (SameMembers wanted.new.keys (wanted.old.keys ++ below bound (flat_map reads.applied ops.now))) }
{
    'each: for op in ops {
        want_operands(wanted, bound, op)?;
    }
    Ok(())
}

/// Wants the arrays from whose elements those of an array value are computed.
fn want_sources(wanted: &mut BTreeSet<u32>, bound: Option<u32>, op: &Op) -> Result<(), AllocError>
    ensures { OnOk result (SameMembers wanted.new.keys (wanted.old.keys ++ below bound (reads.sources_by (out-Op op.now).what (out-Op op.now).operands (out-Op op.now).regions))) }
{
    match op.what {
        What::AsExpr => want(wanted, bound, op.operands.as_slice()),
        What::Elemental => want_applied(wanted, bound, ops_in(op.regions.as_slice(), 0)),
        _ => Ok(()),
    }
}

/// The subscripts of a designator.
pub fn subscripts(op: &Op) -> &[ValueId]
    ensures { result.now ≡ reads.subscripts_by (out-Op op.now).what (out-Op op.now).operands }
{
    match op.what {
        What::Designate(_) => match op.operands.as_slice() {
            [] => &[],
            [_, more @ ..] => more,
        },
        _ => &[],
    }
}

/// Wants what stands next on the way.
fn want_next(
    way: Way,
    wanted: &mut BTreeSet<u32>,
    bound: Option<u32>,
    op: &Op,
) -> Result<(), AllocError>
    ensures { OnOk result (SameMembers wanted.new.keys (wanted.old.keys ++ below bound (reads.next_of way op.now))) }
{
    match way {
        Way::Elements => want_sources(wanted, bound, op),
        Way::Subscripts => want(wanted, bound, subscripts(op)),
    }
}

/// Keeps the value that the op gives, where it is a whole array or a section.
fn keep(found: &mut Vec<u32>, n: u32, op: &Op) -> Result<(), AllocError>
    ensures { OnOk result (found.new.items ≡ found.old.items ++ reads.itself n op.now) }
{
    if !is_array(Some(op)) {
        return Ok(());
    }
    found.push(n)?;
    Ok(())
}

/// Visits the greatest of the wanted values, after which these are left.
fn visit(
    look: &Look,
    way: Way,
    n: u32,
    wanted: &mut BTreeSet<u32>,
    found: &mut Vec<u32>,
) -> Result<(), AllocError>
    requires below { AllBelow n wanted.old.keys }
    requires arrays { AreArrays (givers_seen look.now) found.old.items }
    ensures members { OnOk result (SameMembers (found.new.items ++ reached_all way look.now wanted.new.keys) (found.old.items ++ reached_all way look.now (wanted.old.keys ++ n ∷ []))) }
    ensures below { OnOk result (AllBelow n wanted.new.keys) }
    ensures arrays { OnOk result (AreArrays (givers_seen look.now) found.new.items) }
{
    if let Some(op) = giver_of(look, ValueId { number: n }) {
        keep(found, n, op)?;
        want_next(way, wanted, Some(n), op)?;
    }
    Ok(())
}

/// The whole arrays and sections that are reached from these values. The greatest wanted value goes first, since an op's operands have lesser
/// numbers; so none comes twice.
pub fn reached(look: &Look, way: Way, start: BTreeSet<u32>) -> Result<Vec<u32>, AllocError>
    ensures members { IfOk result (λ found. SameMembers found.items (reached_all way look.now start.keys)) }
    ensures arrays { IfOk result (λ found. AreArrays (givers_seen look.now) found.items) }
{
    let mut wanted = start;
    let mut found = Vec::new(look.alloc);
    'wanted: while let Some(n) = wanted.pop_last() {
        visit(look, way, n, &mut wanted, &mut found)?;
    }
    Ok(found)
}
