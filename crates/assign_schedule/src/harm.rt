//! What a write does to reads.

ghost use Rattle.std.specs.Prelude.{◌≡◌, ◌++◌, None, false, IfOk, OnOk};
ghost use Rattle.std.specs.List.{flat_map, list_any};
ghost use Rattle.hlfir_ops.specs.declared.op.Op.{out-Op};
ghost use Rattle.alias_test.specs.Normal.{designator_at};
ghost use Rattle.alias_test.specs.Relations.{relation};
ghost use Rattle.assign_schedule.specs.Harms as made;
ghost use Rattle.assign_schedule.specs.Harms.{harms_read, harms_any};
ghost use Rattle.assign_schedule.specs.Looks.{givers_seen};
ghost use Rattle.assign_schedule.specs.Parts.{IsPart};
ghost use Rattle.assign_schedule.specs.Reads as reads;
ghost use Rattle.assign_schedule.specs.Targets.{IsTarget, AreParts};
ghost use Rattle.assign_schedule.specs.Wanted.{SameMembers, AreArrays, below};

use crate::kinds::{giver_of, is_element, parts};
use crate::look::Look;
use crate::reach::{reached, subscripts, want};
use crate::way::Way;
use alias_test::{Designator, Relation, designator_in, relate};
use hlfir_ops::{Op, ValueId, What};
use std::alloc::AllocError;
use std::collections::BTreeSet;

fn harms(relation: Relation, again: bool) -> bool
    ensures { result ≡ made.harms relation again }
{
    match relation {
        Relation::Disjoint => false,
        Relation::Same => again,
        Relation::May => true,
    }
}

/// The write harms the read of the designator that this value is.
fn harms_value(look: &Look, again: bool, target: &Designator, n: u32) -> Result<bool, AllocError>
    requires target { IsTarget (givers_seen look.now) target.now }
    requires part { IsPart (givers_seen look.now) n }
    ensures { IfOk result (λ b. b ≡ made.harms (relation target.now (designator_at (givers_seen look.now) n)) again) }
{
    let read = designator_in(look.alloc, look.givers.as_slice(), ValueId { number: n })?;
    Ok(harms(relate(target, &read), again))
}

/// The write harms the read of one of these.
fn harms_some(
    look: &Look,
    again: bool,
    target: &Designator,
    numbers: &[u32],
) -> Result<bool, AllocError>
    requires target { IsTarget (givers_seen look.now) target.now }
    requires parts { AreParts (givers_seen look.now) numbers.now }
    ensures { IfOk result (λ b. b ≡ list_any (λ n. made.harms (relation target.now (designator_at (givers_seen look.now) n)) again) numbers.now) }
{
    'each: for n in numbers {
        if harms_value(look, again, target, *n)? {
            return Ok(true);
        }
    }
    Ok(false)
}

/// The arrays from which these values are computed.
fn arrays_of(look: &Look, vs: &[ValueId]) -> Result<Vec<u32>, AllocError>
    ensures members { IfOk result (λ found. SameMembers found.items (reads.reached Way.Elements (givers_seen look.now) vs.now)) }
    ensures parts { IfOk result (λ found. AreParts (givers_seen look.now) found.items) }
{
    let mut start = BTreeSet::new(look.alloc);
    want(&mut start, None, vs)?;
    let found = reached(look, Way::Elements, start)?;
    Ok(found)
}

/// The subscripts of the designator that this value is.
pub fn subscripts_of<'a>(look: &Look<'a>, n: u32) -> &'a [ValueId]
    ensures { result.now ≡ reads.subscripts_of (givers_seen look.now) n }
{
    match giver_of(look, ValueId { number: n }) {
        Some(op) => subscripts(op),
        None => &[],
    }
}

/// Wants the subscripts of these designators.
fn want_subscripts(
    look: &Look,
    start: &mut BTreeSet<u32>,
    numbers: &[u32],
) -> Result<(), AllocError>
    ensures { OnOk result (SameMembers start.new.keys (start.old.keys ++ below None (flat_map (reads.subscripts_of (givers_seen look.now)) numbers.now))) }
{
    'each: for n in numbers {
        want(start, None, subscripts_of(look, *n))?;
    }
    Ok(())
}

/// The vector subscripts in these designators, those in them too.
fn vectors_of(look: &Look, numbers: &[u32]) -> Result<Vec<u32>, AllocError>
    ensures members { IfOk result (λ found. SameMembers found.items (reads.reached Way.Subscripts (givers_seen look.now) (flat_map (reads.subscripts_of (givers_seen look.now)) numbers.now))) }
    ensures parts { IfOk result (λ found. AreParts (givers_seen look.now) found.items) }
{
    let mut start = BTreeSet::new(look.alloc);
    want_subscripts(look, &mut start, numbers)?;
    let found = reached(look, Way::Subscripts, start)?;
    Ok(found)
}

/// The write harms the read of a vector subscript in one of these designators.
fn harms_subscripts(
    look: &Look,
    again: bool,
    target: &Designator,
    numbers: &[u32],
) -> Result<bool, AllocError>
    requires { IsTarget (givers_seen look.now) target.now }
    ensures { IfOk result (λ b. b ≡ list_any (harms_read (givers_seen look.now) again target.now) (reads.subscript_reads (givers_seen look.now) numbers.now)) }
{
    let vectors = vectors_of(look, numbers)?;
    let harmed = harms_some(look, true, target, vectors.as_slice())?;
    Ok(harmed)
}

/// The write harms a read of these array values.
fn harms_arrays(
    look: &Look,
    again: bool,
    target: &Designator,
    vs: &[ValueId],
) -> Result<bool, AllocError>
    requires { IsTarget (givers_seen look.now) target.now }
    ensures { IfOk result (λ b. b ≡ list_any (harms_read (givers_seen look.now) again target.now) (reads.array_reads (givers_seen look.now) vs.now)) }
{
    let arrays = arrays_of(look, vs)?;
    if harms_some(look, again, target, arrays.as_slice())? {
        return Ok(true);
    }
    let harmed = harms_subscripts(look, again, target, arrays.as_slice())?;
    Ok(harmed)
}

/// The write harms the read of the value, where that is an element.
fn harms_element(
    look: &Look,
    again: bool,
    target: &Designator,
    v: ValueId,
) -> Result<bool, AllocError>
    requires { IsTarget (givers_seen look.now) target.now }
    ensures { IfOk result (λ b. b ≡ list_any (harms_read (givers_seen look.now) again target.now) (reads.element_read (givers_seen look.now) v)) }
{
    if !is_element(giver_of(look, v)) {
        return Ok(false);
    }
    let harmed = harms_value(look, again, target, v.number)?;
    Ok(harmed)
}

fn harms_elements(
    look: &Look,
    again: bool,
    target: &Designator,
    vs: &[ValueId],
) -> Result<bool, AllocError>
    requires { IsTarget (givers_seen look.now) target.now }
    ensures { IfOk result (λ b. b ≡ list_any (harms_read (givers_seen look.now) again target.now) (flat_map (reads.element_read (givers_seen look.now)) vs.now)) }
{
    'each: for v in vs {
        if harms_element(look, again, target, *v)? {
            return Ok(true);
        }
    }
    Ok(false)
}

/// The write harms the read of the element that the op loads.
fn harms_load(look: &Look, again: bool, target: &Designator, op: &Op) -> Result<bool, AllocError>
    requires { IsTarget (givers_seen look.now) target.now }
    ensures { IfOk result (λ b. b ≡ list_any (harms_read (givers_seen look.now) again target.now) (reads.loaded_by (givers_seen look.now) (out-Op op.now).what (out-Op op.now).operands)) }
{
    match op.what {
        What::Load => harms_elements(look, again, target, op.operands.as_slice()),
        _ => Ok(false),
    }
}

/// The write harms the read of an element that these ops load.
fn harms_loads(
    look: &Look,
    again: bool,
    target: &Designator,
    ops: &[Op],
) -> Result<bool, AllocError>
    requires { IsTarget (givers_seen look.now) target.now }
    ensures { IfOk result (λ b. b ≡ list_any (harms_read (givers_seen look.now) again target.now) (reads.element_reads (givers_seen look.now) ops.now)) }
{
    'each: for op in ops {
        if harms_load(look, again, target, op)? {
            return Ok(true);
        }
    }
    Ok(false)
}

/// The write harms a read of what these ops yield, in a FORALL or elsewhere.
pub fn harms_values(
    look: &Look,
    again: bool,
    target: &Designator,
    in_forall: bool,
    ops: &[Op],
) -> Result<bool, AllocError>
    requires { IsTarget (givers_seen look.now) target.now }
    ensures { IfOk result (λ b. b ≡ list_any (harms_read (givers_seen look.now) again target.now) (reads.value_reads (givers_seen look.now) in_forall ops.now)) }
{
    if in_forall {
        harms_loads(look, again, target, ops)
    } else {
        harms_arrays(look, again, target, parts(ops))
    }
}

/// The write harms a read of the subscripts of the left side, which these ops yield, and which is this value.
pub fn harms_left(
    look: &Look,
    target: &Designator,
    in_forall: bool,
    ops: &[Op],
    v: ValueId,
) -> Result<bool, AllocError>
    requires { IsTarget (givers_seen look.now) target.now }
    ensures { IfOk result (λ b. b ≡ list_any (harms_read (givers_seen look.now) false target.now) (reads.left_reads (givers_seen look.now) in_forall ops.now v)) }
{
    if in_forall {
        harms_loads(look, false, target, ops)
    } else {
        harms_subscripts(look, false, target, &[v.number])
    }
}
