//! The tables of a module: its values, and how often each is used.

ghost use Rattle.std.specs.Prelude.{◌≡◌, ℕ, [], ◌∷◌, ◌++◌, map, OnOk, IfOk, slice_index};
ghost use Rattle.std.specs.List.{list_any, flat_map};
ghost use Rattle.hlfir_ops.specs.Numbers.{names_in};
ghost use Rattle.hlfir_ops.specs.RulesValues as values;
ghost use Rattle.hlfir_ops.specs.Rules as rules;
ghost use Rattle.rule_tests.specs.Orders.{ops_of};
ghost use Rattle.rule_tests.specs.Seen.{seen, source_seen};
ghost use Rattle.rule_tests.specs.Uses.{AddsUses, AreUses};

use crate::value::{Source, Value};
use hlfir_ops::{Elem, Op, Region, ValueId, ValueKind, What, has_vector};
use std::alloc::{AllocError, Global};
use ws_base::Name;

fn source_of(what: &What) -> Source
    ensures { source_seen result ≡ values.source_of what.now }
{
    match what {
        What::Declare(_) => Source::Declares,
        What::Designate(subs) => Source::Designates {
            vector: has_vector(subs.as_slice()),
        },
        What::Vector => Source::Lists,
        _ => Source::Other,
    }
}

#[tactic(auto, using(crate::proofs::Tables::seen_rules))]
fn add_value(table: &mut Vec<Value>, kind: ValueKind, source: Source) -> Result<(), AllocError>
    ensures { OnOk result (seen table.new.items ≡ seen table.old.items ++ (record { kind = kind; source = source_seen source }) ∷ []) }
{
    table.push(Value { kind, source })?;
    Ok(())
}

#[tactic(auto, using(crate::proofs::Tables::seen_rules))]
fn add_own(table: &mut Vec<Value>, what: &What, kind: Option<ValueKind>) -> Result<(), AllocError>
    ensures { OnOk result (seen table.new.items ≡ seen table.old.items ++ values.own_values what.now kind) }
{
    match kind {
        Some(kind) => add_value(table, kind, source_of(what)),
        None => Ok(()),
    }
}

/// The index names that the region of this number brings.
pub fn names_at(what: &What, k: usize) -> &[Name]
    ensures { result.now ≡ names_in what.now k }
{
    match what {
        What::Forall(names) => { if k == 1 { names.as_slice() } else { &[] } }
        _ => &[],
    }
}

fn add_names(table: &mut Vec<Value>, names: &[Name]) -> Result<(), AllocError>
    ensures { OnOk result (seen table.new.items ≡ seen table.old.items ++ map values.value_of_name names.now) }
{
    'each: for _name in names {
        add_value(table, ValueKind::Scalar(Elem::I32), Source::Other)?;
    }
    Ok(())
}

/// The most regions around an op. In a module within the rules no more than 132 are.
const DEEPEST: usize = 200;

/// How many regions are around an op in a region of an op that has so many around it. Past the most, which bounds how deep the walks over a
/// module call themselves, there is none, which counts as want of memory.
fn inside(around: usize) -> Result<usize, AllocError> {
    if around < DEEPEST {
        Ok(around + 1)
    } else {
        Err(AllocError)
    }
}

/// Adds the values of these ops and of those inside them.
#[cycle(filling)]
fn add_ops(table: &mut Vec<Value>, around: usize, ops: &[Op]) -> Result<(), AllocError>
    ensures { OnOk result (seen table.new.items ≡ seen table.old.items ++ values.values_of ops.now) }
{
    'each: for op in ops {
        add_own(table, &op.what, op.kind)?;
        add_regions(table, around, &op.what, op.regions.as_slice())?;
    }
    Ok(())
}

#[cycle(filling)]
fn add_regions(
    table: &mut Vec<Value>,
    around: usize,
    what: &What,
    regions: &[Region],
) -> Result<(), AllocError>
    ensures { OnOk result (seen table.new.items ≡ seen table.old.items ++ values.values_in what.now 0 regions.now) }
{
    'each: for k in 0..regions.len() {
        let around = inside(around)?;
        add_names(table, names_at(what, k))?;
        add_ops(table, around, regions[k].ops.as_slice())?;
    }
    Ok(())
}

/// The values of these ops and of those inside them, by their numbers. Ops whose regions nest far deeper than the rules allow are answered as
/// want of memory.
pub fn values_of(alloc: Global, ops: &[Op]) -> Result<Vec<Value>, AllocError>
    ensures { IfOk result (λ table. seen table.items ≡ values.values_of ops.now) }
{
    let mut table = Vec::new(alloc);
    add_ops(&mut table, 0, ops)?;
    Ok(table)
}

/// One more use, of which two stand for more. A number that no value has is left out.
fn add_use(uses: &mut [u8], v: ValueId)
    ensures { AddsUses uses.old uses.new (v.number ∷ []) }
{
    let n = v.number as usize;
    if n < uses.len() && uses[n] < 2 {
        uses[n] += 1;
    }
}

fn add_operands(uses: &mut [u8], operands: &[ValueId])
    ensures { AddsUses uses.old uses.new (map (λ v. v.number) operands.now) }
{
    'each: for v in operands {
        add_use(uses, *v);
    }
}

fn add_uses(uses: &mut [u8], order: &[&Op])
    ensures { AddsUses uses.old uses.new (flat_map rules.operand_numbers (ops_of order.now)) }
{
    'each: for op in order {
        add_operands(uses, op.operands.as_slice());
    }
}

fn no_uses(alloc: Global, len: usize) -> Result<Vec<u8>, AllocError>
    ensures { IfOk result (λ uses. (n : ℕ) → slice_index uses.items n ≡ 0) }
{
    vec![in alloc; 0; len]
}

/// How often these ops use each of so many values.
pub fn uses_of(alloc: Global, len: usize, order: &[&Op]) -> Result<Vec<u8>, AllocError>
    ensures { IfOk result (λ uses. AreUses uses.items (flat_map rules.operand_numbers (ops_of order.now))) }
{
    let mut uses = no_uses(alloc, len)?;
    add_uses(&mut uses, order);
    Ok(uses)
}
