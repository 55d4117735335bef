//! What is decided for steps.

ghost use Rattle.std.specs.Prelude.{◌≡◌, ◌++◌, [], ◌∷◌, false, IfOk, OnOk};
ghost use Rattle.std.specs.Option.{ForSome};
ghost use Rattle.std.specs.List.{flat_map};
ghost use Rattle.alias_test.specs.Normal.{designator_at};
ghost use Rattle.assign_schedule.specs.Harms.{harms_any};
ghost use Rattle.assign_schedule.specs.Looks.{givers_seen};
ghost use Rattle.assign_schedule.specs.Parts.{IsPart};
ghost use Rattle.assign_schedule.specs.Saved as made;
ghost use Rattle.assign_schedule.specs.Seen.{item_seen, items_seen, steps_seen};
ghost use Rattle.assign_schedule.specs.Steps.{stands_before, is_followed, target_of, user_writes};
ghost use Rattle.assign_schedule.specs.Targets.{IsTarget};

use crate::duplicates::needs_check;
use crate::entry::{Planned, PlannedList};
use crate::harm::{harms_left, harms_values};
use crate::item::Item;
use crate::kinds::ops_in;
use crate::look::Look;
use crate::steps::Step;
use crate::writes::{target_at, target_of, write_of};
use alias_test::Designator;
use hlfir_ops::{ValueId, What};
use sqlite_items::Items;
use std::alloc::AllocError;

fn in_forall(item: &Item) -> bool
    ensures { result ≡ made.in_forall (item_seen item.now) }
{
    item.header.is_some()
}

/// The addresses of an assignment's targets are saved.
fn saves_addresses(
    look: &Look,
    item: &Item,
    target: &Designator,
    v: ValueId,
) -> Result<bool, AllocError>
    requires target { IsTarget (givers_seen look.now) target.now }
    requires same { target.now ≡ designator_at (givers_seen look.now) v.number }
    ensures { IfOk result (λ b. b ≡ made.saves_addresses (givers_seen look.now) (item_seen item.now) v) }
{
    if needs_check(look, item.header, v) {
        return Ok(true);
    }
    let left = ops_in(item.op.regions.as_slice(), 1);
    let harmed = harms_left(look, target, in_forall(item), left, v)?;
    Ok(harmed)
}

/// The right side is saved.
fn saves_right(
    look: &Look,
    item: &Item,
    target: &Designator,
    v: ValueId,
    addresses: bool,
) -> Result<bool, AllocError>
    requires target { IsTarget (givers_seen look.now) target.now }
    requires same { target.now ≡ designator_at (givers_seen look.now) v.number }
    requires addresses { addresses ≡ made.saves_addresses (givers_seen look.now) (item_seen item.now) v }
    ensures { IfOk result (λ b. b ≡ made.saves_right (givers_seen look.now) (item_seen item.now) v) }
{
    if addresses {
        return Ok(true);
    }
    let right = ops_in(item.op.regions.as_slice(), 0);
    let harmed = harms_values(look, false, target, in_forall(item), right)?;
    Ok(harmed)
}

/// The decision for an assignment to this value.
fn plan_assignment(look: &Look, item: &Item, v: ValueId) -> Result<Planned, AllocError>
    requires { IsPart (givers_seen look.now) v.number }
    ensures { IfOk result (λ plan. plan ≡ made.assignment_plan (givers_seen look.now) (item_seen item.now) v) }
{
    let target = target_at(look, v)?;
    let addresses = saves_addresses(look, item, &target, v)?;
    let saved = saves_right(look, item, &target, v, addresses)?;
    Ok(Planned {
        line: item.op.line,
        mask: false,
        saved,
        addresses,
        dup: needs_check(look, item.header, v),
        first_op: item.place,
    })
}

/// The write, if there is one, harms a read of the mask.
fn harms_mask(
    look: &Look,
    again: bool,
    mask: &Item,
    write: Option<ValueId>,
) -> Result<bool, AllocError>
    requires { ForSome write (λ v. IsPart (givers_seen look.now) v.number) }
    ensures { IfOk result (λ b. b ≡ harms_any (givers_seen look.now) again write (made.first_reads (givers_seen look.now) (item_seen mask.now))) }
{
    match write {
        Some(v) => {
            let target = target_at(look, v)?;
            let ops = ops_in(mask.op.regions.as_slice(), 0);
            let harmed = harms_values(look, again, &target, in_forall(mask), ops)?;
            Ok(harmed)
        }
        None => Ok(false),
    }
}

/// The assignment or a new mask of the step stands before this place.
fn stands_before(until: u32, step: &[Item]) -> bool
    ensures { result ≡ stands_before until (items_seen step.now) }
{
    'each: for item in step {
        if item.place < until {
            return true;
        }
    }
    false
}

/// The next one of these steps stands before this place.
fn is_followed(until: u32, later: &[Step]) -> bool
    ensures { result ≡ is_followed until (steps_seen later.now) }
{
    match later {
        [] => false,
        [next, ..] => stands_before(until, next.as_slice()),
    }
}

/// The mask is saved. The first one of these steps, which is its own, and the next ones that stand in its where or forall use it.
fn is_saved(look: &Look, mask: &Item, steps: &[Step]) -> Result<bool, AllocError>
    ensures { IfOk result (λ b. b ≡ made.is_saved (givers_seen look.now) (made.first_reads (givers_seen look.now) (item_seen mask.now)) (user_writes (givers_seen look.now) mask.now.until (steps_seen steps.now))) }
{
    'users: for k in 0..steps.len() {
        let write = write_of(look, steps[k].as_slice());
        let again = is_followed(mask.until, &steps[k + 1..]);
        if harms_mask(look, again, mask, write)? {
            return Ok(true);
        }
        if !again {
            return Ok(false);
        }
    }
    Ok(false)
}

/// The decision for a mask of the first one of these steps.
fn plan_mask(look: &Look, mask: &Item, steps: &[Step]) -> Result<Planned, AllocError>
    ensures { IfOk result (λ plan. plan ≡ made.mask_plan (givers_seen look.now) (item_seen mask.now) (user_writes (givers_seen look.now) mask.now.until (steps_seen steps.now))) }
{
    let saved = is_saved(look, mask, steps)?;
    Ok(Planned {
        line: mask.op.line,
        mask: true,
        saved,
        addresses: false,
        dup: false,
        first_op: mask.place,
    })
}

fn add_mask(
    look: &Look,
    plans: &mut PlannedList,
    mask: &Item,
    steps: &[Step],
) -> Result<(), AllocError>
    ensures { OnOk result (plans.new ≡ plans.old ++ made.mask_plan (givers_seen look.now) (item_seen mask.now) (user_writes (givers_seen look.now) mask.now.until (steps_seen steps.now)) ∷ []) }
{
    let plan = plan_mask(look, mask, steps)?;
    plans.push(plan)
}

fn add_assignment(look: &Look, plans: &mut PlannedList, item: &Item) -> Result<(), AllocError>
    ensures { OnOk result (plans.new ≡ plans.old ++ made.assignment_plans (givers_seen look.now) (item_seen item.now) (target_of (givers_seen look.now) item.now.op.now)) }
{
    match target_of(look, item.op) {
        Some(v) => {
            let plan = plan_assignment(look, item, v)?;
            plans.push(plan)
        }
        None => Ok(()),
    }
}

/// Adds the decision for an item of the first one of these steps.
fn add_item(
    look: &Look,
    plans: &mut PlannedList,
    item: &Item,
    steps: &[Step],
) -> Result<(), AllocError>
    ensures { OnOk result (plans.new ≡ plans.old ++ made.item_plans (givers_seen look.now) (steps_seen steps.now) (item_seen item.now)) }
{
    match item.op.what {
        What::Masked | What::Elsewhere | What::ForallMask => add_mask(look, plans, item, steps),
        What::Assign { .. } => add_assignment(look, plans, item),
        _ => Ok(()),
    }
}

/// Adds the decisions for these items of the first one of these steps.
fn add_items(
    look: &Look,
    plans: &mut PlannedList,
    items: &[Item],
    steps: &[Step],
) -> Result<(), AllocError>
    ensures { OnOk result (plans.new ≡ plans.old ++ flat_map (made.item_plans (givers_seen look.now) (steps_seen steps.now)) (items_seen items.now)) }
{
    'each: for item in items {
        add_item(look, plans, item, steps)?;
    }
    Ok(())
}

/// The decisions for all steps of a module.
pub fn plans_of(look: &Look, steps: &[Step]) -> Result<PlannedList, AllocError>
    ensures { IfOk result (λ plans. plans ≡ made.plans_of (givers_seen look.now) (steps_seen steps.now)) }
{
    let mut plans = Items::new(look.alloc);
    'each: for k in 0..steps.len() {
        add_items(look, &mut plans, steps[k].as_slice(), &steps[k..])?;
    }
    Ok(plans)
}
