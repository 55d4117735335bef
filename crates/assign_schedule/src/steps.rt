//! The steps of a module.

ghost use Rattle.std.specs.Prelude.{◌≡◌, IfOk};
ghost use Rattle.hlfir_ops.specs.RulesStatements as statements;
ghost use Rattle.assign_schedule.specs.Seen.{item_seen, items_seen, steps_seen};
ghost use Rattle.assign_schedule.specs.Steps as made;

use crate::item::Item;
use hlfir_ops::{Op, What};
use sqlite_items::Items;
use std::alloc::{AllocError, Global};
use std::mem;

pub type Step<'a> = Items<Item<'a>>;

pub fn assigns(op: &Op) -> bool
    ensures { result ≡ statements.assigns op.now }
{
    match op.what {
        What::Assign { .. } => true,
        _ => false,
    }
}

/// The first of these items is an outermost statement.
fn begins_next(items: &[Item]) -> bool
    ensures { result ≡ made.begins_next (items_seen items.now) }
{
    match items {
        [] => false,
        [first, ..] => first.begins,
    }
}

/// The item ends its step, where these are the next ones.
fn ends_before(next: &[Item], item: &Item) -> bool
    ensures { result ≡ made.ends_before (items_seen next.now) (item_seen item.now) }
{
    assigns(item.op) || begins_next(next)
}

/// The steps that these items make.
pub fn steps_of<'a>(alloc: Global, items: &[Item<'a>]) -> Result<Vec<Step<'a>>, AllocError>
    ensures { IfOk result (λ steps. steps_seen steps.items ≡ made.steps_of (items_seen items.now)) }
{
    let mut steps = Vec::new(alloc);
    let mut begun = Items::new(alloc);
    'each: for k in 0..items.len() {
        let item = &items[k];
        begun.push(*item)?;
        if ends_before(&items[k + 1..], item) {
            let step = mem::replace(&mut begun, Items::new(alloc));
            steps.push(step)?;
        }
    }
    if !begun.is_empty() {
        steps.push(begun)?;
    }
    Ok(steps)
}
