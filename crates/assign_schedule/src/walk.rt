//! The items of a module.

ghost use Rattle.std.specs.Prelude.{◌≡◌, ◌+◌, ◌==◌, not, ◌++◌, length, OnOk, IfOk};
ghost use Rattle.hlfir_ops.specs.declared.op.Op.{out-Op};
ghost use Rattle.hlfir_ops.specs.declared.op.Region.{out-Region};
ghost use Rattle.hlfir_ops.specs.Numbers.{names_in, own_numbers, op_numbers, numbers_of, numbers_in, op_order, order_of, order_in};
ghost use Rattle.hlfir_ops.specs.RulesPlaces as places;
ghost use Rattle.assign_schedule.specs.Items as made;
ghost use Rattle.assign_schedule.specs.Seen.{items_seen};

use crate::counting::{after, count_op};
use crate::item::{Around, Header, Item};
use hlfir_ops::{Module, Op, Region, ValueKind, What};
use std::alloc::{AllocError, Global};

/// Where a walk is: the place of the next op in printed order and the number of the next value, both from 0.
#[derive(Clone, Copy, Debug)]
struct Walk {
    place: u32,
    number: u32,
}

/// A where or a forall.
fn encloses(what: &What) -> bool
    ensures { result ≡ places.masks what.now }
{
    match what {
        What::Masked | What::Forall(_) => true,
        _ => false,
    }
}

/// Around the ops inside the op at this place.
fn around_inside(around: Around, place: u32, op: &Op) -> Result<Around, AllocError>
    ensures { IfOk result (λ inner. inner ≡ made.around_inside around place op.now) }
{
    if !encloses(&op.what) {
        return Ok(around);
    }
    let until = after(place, count_op(op)?)?;
    Ok(Around {
        inside: true,
        until,
        header: None,
    })
}

/// How many index names the region of this number brings.
fn names_count(what: &What, k: usize) -> Result<u32, AllocError>
    ensures { IfOk result (λ count. count ≡ length (names_in what.now k)) }
{
    match what {
        What::Forall(names) => { if k == 1 { count_of(names.len()) } else { Ok(0) } }
        _ => Ok(0),
    }
}

fn count_of(len: usize) -> Result<u32, AllocError>
    ensures { IfOk result (λ count. count ≡ len) }
{
    match u32::try_from(len) {
        Ok(count) => Ok(count),
        Err(_) => Err(AllocError),
    }
}

/// What is around the ops in the region of this number, which brings so many index names, where the next value has that number.
fn around_in(around: Around, what: &What, k: usize, names: u32, number: u32) -> Around
    requires { names ≡ length (names_in what.now k) }
    ensures { result ≡ made.around_in around what.now k number }
{
    match what {
        What::Forall(_) => {
            if k == 1 {
                Around {
                    header: Some(Header {
                        first: number,
                        count: names,
                    }),
                    ..around
                }
            } else {
                around
            }
        }
        _ => around,
    }
}

/// An op of this sort with so many regions is an item. An elsewhere without a mask has one.
fn is_of_step(what: &What, regions: usize) -> bool
    ensures { result ≡ made.is_of_step what.now regions }
{
    match what {
        What::Assign { .. } | What::Masked | What::Forall(_) | What::ForallMask => true,
        What::Elsewhere => regions != 1,
        _ => false,
    }
}

/// Adds the op, where it is an item. Those inside it end at this place.
fn add_own<'a>(
    items: &mut Vec<Item<'a>>,
    around: Around,
    place: u32,
    until: u32,
    op: &'a Op,
) -> Result<(), AllocError>
    requires { until ≡ (made.around_inside around place op.now).until }
    ensures { OnOk result (items_seen items.new.items ≡ items_seen items.old.items ++ made.own_items around place op.now) }
{
    if is_of_step(&op.what, op.regions.len()) {
        items.push(Item {
            op,
            place,
            begins: !around.inside,
            until,
            header: around.header,
        })?;
    }
    Ok(())
}

/// How many values it gives.
fn value_count(kind: Option<ValueKind>) -> u32
    ensures { result ≡ own_numbers kind }
{
    match kind {
        Some(_) => 1,
        None => 0,
    }
}

/// Past an op, before those inside it.
fn inside(walk: Walk, kind: Option<ValueKind>) -> Result<Walk, AllocError>
    ensures { IfOk result (λ next. (next.place ≡ 1 + walk.place) × (next.number ≡ own_numbers kind + walk.number)) }
{
    Ok(Walk {
        place: after(walk.place, 1)?,
        number: after(walk.number, value_count(kind))?,
    })
}

/// Adds the items among an op and those inside it.
#[cycle(walking)]
fn walk_op<'a>(
    items: &mut Vec<Item<'a>>,
    around: Around,
    walk: Walk,
    op: &'a Op,
) -> Result<Walk, AllocError>
    ensures items { OnOk result (items_seen items.new.items ≡ items_seen items.old.items ++ made.op_items around walk.place walk.number op.now) }
    ensures next { IfOk result (λ next. (next.place ≡ length (op_order op.now) + walk.place) × (next.number ≡ op_numbers op.now + walk.number)) }
{
    let inner = around_inside(around, walk.place, op)?;
    add_own(items, around, walk.place, inner.until, op)?;
    let walk = inside(walk, op.kind)?;
    let next = walk_regions(items, inner, &op.what, walk, op.regions.as_slice())?;
    Ok(next)
}

/// Adds the items inside the regions of an op.
#[cycle(walking)]
fn walk_regions<'a>(
    items: &mut Vec<Item<'a>>,
    around: Around,
    what: &'a What,
    walk: Walk,
    regions: &'a [Region],
) -> Result<Walk, AllocError>
    ensures items { OnOk result (items_seen items.new.items ≡ items_seen items.old.items ++ made.items_in around what.now 0 walk.place walk.number regions.now) }
    ensures next { IfOk result (λ next. (next.place ≡ length (order_in regions.now) + walk.place) × (next.number ≡ numbers_in what.now 0 regions.now + walk.number)) }
{
    let mut next = walk;
    'each: for k in 0..regions.len() {
        next = walk_region(items, around, what, k, next, &regions[k])?;
    }
    Ok(next)
}

/// Adds the items inside the region of this number.
#[cycle(walking)]
fn walk_region<'a>(
    items: &mut Vec<Item<'a>>,
    around: Around,
    what: &'a What,
    k: usize,
    walk: Walk,
    region: &'a Region,
) -> Result<Walk, AllocError>
    ensures items { OnOk result (items_seen items.new.items ≡ items_seen items.old.items ++ made.items_of (made.around_in around what.now k walk.number) walk.place (length (names_in what.now k) + walk.number) (out-Region region.now).ops) }
    ensures next { IfOk result (λ next. (next.place ≡ length (order_of (out-Region region.now).ops) + walk.place) × (next.number ≡ (length (names_in what.now k) + numbers_of (out-Region region.now).ops) + walk.number)) }
{
    let names = names_count(what, k)?;
    let inner = around_in(around, what, k, names, walk.number);
    let first = Walk {
        place: walk.place,
        number: after(walk.number, names)?,
    };
    let next = walk_ops(items, inner, first, region.ops.as_slice())?;
    Ok(next)
}

/// Adds the items among the ops of a list and those inside them.
#[cycle(walking)]
fn walk_ops<'a>(
    items: &mut Vec<Item<'a>>,
    around: Around,
    walk: Walk,
    ops: &'a [Op],
) -> Result<Walk, AllocError>
    ensures items { OnOk result (items_seen items.new.items ≡ items_seen items.old.items ++ made.items_of around walk.place walk.number ops.now) }
    ensures next { IfOk result (λ next. (next.place ≡ length (order_of ops.now) + walk.place) × (next.number ≡ numbers_of ops.now + walk.number)) }
{
    let mut next = walk;
    'each: for op in ops {
        next = walk_op(items, around, next, op)?;
    }
    Ok(next)
}

/// The items of a module, in printed order.
pub fn items_of(alloc: Global, module: &Module) -> Result<Vec<Item<'_>>, AllocError>
    ensures { IfOk result (λ items. items_seen items.items ≡ made.module_items «module».now) }
{
    let mut items = Vec::new(alloc);
    let outermost = Around {
        inside: false,
        until: 0,
        header: None,
    };
    let start = Walk {
        place: 0,
        number: 0,
    };
    walk_ops(&mut items, outermost, start, module.ops.as_slice())?;
    Ok(items)
}
