//! The iterations of a Part, each of which gives a value.

ghost use Rattle.std.specs.Prelude.{◌≡◌, ℕ, ◌≤◌, ◌<◌, cond, length, take, ℤ, pos, ◌<ℤ◌};
ghost use Rattle.phase_ops.specs.declared.phase.Micro.TheVariants as micro;
ghost use Rattle.phase_ops.specs.Phases.{looks, divisors, turn, calm, last_event, value_events};
ghost use Rattle.phase_ops.specs.Free.{In};
ghost use Rattle.act_eval.specs.Sites.{Small, MayLook, IsWorth, calm_events, spot_of};

use crate::acts::element_of;
use crate::ops::{key_of, same, turn_at};
use crate::site::{Site, Worth};
use phase_ops::{Act, Micro, Turn};

fn has_effect(op: &Micro) -> bool
    ensures { calm op.now ≡ cond result (micro.Fixed (pos 0)) op.now }
{
    matches!(op, Micro::Store(..) | Micro::Least(..))
}

/// What an op gives in a Part, where a store has no effect.
fn calm_turn_at<H, S: Site<H>>(
    site: &S,
    hand: &mut H,
    op: &Micro,
    iteration: u32,
    registers: &[i64],
) -> Turn
    requires belongs { S.belongs site.now hand.old }
    requires loads { (c : ℕ) → In c (looks (S.view site.now hand.old).cells registers.now (calm op.now)) → In c (S.view site.now hand.old).may × Small c }
    requires positive { (z : ℤ) → In z (divisors (S.view site.now hand.old).cells (calm op.now)) → pos 0 <ℤ z }
    ensures value { result ≡ turn iteration (S.view site.now hand.old).cells registers.now (calm op.now) }
    ensures same { S.view site.now hand.new ≡ S.view site.now hand.old }
    ensures belongs { S.belongs site.now hand.new }
{
    if has_effect(op) {
        return Turn::Next(0);
    }
    turn_at(site, hand, op, iteration, registers)
}

fn last_of(registers: &[i64], count: usize) -> Worth
    requires { count ≤ length registers.now }
    ensures { IsWorth result (last_event (take count registers.now)) }
{
    if count == 0 {
        return Worth::Nothing;
    }
    Worth::Value(same(&registers[count - 1]))
}

fn value_of<H, S: Site<H>>(
    site: &S,
    hand: &mut H,
    ops: &[Micro],
    element: u32,
    iteration: u32,
    registers: &mut [i64],
) -> Worth
    requires belongs { S.belongs site.now hand.old }
    requires limits { (element < 1048576) × (length ops.now ≤ 1048576) }
    requires room { length ops.now ≤ length registers.old }
    requires may { MayLook (S.view site.now hand.old).may (calm_events (spot_of 0 element iteration) ops.now (S.view site.now hand.old).cells) }
    ensures worth { IsWorth result (calm_events (spot_of 0 element iteration) ops.now (S.view site.now hand.old).cells) }
    ensures same { S.view site.now hand.new ≡ S.view site.now hand.old }
    ensures long { length registers.new ≡ length registers.old }
    ensures belongs { S.belongs site.now hand.new }
{
    for at in 0..ops.len() {
        let turn = calm_turn_at(site, hand, &ops[at], iteration, &registers[..at]);
        match &turn {
            Turn::Next(value) => registers[at] = same(value),
            Turn::Shut => return Worth::Nothing,
            Turn::Fails(name) => return Worth::Fault(key_of(0, at as u32, element, *name)),
            Turn::Does(_) => registers[at] = 0,
        }
    }
    last_of(registers, ops.len())
}

/// One iteration of a Part: its value, or the fault that ends its ops. Nothing is stored.
pub fn value_at<H, S: Site<H>>(
    site: &S,
    hand: &mut H,
    act: &Act,
    iteration: u32,
    registers: &mut [i64],
) -> Worth
    requires belongs { S.belongs site.now hand.old }
    requires limits { (iteration < 65536) × (length act.now.ops ≤ 1048576) }
    requires room { length act.now.ops ≤ length registers.old }
    requires may { MayLook (S.view site.now hand.old).may (value_events act.now (S.view site.now hand.old).cells iteration) }
    ensures worth { IsWorth result (value_events act.now (S.view site.now hand.old).cells iteration) }
    ensures same { S.view site.now hand.new ≡ S.view site.now hand.old }
    ensures long { length registers.new ≡ length registers.old }
    ensures belongs { S.belongs site.now hand.new }
{
    let element = element_of(act, iteration);
    value_of(
        site,
        hand,
        act.ops.as_slice(),
        element,
        iteration,
        registers,
    )
}
