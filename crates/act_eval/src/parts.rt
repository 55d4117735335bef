//! A unit of a Part: its iterations, and the partial that it stores.

ghost use Rattle.std.specs.Prelude.{◌≡◌, ℕ, ◌+◌, ◌-◌, ◌≤◌, ◌<◌, List, ◌∷◌, ◌++◌, length, ℤ};
ghost use Rattle.std.specs.Int.{w64};
ghost use Rattle.std.proofs.Common.{FitsSigned};
ghost use Rattle.ws_base.specs.Numbers.{default_half};
ghost use Rattle.phase_ops.specs.declared.effect.Effect.{Effect};
ghost use Rattle.phase_ops.specs.Partials.{part_of};
ghost use Rattle.scan_parts.specs.Laws.{MayMerge};
ghost use Rattle.phase_ops.specs.Phases.{Event, each_from, value_events, summed};
ghost use Rattle.act_eval.specs.declared.site.Worth.TheVariants as spec_worth;
ghost use Rattle.act_eval.specs.Sites.{MayLook, IsWorth, IsFound, Led, part_given};
ghost use Rattle.act_eval.specs.Strands.{PartBegins};

use crate::ops::same;
use crate::site::{Site, Worth};
use crate::values::value_at;
use phase_ops::{Act, Effect};
use scan_parts::Merge;

/// Puts what an iteration gives in front of what later ones have given.
fn add<M: Merge>(worth: Worth, part: M, least: u64) -> (M, u64)
    requires fits { (z : ℤ) → worth ≡ spec_worth.Value z → MayMerge M.kind (part_of default_half M.kind z) (M.part part) }
    ensures { (here later : List Event) → IsWorth worth here → IsFound M.kind least (M.part part) later → IsFound M.kind result.1 (M.part result.0) (here ++ later) }
{
    match &worth {
        Worth::Value(value) => (M::of(same(value)).merge(part), least),
        Worth::Nothing => (part, least),
        Worth::Fault(key) => (part, (*key).min(least)),
    }
}

/// The partial of the iterations and the least key of their faults, from the last iteration on.
fn found_in<M: Merge, H, S: Site<H>>(
    site: &S,
    hand: &mut H,
    act: &Act,
    from: u32,
    count: u32,
    registers: &mut [i64],
) -> (M, u64)
    requires belongs { S.belongs site.now hand.old }
    requires limits { (from + count ≤ 65536) × (length act.now.ops ≤ 1048576) }
    requires room { length act.now.ops ≤ length registers.old }
    requires may { (i : ℕ) → i < count → MayLook (S.view site.now hand.old).may (value_events act.now (S.view site.now hand.old).cells (from + i)) }
    requires fits { (k : ℕ) → k ≤ count → FitsSigned w64 (part_given M.kind (each_from (value_events act.now (S.view site.now hand.old).cells) (from + (count - k)) k)) }
    ensures found { IsFound M.kind result.1 (M.part result.0) (each_from (value_events act.now (S.view site.now hand.old).cells) from count) }
    ensures same { S.view site.now hand.new ≡ S.view site.now hand.old }
    ensures long { length registers.new ≡ length registers.old }
    ensures belongs { S.belongs site.now hand.new }
{
    let mut part = M::unit();
    let mut least = u64::MAX;
    for at in 0..count {
        let iteration = from + (count - 1 - at);
        let worth = value_at(site, hand, act, iteration, registers);
        (part, least) = add(worth, part, least);
    }
    (part, least)
}

/// The iterations `from` to `from + count - 1` as one unit, which goes on after an iteration that faults. The fault of the least
/// key is its one effect, or else the partial of the values, which the cell gets.
pub fn run_part<M: Merge, H, S: Site<H>>(
    site: &S,
    hand: &mut H,
    act: &Act,
    from: u32,
    count: u32,
    cell: u64,
    registers: &mut [i64],
) -> M
    requires belongs { S.belongs site.now hand.old }
    requires limits { (from + count ≤ 65536) × (length act.now.ops ≤ 1048576) }
    requires room { length act.now.ops ≤ length registers.old }
    requires begins { (more : List Effect) × PartBegins (S.view site.now hand.old) M.kind act.now from count cell more }
    ensures led { Led (S.view site.now hand.old) (S.view site.now hand.new) }
    ensures left { (more : List Effect) → PartBegins (S.view site.now hand.old) M.kind act.now from count cell more → (S.view site.now hand.new).left ≡ more }
    ensures part { M.part result ≡ part_given M.kind (each_from (value_events act.now (S.view site.now hand.old).cells) from count) }
    ensures long { length registers.new ≡ length registers.old }
    ensures belongs { S.belongs site.now hand.new }
{
    let (part, least): (M, u64) = found_in(site, hand, act, from, count, registers);
    let effect = if least < u64::MAX {
        Effect::Fault(least)
    } else {
        Effect::Store(cell, part.cell())
    };
    site.act(hand, effect);
    part
}
