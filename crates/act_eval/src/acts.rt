//! The acts of an iteration.

ghost use Rattle.std.specs.Prelude.{◌≡◌, ℕ, suc, ◌+◌, ◌*◌, ◌≤◌, ◌<◌, ◌↔◌, IsTrue, cond, List, [], length, take, slice_index_or};
ghost use Rattle.phase_ops.specs.declared.effect.Effect.{Effect};
ghost use Rattle.phase_ops.specs.declared.phase.Act.{Act};
ghost use Rattle.phase_ops.specs.Phases.{ops_events, acts_events};
ghost use Rattle.act_eval.specs.declared.site.End.TheVariants as spec_end;
ghost use Rattle.act_eval.specs.Sites.{Comes, Rest, spot_of, Ended, Led};

use crate::ops::{key_of, same, turn_at};
use crate::site::{End, Site};
use phase_ops::{Act, Effect, Micro, Turn};

/// The ops of one act at one iteration, in order.
#[inline(always)]
pub fn run_ops<H, S: Site<H>>(
    site: &S,
    hand: &mut H,
    ops: &[Micro],
    act: u32,
    element: u32,
    iteration: u32,
    registers: &mut [i64],
) -> End
    requires belongs { S.belongs site.now hand.old }
    requires limits { (act < 1048576) × (element < 1048576) × (length ops.now ≤ 1048576) }
    requires room { length ops.now ≤ length registers.old }
    requires comes { (rest : Rest) × (more : List Effect) × Comes (S.view site.now hand.old) (ops_events (spot_of act element iteration) ops.now (S.view site.now hand.old).cells [] rest) more }
    ensures same { length registers.new ≡ length registers.old }
    ensures led { Led (S.view site.now hand.old) (S.view site.now hand.new) }
    ensures ended { (rest : Rest) (more : List Effect) → Comes (S.view site.now hand.old) (ops_events (spot_of act element iteration) ops.now (S.view site.now hand.old).cells [] rest) more
        → Ended (S.view site.now hand.new) (take (length ops.now) registers.new) rest more result }
    ensures belongs { S.belongs site.now hand.new }
{
    for at in 0..ops.len() {
        let turn = turn_at(site, hand, &ops[at], iteration, &registers[..at]);
        match &turn {
            Turn::Next(value) => registers[at] = same(value),
            Turn::Shut => return End::Closed,
            Turn::Fails(name) => {
                site.act(hand, Effect::Fault(key_of(act, at as u32, element, *name)));
                return End::Failed;
            }
            Turn::Does(effect) => {
                site.act(hand, *effect);
                registers[at] = 0;
            }
        }
    }
    End::Ran
}

#[inline(always)]
fn is_failed(end: End) -> bool
    ensures { IsTrue result ↔ (end ≡ spec_end.Failed) }
{
    matches!(end, End::Failed)
}

#[inline(always)]
pub fn element_of(act: &Act, iteration: u32) -> u32
    requires { iteration < 65536 }
    ensures value { result ≡ cond act.now.whole 0 (suc iteration) }
    ensures small { result ≤ 65536 }
{
    if act.whole { 0 } else { iteration + 1 }
}

/// The acts of one strand, in order, up to the first that fails.
#[inline(always)]
pub fn run_acts<H, S: Site<H>>(
    site: &S,
    hand: &mut H,
    acts: &[Act],
    iteration: u32,
    registers: &mut [i64],
)
    requires belongs { S.belongs site.now hand.old }
    requires limits { (iteration < 65536) × (length acts.now < 1048576) }
    requires room { (at : ℕ) (d : Act) → at < length acts.now → (length (slice_index_or acts.now at d).ops ≤ length registers.old) × (length (slice_index_or acts.now at d).ops ≤ 1048576) }
    requires comes { (more : List Effect) × Comes (S.view site.now hand.old) (acts_events iteration 0 acts.now (S.view site.now hand.old).cells) more }
    ensures same { length registers.new ≡ length registers.old }
    ensures led { Led (S.view site.now hand.old) (S.view site.now hand.new) }
    ensures left { (more : List Effect) → Comes (S.view site.now hand.old) (acts_events iteration 0 acts.now (S.view site.now hand.old).cells) more → (S.view site.now hand.new).left ≡ more }
    ensures belongs { S.belongs site.now hand.new }
{
    for at in 0..acts.len() {
        let act = &acts[at];
        let element = element_of(act, iteration);
        let end = run_ops(
            site,
            hand,
            act.ops.as_slice(),
            at as u32,
            element,
            iteration,
            registers,
        );
        if is_failed(end) {
            return;
        }
    }
}
