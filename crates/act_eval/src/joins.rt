//! A Join: the partials of the units before it, and the total that it stores.

ghost use Rattle.std.specs.Prelude.{◌≡◌, ℕ, ◌+◌, ◌-◌, ◌≤◌, ◌<◌, IsTrue, List, ◌∷◌, map};
ghost use Rattle.std.specs.Int.{w64};
ghost use Rattle.std.proofs.Common.{FitsSigned};
ghost use Rattle.ws_base.specs.Numbers.{default_half};
ghost use Rattle.phase_ops.specs.declared.effect.Effect.{Effect};
ghost use Rattle.phase_ops.specs.Partials.{adds, merged, total};
ghost use Rattle.phase_ops.specs.Phases.{cell_value, partial_cells, joined};
ghost use Rattle.phase_ops.specs.Free.{In};
ghost use Rattle.act_eval.specs.Sites.{Small, Led};
ghost use Rattle.act_eval.specs.Strands.{JoinBegins};

use crate::site::Site;
use phase_ops::Effect;
use scan_parts::Merge;

/// The partial of all that these cells hold, from the last cell on.
fn merged_cells<M: Merge, H, S: Site<H>>(site: &S, hand: &mut H, first: u32, count: u32) -> M
    requires belongs { S.belongs site.now hand.old }
    requires may { (k : ℕ) → k < count → In (first + k) (S.view site.now hand.old).may }
    requires fits { IsTrue (adds M.kind) → (k : ℕ) → k ≤ count → FitsSigned w64 (merged default_half M.kind (map (cell_value (S.view site.now hand.old).cells) (partial_cells (first + (count - k)) k))) }
    ensures value { M.part result ≡ merged default_half M.kind (map (cell_value (S.view site.now hand.old).cells) (partial_cells first count)) }
    ensures same { S.view site.now hand.new ≡ S.view site.now hand.old }
    ensures belongs { S.belongs site.now hand.new }
{
    let mut part = M::unit();
    for at in 0..count {
        let cell = u64::from(first) + u64::from(count - 1 - at);
        let value = site.look(hand, cell);
        part = M::of_cell(value).merge(part);
    }
    part
}

fn effect_of<M: Merge>(part: M, slot: u32) -> Effect
    ensures { result ≡ joined slot (total default_half M.kind (M.part part)) }
{
    match part.total() {
        Ok(value) => Effect::Store(u64::from(slot), value.cast_unsigned()),
        Err(name) => Effect::Fault(u64::from(name.number())),
    }
}

/// Merges the partials of `count` cells, and stores the total in the cell `slot`, or faults where it is out of range.
pub fn run_join<M: Merge, H, S: Site<H>>(
    site: &S,
    hand: &mut H,
    first: u32,
    count: u32,
    slot: u32,
) -> M
    requires belongs { S.belongs site.now hand.old }
    requires begins { (more : List Effect) × JoinBegins (S.view site.now hand.old) M.kind first count slot more }
    ensures led { Led (S.view site.now hand.old) (S.view site.now hand.new) }
    ensures left { (more : List Effect) → JoinBegins (S.view site.now hand.old) M.kind first count slot more → (S.view site.now hand.new).left ≡ more }
    ensures part { M.part result ≡ merged default_half M.kind (map (cell_value (S.view site.now hand.old).cells) (partial_cells first count)) }
    ensures belongs { S.belongs site.now hand.new }
{
    let part: M = merged_cells(site, hand, first, count);
    let effect = effect_of(part, slot);
    site.act(hand, effect);
    part
}
