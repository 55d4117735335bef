//! Where the effects of a unit go.

ghost use Rattle.std.specs.Prelude.{◌≡◌, ◌∷◌, List, slice_index};
ghost use Rattle.phase_ops.specs.declared.effect.Effect.{Effect};
ghost use Rattle.phase_ops.specs.Phases.{over};
ghost use Rattle.phase_ops.specs.Free.{In};
ghost use Rattle.act_eval.specs.Sites.{Small};

use phase_ops::Effect;

/// Where a unit's loads and effects go: the memory of a single thread, a copy of it, or a board that a team shares. The hand is
/// what the member itself keeps.
pub trait Site<H> {
    ghost use Rattle.act_eval.specs.Sites.{View};

    ghost view: { Self → H → View };

    ghost belongs: { Self → H → Type 0 };

    /// The value of a cell that may be read.
    fn look(&self, hand: &mut H, cell: u64) -> u64
        requires belongs { belongs self.now hand.old }
        requires may { In cell (view self.now hand.old).may × Small cell }
        ensures value { result ≡ slice_index (view self.now hand.old).cells cell }
        ensures same { view self.now hand.new ≡ view self.now hand.old }
        ensures belongs { belongs self.now hand.new };

    /// Does the next effect.
    fn act(&self, hand: &mut H, effect: Effect)
        requires belongs { belongs self.now hand.old }
        requires next { (more : List Effect) × ((view self.now hand.old).left ≡ effect ∷ more) }
        ensures done { (more : List Effect) → (view self.now hand.old).left ≡ effect ∷ more
            → view self.now hand.new ≡ record { left = more; cells = over effect (view self.now hand.old).cells; may = (view self.now hand.old).may } }
        ensures belongs { belongs self.now hand.new };
}

/// How the ops of an act ended: all ran, a gate was shut, or one failed.
#[derive(Clone, Copy, Debug, PartialEq, Eq)]
pub enum End {
    Ran,
    Closed,
    Failed,
}

/// What an iteration of a Part gives: its value, nothing behind a gate that is shut, or the key of its fault.
#[derive(Clone, Copy, Debug, PartialEq, Eq)]
pub enum Worth {
    Value(i64),
    Nothing,
    Fault(u64),
}
