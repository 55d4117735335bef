//! The loads and effects of a unit on a board.

use act_eval::Site;
use phase_board::{Board, Pass};
use phase_ops::Effect;
use std::marker::{Brand, PhantomData};

/// The pass that runs a unit, as proofs know it.
pub trait Runs {
    ghost use Rattle.unit_eval.specs.Sites.{Claimed};

    ghost claimed: { Claimed };
}

impl Runs for Brand {
    ghost use Rattle.unit_eval.specs.Sites.{nobody};

    ghost claimed = { nobody };
}

/// A board where a pass runs its unit.
#[derive(Drop)]
pub struct UnitSite<'a, K> {
    pub board: &'a Board,
    pub of: PhantomData<K>,
}

impl<K: Runs> Site<Pass> for UnitSite<'_, K> {
    ghost use Rattle.unit_eval.specs.Sites.{view_of, Belongs, Holds};

    ghost view = { λ s p. view_of p };

    ghost belongs = { λ s p. Belongs s.board.now p × Holds K.claimed p };

    #[inline(always)]
    fn look(&self, hand: &mut Pass, cell: u64) -> u64 {
        self.board.look(hand, cell as u32)
    }

    #[inline(always)]
    fn act(&self, hand: &mut Pass, effect: Effect) {
        match effect {
            Effect::Store(cell, value) => self.board.put(hand, cell as u32, value),
            Effect::Least(cell, value) => self.board.least(hand, cell as u32, value),
            Effect::Fault(key) => self.board.note(hand, key),
        }
    }
}
