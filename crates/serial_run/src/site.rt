//! The loads and effects of a unit over the cells of one thread.

use crate::hand::Hand;
use act_eval::Site;
use phase_ops::Effect;
use std::marker::{Brand, PhantomData};

/// The unit that is run, as proofs know it.
pub trait Runs {
    ghost use Rattle.serial_run.specs.Hands.{Order};

    ghost order: { Order };
}

impl Runs for Brand {
    ghost use Rattle.std.specs.Prelude.{[]};

    ghost order = { record { effects = []; may = []; opening = [] } };
}

/// Loads come from the hand's cells, and effects go to them.
#[derive(Drop)]
pub struct SerialSite<K> {
    pub of: PhantomData<K>,
}

impl<K: Runs> Site<Hand> for SerialSite<K> {
    ghost use Rattle.std.specs.Prelude.{drop};
    ghost use Rattle.serial_run.specs.Hands.{IsAt};

    ghost view = { λ site hand. record { left = drop hand.done K.order.effects; cells = hand.cells; may = K.order.may } };

    ghost belongs = { λ site hand. IsAt K.order hand };

    fn look(&self, hand: &mut Hand, cell: u64) -> u64 {
        hand.value(cell)
    }

    fn act(&self, hand: &mut Hand, effect: Effect) {
        hand.act(effect);
    }
}
