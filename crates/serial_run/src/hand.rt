//! What one thread has while it runs a phase.

ghost use Rattle.std.specs.Prelude.{◌≡◌, suc, ◌<◌, ◌^◌, length, slice_index, slice_set};
ghost use Rattle.phase_ops.specs.Phases.{over};
ghost use Rattle.serial_run.specs.Hands.{key_after};

use phase_ops::Effect;
use team_core::CellList;

/// The cells, the least key that was noted, and how many effects are done.
#[derive(Drop)]
pub struct Hand {
    pub cells: CellList,
    pub key: u64,
    pub done: u64,
}

impl Hand {
    pub fn value(&self, cell: u64) -> u64
        requires { cell < length self.now.cells }
        ensures { result ≡ slice_index self.now.cells cell }
    {
        self.cells.as_slice()[cell as usize]
    }

    fn store(&mut self, cell: u64, value: u64)
        ensures cells { self.new.cells ≡ slice_set self.old.cells cell value }
        ensures same { (self.new.key ≡ self.old.key) × (self.new.done ≡ self.old.done) }
    {
        if cell < self.cells.len() as u64 {
            self.cells.set(cell as usize, value);
        }
    }

    fn lessen(&mut self, cell: u64, value: u64)
        ensures cells { self.new.cells ≡ over (Effect.Least cell value) self.old.cells }
        ensures same { (self.new.key ≡ self.old.key) × (self.new.done ≡ self.old.done) }
    {
        if cell < self.cells.len() as u64 {
            let old = self.value(cell);
            self.store(cell, old.min(value));
        }
    }

    /// Does one effect.
    pub fn act(&mut self, effect: Effect)
        requires { self.old.done < 2 ^ 63 }
        ensures cells { self.new.cells ≡ over effect self.old.cells }
        ensures key { self.new.key ≡ key_after effect self.old.key }
        ensures done { self.new.done ≡ suc self.old.done }
    {
        self.done += 1;
        match effect {
            Effect::Store(cell, value) => self.store(cell, value),
            Effect::Least(cell, value) => self.lessen(cell, value),
            Effect::Fault(key) => self.key = self.key.min(key),
        }
    }
}
