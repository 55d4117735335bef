//! A copy of the cells, over which strands are tried.

ghost use Rattle.std.specs.Prelude.{◌≡◌, ℕ, suc, ◌<◌, ◌≤◌, ◌^◌, Some, None, cond, eqb, length, slice_index, slice_set, IfOk};
ghost use Rattle.phase_ops.specs.Phases.{over};
ghost use Rattle.team_core.specs.Scratches.{openings, seen_cells, InRounds, IsFresh};

use phase_ops::Effect;
use sqlite_items::Items;
use std::alloc::{AllocError, Global};

pub type ScratchList = Items<ScratchCell>;

/// A cell as it was when its phase began, and as the strand of a round has left it.
#[derive(Clone, Copy)]
pub struct ScratchCell {
    pub opening: u64,
    pub own: u64,
    pub round: u64,
}

const UNTOUCHED: ScratchCell = ScratchCell {
    opening: 0,
    own: 0,
    round: 0,
};

/// A copy of the cells, where one strand after the other is tried over the start of its phase, and the effect of the number
/// `wanted` is looked for. What a strand stores counts in its own round alone, so that nothing has to be put back.
#[derive(Drop)]
pub struct Scratch {
    pub cells: ScratchList,
    pub round: u64,
    pub seen: u64,
    pub wanted: u64,
    pub found: Option<Effect>,
}

impl Scratch {
    pub fn new(alloc: Global, cells: usize) -> Result<Scratch, AllocError>
        ensures { IfOk result (λ s. length s.cells ≡ cells) }
    {
        let cells = ScratchList::from_vec(vec![in alloc; UNTOUCHED; cells]?);
        Ok(Scratch {
            cells,
            round: 0,
            seen: 0,
            wanted: 0,
            found: None,
        })
    }

    /// A phase begins over these cells.
    pub fn open(&mut self, cells: &[u64])
        requires { length cells.now ≡ length self.old.cells }
        ensures opening { openings self.new.cells ≡ cells.now }
        ensures rounds { InRounds self.new.cells self.new.round }
        ensures small { length self.new.cells < 2 ^ 63 }
    {
        let count = cells.len();
        self.round = 0;
        for at in 0..count {
            let cell = ScratchCell {
                opening: cells[at],
                own: 0,
                round: 0,
            };
            self.cells.set(at, cell);
        }
    }

    /// No cell is of any round.
    fn forget(&mut self)
        ensures opening { openings self.new.cells ≡ openings self.old.cells }
        ensures rounds { InRounds self.new.cells self.new.round }
        ensures first { self.new.round ≡ 0 }
    {
        self.round = 0;
        for at in 0..self.cells.len() {
            let cell = ScratchCell {
                opening: self.cells.as_slice()[at].opening,
                own: 0,
                round: 0,
            };
            self.cells.set(at, cell);
        }
    }

    /// There is one more number for a round.
    fn make_room(&mut self)
        requires { InRounds self.old.cells self.old.round }
        ensures opening { openings self.new.cells ≡ openings self.old.cells }
        ensures rounds { InRounds self.new.cells self.new.round }
        ensures room { self.new.round < 18446744073709551615 }
    {
        if self.round == u64::MAX {
            self.forget();
        }
    }

    /// Another strand begins, whose effect of this number is looked for.
    pub fn begin(&mut self, wanted: u64)
        requires { InRounds self.old.cells self.old.round }
        ensures opening { openings self.new.cells ≡ openings self.old.cells }
        ensures rounds { InRounds self.new.cells self.new.round }
        ensures fresh { IsFresh self.new wanted }
    {
        self.make_room();
        self.round += 1;
        self.seen = 0;
        self.wanted = wanted;
        self.found = None;
    }

    /// The cell's value, as the strand sees it.
    pub fn value(&self, cell: u64) -> u64
        requires { cell < length self.now.cells }
        ensures { result ≡ slice_index (seen_cells self.now) cell }
    {
        let here = self.cells.as_slice()[cell as usize];
        if here.round == self.round {
            here.own
        } else {
            here.opening
        }
    }

    fn store(&mut self, cell: u64, value: u64)
        requires { InRounds self.old.cells self.old.round }
        ensures seen { seen_cells self.new ≡ slice_set (seen_cells self.old) cell value }
        ensures opening { openings self.new.cells ≡ openings self.old.cells }
        ensures rounds { InRounds self.new.cells self.new.round }
        ensures same { (self.new.round ≡ self.old.round) × (self.new.seen ≡ self.old.seen) × (self.new.wanted ≡ self.old.wanted) × (self.new.found ≡ self.old.found) }
    {
        if cell < self.cells.len() as u64 {
            let round = self.round;
            let stored = ScratchCell {
                opening: self.cells.as_slice()[cell as usize].opening,
                own: value,
                round,
            };
            self.cells.set(cell as usize, stored);
        }
    }

    fn lessen(&mut self, cell: u64, value: u64)
        requires { InRounds self.old.cells self.old.round }
        ensures seen { seen_cells self.new ≡ over (Effect.Least cell value) (seen_cells self.old) }
        ensures opening { openings self.new.cells ≡ openings self.old.cells }
        ensures rounds { InRounds self.new.cells self.new.round }
        ensures same { (self.new.round ≡ self.old.round) × (self.new.seen ≡ self.old.seen) × (self.new.wanted ≡ self.old.wanted) × (self.new.found ≡ self.old.found) }
    {
        if cell < self.cells.len() as u64 {
            let old = self.value(cell);
            self.store(cell, old.min(value));
        }
    }

    fn count(&mut self, effect: Effect)
        requires { self.old.seen < 2 ^ 63 }
        ensures cells { (self.new.cells ≡ self.old.cells) × (self.new.round ≡ self.old.round) }
        ensures seen { (self.new.seen ≡ suc self.old.seen) × (self.new.wanted ≡ self.old.wanted) }
        ensures found { self.new.found ≡ cond (eqb self.old.seen self.old.wanted) (Some effect) self.old.found }
    {
        if self.seen == self.wanted {
            self.found = Some(effect);
        }
        self.seen += 1;
    }

    /// The strand's next effect.
    pub fn act(&mut self, effect: Effect)
        requires rounds { InRounds self.old.cells self.old.round }
        requires room { self.old.seen < 2 ^ 63 }
        ensures cells { seen_cells self.new ≡ over effect (seen_cells self.old) }
        ensures opening { openings self.new.cells ≡ openings self.old.cells }
        ensures rounds { InRounds self.new.cells self.new.round }
        ensures seen { (self.new.seen ≡ suc self.old.seen) × (self.new.wanted ≡ self.old.wanted) }
        ensures found { self.new.found ≡ cond (eqb self.old.seen self.old.wanted) (Some effect) self.old.found }
    {
        self.count(effect);
        match effect {
            Effect::Store(cell, value) => self.store(cell, value),
            Effect::Least(cell, value) => self.lessen(cell, value),
            Effect::Fault(_) => {}
        }
    }
}
