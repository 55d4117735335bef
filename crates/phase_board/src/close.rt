//! How a board ends.

ghost use Rattle.std.specs.Prelude.{◌≡◌, ℕ, suc, ◌+◌, ◌-◌, ◌*◌, ◌^◌, ◌<◌, ◌≤◌, length, slice_index, sum, MatchOption};
ghost use Rattle.std.specs.Mem.Slots.{slots_items, slots_len, IsFull};
ghost use Rattle.phase_ops.specs.Phases.{none_yet};
ghost use Rattle.phase_ops.specs.Faults.{HasKey, IsFaultOf};
ghost use Rattle.team_core.specs.Laws.{phase_at};
ghost use Rattle.phase_board.specs.Passes.{AllDone};
ghost use Rattle.phase_board.specs.Closed.{IsOutcome, finished_of};

use crate::board::{Board, Pass, Spare};
use crate::memory::Memory;
use crate::plays::{Glue, Run, View};
use atomic_table::{Closed, Seat};
use phase_ops::{PhaseList, fault_of};
use std::alloc::Global;
use team_core::CellList;
use ws_base::Fault;

/// What a region did. It is made by `gather` alone.
#[derive(Drop)]
pub struct ClosedBoard {
    pub(crate) run: Run,
    pub(crate) closing: CellList,
    pub(crate) finished: CellList,
    pub(crate) entered: u32,
    pub(crate) key: u64,
    ghost outcome: { IsOutcome run entered key closing finished },
}

/// How many phases were entered, and the key of the last.
fn outcome(closed: &Closed<(), Global>, cells: usize, phases: usize) -> (u32, u64)
    requires words { (slots_len closed.now.words ≡ 1 + cells + 4 * phases) × IsFull closed.now.words × (cells < 2 ^ 32) × (phases ≤ 512) }
    ensures within { result.0 ≤ phases }
    ensures most { result.1 ≤ none_yet }
    ensures earlier { (t : ℕ) → t + 1 < result.0 → none_yet ≤ slice_index (slots_items closed.now.words) (4 + cells + 4 * t) }
    ensures last { result.1 < none_yet → (t : ℕ) × (t + 1 ≡ result.0) × (slice_index (slots_items closed.now.words) (4 + cells + 4 * t) ≡ result.1) }
    ensures whole { none_yet ≤ result.1 → (result.0 ≡ phases) × ((t : ℕ) → t < phases → none_yet ≤ slice_index (slots_items closed.now.words) (4 + cells + 4 * t)) }
{
    for at in 0..phases {
        let key = closed.word(4 + cells + 4 * at);
        if key < u64::MAX {
            return (at as u32 + 1, key);
        }
    }
    (phases as u32, u64::MAX)
}

/// Reads so many words back, each `step` behind the last.
fn read_back(closed: &Closed<(), Global>, into: &mut CellList, first: usize, step: usize)
    requires words { ((k : ℕ) → k < length into.old → first + step * k < slots_len closed.now.words) × IsFull closed.now.words }
    requires small { (first < 2 ^ 33) × (length into.old < 2 ^ 32) × (1 ≤ step) × (step ≤ 4) }
    ensures length { length into.new ≡ length into.old }
    ensures words { (k : ℕ) → k < length into.old → slice_index into.new k ≡ slice_index (slots_items closed.now.words) (first + step * k) }
{
    for at in 0..into.len() {
        let word = closed.word(first + step * at);
        into.set(at, word);
    }
}

/// The sum of the numbers of finished units.
fn total(finished: &[u64]) -> u64
    requires { sum finished.now ≤ 33554432 }
    ensures value { result ≡ sum finished.now }
    ensures small { result ≤ 33554432 }
{
    finished.iter().sum()
}

impl Board {
    /// Joins the seats of the passes into one, which keeps its view.
    fn glue(&self, seat: &mut Seat<(), View>, mut passes: Vec<Pass>)
        requires { (seat.old.table_id ≡ self.now.table.shared.table_id) × AllDone self.now passes.items }
        ensures { (seat.new.table_id ≡ seat.old.table_id) × (seat.new.id ≡ seat.old.id) × (seat.new.me ≡ seat.old.me) }
    {
        for _ in 0..passes.len() {
            let Some(pass) = passes.pop() else {
                return;
            };
            let Pass {
                member: _,
                phase: _,
                state: _,
                full: _,
                seat: other,
                registers: _,
                alloc: _,
                apart: _,
            } = pass;
            self.table.shared.join_seat::<Glue>(seat, other);
        }
    }

    /// Joins the passes of all members, each Ended, and reads the words back. Takes no memory.
    pub fn gather(self, mut passes: Vec<Pass>) -> (Memory, ClosedBoard)
        requires passes { AllDone self passes.items }
        requires all { length passes.items ≡ self.run.team }
        ensures run { result.1.run ≡ self.run }
        ensures cells { result.0.cells ≡ result.1.closing }
        ensures counts { (result.0.regions ≡ suc self.spare.regions) × (result.0.units ≡ self.spare.units + sum result.1.finished) }
        ensures outcome { IsOutcome self.run result.1.entered result.1.key result.1.closing result.1.finished }
        ensures few { sum result.1.finished ≤ 33554432 }
    {
        let Some(last) = passes.pop() else {
            unreachable!()
        };
        let Pass {
            member: _,
            phase: _,
            state: _,
            full: _,
            mut seat,
            registers: _,
            alloc: _,
            apart: _,
        } = last;
        self.glue(&mut seat, passes);
        let Board { run, table, spare } = self;
        let Spare {
            mut closing,
            mut cells,
            mut finished,
            registers,
            alloc,
            regions,
            units,
        } = spare;
        let closed = table.close_with(seat);
        read_back(&closed, &mut closing, 1, 1);
        read_back(&closed, &mut cells, 1, 1);
        read_back(&closed, &mut finished, 2 + run.opening.len(), 4);
        let (entered, key) = outcome(&closed, run.opening.len(), run.phases.len());
        closed.free();
        let board = ClosedBoard {
            run,
            closing,
            finished,
            entered,
            key,
        };
        let memory = Memory {
            cells,
            registers,
            regions: regions + 1,
            units: units + total(board.finished.as_slice()),
            alloc,
        };
        (memory, board)
    }
}

impl ClosedBoard {
    /// The phases of the region.
    pub fn phases(&self) -> &PhaseList
        ensures { result.now ≡ self.now.run.phases }
    {
        &self.run.phases
    }

    /// The cells at its start.
    pub fn opening(&self) -> &CellList
        ensures { result.now ≡ self.now.run.opening }
    {
        &self.run.opening
    }

    /// The cells at its end.
    pub fn closing(&self) -> &CellList
        ensures { result.now ≡ self.now.closing }
    {
        &self.closing
    }

    pub fn team(&self) -> u32
        ensures { result ≡ self.now.run.team }
    {
        self.run.team
    }

    pub fn chunk(&self) -> u32
        ensures { result ≡ self.now.run.chunk }
    {
        self.run.chunk
    }

    /// How many phases were entered.
    pub fn entered(&self) -> u32
        ensures value { result ≡ self.now.entered }
        ensures outcome { IsOutcome self.now.run self.now.entered self.now.key self.now.closing self.now.finished }
    {
        self.entered
    }

    /// The key of the last phase that was entered, the greatest `u64` for none. Any other is one that `fault_of` takes with
    /// that phase.
    pub fn key(&self) -> u64
        ensures value { result ≡ self.now.key }
        ensures stands { result < none_yet → (0 < self.now.entered) × HasKey (phase_at self.now.run.phases (self.now.entered - 1)) result }
        ensures outcome { IsOutcome self.now.run self.now.entered self.now.key self.now.closing self.now.finished }
    {
        self.key
    }

    /// The fault that ended the region, where one did: that of the last phase's key.
    pub fn fault(&self) -> Option<Fault>
        ensures { MatchOption result (self.now.key ≡ none_yet) (λ f. (self.now.key < none_yet) × IsFaultOf (phase_at self.now.run.phases (self.now.entered - 1)) self.now.key f) }
    {
        let key = self.key();
        if key < u64::MAX {
            let phases = self.run.phases.as_slice();
            let at = self.entered as usize - 1;
            return Some(fault_of(&phases[at], key));
        }
        None
    }

    /// How many units of a phase were finished: all, where it was entered, and else none.
    pub fn finished(&self, phase: u32) -> u64
        requires { phase < length self.now.run.phases }
        ensures value { result ≡ slice_index self.now.finished phase }
        ensures units { result ≡ finished_of self.now.run self.now.entered phase }
    {
        self.finished.as_slice()[phase as usize]
    }

    /// The phases, and the cells at the start and at the end.
    pub fn take_apart(self) -> (PhaseList, CellList, CellList)
        ensures { result ≡ (self.run.phases, self.run.opening, self.closing) }
    {
        let ClosedBoard {
            run,
            closing,
            finished: _,
            entered: _,
            key: _,
        } = self;
        let (phases, opening) = run.into_parts();
        (phases, opening, closing)
    }
}
