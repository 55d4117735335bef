//! The board, and what a member steps with.

ghost use Rattle.std.specs.Prelude.{◌≡◌, ◌+◌, ◌*◌, ◌^◌, ◌<◌, ◌≤◌, [], length, slice_set};
ghost use Rattle.std.specs.Int.{w64, cast_signed};
ghost use Rattle.phase_ops.specs.Phases.{register as register_at, word};
ghost use Rattle.phase_board.specs.Rule.{IsKnown};

use crate::plays::{Keeping, Run, View};
use atomic_table::{Seat, Table};
use phase_ops::PhaseList;
use std::alloc::Global;
use std::marker::Model;
use std::mem;
use std::snapshot::Snapshot;
use team_core::{CellList, MemberState};

pub type Words = Table<(), View, Snapshot<Run>, Keeping, Global>;

/// What a board keeps for its end, so that it takes no memory then.
#[derive(Drop)]
pub struct Spare {
    pub(crate) closing: CellList,
    pub(crate) cells: CellList,
    pub(crate) finished: CellList,
    pub(crate) registers: Vec<i64>,
    pub(crate) alloc: Global,
    pub(crate) regions: u64,
    pub(crate) units: u64,
}

/// A region that runs: an unused word, the cells, and four words for each phase.
#[derive(Drop)]
pub struct Board {
    pub(crate) run: Run,
    pub(crate) table: Words,
    pub(crate) spare: Spare,
    ghost keyed: { table.shared.key.value ≡ run },
    ghost slotless: { table.shared.table_id.slots ≡ 0 },
    ghost sized: { (table.shared.table_id.words ≡ 1 + length run.opening + 4 * length run.phases) × (length run.opening < 2 ^ 32) × (length run.phases ≤ 512) × (0 < run.team) × (run.team ≤ 64) },
    ghost spared: { (length spare.closing ≡ length run.opening) × (length spare.cells ≡ length run.opening) × (length spare.finished ≡ length run.phases) × (length spare.registers.items ≡ 1048576) × (spare.regions < 2 ^ 60) × (spare.units < 2 ^ 60) },
}

/// So many words are more than a line of a processor's cache and the one that is fetched with it.
pub(crate) const LINES: usize = 16;

/// A member's token. Its last field is unused: it keeps what two members write on lines of their own.
#[derive(Drop)]
pub struct Pass {
    pub(crate) member: u32,
    pub(crate) phase: u32,
    pub(crate) state: MemberState,
    pub(crate) full: bool,
    pub(crate) seat: Seat<(), View>,
    pub(crate) registers: Vec<i64>,
    pub(crate) alloc: Global,
    pub(crate) apart: [u64; LINES],
}

impl Model for Pass {
    ghost use Rattle.std.specs.Prelude.{◌≡◌, ◌≢◌, ◌<◌, ◌≤◌, [], length};
    ghost use Rattle.team_core.specs.declared.member.MemberState.TheVariants.{Ended};
    ghost use Rattle.phase_board.specs.declared.plays.Role.TheVariants.{Of};
    ghost use Rattle.phase_board.specs.Rule.{view as view_with, IsKnown};
    ghost use Rattle.phase_board.specs.Held.{Held};

    ghost Value = { Held };

    ghost view = { λ p. record { table = p.seat.table_id; run = p.seat.me.0.run; member = p.member; phase = p.phase; state = p.state; full = p.full; sights = p.seat.me.0.sights; registers = p.registers.items } };

    ghost invariant = { λ p. (p.seat.me ≡ (view_with p.seat.me.0.run (Of p.member p.phase p.state p.full) p.seat.me.0.sights, [])) × (p.state ≢ Ended → p.phase < length p.seat.me.0.run.phases) × (length p.seat.me.0.run.phases ≤ 512) × IsKnown p.seat.me.0.run p.phase p.state };
}

impl Board {
    pub fn phases(&self) -> &PhaseList
        ensures { result.now ≡ self.now.run.phases }
    {
        &self.run.phases
    }

    pub fn team(&self) -> u32
        ensures { result ≡ self.now.run.team }
    {
        self.run.team
    }

    pub fn chunk(&self) -> u32
        ensures { result ≡ self.now.run.chunk }
    {
        self.run.chunk
    }
}

impl Pass {
    pub fn member(&self) -> u32
        ensures { result ≡ self.now.member }
    {
        self.member
    }

    pub fn phase(&self) -> u32
        ensures { result ≡ self.now.phase }
    {
        self.phase
    }

    /// The state, and what is known in it.
    pub fn state(&self) -> MemberState
        ensures value { result ≡ self.now.state }
        ensures known { IsKnown self.now.run self.now.phase self.now.state }
    {
        self.state
    }

    /// Whether the pass has seen its barrier full.
    pub fn marked(&self) -> bool
        ensures { result ≡ self.now.full }
    {
        self.full
    }

    pub fn register(&self, at: u32) -> u64
        requires { at < length self.now.registers }
        ensures { result ≡ word (register_at self.now.registers at) }
    {
        self.registers[at as usize].cast_unsigned()
    }

    pub fn set_register(&mut self, at: u32, value: u64)
        requires { at < length self.old.registers }
        ensures { self.new ≡ record self.old { registers = slice_set self.old.registers at (cast_signed w64 value) } }
    {
        self.registers[at as usize] = value.cast_signed();
    }

    /// The registers, which the pass lacks until they are given back.
    pub fn take_registers(&mut self) -> Vec<i64>
        ensures registers { result.items ≡ self.old.registers }
        ensures left { self.new ≡ record self.old { registers = [] } }
    {
        let none = Vec::new(self.alloc);
        mem::replace(&mut self.registers, none)
    }

    pub fn give_registers(&mut self, registers: Vec<i64>)
        ensures { self.new ≡ record self.old { registers = registers.items } }
    {
        self.registers = registers;
    }
}
