//! The cells between regions.

ghost use Rattle.std.specs.Prelude.{◌≡◌, ◌<◌, ◌^◌, [], length, replicate, slice_index, slice_set, IfOk};
ghost use Rattle.std.specs.Borrow.{sem};
ghost use Rattle.std.specs.Int.{w64, cast_signed};
ghost use Rattle.phase_ops.specs.Phases.{register as register_at, word};

use std::alloc::{AllocError, Global};
use std::marker::Model;
use std::mem;
use team_core::CellList;

/// The registers of a memory, enough for the longest act.
pub(crate) const REGISTERS: usize = 1_048_576;

/// Cells, the registers of a phase that one thread runs, and how many regions were run and units finished.
#[derive(Drop)]
pub struct Memory {
    pub(crate) cells: CellList,
    pub(crate) registers: Vec<i64>,
    pub(crate) regions: u64,
    pub(crate) units: u64,
    pub(crate) alloc: Global,
}

impl Model for Memory {
    ghost use Rattle.std.specs.Prelude.{◌≡◌, ◌<◌, ◌^◌, length};
    ghost use Rattle.phase_board.specs.Memories.{Parts};

    ghost Value = { Parts };

    ghost view = { λ m. record { cells = m.cells; registers = m.registers.items; regions = m.regions; units = m.units } };

    ghost invariant = { λ m. (length m.cells < 2 ^ 32) × (length m.registers.items ≡ 1048576) };
}

impl Memory {
    ghost use Rattle.phase_board.specs.Lending.{LendsRegisters};

    /// So many cells, all 0.
    pub fn new(alloc: Global, cells: u32) -> Result<Memory, AllocError>
        ensures cells { IfOk result (λ m. m.cells ≡ replicate cells 0) }
        ensures counts { IfOk result (λ m. (m.regions ≡ 0) × (m.units ≡ 0)) }
    {
        let cells = CellList::from_vec(vec![in alloc; 0; cells as usize]?);
        let registers = vec![in alloc; 0; REGISTERS]?;
        Ok(Memory {
            cells,
            registers,
            regions: 0,
            units: 0,
            alloc,
        })
    }

    pub fn get(&self, cell: u32) -> u64
        requires { cell < length self.now.cells }
        ensures { result ≡ slice_index self.now.cells cell }
    {
        self.cells.as_slice()[cell as usize]
    }

    pub fn set(&mut self, cell: u32, value: u64)
        requires { cell < length self.old.cells }
        ensures { self.new ≡ record self.old { cells = slice_set self.old.cells cell value } }
    {
        self.cells.set(cell as usize, value);
    }

    pub fn register(&self, at: u32) -> u64
        requires { at < length self.now.registers }
        ensures { result ≡ word (register_at self.now.registers at) }
    {
        self.registers[at as usize].cast_unsigned()
    }

    pub fn set_register(&mut self, at: u32, value: u64)
        requires { at < length self.old.registers }
        ensures { self.new ≡ record self.old { registers = slice_set self.old.registers at (cast_signed w64 value) } }
    {
        self.registers[at as usize] = value.cast_signed();
    }

    /// Lends all registers.
    pub fn registers(&mut self) -> &mut [i64]
        ensures* lends { sem 𝓛 (LendsRegisters self.entry result) }
        ensures value { result.now ≡ self.old.registers }
        ensures count { length result.now ≡ 1048576 }
    {
        self.registers.as_mut_slice()
    }

    /// The cells, which the memory lacks until they are given back.
    pub fn take_cells(&mut self) -> CellList
        ensures cells { result ≡ self.old.cells }
        ensures few { length result < 2 ^ 32 }
        ensures left { self.new ≡ record self.old { cells = [] } }
    {
        let none = CellList::new(self.alloc);
        mem::replace(&mut self.cells, none)
    }

    pub fn give_cells(&mut self, cells: CellList)
        requires { length cells < 2 ^ 32 }
        ensures { self.new ≡ record self.old { cells = cells } }
    {
        self.cells = cells;
    }

    /// How many regions were run.
    pub fn regions(&self) -> u64
        ensures { result ≡ self.now.regions }
    {
        self.regions
    }

    /// How many units were finished in them.
    pub fn units(&self) -> u64
        ensures { result ≡ self.now.units }
    {
        self.units
    }
}
