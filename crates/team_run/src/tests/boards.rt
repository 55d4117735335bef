//! Boards that are ready to run, and the two ways to run them.

ghost use Rattle.std.specs.Prelude.{◌≡◌, length, IfOk};
ghost use Rattle.team_core.specs.Laws.{MayStart};
ghost use Rattle.team_core.specs.Shifts.{cell_from};
ghost use Rattle.phase_board.specs.Prepared.{AllNew};

use crate::{CountGate, Gate, run_region, work};
use phase_board::{Board, ClosedBoard, Memory, Pass};
use phase_ops::{Address, PhaseList, Source, Term, TermList};
use std::alloc::{AllocError, Global};
use std::sync::Wait;
use std::thread::Threads;

/// A board, and all its passes.
#[derive(Drop)]
pub struct Region {
    board: Board,
    passes: Vec<Pass>,
    ghost fresh: { AllNew board passes.items },
    ghost all: { length passes.items ≡ board.run.team },
}

/// The cell whose number is in the register 0, counted from `base`.
pub fn cell_from(alloc: Global, base: u32) -> Result<Address, AllocError>
    ensures { IfOk result (λ a. a ≡ cell_from base) }
{
    let term = Term {
        reg: 0,
        step: Source::Fixed(1),
    };
    Ok(Address {
        base: Source::Fixed(i64::from(base)),
        terms: TermList::from_vec(vec![in alloc; term]?),
    })
}

/// A region of these phases over a memory that has run none.
pub fn ready(
    alloc: Global,
    phases: PhaseList,
    memory: Memory,
    team: u32,
    chunk: u32,
) -> Result<Region, AllocError>
    requires may { MayStart phases memory.cells team chunk }
    requires unused { (memory.regions ≡ 0) × (memory.units ≡ 0) }
{
    match Board::prepare(alloc, phases, memory, team, chunk) {
        Ok((board, passes)) => Ok(Region { board, passes }),
        Err(end) => Err(end.cause),
    }
}

/// Runs a region on a thread for each pass.
pub fn by_threads<R: Threads + Wait + Sync, G: Gate + Sync>(
    rt: &R,
    region: Region,
    gate: &G,
) -> (Memory, ClosedBoard) {
    let Region { board, passes } = region;
    let passes = run_region(rt, &board, passes, gate);
    board.gather(passes)
}

/// Runs a region by the caller alone.
pub fn by_caller<R: Wait, G: Gate>(rt: &R, region: Region, gate: &G) -> (Memory, ClosedBoard) {
    let Region { board, mut passes } = region;
    work(rt, &board, &mut passes, gate);
    board.gather(passes)
}

/// Whether the caller leaves in one region what threads leave in the other.
pub fn close_alike<R: Threads + Wait + Sync>(rt: &R, first: Region, second: Region) -> bool {
    let gate = CountGate::new();
    let (_, threads) = by_threads(rt, first, &gate);
    let (_, caller) = by_caller(rt, second, &gate);
    threads.closing().as_slice() == caller.closing().as_slice()
        && threads.entered() == caller.entered()
        && threads.key() == caller.key()
}
