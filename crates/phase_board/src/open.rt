//! How a board begins.

ghost use Rattle.std.specs.Prelude.{◌≡◌, ℕ, ◌^◌, ◌<◌, [], ◌∷◌, ◌++◌, length, IfOk, OnOk, IfErr};
ghost use Rattle.phase_ops.specs.Phases.{none_yet};
ghost use Rattle.team_core.specs.Core.{start};
ghost use Rattle.team_core.specs.Laws.{MayStart};
ghost use Rattle.phase_board.specs.declared.plays.Role.TheVariants.{Waiting};
ghost use Rattle.phase_board.specs.Rule.{course_of, view, words_of};
ghost use Rattle.phase_board.specs.Passes.{AreEnough};
ghost use Rattle.phase_board.specs.Prepared.{AllNew};

use crate::board::{Board, LINES, Pass, Spare, Words};
use crate::memory::Memory;
use crate::plays::{Cut, Run, View};
use atomic_table::{Seat, Table};
use phase_ops::PhaseList;
use std::alloc::{AllocError, Global};
use std::snapshot::Snapshot;
use team_core::{CellList, MemberState, longest};

/// There was no memory. All comes back as it was.
#[derive(Drop)]
pub struct PrepareEnd {
    pub phases: PhaseList,
    pub memory: Memory,
    pub cause: AllocError,
}

/// What a board takes beside its table.
#[derive(Drop)]
struct Room {
    words: Vec<u64>,
    cells: CellList,
    finished: CellList,
}

fn push_blank(words: &mut Vec<u64>) -> Result<(), AllocError>
    ensures { OnOk result (words.new.items ≡ words.old.items ++ 0 ∷ 0 ∷ 0 ∷ none_yet ∷ []) }
{
    words.reserve(4)?;
    words.push_reserved(0);
    words.push_reserved(0);
    words.push_reserved(0);
    words.push_reserved(u64::MAX);
    Ok(())
}

/// An unused word, the cells, and four words for each phase.
fn first_words(alloc: Global, run: &Run) -> Result<Vec<u64>, AllocError>
    ensures { IfOk result (λ v. v.items ≡ words_of (start (course_of run.now))) }
{
    let mut words = Vec::new(alloc);
    words.push(0)?;
    words.extend_from_slice(run.opening.as_slice())?;
    for _ in 0..run.phases.len() {
        push_blank(&mut words)?;
    }
    Ok(words)
}

fn make_room(alloc: Global, run: &Run) -> Result<Room, AllocError>
    ensures words { IfOk result (λ r. r.words.items ≡ words_of (start (course_of run.now))) }
    ensures sizes { IfOk result (λ r. (length r.cells ≡ length run.now.opening) × (length r.finished ≡ length run.now.phases)) }
{
    let words = first_words(alloc, run)?;
    let cells = CellList::from_slice(alloc, run.opening.as_slice())?;
    let finished = CellList::from_vec(vec![in alloc; 0; run.phases.len()]?);
    Ok(Room {
        words,
        cells,
        finished,
    })
}

/// So many registers, and room behind them, so that what two members write stands on lines of their own.
fn register_file(alloc: Global, registers: usize) -> Result<Vec<i64>, AllocError>
    ensures { IfOk result (λ v. length v.items ≡ registers) }
{
    let mut file = vec![in alloc; 0; registers]?;
    file.reserve_exact(LINES)?;
    Ok(file)
}

/// A pass for each member, split off the seat, with so many registers.
fn deal(
    alloc: Global,
    board: &Board,
    mut seat: Seat<(), View>,
    registers: usize,
) -> Result<Vec<Pass>, AllocError>
    requires seat { (seat.table_id ≡ board.now.table.shared.table_id) × (seat.me ≡ (view board.now.run (Waiting 0) [], [])) }
    requires may { MayStart board.now.run.phases board.now.run.opening board.now.run.team board.now.run.chunk }
    requires room { AreEnough board.now.run.phases registers }
    ensures { IfOk result (λ v. AllNew board.now v.items × (length v.items ≡ board.now.run.team)) }
{
    let state = if board.run.phases.is_empty() {
        MemberState::Ended
    } else {
        MemberState::Ready
    };
    let mut passes = Vec::with_capacity(alloc, board.run.team as usize)?;
    for member in 0..board.run.team {
        let file = register_file(alloc, registers)?;
        let own = board.table.shared.split_seat::<Cut>(&mut seat);
        passes.push(Pass {
            member,
            phase: 0,
            state,
            full: false,
            seat: own,
            registers: file,
            alloc,
            apart: [0; LINES],
        })?;
    }
    Ok(passes)
}

fn refused(
    alloc: Global,
    run: Run,
    registers: Vec<i64>,
    regions: u64,
    units: u64,
    cause: AllocError,
) -> PrepareEnd
    requires { (length run.opening < 2 ^ 32) × (length registers.items ≡ 1048576) }
    ensures phases { result.phases ≡ run.phases }
    ensures memory { result.memory ≡ record { cells = run.opening; registers = registers.items; regions = regions; units = units } }
{
    let (phases, cells) = run.into_parts();
    let memory = Memory {
        cells,
        registers,
        regions,
        units,
        alloc,
    };
    PrepareEnd {
        phases,
        memory,
        cause,
    }
}

impl Board {
    /// A board over these phases, whose cells are the memory's, and a pass for each member, Ready at the first phase, or Ended
    /// where there is none. Where there is no memory, all comes back as it was. Afterwards the region takes none.
    pub fn prepare(
        alloc: Global,
        phases: PhaseList,
        memory: Memory,
        team: u32,
        chunk: u32,
    ) -> Result<(Board, Vec<Pass>), PrepareEnd>
        requires may { MayStart phases memory.cells team chunk }
        requires counts { (memory.regions < 2 ^ 60) × (memory.units < 2 ^ 60) }
        ensures board { IfOk result (λ r. r.0.run ≡ record { phases = phases; opening = memory.cells; team = team; chunk = chunk }) }
        ensures passes { IfOk result (λ r. AllNew r.0 r.1.items × (length r.1.items ≡ team)) }
        ensures counts { IfOk result (λ r. (r.0.spare.regions ≡ memory.regions) × (r.0.spare.units ≡ memory.units)) }
        ensures refused { IfErr result (λ e. (e.phases ≡ phases) × (e.memory ≡ memory)) }
    {
        let Memory {
            cells,
            registers,
            regions,
            units,
            alloc: _,
        } = memory;
        let run = Run {
            phases,
            opening: cells,
            team,
            chunk,
        };
        let longest = longest(run.phases.as_slice());
        let room = match make_room(alloc, &run) {
            Ok(room) => room,
            Err(cause) => return Err(refused(alloc, run, registers, regions, units, cause)),
        };
        let about = Snapshot::of(&run);
        let made: Result<(Words, Seat<(), View>), AllocError> = Table::of_words(
            alloc,
            room.words.as_slice(),
            &about,
        );
        let (table, seat) = match made {
            Ok(made) => made,
            Err(cause) => return Err(refused(alloc, run, registers, regions, units, cause)),
        };
        let Room {
            mut words,
            cells,
            finished,
        } = room;
        words.truncate(run.opening.len());
        let spare = Spare {
            closing: CellList::from_vec(words),
            cells,
            finished,
            registers,
            alloc,
            regions,
            units,
        };
        let board = Board { run, table, spare };
        match deal(alloc, &board, seat, longest) {
            Ok(passes) => Ok((board, passes)),
            Err(cause) => {
                let Board {
                    run,
                    table: _,
                    spare,
                } = board;
                Err(refused(
                    alloc,
                    run,
                    spare.registers,
                    spare.regions,
                    spare.units,
                    cause,
                ))
            }
        }
    }
}
