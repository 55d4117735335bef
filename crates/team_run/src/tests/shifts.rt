//! `a(2:5) = a(1:4)`: a phase that saves the right side, and one that assigns it.

ghost use Rattle.std.specs.Prelude.{◌≡◌, ◌≤◌, IfOk};
ghost use Rattle.phase_ops.specs.Free.{IsChunk};
ghost use Rattle.team_core.specs.Shifts.{copy_act, copy as spec_copy, shift, shift_cells};

use super::boards::{Region, by_caller, by_threads, cell_from, close_alike, ready};
use crate::{CountGate, HoldGate};
use phase_board::{BoardLog, ClosedBoard, MemLog, Memory};
use phase_ops::{Act, ActList, Label, Micro, MicroList, Phase, PhaseList, Source};
use std::alloc::{AllocError, Global};
use std::test::Fail;
use ws_base::Name;

fn copy_act(alloc: Global, from: u32, to: u32) -> Result<Act, AllocError>
    ensures { IfOk result (λ a. a ≡ copy_act from to) }
{
    let load = Micro::Load(cell_from(alloc, from)?);
    let store = Micro::Store(cell_from(alloc, to)?, 1);
    Ok(Act {
        line: 4,
        ops: MicroList::from_vec(vec![in alloc; Micro::Position, load, store]?),
        whole: false,
    })
}

/// Copies four cells.
fn copy(alloc: Global, label: Label, from: u32, to: u32) -> Result<Phase, AllocError>
    ensures { IfOk result (λ p. p ≡ spec_copy label from to) }
{
    let act = copy_act(alloc, from, to)?;
    Ok(Phase::Loop {
        line: 4,
        label,
        count: Source::Fixed(4),
        acts: ActList::from_vec(vec![in alloc; act]?),
    })
}

fn shift_phases(alloc: Global) -> Result<PhaseList, AllocError>
    ensures { IfOk result (λ ps. ps ≡ shift) }
{
    let save = Label::Save {
        temp: 1,
        addresses: None,
    };
    let assign = Label::Assign {
        name: Name::from_str(alloc, "a")?,
        from: Some(1),
        at: None,
    };
    let first = copy(alloc, save, 0, 5)?;
    let second = copy(alloc, assign, 5, 1)?;
    Ok(PhaseList::from_vec(vec![in alloc; first, second]?))
}

/// The cells 1 to 5, and four for what is saved.
fn memory(alloc: Global) -> Result<Memory, AllocError>
    ensures { IfOk result (λ m. (m.cells ≡ shift_cells) × (m.regions ≡ 0) × (m.units ≡ 0)) }
{
    let mut memory = Memory::new(alloc, 9)?;
    memory.set(0, 1);
    memory.set(1, 2);
    memory.set(2, 3);
    memory.set(3, 4);
    memory.set(4, 5);
    Ok(memory)
}

fn shifting(alloc: Global, team: u32, chunk: u32) -> Result<Region, AllocError>
    requires { (1 ≤ team) × (team ≤ 64) × IsChunk chunk }
{
    let phases = shift_phases(alloc)?;
    let memory = memory(alloc)?;
    ready(alloc, phases, memory, team, chunk)
}

/// Whether the array is shifted, in two phases without a key.
fn is_shifted(closed: &ClosedBoard) -> bool {
    let cells = closed.closing().as_slice();
    cells.len() == 9
        && cells[0] == 1
        && cells[1] == 1
        && cells[2] == 2
        && cells[3] == 3
        && cells[4] == 4
        && closed.entered() == 2
        && closed.key() == u64::MAX
}

#[test]
fn the_second_unit_frees_the_first(rt: HostRuntime) -> Result<(), Fail> {
    let region = shifting(rt.alloc(), 2, 1)?;
    let gate = HoldGate::new(0, 0, 1_000_000_000);
    let (memory, closed) = by_threads(&rt, region, &gate);
    assert!(rt; !gate.gave_up());
    assert!(rt; is_shifted(&closed));
    assert_eq!(rt; memory.regions(), 1);
    assert_eq!(rt; memory.units(), 8);
    Ok(())
}

#[test]
fn each_unit_meets_the_gate_once(rt: HostRuntime) -> Result<(), Fail> {
    let region = shifting(rt.alloc(), 3, 2)?;
    let gate = CountGate::new();
    let (memory, closed) = by_threads(&rt, region, &gate);
    assert!(rt; is_shifted(&closed));
    assert_eq!(rt; gate.count(), 4);
    assert_eq!(rt; memory.units(), 4);
    Ok(())
}

#[test]
fn one_caller_works_all_passes(rt: HostRuntime) -> Result<(), Fail> {
    let alloc = rt.alloc();
    let region = shifting(alloc, 64, 1)?;
    let gate = CountGate::new();
    let (memory, closed) = by_caller(&rt, region, &gate);
    assert!(rt; is_shifted(&closed));
    assert_eq!(rt; gate.count(), memory.units());
    let mut log = MemLog::new(alloc);
    assert!(rt; log.closed(closed).is_none());
    assert_eq!(rt; log.boards().len(), 1);
    Ok(())
}

#[test]
fn one_caller_shifts_as_threads_do(rt: HostRuntime) -> Result<(), Fail> {
    let alloc = rt.alloc();
    assert!(rt; close_alike(&rt, shifting(alloc, 1, 1)?, shifting(alloc, 1, 1)?));
    assert!(rt; close_alike(&rt, shifting(alloc, 2, 1)?, shifting(alloc, 2, 1)?));
    assert!(rt; close_alike(&rt, shifting(alloc, 7, 1)?, shifting(alloc, 7, 1)?));
    assert!(rt; close_alike(&rt, shifting(alloc, 64, 1)?, shifting(alloc, 64, 1)?));
    Ok(())
}
