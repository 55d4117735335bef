//! A board of the largest size. What it takes is measured from outside.

ghost use Rattle.std.specs.Prelude.{◌≡◌, ◌≤◌, [], ◌∷◌, IfOk};
ghost use Rattle.team_run.specs.Idle.{idle};

use super::boards::{Region, by_threads, ready};
use crate::CountGate;
use phase_board::Memory;
use phase_ops::{Act, ActList, Label, Micro, MicroList, Phase, PhaseList};
use std::alloc::{AllocError, Global};
use std::test::Fail;

/// A phase of one act of so many ops, which does nothing.
fn idling(alloc: Global, ops: u32) -> Result<PhaseList, AllocError>
    ensures { IfOk result (λ ps. ps ≡ idle ops ∷ []) }
{
    let mut list = Vec::new(alloc);
    'each: for _ in 0..ops {
        list.push(Micro::Fixed(0))?;
    }
    let act = Act {
        line: 5,
        ops: MicroList::from_vec(list),
        whole: true,
    };
    let phase = Phase::Set {
        line: 5,
        label: Label::Stage,
        acts: ActList::from_vec(vec![in alloc; act]?),
    };
    Ok(PhaseList::from_vec(vec![in alloc; phase]?))
}

/// A team of 64 over so many cells, each with so many registers.
fn large(alloc: Global, cells: u32, registers: u32) -> Result<Region, AllocError>
    requires { registers ≤ 1048576 }
{
    let phases = idling(alloc, registers)?;
    let memory = Memory::new(alloc, cells)?;
    ready(alloc, phases, memory, 64, 1)
}

/// As many cells as 64 variables and 64 temporaries have at most.
#[test]
fn measure_the_largest_board(rt: HostRuntime) -> Result<(), Fail> {
    let region = large(rt.alloc(), 8_388_608, 1_048_576)?;
    let (memory, closed) = by_threads(&rt, region, &CountGate::new());
    assert_eq!(rt; closed.closing().len(), 8_388_608);
    assert_eq!(rt; memory.units(), 1);
    Ok(())
}
