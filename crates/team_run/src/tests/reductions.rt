//! Reductions of 65,536 integers in a row, by a Part and a Join.

ghost use Rattle.std.specs.Prelude.{◌≡◌, ◌≤◌, IfOk};
ghost use Rattle.phase_ops.specs.Free.{IsChunk};
ghost use Rattle.team_run.specs.Reduced.{value_act, reduced, IsNumbered, TakesIntegers};

use super::boards::{Region, by_threads, cell_from, close_alike, ready};
use crate::CountGate;
use phase_board::{ClosedBoard, Memory};
use phase_ops::{Act, Micro, MicroList, Phase, PhaseList, Source};
use std::alloc::{AllocError, Global};
use std::sync::Wait;
use std::test::Fail;
use std::thread::Threads;
use ws_base::CallWord;

const COUNT: u32 = 65_536;

/// What a reduction comes to: the total, or the key of the fault.
#[derive(Clone, Copy, Debug, PartialEq, Eq)]
enum Outcome {
    Total(u64),
    Fails(u64),
}

/// A reduction of the integers from `from` on, and what it comes to.
#[derive(Clone, Copy)]
struct Case {
    kind: CallWord,
    from: u64,
    outcome: Outcome,
}

fn value_act(alloc: Global) -> Result<Act, AllocError>
    ensures { IfOk result (λ a. a ≡ value_act) }
{
    let load = Micro::Load(cell_from(alloc, 0)?);
    Ok(Act {
        line: 3,
        ops: MicroList::from_vec(vec![in alloc; Micro::Position, load]?),
        whole: false,
    })
}

fn reducing(alloc: Global, kind: CallWord, count: u32) -> Result<PhaseList, AllocError>
    requires { count ≤ 65536 }
    ensures { IfOk result (λ ps. ps ≡ reduced kind count) }
{
    let part = Phase::Part {
        line: 3,
        count: Source::Fixed(i64::from(count)),
        act: value_act(alloc)?,
        kind,
        temp: 1,
        first: count,
    };
    let join = Phase::Join {
        line: 3,
        count: Source::Fixed(i64::from(count)),
        kind,
        temp: 1,
        first: count,
        slot: 2 * count,
    };
    Ok(PhaseList::from_vec(vec![in alloc; part, join]?))
}

/// So many integers from `from` on, and room for as many partials and the total.
fn numbers(alloc: Global, count: u32, from: u64) -> Result<Memory, AllocError>
    requires { (count ≤ 65536) × (from ≤ 1) }
    ensures values { IfOk result (λ m. IsNumbered count from m.cells) }
    ensures unused { IfOk result (λ m. (m.regions ≡ 0) × (m.units ≡ 0)) }
{
    let mut memory = Memory::new(alloc, 2 * count + 1)?;
    'cells: for at in 0..count {
        memory.set(at, from + u64::from(at));
    }
    Ok(memory)
}

fn reduction(
    alloc: Global,
    case: Case,
    count: u32,
    team: u32,
    chunk: u32,
) -> Result<Region, AllocError>
    requires case { TakesIntegers case.kind × (case.from ≤ 1) }
    requires count { count ≤ 65536 }
    requires team { (1 ≤ team) × (team ≤ 64) × IsChunk chunk }
{
    let phases = reducing(alloc, case.kind, count)?;
    let memory = numbers(alloc, count, case.from)?;
    ready(alloc, phases, memory, team, chunk)
}

/// The total is in the last cell.
fn outcome_of(closed: &ClosedBoard) -> Outcome {
    let key = closed.key();
    match closed.closing().as_slice() {
        [.., total] if key == u64::MAX => Outcome::Total(*total),
        _ => Outcome::Fails(key),
    }
}

/// Whether a team comes to the outcome, and finishes each unit of the Part and the one of the Join.
fn comes_to<R: Threads + Wait + Sync>(
    rt: &R,
    alloc: Global,
    case: Case,
    team: u32,
    chunk: u32,
) -> Result<bool, AllocError>
    requires case { TakesIntegers case.kind × (case.from ≤ 1) }
    requires team { (1 ≤ team) × (team ≤ 64) × IsChunk chunk }
{
    let region = reduction(alloc, case, COUNT, team, chunk)?;
    let (memory, closed) = by_threads(rt, region, &CountGate::new());
    let units = u64::from(COUNT.div_ceil(chunk)) + 1;
    Ok(outcome_of(&closed) == case.outcome && memory.units() == units)
}

fn at_each_chunk<R: Threads + Wait + Sync>(
    rt: &R,
    alloc: Global,
    case: Case,
    team: u32,
) -> Result<bool, AllocError>
    requires case { TakesIntegers case.kind × (case.from ≤ 1) }
    requires team { (1 ≤ team) × (team ≤ 64) }
{
    Ok(
        comes_to(rt, alloc, case, team, 1)?
            && comes_to(rt, alloc, case, team, 64)?
            && comes_to(rt, alloc, case, team, COUNT)?,
    )
}

fn at_each_team<R: Threads + Wait + Sync>(
    rt: &R,
    alloc: Global,
    case: Case,
) -> Result<bool, AllocError>
    requires { TakesIntegers case.kind × (case.from ≤ 1) }
{
    Ok(
        at_each_chunk(rt, alloc, case, 1)?
            && at_each_chunk(rt, alloc, case, 2)?
            && at_each_chunk(rt, alloc, case, 7)?
            && at_each_chunk(rt, alloc, case, 64)?,
    )
}

#[test]
fn the_sum_of_0_to_65535(rt: HostRuntime) -> Result<(), Fail> {
    let case = Case {
        kind: CallWord::Sum,
        from: 0,
        outcome: Outcome::Total(65_535 * 32_768),
    };
    assert!(rt; at_each_team(&rt, rt.alloc(), case)?);
    Ok(())
}

/// The total is 65,536 * 65,537 / 2, which is 2,147,516,416 and no default integer. The key is the number of Overflow.
#[test]
fn the_sum_of_1_to_65536_is_out_of_range(rt: HostRuntime) -> Result<(), Fail> {
    let case = Case {
        kind: CallWord::Sum,
        from: 1,
        outcome: Outcome::Fails(3),
    };
    assert!(rt; at_each_team(&rt, rt.alloc(), case)?);
    Ok(())
}

#[test]
fn the_greatest_of_1_to_65536(rt: HostRuntime) -> Result<(), Fail> {
    let case = Case {
        kind: CallWord::Maxval,
        from: 1,
        outcome: Outcome::Total(65_536),
    };
    assert!(rt; at_each_team(&rt, rt.alloc(), case)?);
    Ok(())
}

/// The product of the others is far out of range.
#[test]
fn a_product_with_a_zero(rt: HostRuntime) -> Result<(), Fail> {
    let case = Case {
        kind: CallWord::Product,
        from: 0,
        outcome: Outcome::Total(0),
    };
    assert!(rt; at_each_team(&rt, rt.alloc(), case)?);
    Ok(())
}

/// Whether the caller alone comes to what threads come to.
fn sums_alike<R: Threads + Wait + Sync>(
    rt: &R,
    alloc: Global,
    case: Case,
    team: u32,
) -> Result<bool, AllocError>
    requires case { TakesIntegers case.kind × (case.from ≤ 1) }
    requires team { (1 ≤ team) × (team ≤ 64) }
{
    let first = reduction(alloc, case, COUNT, team, 64)?;
    let second = reduction(alloc, case, COUNT, team, 64)?;
    Ok(close_alike(rt, first, second))
}

#[test]
fn one_caller_sums_as_threads_do(rt: HostRuntime) -> Result<(), Fail> {
    let alloc = rt.alloc();
    let case = Case {
        kind: CallWord::Sum,
        from: 0,
        outcome: Outcome::Total(65_535 * 32_768),
    };
    assert!(rt; sums_alike(&rt, alloc, case, 1)?);
    assert!(rt; sums_alike(&rt, alloc, case, 2)?);
    assert!(rt; sums_alike(&rt, alloc, case, 7)?);
    assert!(rt; sums_alike(&rt, alloc, case, 64)?);
    Ok(())
}
