//! A loop of 65,536 iterations, which loads three cells, adds twice and stores one; and the same loop over atomic words by hand.
//! What they take is measured from outside.

ghost use Rattle.std.specs.Prelude.{◌≡◌, ◌*◌, ◌≤◌, length, replicate, IfOk};
ghost use Rattle.team_run.specs.Added.{add_act, added};

use super::boards::{Region, by_threads, cell_from, ready};
use crate::CountGate;
use phase_board::{ClosedBoard, Memory};
use phase_ops::{Act, ActList, Label, Micro, MicroList, Phase, PhaseList, ScalarOp, Source};
use std::alloc::{AllocError, Global};
use std::sync::Wait;
use std::sync::atomic::{AtomicU64, Ordering};
use std::test::Fail;
use std::thread::Threads;

const COUNT: u32 = 65_536;

/// How often the loop runs.
const TIMES: u32 = 64;

fn add_act(alloc: Global, count: u32) -> Result<Act, AllocError>
    requires { count ≤ 65536 }
    ensures { IfOk result (λ a. a ≡ add_act count) }
{
    let a = Micro::Load(cell_from(alloc, 0)?);
    let b = Micro::Load(cell_from(alloc, count)?);
    let c = Micro::Load(cell_from(alloc, 2 * count)?);
    let d = Micro::Store(cell_from(alloc, 3 * count)?, 5);
    let first = Micro::Binary(ScalarOp::Add, 1, 2);
    let second = Micro::Binary(ScalarOp::Add, 4, 3);
    let ops = vec![in alloc; Micro::Position, a, b, c, first, second, d]?;
    Ok(Act {
        line: 4,
        ops: MicroList::from_vec(ops),
        whole: false,
    })
}

/// `d = a + b + c`.
fn add(alloc: Global, count: u32) -> Result<Phase, AllocError>
    requires { count ≤ 65536 }
    ensures { IfOk result (λ p. p ≡ added count) }
{
    let act = add_act(alloc, count)?;
    Ok(Phase::Loop {
        line: 4,
        label: Label::Stage,
        count: Source::Fixed(i64::from(count)),
        acts: ActList::from_vec(vec![in alloc; act]?),
    })
}

fn adding(alloc: Global, times: u32, count: u32) -> Result<PhaseList, AllocError>
    requires { count ≤ 65536 }
    ensures { IfOk result (λ ps. ps ≡ replicate times (added count)) }
{
    let mut phases = Vec::new(alloc);
    'each: for _ in 0..times {
        phases.push(add(alloc, count)?)?;
    }
    Ok(PhaseList::from_vec(phases))
}

/// The integers from 0 on in each of a, b and c.
fn summands(alloc: Global, count: u32) -> Result<Memory, AllocError>
    requires { (1 ≤ count) × (count ≤ 65536) }
    ensures room { IfOk result (λ m. length m.cells ≡ 4 * count) }
    ensures unused { IfOk result (λ m. (m.regions ≡ 0) × (m.units ≡ 0)) }
{
    let mut memory = Memory::new(alloc, 4 * count)?;
    'cells: for at in 0..3 * count {
        memory.set(at, u64::from(at % count));
    }
    Ok(memory)
}

fn sums(alloc: Global, times: u32, count: u32, team: u32) -> Result<Region, AllocError>
    requires phases { (times ≤ 512) × (1 ≤ count) × (count ≤ 65536) }
    requires team { (1 ≤ team) × (team ≤ 64) }
{
    let phases = adding(alloc, times, count)?;
    let memory = summands(alloc, count)?;
    ready(alloc, phases, memory, team, 64)
}

/// Whether d holds the multiples of 3.
fn is_added(closed: &ClosedBoard) -> bool {
    let cells = closed.closing().as_slice();
    let mut expected = 0;
    'each: for cell in cells.iter().skip(3 * COUNT as usize) {
        if *cell != expected {
            return false;
        }
        expected = expected.wrapping_add(3);
    }
    cells.len() == 4 * COUNT as usize
}

/// Whether a team adds as often as it is to, in units of 64 iterations.
fn adds<R: Threads + Wait + Sync>(rt: &R, alloc: Global, team: u32) -> Result<bool, AllocError>
    requires { (1 ≤ team) × (team ≤ 64) }
{
    let region = sums(alloc, TIMES, COUNT, team)?;
    let (memory, closed) = by_threads(rt, region, &CountGate::new());
    Ok(is_added(&closed) && memory.units() == u64::from(TIMES * COUNT / 64))
}

#[test]
fn measure_one_member(rt: HostRuntime) -> Result<(), Fail> {
    assert!(rt; adds(&rt, rt.alloc(), 1)?);
    Ok(())
}

#[test]
fn measure_four_members(rt: HostRuntime) -> Result<(), Fail> {
    assert!(rt; adds(&rt, rt.alloc(), 4)?);
    Ok(())
}

/// The words of the same loop by hand.
fn words(alloc: Global, count: usize) -> Result<Vec<AtomicU64>, AllocError>
    requires { (1 ≤ count) × (count ≤ 65536) }
    ensures { IfOk result (λ v. length v.items ≡ 4 * count) }
{
    let mut words = Vec::new(alloc);
    'each: for at in 0..4 * count {
        words.push(AtomicU64::new((at % count) as u64))?;
    }
    Ok(words)
}

fn add_words(words: &[AtomicU64], count: usize)
    requires { (count ≤ 65536) × (length words.now ≡ 4 * count) }
{
    'each: for at in 0..count {
        let a = words[at].load(Ordering::SeqCst);
        let b = words[count + at].load(Ordering::SeqCst);
        let c = words[2 * count + at].load(Ordering::SeqCst);
        words[3 * count + at].store(a.wrapping_add(b).wrapping_add(c), Ordering::SeqCst);
    }
}

#[test]
fn measure_the_loop_by_hand(rt: HostRuntime) -> Result<(), Fail> {
    let count = COUNT as usize;
    let words = words(rt.alloc(), count)?;
    for _ in 0..TIMES {
        add_words(&words, count);
    }
    assert_eq!(rt; words[4 * count - 1].load(Ordering::SeqCst), 3 * 65_535);
    Ok(())
}
