//! Each sort of op and of phase, by hand, over a few cells.

ghost use Rattle.std.specs.Prelude.{◌≡◌, ◌<◌, ◌^◌, length, IsTrue, IfOk};
ghost use Rattle.phase_ops.specs.Free.{Free};
ghost use Rattle.phase_ops.specs.Partials.{is_reduction};
ghost use Rattle.serial_run.specs.Samples.{store_seven, overflows, chosen, gated, numbering, bits_part as spec_part, bits_join as spec_join, single, cell as spec_cell};

use crate::run_phase;
use phase_board::Memory;
use phase_ops::{Act, ActList, Address, Label, Micro, MicroList, Phase, Source, TermList};
use std::alloc::{AllocError, Global};
use std::test::Fail;
use team_core::CellList;
use team_core::samples::{cell_from, each, element_act};
use ws_base::{CallWord, Fault, FaultName};

/// A phase of these ops, once, which reports line 3.
fn once(alloc: Global, ops: MicroList) -> Result<Phase, AllocError>
    ensures { IfOk result (λ p. p ≡ single ops) }
{
    let act = Act {
        line: 3,
        ops,
        whole: true,
    };
    Ok(Phase::Set {
        line: 3,
        label: Label::Stage,
        acts: ActList::from_vec(vec![in alloc; act]?),
    })
}

fn cell(alloc: Global, number: u32) -> Address
    ensures { result ≡ spec_cell number }
{
    Address {
        base: Source::Fixed(i64::from(number)),
        terms: TermList::new(alloc),
    }
}

fn stores_seven(alloc: Global) -> Result<Phase, AllocError>
    ensures { IfOk result (λ p. p ≡ store_seven) }
{
    let ops = vec![in alloc; Micro::Fixed(7), Micro::Store(cell(alloc, 1), 0)]?;
    once(alloc, MicroList::from_vec(ops))
}

/// Stores 7, and then fails.
fn fails(alloc: Global) -> Result<Phase, AllocError>
    ensures { IfOk result (λ p. p ≡ overflows) }
{
    let failing = Micro::FailIf(FaultName::Overflow, 0);
    let ops = vec![in alloc; Micro::Fixed(7), Micro::Store(cell(alloc, 0), 0), failing]?;
    once(alloc, MicroList::from_vec(ops))
}

fn chooses(alloc: Global) -> Result<Phase, AllocError>
    ensures { IfOk result (λ p. p ≡ chosen) }
{
    let digit = Micro::Digit {
        reg: 0,
        by: Source::Fixed(5),
        modulus: Source::Fixed(2),
    };
    let select = Micro::Select(1, 2, 3);
    let store = Micro::Store(cell(alloc, 0), 4);
    let ops = vec![in alloc;
        Micro::Fixed(17),
        digit,
        Micro::Fixed(9),
        Micro::Fixed(7),
        select,
        store,
    ]?;
    once(alloc, MicroList::from_vec(ops))
}

fn shuts(alloc: Global) -> Result<Phase, AllocError>
    ensures { IfOk result (λ p. p ≡ gated) }
{
    let least = Micro::Least(cell(alloc, 1), 0);
    let zero = Micro::Fixed(0);
    let gate = Micro::Gate(2);
    let store = Micro::Store(cell(alloc, 0), 0);
    let ops = vec![in alloc; Micro::Fixed(7), least, zero, gate, store]?;
    once(alloc, MicroList::from_vec(ops))
}

fn numbers(alloc: Global) -> Result<Phase, AllocError>
    ensures { IfOk result (λ p. p ≡ numbering) }
{
    let store = Micro::Store(cell_from(alloc, 1)?, 0);
    let failing = Micro::FailIf(FaultName::Bounds, 0);
    let act = element_act(5, vec![in alloc; Micro::Position, store, failing]?);
    each(alloc, Label::Stage, Source::Cell(0), act)
}

fn bits_part(alloc: Global, kind: CallWord) -> Result<Phase, AllocError>
    ensures { IfOk result (λ p. p ≡ spec_part kind) }
{
    Ok(Phase::Part {
        line: 4,
        count: Source::Fixed(2),
        act: element_act(4, vec![in alloc; Micro::Position]?),
        kind,
        temp: 1,
        first: 0,
    })
}

fn bits_join(kind: CallWord) -> Phase
    ensures { result ≡ spec_join kind }
{
    Phase::Join {
        line: 4,
        count: Source::Fixed(2),
        kind,
        temp: 1,
        first: 0,
        slot: 2,
    }
}

/// The reduction of 0 and 1, by a Part and a Join.
fn reduced(alloc: Global, kind: CallWord) -> Result<Option<u64>, AllocError>
    requires { IsTrue (is_reduction kind) }
{
    let mut memory = Memory::new(alloc, 3)?;
    let part = bits_part(alloc, kind)?;
    if run_phase(&mut memory, &part).is_err() {
        return Ok(None);
    }
    let join = bits_join(kind);
    if run_phase(&mut memory, &join).is_err() {
        return Ok(None);
    }
    Ok(Some(memory.get(2)))
}

/// Whether a phase ends with this fault, or with none, and leaves these cells.
fn ends(
    alloc: Global,
    phase: &Phase,
    cells: &[u64],
    fault: Option<Fault>,
    closing: &[u64],
) -> Result<bool, AllocError>
    requires free { Free phase.now cells.now }
    requires few { length cells.now < 2 ^ 32 }
{
    let mut memory = Memory::new(alloc, 0)?;
    memory.give_cells(CellList::from_slice(alloc, cells)?);
    let found = run_phase(&mut memory, phase).err();
    Ok(found == fault && memory.take_cells().as_slice() == closing)
}

#[test]
fn acts_that_run_once(rt: HostRuntime) -> Result<(), Fail> {
    let alloc = rt.alloc();
    assert!(rt; ends(alloc, &stores_seven(alloc)?, &[0, 0], None, &[0, 7])?);
    let overflow = Fault {
        line: 3,
        name: FaultName::Overflow,
        element: 0,
    };
    // What was stored before the fault stays.
    assert!(rt; ends(alloc, &fails(alloc)?, &[0, 0], Some(overflow), &[7, 0])?);
    // The second digit of 17 to the base 5 is odd.
    assert!(rt; ends(alloc, &chooses(alloc)?, &[0], None, &[9])?);
    // The Least lowers, and the gate that is shut ends the act.
    assert!(rt; ends(alloc, &shuts(alloc)?, &[0, 20], None, &[0, 7])?);
    Ok(())
}

#[test]
fn the_least_element_that_fails_is_told_and_all_have_stored(rt: HostRuntime) -> Result<(), Fail> {
    let alloc = rt.alloc();
    let bounds = Fault {
        line: 5,
        name: FaultName::Bounds,
        element: 2,
    };
    let closing = [3, 0, 1, 2, 8];
    assert!(rt;
        ends(
            alloc,
            &numbers(alloc)?,
            &[3, 8, 8, 8, 8],
            Some(bounds),
            &closing
        )?
    );
    Ok(())
}

#[test]
fn the_seven_reductions_of_0_and_1(rt: HostRuntime) -> Result<(), Fail> {
    let alloc = rt.alloc();
    assert_eq!(rt; reduced(alloc, CallWord::Sum)?, Some(1));
    assert_eq!(rt; reduced(alloc, CallWord::Product)?, Some(0));
    assert_eq!(rt; reduced(alloc, CallWord::Minval)?, Some(0));
    assert_eq!(rt; reduced(alloc, CallWord::Maxval)?, Some(1));
    assert_eq!(rt; reduced(alloc, CallWord::Count)?, Some(1));
    assert_eq!(rt; reduced(alloc, CallWord::Any)?, Some(1));
    assert_eq!(rt; reduced(alloc, CallWord::All)?, Some(0));
    Ok(())
}
