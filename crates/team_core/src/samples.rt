//! Phases for the tests of this crate and of those above it.

ghost use Rattle.std.specs.Prelude.{◌≡◌, ◌≤◌, false, [], ◌∷◌, IfOk};
ghost use Rattle.phase_ops.specs.declared.phase.Phase.TheVariants.{Loop};
ghost use Rattle.team_core.specs.Shifts.{cell_at, cell_from, copy_act, copy as spec_copy, shift};
ghost use Rattle.team_core.specs.Reduced.{value_act, reduced};

use phase_ops::{
    Act, ActList, Address, Label, Micro, MicroList, Phase, PhaseList, Source, Term, TermList,
};
use std::alloc::{AllocError, Global};
use ws_base::{CallWord, Name};

/// The cell whose number the register has, counted from `base`.
pub fn cell_at(alloc: Global, base: u32, reg: u32) -> Result<Address, AllocError>
    ensures { IfOk result (λ a. a ≡ cell_at base reg) }
{
    let term = Term {
        reg,
        step: Source::Fixed(1),
    };
    Ok(Address {
        base: Source::Fixed(i64::from(base)),
        terms: TermList::from_vec(vec![in alloc; term]?),
    })
}

/// The same by the register 0.
pub fn cell_from(alloc: Global, base: u32) -> Result<Address, AllocError>
    ensures { IfOk result (λ a. a ≡ cell_from base) }
{
    cell_at(alloc, base, 0)
}

/// An act of these ops, which reports the element that fails.
pub fn element_act(line: u32, ops: Vec<Micro>) -> Act
    ensures { result ≡ record { line = line; ops = ops.items; whole = false } }
{
    Act {
        line,
        ops: MicroList::from_vec(ops),
        whole: false,
    }
}

/// The act at each of so many iterations.
pub fn each(alloc: Global, label: Label, count: Source, act: Act) -> Result<Phase, AllocError>
    ensures { IfOk result (λ p. p ≡ Loop act.line label count (act ∷ [])) }
{
    Ok(Phase::Loop {
        line: act.line,
        label,
        count,
        acts: ActList::from_vec(vec![in alloc; act]?),
    })
}

fn copy_act(alloc: Global, from: u32, to: u32) -> Result<Act, AllocError>
    ensures { IfOk result (λ a. a ≡ copy_act from to) }
{
    let load = Micro::Load(cell_from(alloc, from)?);
    let store = Micro::Store(cell_from(alloc, to)?, 1);
    Ok(element_act(4, vec![in alloc; Micro::Position, load, store]?))
}

/// Copies four cells.
fn copy(alloc: Global, label: Label, from: u32, to: u32) -> Result<Phase, AllocError>
    ensures { IfOk result (λ p. p ≡ spec_copy label from to) }
{
    each(alloc, label, Source::Fixed(4), copy_act(alloc, from, to)?)
}

/// `a(2:5) = a(1:4)`: a phase that saves the right side, and one that assigns it.
pub fn shift_phases(alloc: Global) -> Result<PhaseList, AllocError>
    ensures { IfOk result (λ ps. ps ≡ shift) }
{
    let save = Label::Save {
        temp: 1,
        addresses: None,
    };
    let assign = Label::Assign {
        name: Name::from_str(alloc, "a")?,
        from: Some(1),
        at: None,
    };
    let first = copy(alloc, save, 0, 5)?;
    let second = copy(alloc, assign, 5, 1)?;
    Ok(PhaseList::from_vec(vec![in alloc; first, second]?))
}

fn value_act(alloc: Global) -> Result<Act, AllocError>
    ensures { IfOk result (λ a. a ≡ value_act) }
{
    let load = Micro::Load(cell_from(alloc, 0)?);
    Ok(element_act(3, vec![in alloc; Micro::Position, load]?))
}

/// A reduction of the first cells by two phases: a partial of each unit stands behind the values, and the total behind those.
pub fn reducing(alloc: Global, kind: CallWord, count: u32) -> Result<PhaseList, AllocError>
    requires { count ≤ 65536 }
    ensures { IfOk result (λ ps. ps ≡ reduced kind count) }
{
    let part = Phase::Part {
        line: 3,
        count: Source::Fixed(i64::from(count)),
        act: value_act(alloc)?,
        kind,
        temp: 1,
        first: count,
    };
    let join = Phase::Join {
        line: 3,
        count: Source::Fixed(i64::from(count)),
        kind,
        temp: 1,
        first: count,
        slot: 2 * count,
    };
    Ok(PhaseList::from_vec(vec![in alloc; part, join]?))
}
