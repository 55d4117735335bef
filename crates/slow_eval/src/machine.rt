//! A program as far as it was run.

ghost use Rattle.std.specs.Prelude.{◌≡◌, ◌+◌, List, ℕ, OnOk, suc};
ghost use Rattle.ws_space.specs.Runs as runs;
ghost use Rattle.term_eval.specs.Limits.{IsInteger};
ghost use Rattle.step_eval.specs.Halts.{Leaves};
ghost use Rattle.slow_eval.specs.Machine.{state, IsReady, GoesOn, SameButCounts};

use array_meaning::World;
use std::alloc::{AllocError, Global};
use step_eval::{Halt, set_state};
use ws_base::{Fault, FaultName, Name};
use ws_space::VarState;

/// The most statements that a run executes.
const MOST_STEPS: u64 = 100_000_000;

/// The variables with the names that do not change, how many bytes of the data were read, and the counts of statements and of
/// executed regions.
#[derive(Debug, Drop)]
pub struct Machine {
    pub world: World,
    pub read_to: usize,
    pub steps: u64,
    pub regions: u64,
}

/// Counts this many more statements. Steps where they pass the limit.
pub fn tick(machine: &mut Machine, line: u32, more: usize) -> Result<(), Halt>
    ensures value { Leaves result (runs.ticked line more (state machine.old)) (state machine.new) }
    ensures others { OnOk result (SameButCounts machine.old machine.new) }
{
    match machine.steps.checked_add(more as u64) {
        Some(steps) if steps <= MOST_STEPS => {
            machine.steps = steps;
            Ok(())
        }
        _ => Err(Halt::Faulted(Fault {
            line,
            name: FaultName::Steps,
            element: 0,
        })),
    }
}

/// Counts one more region.
pub fn enter(machine: &mut Machine) -> Result<(), AllocError>
    ensures value { OnOk result (state machine.new ≡ runs.entered (state machine.old)) }
    ensures others { OnOk result (SameButCounts machine.old machine.new) }
{
    // Each region that is entered counts a statement or stands in a DO that does, so no run enters as many.
    let Some(regions) = machine.regions.checked_add(1) else {
        return Err(AllocError);
    };
    machine.regions = regions;
    Ok(())
}

/// Gives a scalar variable a value.
pub fn set_scalar(
    alloc: Global,
    machine: &mut Machine,
    name: &Name,
    value: i64,
) -> Result<(), AllocError>
    requires integer { IsInteger value }
    ensures value { OnOk result (state machine.new ≡ runs.assigned_scalar (state machine.old) name.now value) }
    ensures kept { (input : List ℕ) → IsReady input machine.old → OnOk result (GoesOn input machine.old machine.new) }
{
    set_state(
        alloc,
        &mut machine.world.vars,
        name,
        VarState::Scalar(value),
    )
}
