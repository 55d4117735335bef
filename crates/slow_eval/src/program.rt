//! A whole program.

ghost use Rattle.std.specs.Prelude.{◌≡◌, [], IfOk};
ghost use Rattle.std.specs.List.{All};
ghost use Rattle.ws_space.specs.Runs as runs;
ghost use Rattle.array_meaning.specs.Program as program;
ghost use Rattle.slow_eval.specs.Machine.{state};
ghost use Rattle.step_eval.specs.Small.{IsSmallStmt, AreSmallDecls};

use crate::declarations::opening;
use crate::machine::Machine;
use crate::statements::statements;
use array_meaning::World;
use std::alloc::{AllocError, Global};
use step_eval::Halt;
use ws_sema::Checked;
use ws_space::{Ended, State};
use ws_tree::Tree;

/// The state that a run ends with.
fn end_state(machine: Machine) -> State
    ensures { result ≡ state machine }
{
    let Machine {
        world,
        read_to,
        steps,
        regions,
    } = machine;
    let World { vars, .. } = world;
    State {
        vars,
        read_to: read_to as u64,
        steps,
        regions,
    }
}

/// A program whose numbers an evaluation can take.
fn evaluate_tree(alloc: Global, tree: &Tree, input: &[u8]) -> Result<Ended, AllocError>
    requires body { All IsSmallStmt tree.now.body }
    requires decls { AreSmallDecls [] tree.now.decls }
    ensures { IfOk result (λ ended. ended ≡ runs.ended (program.run tree.now input.now).end) }
{
    let mut machine = opening(alloc, tree)?;
    match statements(alloc, &mut machine, input, tree.body.as_slice()) {
        Ok(()) => Ok(Ended::Done(end_state(machine))),
        Err(Halt::Faulted(fault)) => Ok(Ended::Faulted(fault)),
        Err(Halt::Memory) => Err(AllocError),
    }
}

/// What an accepted program ends with, where it reads this: the last state, or the first fault.
pub fn evaluate(alloc: Global, source: &Checked, input: &[u8]) -> Result<Ended, AllocError>
    ensures { IfOk result (λ ended. ended ≡ runs.ended (program.run source.now input.now).end) }
{
    evaluate_tree(alloc, source.tree(), input)
}
