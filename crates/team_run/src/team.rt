//! Many passes, until all have ended.

ghost use Rattle.std.specs.Prelude.{◌≡◌, ℕ, ◌<◌, IsTrue, length, slice_index_or};
ghost use Rattle.team_core.specs.declared.member.MemberState.TheVariants as at;
ghost use Rattle.phase_board.specs.Held.{Held};
ghost use Rattle.phase_board.specs.Passes.{AllDone};
ghost use Rattle.team_run.specs.Teams.{AllFree};

use crate::gate::Gate;
use crate::turn::{Turn, drive, is_ended, take_turn};
use phase_board::{Board, Pass};
use std::sync::Wait;
use std::thread;
use std::thread::Threads;

fn all_ended(passes: &[Pass]) -> bool
    ensures { IsTrue result → (i : ℕ) (d : Held) → i < length passes.now → (slice_index_or passes.now i d).state ≡ at.Ended }
{
    'each: for at in 0..passes.len() {
        if !is_ended(&passes[at]) {
            return false;
        }
    }
    true
}

/// A turn for each pass, and whether any moved.
fn take_turns<G: Gate>(board: &Board, passes: &mut [Pass], gate: &G) -> bool
    requires { AllFree board.now passes.old }
    ensures free { AllFree board.now passes.new }
    ensures count { length passes.new ≡ length passes.old }
{
    let mut moved = false;
    'each: for at in 0..passes.len() {
        if take_turn(board, &mut passes[at], gate) == Turn::Moved {
            moved = true;
        }
    }
    moved
}

/// Gives all passes turns until each has ended. Waits for teammates; takes no memory.
pub fn work<R: Wait, G: Gate>(rt: &R, board: &Board, passes: &mut [Pass], gate: &G)
    requires { AllFree board.now passes.old }
    ensures done { AllDone board.now passes.new }
    ensures count { length passes.new ≡ length passes.old }
{
    'rounds: for _ in rt.forever() {
        if all_ended(passes) {
            return;
        }
        if !take_turns(board, passes, gate) {
            thread::yield_now();
        }
    }
    unreachable!()
}

/// Runs a region on a thread for each pass, and gives all passes back, each ended. A pass whose thread could not be made, or
/// has waited too long, is worked by the caller. Waits for teammates; takes no memory.
pub fn run_region<R: Threads + Wait + Sync, G: Gate + Sync>(
    rt: &R,
    board: &Board,
    mut passes: Vec<Pass>,
    gate: &G,
) -> Vec<Pass>
    requires { AllFree board.now passes.items }
    ensures done { AllDone board.now result.items }
    ensures count { length result.items ≡ length passes.items }
{
    let team = passes.len();
    if team > 0 {
        thread::for_each_mut(
            rt,
            &mut passes,
            team,
            &|_, pass| drive(rt, board, pass, gate),
        );
    }
    work(rt, board, &mut passes, gate);
    passes
}
