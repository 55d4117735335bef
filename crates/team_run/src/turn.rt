//! The turns of one pass.

ghost use Rattle.std.specs.Prelude.{◌≡◌, IsTrue, ◌↔◌};
ghost use Rattle.team_core.specs.declared.member.MemberState.TheVariants as at;
ghost use Rattle.phase_board.specs.Passes.{IsWhole};
ghost use Rattle.team_run.specs.Teams.{IsFree};

use crate::gate::Gate;
use phase_board::{Board, Pass, Seen};
use std::sync::Wait;
use std::thread;
use team_core::MemberState;
use unit_eval::run_unit;

/// How often in a row a member finds the barrier not yet full before it leaves its pass to the caller.
const PATIENCE: u32 = 100_000_000;

/// What a turn came to.
#[derive(Clone, Copy, Debug, PartialEq, Eq)]
pub enum Turn {
    Moved,
    /// The team has not arrived yet.
    Waits,
    Ended,
}

pub fn is_ended(pass: &Pass) -> bool
    ensures { IsTrue result ↔ (pass.now.state ≡ at.Ended) }
{
    matches!(pass.state(), MemberState::Ended)
}

/// Claims a unit and runs it, or finds none left.
fn run_next<G: Gate>(board: &Board, pass: &mut Pass, gate: &G)
    requires pass { IsWhole board.now pass.old }
    requires ready { pass.old.state ≡ at.Ready }
    ensures { IsFree board.now pass.new }
{
    let units = board.iterations(pass);
    if let Some(unit) = board.claim(pass, units) {
        gate.pass(pass.member(), pass.phase(), unit);
        run_unit(board, pass, unit);
    }
}

/// At the barrier: goes on, or sees whether it is full.
fn pass_barrier(board: &Board, pass: &mut Pass) -> Turn
    requires pass { IsWhole board.now pass.old }
    requires arrived { pass.old.state ≡ at.Arrived }
    ensures { IsFree board.now pass.new }
{
    if pass.marked() {
        board.verdict(pass);
        return Turn::Moved;
    }
    match board.see(pass) {
        Seen::All => Turn::Moved,
        Seen::NotYet => Turn::Waits,
    }
}

/// One turn of a pass.
pub fn take_turn<G: Gate>(board: &Board, pass: &mut Pass, gate: &G) -> Turn
    requires { IsFree board.now pass.old }
    ensures { IsFree board.now pass.new }
{
    match pass.state() {
        MemberState::Ready => {
            run_next(board, pass, gate);
            Turn::Moved
        }
        MemberState::Out => {
            board.arrive(pass);
            Turn::Moved
        }
        MemberState::Arrived => pass_barrier(board, pass),
        MemberState::Within { .. } => unreachable!(),
        MemberState::Ended => Turn::Ended,
    }
}

/// Now and then another thread gets the processor from one that waits.
fn pause(waited: u32) {
    if waited % 64 == 63 {
        thread::yield_now();
    }
}

/// Gives a pass its turns until it has ended, or the barrier was not full too often in a row.
pub fn drive<R: Wait, G: Gate>(rt: &R, board: &Board, pass: &mut Pass, gate: &G)
    requires { IsFree board.now pass.old }
    ensures { IsFree board.now pass.new }
{
    let mut waited = 0;
    'turns: for _ in rt.forever() {
        match take_turn(board, pass, gate) {
            Turn::Moved => waited = 0,
            Turn::Waits => waited += 1,
            Turn::Ended => return,
        }
        if waited == PATIENCE {
            return;
        }
        pause(waited);
    }
}
