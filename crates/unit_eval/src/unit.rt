//! What a pass does with a unit that it has claimed.

ghost use Rattle.std.specs.Prelude.{◌≡◌, length};
ghost use Rattle.phase_ops.specs.Phases.{natural};
ghost use Rattle.phase_ops.specs.Free.{count_value};
ghost use Rattle.phase_ops.specs.Course.{memory_after, work_at};
ghost use Rattle.act_eval.specs.Strands.{AreChunks};
ghost use Rattle.team_core.specs.declared.member.MemberState.TheVariants as at;
ghost use Rattle.team_core.specs.Laws.{phase_at};
ghost use Rattle.phase_board.specs.Rule.{course_of, InUnit};
ghost use Rattle.phase_board.specs.Passes.{AreEnough, IsPassOf, IsWhole};

use crate::site::{Runs, UnitSite};
use act_eval::{Chunks, run_strands};
use phase_board::{Board, Pass};
use std::marker::{Brand, PhantomData};

/// Does the effects of the unit, in order.
fn do_effects<K: Runs>(
    board: &Board,
    pass: &mut Pass,
    chunks: Chunks,
    unit: u32,
    registers: &mut [i64],
)
    requires claimed { K.claimed ≡ record { pass = pass.old; unit = unit } }
    requires pass { IsPassOf board.now pass.old }
    requires within { (pass.old.state ≡ at.Within unit 0) × InUnit board.now.run pass.old.phase unit 0 }
    requires chunks { (chunks.chunk ≡ board.now.run.chunk) × AreChunks chunks.chunk chunks.count }
    requires count { chunks.count ≡ natural (count_value (phase_at board.now.run.phases pass.old.phase) (memory_after (course_of board.now.run) pass.old.phase)) }
    requires room { AreEnough board.now.run.phases (length registers.old) }
    ensures done { pass.new ≡ record pass.old { state = at.Within unit (length ((work_at (course_of board.now.run) pass.old.phase).effects unit)); full = pass.new.full } }
    ensures registers { length registers.new ≡ length registers.old }
{
    let phase = &board.phases().as_slice()[pass.phase() as usize];
    let site: UnitSite<K> = UnitSite {
        board,
        of: PhantomData,
    };
    run_strands(&site, pass, phase, chunks, unit, registers);
}

/// Does the effects of the unit that the pass has claimed, in order and no other, and finishes it. Takes no memory.
pub fn run_unit(board: &Board, pass: &mut Pass, unit: u64)
    requires pass { IsWhole board.now pass.old }
    requires claimed { pass.old.state ≡ at.Within unit 0 }
    ensures pass { IsWhole board.now pass.new }
    ensures ready { pass.new.state ≡ at.Ready }
    ensures same { (pass.new.member ≡ pass.old.member) × (pass.new.phase ≡ pass.old.phase) }
{
    let _known = pass.state();
    let chunks = board.chunks(pass);
    let mut registers = pass.take_registers();
    do_effects::<Brand>(board, pass, chunks, unit as u32, registers.as_mut_slice());
    pass.give_registers(registers);
    board.finish(pass);
}
