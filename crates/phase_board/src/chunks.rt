//! How many iterations and units a phase has.

ghost use Rattle.std.specs.Prelude.{◌≡◌, ℕ, ◌≤◌, length, pos, ◌≤ℤ◌};
ghost use Rattle.std.specs.Int.{w64, cast_signed};
ghost use Rattle.phase_ops.specs.Phases.{natural, source as source_value, source_cells};
ghost use Rattle.phase_ops.specs.Free.{In, count_value};
ghost use Rattle.phase_ops.specs.Course.{memory_after, work_at};
ghost use Rattle.act_eval.specs.Strands.{AreChunks};
ghost use Rattle.team_core.specs.declared.member.MemberState.TheVariants as at;
ghost use Rattle.team_core.specs.Laws.{phase_at};
ghost use Rattle.team_core.specs.Units.{HasCount, HasNumber};
ghost use Rattle.phase_board.specs.Rule.{course_of};
ghost use Rattle.phase_board.specs.Looking.{HasDoneNothing};
ghost use Rattle.phase_board.specs.Passes.{IsPassOf};

use crate::board::{Board, Pass};
use act_eval::{Chunks, units_of};
use phase_ops::{Phase, Source};

/// A number of iterations, as a cell holds it.
fn counted(word: u64) -> u32
    requires low { pos 0 ≤ℤ cast_signed w64 word }
    requires high { cast_signed w64 word ≤ℤ pos 65536 }
    ensures { result ≡ natural (cast_signed w64 word) }
{
    word.cast_signed() as u32
}

impl Board {
    /// The number that a source of the phase's count gives at the phase's start.
    fn number(&self, pass: &mut Pass, source: Source) -> u32
        requires pass { IsPassOf self.now pass.old }
        requires start { HasDoneNothing pass.old.state }
        requires count { HasNumber (memory_after (course_of self.now.run) pass.old.phase) source }
        requires parameter { (c : ℕ) → In c (source_cells source) → In c (work_at (course_of self.now.run) pass.old.phase).parameter }
        requires few { pass.old.phase ≤ length self.now.run.phases }
        ensures pass { pass.new ≡ pass.old }
        ensures value { result ≡ natural (source_value (memory_after (course_of self.now.run) pass.old.phase) source) }
    {
        match source {
            Source::Fixed(value) => value as u32,
            Source::Cell(cell) => counted(self.look(pass, cell)),
        }
    }

    fn count(&self, pass: &mut Pass, phase: &Phase) -> u32
        requires pass { IsPassOf self.now pass.old }
        requires start { HasDoneNothing pass.old.state }
        requires phase { phase.now ≡ phase_at self.now.run.phases pass.old.phase }
        requires count { HasCount phase.now (memory_after (course_of self.now.run) pass.old.phase) }
        requires few { pass.old.phase ≤ length self.now.run.phases }
        ensures pass { pass.new ≡ pass.old }
        ensures value { result ≡ natural (count_value phase.now (memory_after (course_of self.now.run) pass.old.phase)) }
        ensures few { result ≤ 65536 }
    {
        match phase {
            Phase::Set { .. } => 1,
            Phase::Loop { count, .. } => self.number(pass, *count),
            Phase::Part { count, .. } => self.number(pass, *count),
            Phase::Join { count, .. } => self.number(pass, *count),
        }
    }

    /// The iterations of the pass's phase, found by looks, and the chunk.
    pub fn chunks(&self, pass: &mut Pass) -> Chunks
        requires pass { IsPassOf self.now pass.old }
        requires start { HasDoneNothing pass.old.state }
        ensures pass { pass.new ≡ pass.old }
        ensures chunk { (result.chunk ≡ self.now.run.chunk) × AreChunks result.chunk result.count }
        ensures count { result.count ≡ natural (count_value (phase_at self.now.run.phases pass.old.phase) (memory_after (course_of self.now.run) pass.old.phase)) }
    {
        let phase = &self.run.phases.as_slice()[pass.phase as usize];
        Chunks {
            count: self.count(pass, phase),
            chunk: self.run.chunk,
        }
    }

    /// The number of units of the pass's phase, found by looks.
    pub fn iterations(&self, pass: &mut Pass) -> u64
        requires pass { IsPassOf self.now pass.old }
        requires ready { pass.old.state ≡ at.Ready }
        ensures pass { pass.new ≡ pass.old }
        ensures value { result ≡ (work_at (course_of self.now.run) pass.old.phase).units }
    {
        let chunks = self.chunks(pass);
        units_of(&self.run.phases.as_slice()[pass.phase as usize], chunks)
    }
}
