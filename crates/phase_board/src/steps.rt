//! The steps of a pass: each is one atomic step on one word.

ghost use Rattle.std.specs.Prelude.{◌≡◌, ℕ, ◌+◌, ◌*◌, ◌<◌, ◌↔◌, ◌∷◌, length, MatchOption, true, false};
ghost use Rattle.phase_ops.specs.Course.{work_at, key_at};
ghost use Rattle.phase_ops.specs.declared.effect.Effect.TheVariants as spec_effect;
ghost use Rattle.team_core.specs.declared.member.MemberState.TheVariants as at;
ghost use Rattle.phase_board.specs.declared.plays.Role.TheVariants.{Of};
ghost use Rattle.phase_board.specs.Rule.{course_of, Looked, acted_state};
ghost use Rattle.phase_board.specs.Looking.{Looking};
ghost use Rattle.phase_board.specs.Passes.{IsPassOf, IsNext, in_state, is_all, last_sight, verdict_of, judged_pass};
ghost use Rattle.phase_board.specs.declared.steps.Seen.TheVariants.{All, NotYet};

use crate::board::{Board, Pass};
use crate::plays::{Act, Arrive, Claim, Finish, Judge, Look, See};
use team_core::MemberState;

const NONE_YET: u64 = u64::MAX;

/// Whether the whole team has arrived.
#[derive(Clone, Copy, Debug, PartialEq, Eq)]
pub enum Seen {
    All,
    NotYet,
}

/// Whether the team goes on, or its phase has this key.
#[derive(Clone, Copy, Debug, PartialEq, Eq)]
pub enum Verdict {
    Go,
    Stopped(u64),
}

#[inline(always)]
fn acted(state: MemberState) -> MemberState
    requires { (u d : ℕ) → state ≡ at.Within u d → d < 4611686018427387904 }
    ensures { result ≡ acted_state state }
{
    match state {
        MemberState::Within { unit, done } => MemberState::Within {
            unit,
            done: done + 1,
        },
        other => other,
    }
}

impl Board {
    /// The first word of the four of a phase.
    #[inline(always)]
    fn words_at(&self, phase: u32) -> usize
        requires { phase < length self.now.run.phases }
        ensures { (result ≡ 1 + length self.now.run.opening + 4 * phase) × (result + 3 < self.now.table.shared.table_id.words) }
    {
        1 + self.run.opening.len() + 4 * phase as usize
    }

    /// Claims the next unit of the phase, which has so many. None where all were claimed.
    pub fn claim(&self, pass: &mut Pass, units: u64) -> Option<u64>
        requires pass { IsPassOf self.now pass.old }
        requires ready { pass.old.state ≡ at.Ready }
        requires units { units ≡ (work_at (course_of self.now.run) pass.old.phase).units }
        ensures { MatchOption result
            (pass.new ≡ in_state pass.old at.Out)
            (λ u. (u < units) × (pass.new ≡ in_state pass.old (at.Within u 0))) }
    {
        let word = self.words_at(pass.phase);
        let found = self
            .table
            .shared
            .fetch_add::<Claim>(&mut pass.seat, word, 1);
        pass.full = false;
        if found < units {
            pass.state = MemberState::Within {
                unit: found,
                done: 0,
            };
            Some(found)
        } else {
            pass.state = MemberState::Out;
            None
        }
    }

    /// The value of a cell that the phase or the pass's unit may read: that at the phase's start, laid over by what the pass
    /// has done of its unit.
    #[inline(always)]
    pub fn look(&self, pass: &mut Pass, cell: u32) -> u64
        requires pass { IsPassOf self.now pass.old }
        requires looking { Looking pass.old.state }
        requires cell { cell < length self.now.run.opening }
        ensures pass { pass.new ≡ pass.old }
        ensures value { Looked (course_of self.now.run) cell result (Of pass.old.member pass.old.phase pass.old.state pass.old.full) }
    {
        self.table
            .shared
            .load::<Look>(&mut pass.seat, 1 + cell as usize)
    }

    /// Stores the next effect of the pass's unit.
    #[inline(always)]
    pub fn put(&self, pass: &mut Pass, cell: u32, value: u64)
        requires pass { IsPassOf self.now pass.old }
        requires next { IsNext self.now pass.old (spec_effect.Store cell value) }
        ensures { pass.new ≡ in_state pass.old (acted_state pass.old.state) }
    {
        self.table
            .shared
            .store::<Act>(&mut pass.seat, 1 + cell as usize, value);
        pass.full = false;
        pass.state = acted(pass.state);
    }

    /// Lays the next effect of the pass's unit over a cell: the cell gets the lesser of both values.
    pub fn least(&self, pass: &mut Pass, cell: u32, value: u64)
        requires pass { IsPassOf self.now pass.old }
        requires next { IsNext self.now pass.old (spec_effect.Least cell value) }
        ensures { pass.new ≡ in_state pass.old (acted_state pass.old.state) }
    {
        self.table
            .shared
            .fetch_min::<Act>(&mut pass.seat, 1 + cell as usize, value);
        pass.full = false;
        pass.state = acted(pass.state);
    }

    /// Notes the key of a fault, which is the next effect of the pass's unit.
    pub fn note(&self, pass: &mut Pass, key: u64)
        requires pass { IsPassOf self.now pass.old }
        requires next { IsNext self.now pass.old (spec_effect.Fault key) }
        ensures { pass.new ≡ in_state pass.old (acted_state pass.old.state) }
    {
        let word = self.words_at(pass.phase) + 3;
        self.table
            .shared
            .fetch_min::<Act>(&mut pass.seat, word, key);
        pass.full = false;
        pass.state = acted(pass.state);
    }

    /// Finishes the pass's unit.
    pub fn finish(&self, pass: &mut Pass)
        requires pass { IsPassOf self.now pass.old }
        requires whole { (u : ℕ) × (pass.old.state ≡ at.Within u (length ((work_at (course_of self.now.run) pass.old.phase).effects u))) }
        ensures { pass.new ≡ in_state pass.old at.Ready }
    {
        let word = self.words_at(pass.phase) + 1;
        self.table
            .shared
            .fetch_add::<Finish>(&mut pass.seat, word, 1);
        pass.full = false;
        pass.state = MemberState::Ready;
    }

    /// Arrives at the barrier behind the phase.
    pub fn arrive(&self, pass: &mut Pass)
        requires pass { IsPassOf self.now pass.old }
        requires out { pass.old.state ≡ at.Out }
        ensures { pass.new ≡ in_state pass.old at.Arrived }
    {
        let word = self.words_at(pass.phase) + 2;
        self.table
            .shared
            .fetch_add::<Arrive>(&mut pass.seat, word, 1);
        pass.full = false;
        pass.state = MemberState::Arrived;
    }

    /// Whether the whole team has arrived behind the phase, by one load of how many have.
    pub fn see(&self, pass: &mut Pass) -> Seen
        requires pass { IsPassOf self.now pass.old }
        requires arrived { (pass.old.state ≡ at.Arrived) × (pass.old.full ≡ false) }
        ensures not_yet { (result ≡ NotYet) ↔ (last_sight pass.new < self.now.run.team) }
        ensures all { (result ≡ All) ↔ (last_sight pass.new ≡ self.now.run.team) }
        ensures pass { pass.new ≡ record pass.old { full = is_all result; sights = last_sight pass.new ∷ pass.old.sights } }
    {
        let word = self.words_at(pass.phase) + 2;
        let found = self.table.shared.load::<See>(&mut pass.seat, word);
        pass.full = found == u64::from(self.run.team);
        if pass.full { Seen::All } else { Seen::NotYet }
    }

    /// The phase's key, at which the pass ends; or it goes on to the next phase, or ends behind the last.
    pub fn verdict(&self, pass: &mut Pass) -> Verdict
        requires pass { IsPassOf self.now pass.old }
        requires seen { (pass.old.state ≡ at.Arrived) × (pass.old.full ≡ true) }
        ensures key { result ≡ verdict_of (key_at (course_of self.now.run) pass.old.phase) }
        ensures pass { pass.new ≡ judged_pass (length self.now.run.phases) (key_at (course_of self.now.run) pass.old.phase) pass.old }
    {
        let word = self.words_at(pass.phase) + 3;
        let key = self.table.shared.load::<Judge>(&mut pass.seat, word);
        pass.full = false;
        if key < NONE_YET {
            pass.state = MemberState::Ended;
            return Verdict::Stopped(key);
        }
        if pass.phase as usize + 1 == self.run.phases.len() {
            pass.state = MemberState::Ended;
        } else {
            pass.phase += 1;
            pass.state = MemberState::Ready;
        }
        Verdict::Go
    }
}
