//! A running core over any course of work.

ghost use Rattle.std.specs.Prelude.{◌≡◌, ℕ, ◌<◌, ◌≤◌, ◌≢◌, List, Some, None, true, slice_index_or, slice_index, length, MatchResult, IfOk, IsTrue, ◌↔◌};
ghost use lib.ListN.{get_elem?};
ghost use Rattle.phase_ops.specs.Course.{Course, work_at};
ghost use Rattle.team_core.specs.Core.{member_of, counts_at, IsPlaced, claims, acts, finishes, arrives, sees, judges, start as spec_start};
ghost use Rattle.team_core.specs.Machines.{as_option, Enters, Holds, HoldsBut, Passed, Did, allowed, is_look as spec_is_look, CanRun, next_kind as spec_next};
ghost use Rattle.team_core.specs.Runs.{stepped};
ghost use mathlib.Core.Option.{some, none};
ghost use Rattle.team_core.specs.declared.member.MemberState.TheVariants as at;

use crate::member::{MemberState, StepKind};
use crate::state::{CellList, CoreState, Member};
use crate::steps;
use phase_ops::Effect;
use sqlite_items::Items;
use std::alloc::{AllocError, Global};

/// What the units of a plan's phases do, one phase at a time.
pub trait UnitWork<P> {
    ghost use Rattle.std.specs.Prelude.{ℕ};
    ghost use Rattle.phase_ops.specs.Course.{Course};

    ghost course: { Self → P → Course };

    ghost entered: { Self → ℕ };

    ghost made_for: { Self → P → Type 0 };

    ghost ready: { Self → P → Type 0 };

    /// Goes to a phase, which begins over these cells.
    fn enter(&mut self, plan: &P, phase: u64, cells: &[u64])
        requires made { made_for self.old plan.now }
        requires enters { Enters (course self.old plan.now) phase cells.now }
        ensures course { course self.new plan.now ≡ course self.old plan.now }
        ensures entered { entered self.new ≡ phase }
        ensures ready { ready self.new plan.now };

    /// The number of the phase's units.
    fn units(&self, plan: &P) -> u64
        requires { ready self.now plan.now }
        ensures { result ≡ (work_at (course self.now plan.now) (entered self.now)).units };

    /// The next effect of the member's unit, of which so many are done, or none.
    fn effect(&mut self, plan: &P, member: usize, unit: u64, done: u64) -> Option<Effect>
        requires ready { ready self.old plan.now }
        requires member { member < (course self.old plan.now).team }
        requires unit { unit < (work_at (course self.old plan.now) (entered self.old)).units }
        ensures value { as_option result ≡ get_elem? ((work_at (course self.old plan.now) (entered self.old)).effects unit) done }
        ensures course { course self.new plan.now ≡ course self.old plan.now }
        ensures entered { entered self.new ≡ entered self.old }
        ensures ready { ready self.new plan.now };

    ghost stays_made: { (w : Self) (p : P) → ready w p → made_for w p };
}

/// The member's state does not allow the step.
#[derive(Clone, Copy, Debug, PartialEq, Eq)]
pub struct NotNow {
    pub state: MemberState,
}

/// A core, with the next effect of each member that holds a unit.
#[derive(Drop)]
pub struct Machine<W> {
    state: CoreState,
    pending: Items<Option<Effect>>,
    work: W,
    team: u64,
    count: u64,
}

impl<W> Machine<W> {
    /// A core whose members are all Ready at the first phase, or Ended where there is none.
    pub fn start<P>(
        alloc: Global,
        plan: &P,
        work: W,
        opening: CellList,
        team: u32,
        count: u32,
    ) -> Result<Machine<W>, AllocError>
    where
        W: UnitWork<P> + Drop,
        requires can { CanRun (W.course work plan.now) }
        requires made { W.made_for work plan.now }
        requires sizes { (team ≡ (W.course work plan.now).team) × (count ≡ (W.course work plan.now).count) }
        requires opening { opening ≡ (W.course work plan.now).opening }
        ensures holds { IfOk result (λ r. Holds (W.course r.work plan.now) r.state r.pending (W.entered r.work) (W.ready r.work plan.now)) }
        ensures course { IfOk result (λ r. W.course r.work plan.now ≡ W.course work plan.now) }
        ensures sizes { IfOk result (λ r. (r.team ≡ team) × (r.count ≡ count)) }
        ensures state { IfOk result (λ r. r.state ≡ spec_start (W.course work plan.now)) }
    {
        let state = steps::fresh(alloc, opening, team, count)?;
        let pending = Items::from_vec(vec![in alloc; None; team as usize]?);
        let mut work = work;
        if count > 0 {
            work.enter(plan, 0, state.cells.as_slice());
        }
        Ok(Machine {
            state,
            pending,
            work,
            team: u64::from(team),
            count: u64::from(count),
        })
    }

    /// The state of a member.
    pub fn state(&self, member: u32) -> MemberState
        requires { member < length self.now.state.members }
        ensures { result ≡ (member_of self.now.state member).state }
    {
        self.state.members.as_slice()[member as usize].state
    }

    /// Whether a member has seen its barrier full.
    pub fn marked(&self, member: u32) -> bool
        requires { member < length self.now.state.members }
        ensures { result ≡ (member_of self.now.state member).full }
    {
        self.state.members.as_slice()[member as usize].full
    }

    /// Whether the whole team has arrived behind the member's phase.
    pub fn full(&self, member: u32) -> bool
        requires { IsPlaced self.now.state member }
        ensures { IsTrue result ↔ ((counts_at self.now.state (member_of self.now.state member).phase).numbers.arrived ≡ self.now.team) }
    {
        steps::counts_of(&self.state, member as usize)
            .numbers
            .arrived
            == self.team
    }

    /// The value of a cell.
    pub fn cell(&self, at: u32) -> u64
        requires { at < length self.now.state.cells }
        ensures { result ≡ slice_index self.now.state.cells at }
    {
        self.state.cells.as_slice()[at as usize]
    }

    /// The one kind of step other than a look that a member may take, or none where it has ended. It is at hand, so that
    /// nothing changes.
    pub fn next(&self, member: u32) -> Option<StepKind>
        requires { (member < length self.now.state.members) × (member < length self.now.pending) }
        ensures { result ≡ spec_next (member_of self.now.state member).state (member_of self.now.state member).full (slice_index_or self.now.pending member None) }
    {
        let now = self.state.members.as_slice()[member as usize];
        let next = self.pending.as_slice()[member as usize];
        next_kind(now, next)
    }

    /// Finds the next effect of the member's unit, where it holds one.
    fn look_ahead<P>(&mut self, plan: &P, member: usize)
    where
        W: UnitWork<P>,
        requires there { member < (W.course self.old.work plan.now).team }
        requires holds { HoldsBut member (W.course self.old.work plan.now) self.old.state self.old.pending (W.entered self.old.work) (W.ready self.old.work plan.now) }
        ensures holds { Holds (W.course self.new.work plan.now) self.new.state self.new.pending (W.entered self.new.work) (W.ready self.new.work plan.now) }
        ensures course { W.course self.new.work plan.now ≡ W.course self.old.work plan.now }
        ensures state { self.new.state ≡ self.old.state }
        ensures same { (self.new.team ≡ self.old.team) × (self.new.count ≡ self.old.count) }
    {
        if let MemberState::Within { unit, done } = self.state.members.as_slice()[member].state {
            let next = self.work.effect(plan, member, unit, done);
            self.pending.set(member, next);
        }
    }

    fn claim<P>(&mut self, plan: &P, member: usize)
    where
        W: UnitWork<P>,
        requires there { member < (W.course self.old.work plan.now).team }
        requires holds { Holds (W.course self.old.work plan.now) self.old.state self.old.pending (W.entered self.old.work) (W.ready self.old.work plan.now) }
        requires ready { (member_of self.old.state member).state ≡ at.Ready }
        ensures holds { Holds (W.course self.new.work plan.now) self.new.state self.new.pending (W.entered self.new.work) (W.ready self.new.work plan.now) }
        ensures course { W.course self.new.work plan.now ≡ W.course self.old.work plan.now }
        ensures state { self.new.state ≡ claims (W.course self.old.work plan.now) self.old.state member (member_of self.old.state member) }
        ensures same { (self.new.team ≡ self.old.team) × (self.new.count ≡ self.old.count) }
    {
        let units = self.work.units(plan);
        steps::claim(&mut self.state, member, units);
        self.look_ahead(plan, member);
    }

    fn act<P>(&mut self, plan: &P, member: usize, effect: Effect, unit: u64, done: u64)
    where
        W: UnitWork<P>,
        requires there { member < (W.course self.old.work plan.now).team }
        requires holds { Holds (W.course self.old.work plan.now) self.old.state self.old.pending (W.entered self.old.work) (W.ready self.old.work plan.now) }
        requires within { (member_of self.old.state member).state ≡ at.Within unit done }
        requires next { slice_index_or self.old.pending member None ≡ Some effect }
        ensures holds { Holds (W.course self.new.work plan.now) self.new.state self.new.pending (W.entered self.new.work) (W.ready self.new.work plan.now) }
        ensures course { W.course self.new.work plan.now ≡ W.course self.old.work plan.now }
        ensures same { (self.new.team ≡ self.old.team) × (self.new.count ≡ self.old.count) }
        ensures state { self.new.state ≡ acts self.old.state member (member_of self.old.state member) effect unit done }
    {
        steps::act(&mut self.state, member, effect, unit, done);
        self.look_ahead(plan, member);
    }

    fn finish<P>(&mut self, plan: &P, member: usize)
    where
        W: UnitWork<P>,
        requires there { member < (W.course self.old.work plan.now).team }
        requires holds { Holds (W.course self.old.work plan.now) self.old.state self.old.pending (W.entered self.old.work) (W.ready self.old.work plan.now) }
        requires within { (u : ℕ) × (d : ℕ) × ((member_of self.old.state member).state ≡ at.Within u d) }
        requires next { slice_index_or self.old.pending member None ≡ None }
        ensures holds { Holds (W.course self.new.work plan.now) self.new.state self.new.pending (W.entered self.new.work) (W.ready self.new.work plan.now) }
        ensures course { W.course self.new.work plan.now ≡ W.course self.old.work plan.now }
        ensures same { (self.new.team ≡ self.old.team) × (self.new.count ≡ self.old.count) }
        ensures state { self.new.state ≡ finishes self.old.state member (member_of self.old.state member) }
    {
        steps::finish(&mut self.state, member);
        self.look_ahead(plan, member);
    }

    fn see<P>(&mut self, plan: &P, member: usize)
    where
        W: UnitWork<P>,
        requires there { member < (W.course self.old.work plan.now).team }
        requires holds { Holds (W.course self.old.work plan.now) self.old.state self.old.pending (W.entered self.old.work) (W.ready self.old.work plan.now) }
        requires arrived { (member_of self.old.state member).state ≡ at.Arrived }
        requires sizes { self.old.team ≡ (W.course self.old.work plan.now).team }
        ensures holds { Holds (W.course self.new.work plan.now) self.new.state self.new.pending (W.entered self.new.work) (W.ready self.new.work plan.now) }
        ensures course { W.course self.new.work plan.now ≡ W.course self.old.work plan.now }
        ensures same { (self.new.team ≡ self.old.team) × (self.new.count ≡ self.old.count) }
        ensures state { self.new.state ≡ sees (W.course self.old.work plan.now) self.old.state member (member_of self.old.state member) }
    {
        let team = self.team;
        steps::see(&mut self.state, member, team);
        self.look_ahead(plan, member);
    }

    fn judge<P>(&mut self, plan: &P, member: usize)
    where
        W: UnitWork<P>,
        requires there { member < (W.course self.old.work plan.now).team }
        requires holds { Holds (W.course self.old.work plan.now) self.old.state self.old.pending (W.entered self.old.work) (W.ready self.old.work plan.now) }
        requires arrived { (member_of self.old.state member).state ≡ at.Arrived }
        requires full { (member_of self.old.state member).full ≡ true }
        requires sizes { self.old.count ≡ (W.course self.old.work plan.now).count }
        ensures holds { Holds (W.course self.new.work plan.now) self.new.state self.new.pending (W.entered self.new.work) (W.ready self.new.work plan.now) }
        ensures course { W.course self.new.work plan.now ≡ W.course self.old.work plan.now }
        ensures same { (self.new.team ≡ self.old.team) × (self.new.count ≡ self.old.count) }
        ensures state { self.new.state ≡ judges (W.course self.old.work plan.now) self.old.state member (member_of self.old.state member) }
    {
        let count = self.count;
        steps::judge(&mut self.state, member, count);
        self.look_ahead(plan, member);
    }

    /// Enters the next phase, where all have left this one without a key.
    fn go_on<P>(&mut self, plan: &P, member: usize, phase: u64)
    where
        W: UnitWork<P>,
        requires passed { Passed member (W.course self.old.work plan.now) self.old.state self.old.pending (W.entered self.old.work) (W.ready self.old.work plan.now) phase }
        requires sizes { (self.old.team ≡ (W.course self.old.work plan.now).team) × (self.old.count ≡ (W.course self.old.work plan.now).count) }
        ensures holds { HoldsBut member (W.course self.new.work plan.now) self.new.state self.new.pending (W.entered self.new.work) (W.ready self.new.work plan.now) }
        ensures course { W.course self.new.work plan.now ≡ W.course self.old.work plan.now }
        ensures same { (self.new.team ≡ self.old.team) × (self.new.count ≡ self.old.count) }
        ensures state { self.new.state ≡ self.old.state }
    {
        if !steps::is_left(&self.state, phase, self.team) {
            return;
        }
        if phase + 1 >= self.count {
            return;
        }
        self.work
            .enter(plan, phase + 1, self.state.cells.as_slice());
    }

    fn arrive<P>(&mut self, plan: &P, member: usize)
    where
        W: UnitWork<P>,
        requires there { member < (W.course self.old.work plan.now).team }
        requires holds { Holds (W.course self.old.work plan.now) self.old.state self.old.pending (W.entered self.old.work) (W.ready self.old.work plan.now) }
        requires out { (member_of self.old.state member).state ≡ at.Out }
        requires sizes { (self.old.team ≡ (W.course self.old.work plan.now).team) × (self.old.count ≡ (W.course self.old.work plan.now).count) }
        ensures holds { Holds (W.course self.new.work plan.now) self.new.state self.new.pending (W.entered self.new.work) (W.ready self.new.work plan.now) }
        ensures course { W.course self.new.work plan.now ≡ W.course self.old.work plan.now }
        ensures same { (self.new.team ≡ self.old.team) × (self.new.count ≡ self.old.count) }
        ensures state { self.new.state ≡ arrives self.old.state member (member_of self.old.state member) }
    {
        let phase = self.state.members.as_slice()[member].phase;
        steps::arrive(&mut self.state, member);
        self.go_on(plan, member, phase);
        self.look_ahead(plan, member);
    }

    /// The member's one step other than a look.
    fn advance<P>(&mut self, plan: &P, member: usize)
    where
        W: UnitWork<P>,
        requires there { member < (W.course self.old.work plan.now).team }
        requires holds { Holds (W.course self.old.work plan.now) self.old.state self.old.pending (W.entered self.old.work) (W.ready self.old.work plan.now) }
        requires sizes { (self.old.team ≡ (W.course self.old.work plan.now).team) × (self.old.count ≡ (W.course self.old.work plan.now).count) }
        ensures holds { Holds (W.course self.new.work plan.now) self.new.state self.new.pending (W.entered self.new.work) (W.ready self.new.work plan.now) }
        ensures course { W.course self.new.work plan.now ≡ W.course self.old.work plan.now }
        ensures same { (self.new.team ≡ self.old.team) × (self.new.count ≡ self.old.count) }
        ensures did { Did (W.course self.old.work plan.now) self.old.state member (member_of self.old.state member) (member_of self.old.state member).state (member_of self.old.state member).full (slice_index_or self.old.pending member None) self.new.state }
    {
        let now = self.state.members.as_slice()[member];
        let next = self.pending.as_slice()[member];
        match now.state {
            MemberState::Ready => self.claim(plan, member),
            MemberState::Within { unit, done } => match next {
                Some(effect) => self.act(plan, member, effect, unit, done),
                None => self.finish(plan, member),
            },
            MemberState::Out => self.arrive(plan, member),
            MemberState::Arrived => {
                if now.full {
                    self.judge(plan, member);
                } else {
                    self.see(plan, member);
                }
            }
            MemberState::Ended => {}
        }
    }

    /// One step of a member. NotNow comes exactly where its state does not allow the kind, and tells the state; then nothing
    /// has changed. Takes no memory.
    pub fn step<P>(&mut self, plan: &P, member: u32, kind: StepKind) -> Result<(), NotNow>
    where
        W: UnitWork<P>,
        requires there { member < (W.course self.old.work plan.now).team }
        requires holds { Holds (W.course self.old.work plan.now) self.old.state self.old.pending (W.entered self.old.work) (W.ready self.old.work plan.now) }
        requires sizes { (self.old.team ≡ (W.course self.old.work plan.now).team) × (self.old.count ≡ (W.course self.old.work plan.now).count) }
        ensures holds { Holds (W.course self.new.work plan.now) self.new.state self.new.pending (W.entered self.new.work) (W.ready self.new.work plan.now) }
        ensures course { W.course self.new.work plan.now ≡ W.course self.old.work plan.now }
        ensures same { (self.new.team ≡ self.old.team) × (self.new.count ≡ self.old.count) }
        ensures answer { MatchResult result
            (λ _. stepped (W.course self.old.work plan.now) self.old.state member (member_of self.old.state member) kind (member_of self.old.state member).state ≡ some self.new.state)
            (λ e. (stepped (W.course self.old.work plan.now) self.old.state member (member_of self.old.state member) kind (member_of self.old.state member).state ≡ none) × (e.state ≡ (member_of self.old.state member).state) × (self.new ≡ self.old)) }
    {
        let at = member as usize;
        let now = self.state.members.as_slice()[at];
        let next = self.pending.as_slice()[at];
        if !allows(kind, now, next) {
            return Err(NotNow { state: now.state });
        }
        if !is_look(kind) {
            self.advance(plan, at);
        }
        Ok(())
    }
}

fn next_kind(member: Member, next: Option<Effect>) -> Option<StepKind>
    ensures { result ≡ spec_next member.state member.full next }
{
    match member.state {
        MemberState::Ready => Some(StepKind::Claim),
        MemberState::Within { .. } => match next {
            Some(Effect::Store(..)) => Some(StepKind::Put),
            Some(Effect::Least(..)) => Some(StepKind::Least),
            Some(Effect::Fault(_)) => Some(StepKind::Note),
            None => Some(StepKind::Finish),
        },
        MemberState::Out => Some(StepKind::Arrive),
        MemberState::Arrived if member.full => Some(StepKind::Verdict),
        MemberState::Arrived => Some(StepKind::See),
        MemberState::Ended => None,
    }
}

fn is_look(kind: StepKind) -> bool
    ensures { result ≡ spec_is_look kind }
{
    matches!(kind, StepKind::Look)
}

/// The state, the mark and the next effect allow the kind.
fn allows(kind: StepKind, member: Member, next: Option<Effect>) -> bool
    ensures { result ≡ allowed kind member.state member.full next }
{
    match (kind, member.state) {
        (StepKind::Claim, MemberState::Ready) => true,
        (StepKind::Look, MemberState::Ready | MemberState::Within { .. }) => true,
        (StepKind::Put, MemberState::Within { .. }) => matches!(next, Some(Effect::Store(..))),
        (StepKind::Least, MemberState::Within { .. }) => matches!(next, Some(Effect::Least(..))),
        (StepKind::Note, MemberState::Within { .. }) => matches!(next, Some(Effect::Fault(_))),
        (StepKind::Finish, MemberState::Within { .. }) => next.is_none(),
        (StepKind::Arrive, MemberState::Out) => true,
        (StepKind::See, MemberState::Arrived) => !member.full,
        (StepKind::Verdict, MemberState::Arrived) => member.full,
        _ => false,
    }
}
