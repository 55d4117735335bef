//! The steps of one member, as changes of a core's state.

ghost use Rattle.std.specs.Prelude.{◌≡◌, ◌↔◌, ℕ, ◌<◌, ◌^◌, false, IsTrue, IfOk, length};
ghost use Rattle.team_core.specs.Core.{IsPlaced, member_of, counts_at, claims_of, acts, finishes, arrives, sees_of, judges_of, core_after, start_of, member as spec_member};
ghost use Rattle.phase_ops.specs.Phases.{over, none_yet};

use crate::member::MemberState;
use crate::state::{CellList, CoreState, Counts, CountsList, Member, MemberList, Numbers};
use phase_ops::Effect;
use std::alloc::{AllocError, Global};

/// No key.
pub const NO_KEY: u64 = u64::MAX;

const UNTOUCHED: Counts = Counts {
    numbers: Numbers {
        claimed: 0,
        finished: 0,
        arrived: 0,
    },
    key: NO_KEY,
};

/// Nothing is done, and each member is Ready at the first phase, or Ended where there is none.
pub fn fresh(
    alloc: Global,
    opening: CellList,
    team: u32,
    count: u32,
) -> Result<CoreState, AllocError>
    ensures { IfOk result (λ k. k ≡ start_of opening team count) }
{
    let counts = CountsList::from_vec(vec![in alloc; UNTOUCHED; count as usize]?);
    let state = if count == 0 {
        MemberState::Ended
    } else {
        MemberState::Ready
    };
    let first = Member {
        phase: 0,
        state,
        full: false,
    };
    let members = MemberList::from_vec(vec![in alloc; first; team as usize]?);
    Ok(CoreState {
        cells: opening,
        counts,
        members,
    })
}

/// The words of the member's phase.
pub fn counts_of(state: &CoreState, member: usize) -> Counts
    requires { IsPlaced state.now member }
    ensures { result ≡ counts_at state.now (member_of state.now member).phase }
{
    let phase = state.members.as_slice()[member].phase as usize;
    state.counts.as_slice()[phase]
}

/// Whether the whole team has left the phase, which has no key.
pub fn is_left(state: &CoreState, phase: u64, team: u64) -> bool
    requires { phase < length state.now.counts }
    ensures { IsTrue result ↔ (((counts_at state.now phase).numbers.arrived ≡ team) × ((counts_at state.now phase).key ≡ none_yet)) }
{
    let counts = state.counts.as_slice()[phase as usize];
    counts.numbers.arrived == team && counts.key == NO_KEY
}

/// Gives the member's phase these words, and the member this state.
fn change(state: &mut CoreState, member: usize, counts: Counts, to: MemberState)
    requires { IsPlaced state.old member }
    ensures { state.new ≡ core_after state.old member (member_of state.old member).phase (state.old.cells, counts.key) counts.numbers (spec_member (member_of state.old member).phase to false) }
{
    let phase = state.members.as_slice()[member].phase;
    state.counts.set(phase as usize, counts);
    let changed = Member {
        phase,
        state: to,
        full: false,
    };
    state.members.set(member, changed);
}

/// Claims the next unit of the member's phase. The member is out where all of the `units` are claimed.
pub fn claim(state: &mut CoreState, member: usize, units: u64)
    requires placed { IsPlaced state.old member }
    requires room { (counts_at state.old (member_of state.old member).phase).numbers.claimed < 2 ^ 63 }
    ensures { state.new ≡ claims_of units state.old member (member_of state.old member) }
{
    let mut counts = counts_of(state, member);
    let unit = counts.numbers.claimed;
    counts.numbers.claimed += 1;
    let found = if unit < units {
        MemberState::Within { unit, done: 0 }
    } else {
        MemberState::Out
    };
    change(state, member, counts, found);
}

/// Finishes the member's unit.
pub fn finish(state: &mut CoreState, member: usize)
    requires placed { IsPlaced state.old member }
    requires room { (counts_at state.old (member_of state.old member).phase).numbers.finished < 2 ^ 63 }
    ensures { state.new ≡ finishes state.old member (member_of state.old member) }
{
    let mut counts = counts_of(state, member);
    counts.numbers.finished += 1;
    change(state, member, counts, MemberState::Ready);
}

/// The member arrives at the barrier behind its phase.
pub fn arrive(state: &mut CoreState, member: usize)
    requires placed { IsPlaced state.old member }
    requires room { (counts_at state.old (member_of state.old member).phase).numbers.arrived < 2 ^ 63 }
    ensures { state.new ≡ arrives state.old member (member_of state.old member) }
{
    let mut counts = counts_of(state, member);
    counts.numbers.arrived += 1;
    change(state, member, counts, MemberState::Arrived);
}

/// The member is marked exactly where the whole team has arrived.
pub fn see(state: &mut CoreState, member: usize, team: u64)
    requires placed { IsPlaced state.old member }
    ensures { state.new ≡ sees_of team state.old member (member_of state.old member) }
{
    let full = counts_of(state, member).numbers.arrived == team;
    let phase = state.members.as_slice()[member].phase;
    let seen = Member {
        phase,
        state: MemberState::Arrived,
        full,
    };
    state.members.set(member, seen);
}

/// The member goes on to the next of `count` phases, or ends where its phase has a key or is the last.
pub fn judge(state: &mut CoreState, member: usize, count: u64)
    requires placed { IsPlaced state.old member }
    requires room { (member_of state.old member).phase < 2 ^ 63 }
    ensures { state.new ≡ judges_of count state.old member (member_of state.old member) }
{
    let key = counts_of(state, member).key;
    let phase = state.members.as_slice()[member].phase;
    let (phase, to) = if key < NO_KEY || phase + 1 == count {
        (phase, MemberState::Ended)
    } else {
        (phase + 1, MemberState::Ready)
    };
    let judged = Member {
        phase,
        state: to,
        full: false,
    };
    state.members.set(member, judged);
}

fn store(cells: &mut CellList, cell: u64, value: u64)
    ensures { cells.new ≡ over (Effect.Store cell value) cells.old }
{
    if cell < cells.len() as u64 {
        cells.set(cell as usize, value);
    }
}

fn lessen(cells: &mut CellList, cell: u64, value: u64)
    ensures { cells.new ≡ over (Effect.Least cell value) cells.old }
{
    if cell < cells.len() as u64 {
        let old = cells.as_slice()[cell as usize];
        cells.set(cell as usize, old.min(value));
    }
}

/// Does an effect of the unit that the member holds, of which so many are done.
pub fn act(state: &mut CoreState, member: usize, effect: Effect, unit: u64, done: u64)
    requires placed { IsPlaced state.old member }
    requires room { done < 2 ^ 63 }
    ensures { state.new ≡ acts state.old member (member_of state.old member) effect unit done }
{
    let mut counts = counts_of(state, member);
    match effect {
        Effect::Store(cell, value) => store(&mut state.cells, cell, value),
        Effect::Least(cell, value) => lessen(&mut state.cells, cell, value),
        Effect::Fault(key) => counts.key = counts.key.min(key),
    }
    let next = MemberState::Within {
        unit,
        done: done + 1,
    };
    change(state, member, counts, next);
}
