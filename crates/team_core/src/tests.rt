//! A core over `a(2:5) = a(1:4)`.

ghost use Rattle.std.specs.Prelude.{◌≤◌, ◌<◌, IfOk};
ghost use Rattle.phase_ops.specs.Free.{IsChunk};
ghost use Rattle.team_core.specs.Shifts.{IsShift};

use super::*;
use crate::samples::shift_phases;
use phase_ops::PhaseList;
use std::alloc::{AllocError, Global};
use std::test::Fail;

/// A core that runs, and its phases.
#[derive(Drop)]
struct Run {
    phases: PhaseList,
    core: Core,
}

fn started(alloc: Global, team: u32, chunk: u32) -> Result<Run, AllocError>
    requires { (1 ≤ team) × (team ≤ 64) × IsChunk chunk }
    ensures { IfOk result (λ r. IsShift r.phases r.core team) }
{
    let phases = shift_phases(alloc)?;
    let opening = CellList::from_slice(alloc, &[1, 2, 3, 4, 5, 0, 0, 0, 0])?;
    let core = Core::start(alloc, &phases, opening, team, chunk)?;
    Ok(Run { phases, core })
}

/// The member's one step, where it has one.
fn go(run: &mut Run, team: u32, member: u32) -> Option<StepKind>
    requires run { IsShift run.old.phases run.old.core team }
    requires there { member < team }
    ensures { IsShift run.new.phases run.new.core team }
{
    let next = run.core.next(&run.phases, member);
    if let Some(kind) = next {
        let _ = run.core.step(&run.phases, member, kind);
    }
    next
}

fn is_shifted(run: &Run, team: u32) -> bool
    requires { IsShift run.now.phases run.now.core team }
{
    run.core.cell(0) == 1
        && run.core.cell(1) == 1
        && run.core.cell(2) == 2
        && run.core.cell(3) == 3
        && run.core.cell(4) == 4
}

fn has_ended(run: &Run, team: u32, member: u32) -> bool
    requires run { IsShift run.now.phases run.now.core team }
    requires there { member < team }
{
    matches!(run.core.state(member), MemberState::Ended) && !run.core.marked(member)
}

/// Whether all members have ended, and left the shifted array.
fn is_done(run: &Run, team: u32) -> bool
    requires { IsShift run.now.phases run.now.core team }
{
    for member in 0..team {
        if !has_ended(run, team, member) {
            return false;
        }
    }
    is_shifted(run, team)
}

/// Steps of members that the number picks, more than any order needs.
fn run_at_random(run: &mut Run, team: u32, picks: u64)
    requires run { IsShift run.old.phases run.old.core team }
    requires some { 1 ≤ team }
    ensures { IsShift run.new.phases run.new.core team }
{
    let mut number = picks;
    for _ in 0..20_000 {
        number = number
            .wrapping_mul(6_364_136_223_846_793_005)
            .wrapping_add(1_442_695_040_888_963_407);
        go(run, team, ((number >> 33) % u64::from(team)) as u32);
    }
}

fn orders(alloc: Global, team: u32, chunk: u32, count: u64) -> Result<bool, AllocError>
    requires { (1 ≤ team) × (team ≤ 64) × IsChunk chunk }
{
    for picks in 0..count {
        let mut run = started(alloc, team, chunk)?;
        run_at_random(&mut run, team, picks);
        if !is_done(&run, team) {
            return Ok(false);
        }
    }
    Ok(true)
}

#[test]
fn larger_teams_in_many_orders(rt: HostRuntime) -> Result<(), Fail> {
    let alloc = rt.alloc();
    assert!(rt; orders(alloc, 1, 1, 1)?);
    assert!(rt; orders(alloc, 3, 1, 100)?);
    assert!(rt; orders(alloc, 7, 1, 100)?);
    assert!(rt; orders(alloc, 64, 1, 20)?);
    assert!(rt; orders(alloc, 3, 3, 100)?);
    assert!(rt; orders(alloc, 2, 65_536, 20)?);
    Ok(())
}

/// An order of the first steps of a team of two: the k-th bit names the k-th member.
#[derive(Clone, Copy)]
struct Order {
    members: u128,
    steps: u32,
}

/// What tells the states of a team of two apart: the members, and how often units of each phase were claimed.
#[derive(Clone, Copy, PartialEq)]
struct Told {
    first: Member,
    second: Member,
    early_claims: u64,
    late_claims: u64,
}

fn told_at_the_start() -> Told {
    let ready = Member {
        phase: 0,
        state: MemberState::Ready,
        full: false,
    };
    Told {
        first: ready,
        second: ready,
        early_claims: 0,
        late_claims: 0,
    }
}

fn moved(run: &Run, was: Member, member: u32, kind: Option<StepKind>) -> Member
    requires run { IsShift run.now.phases run.now.core 2 }
    requires there { member < 2 }
{
    let state = run.core.state(member);
    let goes_on = matches!(kind, Some(StepKind::Verdict)) && matches!(state, MemberState::Ready);
    Member {
        phase: was.phase.wrapping_add(u64::from(goes_on)),
        state,
        full: run.core.marked(member),
    }
}

/// What is told after a step of the member.
fn told_after(run: &mut Run, told: Told, member: u32) -> Told
    requires run { IsShift run.old.phases run.old.core 2 }
    requires there { member < 2 }
    ensures { IsShift run.new.phases run.new.core 2 }
{
    let kind = go(run, 2, member);
    let was = if member == 0 { told.first } else { told.second };
    let is = moved(run, was, member, kind);
    let claims = u64::from(matches!(kind, Some(StepKind::Claim)));
    let early = if was.phase == 0 { claims } else { 0 };
    Told {
        first: if member == 0 { is } else { told.first },
        second: if member == 0 { told.second } else { is },
        early_claims: told.early_claims.wrapping_add(early),
        late_claims: told.late_claims.wrapping_add(claims - early),
    }
}

/// Where an order leads, and whether both members have ended there and left the shifted array.
fn follow(alloc: Global, order: Order) -> Result<(Told, bool), AllocError> {
    let mut run = started(alloc, 2, 1)?;
    let mut told = told_at_the_start();
    let mut members = order.members;
    for _ in 0..order.steps {
        let member = u32::from(members % 2 == 1);
        members /= 2;
        told = told_after(&mut run, told, member);
    }
    Ok((told, is_done(&run, 2)))
}

fn has_seen(seen: &[Told], told: Told) -> bool {
    seen.iter().any(|other| *other == told)
}

fn both_ended(told: Told) -> bool {
    matches!(told.first.state, MemberState::Ended)
        && matches!(told.second.state, MemberState::Ended)
}

/// Goes to each state that some order of a team of two leads to. True where all of them were found, some order ends both
/// members, and each that does leaves the shifted array.
fn explore(alloc: Global) -> Result<bool, AllocError> {
    let mut seen = Vec::new(alloc);
    let mut left = Vec::new(alloc);
    left.push(Order {
        members: 0,
        steps: 0,
    })?;
    let mut ends = false;
    for _ in 0..100_000 {
        let Some(order) = left.pop() else {
            return Ok(ends);
        };
        let (told, done) = follow(alloc, order)?;
        if has_seen(seen.as_slice(), told) {
            continue;
        }
        seen.push(told)?;
        if both_ended(told) {
            if !done {
                return Ok(false);
            }
            ends = true;
        }
        if order.steps >= 127 {
            return Ok(false);
        }
        let bit = 1_u128 << order.steps;
        left.push(Order {
            members: order.members,
            steps: order.steps + 1,
        })?;
        left.push(Order {
            members: order.members | bit,
            steps: order.steps + 1,
        })?;
    }
    Ok(false)
}

#[test]
fn every_order_of_two_members(rt: HostRuntime) -> Result<(), Fail> {
    assert!(rt; explore(rt.alloc())?);
    Ok(())
}

#[test]
fn nobody_arrives_at_the_start(rt: HostRuntime) -> Result<(), Fail> {
    let mut run = started(rt.alloc(), 2, 1)?;
    let answer = run.core.step(&run.phases, 0, StepKind::Arrive);
    let expected = Err(NotNow {
        state: MemberState::Ready,
    });
    assert_eq!(rt; answer, expected);
    assert_eq!(rt; run.core.next(&run.phases, 1), Some(StepKind::Claim));
    assert!(rt; !run.core.full(0));
    Ok(())
}
