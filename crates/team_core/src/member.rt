//! Members of a team, and the kinds of their steps.

/// Where a member stands in its phase.
#[derive(Clone, Copy, Debug, PartialEq, Eq)]
pub enum MemberState {
    /// It may claim a unit.
    Ready,
    /// It holds this unit, and so many of the unit's effects are done.
    Within { unit: u64, done: u64 },
    /// It found all units claimed.
    Out,
    /// It stands at the barrier.
    Arrived,
    /// It has left the last phase, or one with a key.
    Ended,
}

/// A step: one load, store, fetch_add or fetch_min of one word.
#[derive(Clone, Copy, Debug, PartialEq, Eq)]
pub enum StepKind {
    Claim,
    Look,
    Put,
    Least,
    Note,
    Finish,
    Arrive,
    See,
    Verdict,
}
