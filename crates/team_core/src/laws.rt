//! The laws of the core, each the contract of a function that does nothing. They speak of any course of work whose units
//! are free of races; phases are one.

ghost use Rattle.team_core.specs.declared.member.StepKind.TheVariants.{Claim, Look, Put, Least, Note, Finish, Arrive, See, Verdict};
ghost use Rattle.team_core.specs.Laws.{Keeps, ReadsLaw, EverySchedule, EveryTeam};

/// A claim takes the next unit, which no other member holds, or finds none.
pub fn claim_law()
    ensures { Keeps Claim }
{}

/// A look changes nothing.
pub fn look_law()
    ensures { Keeps Look }
{}

/// A store is one more effect of the member's unit.
pub fn put_law()
    ensures { Keeps Put }
{}

/// So is a Least.
pub fn least_law()
    ensures { Keeps Least }
{}

/// So is a fault, of which the phase's key keeps the least.
pub fn note_law()
    ensures { Keeps Note }
{}

/// A unit is finished once all its effects are done.
pub fn finish_law()
    ensures { Keeps Finish }
{}

/// The last to arrive finds nobody in a unit, so the cells are those that the phase leaves.
pub fn arrive_law()
    ensures { Keeps Arrive }
{}

/// A member is marked where all have arrived.
pub fn see_law()
    ensures { Keeps See }
{}

/// A marked member goes on where the phase has no key and is not the last, and ends there else.
pub fn verdict_law()
    ensures { Keeps Verdict }
{}

/// A look answers the phase's start, laid over by what the member's own unit has done.
pub fn reads_law()
    ensures { ReadsLaw }
{}

/// A core is sound after every list of steps, and each store is to a cell that no other member may read.
pub fn every_schedule()
    ensures { EverySchedule }
{}

/// The same over phases that are free of races. Where a member has ended, the cells, the keys and the finished units are
/// those of the phases' effects.
pub fn every_team()
    ensures { EveryTeam }
{}
