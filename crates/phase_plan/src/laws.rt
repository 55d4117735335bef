//! A law of plans, as the contract of a function that does nothing.

ghost use Rattle.phase_plan.specs.Laws.{GroupsLaw};

/// The groups of a plan are those that own cells.
pub fn groups_law()
    ensures { GroupsLaw }
{}
