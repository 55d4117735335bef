//! Laws of the check for targets that are named twice, each the contract of a function that does nothing.

ghost use Rattle.mark_laws.specs.Marks.{ClearingLaw, MarkingLaw, CheckingLaw};
ghost use Rattle.mark_laws.specs.Acts.{ActsLaw};
ghost use Rattle.mark_laws.specs.Checks.{FiveLaw};
ghost use Rattle.mark_laws.specs.Standard.{StandardLaw, SavedStepLaw};
ghost use Rattle.mark_laws.specs.Stands.{ReplaceLaw, GivenLaw, AsReplacedLaw};
ghost use Rattle.mark_laws.specs.Stepped.{StepStandsLaw};

/// A loop that clears marks leaves the greatest number in each.
pub fn clearing_law()
    ensures { ClearingLaw }
{}

/// A loop that marks targets leaves in each mark the least number of a position with this target.
pub fn marking_law()
    ensures { MarkingLaw }
{}

/// A loop that checks marks has no key where all targets differ, and else that of the first position whose target an earlier one has.
pub fn checking_law()
    ensures { CheckingLaw }
{}

/// What the acts do that are always the same.
pub fn acts_law()
    ensures { ActsLaw }
{}

/// A right side that is saved with its targets, the check for targets that are named twice, and the loop that assigns.
pub fn five_law()
    ensures { FiveLaw }
{}

/// The acts that are always the same make the four loops that stand behind a saving one.
pub fn standard_law()
    ensures { StandardLaw }
{}

/// The whole step: the first fault of the loop that saves, else ManyOne at the first target that repeats one, else all targets are replaced
/// at once.
pub fn saved_step_law()
    ensures { SavedStepLaw }
{}

/// Cells whose targets hold new values stand for the array with these replaced.
pub fn replace_law()
    ensures { ReplaceLaw }
{}

/// What a loop leaves that assigns has the new values at all targets, and all else of the array as before.
pub fn given_law()
    ensures { GivenLaw }
{}

/// What the five phases leave is what replacement at once gives, or its fault.
pub fn as_replaced_law()
    ensures { AsReplacedLaw }
{}

/// The whole saved step ends as replacement at once in its array, or with the first fault of what it saves.
pub fn step_stands_law()
    ensures { StepStandsLaw }
{}
