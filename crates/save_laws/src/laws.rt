//! Laws of loops that save, each the contract of a function that does nothing.

ghost use Rattle.save_laws.specs.Saves.{SavingLaw, AssigningLaw};
ghost use Rattle.save_laws.specs.Pairs.{PairLaw};
ghost use Rattle.save_laws.specs.Values.{ValueSavingLaw, ValueAssigningLaw, ValuePairLaw};

/// A loop that saves values and targets leaves them in its temporaries, and the negative of its number at each position that a test lets
/// go; or it has the key of its first fault.
pub fn saving_law()
    ensures { SavingLaw }
{}

/// A loop that assigns what was saved at saved targets replaces all targets at once.
pub fn assigning_law()
    ensures { AssigningLaw }
{}

/// A right side that is saved with its targets, and then assigned: all targets are replaced at once, or the first fault is the key.
pub fn pair_law()
    ensures { PairLaw }
{}

/// A loop that saves values alone leaves them in its temporary, or has the key of its first fault.
pub fn value_saving_law()
    ensures { ValueSavingLaw }
{}

/// A loop that assigns saved values to targets that it computes again replaces all targets at once.
pub fn value_assigning_law()
    ensures { ValueAssigningLaw }
{}

/// Values that are saved, and then assigned to targets that are computed again.
pub fn value_pair_law()
    ensures { ValuePairLaw }
{}
