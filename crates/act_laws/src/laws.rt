//! Laws, each the contract of a function that does nothing.

ghost use Rattle.act_laws.specs.Digits.{DigitsLaw};
ghost use Rattle.act_laws.specs.Fetches.{FetchLaw};
ghost use Rattle.act_laws.specs.Loops.{LoopLaw};
ghost use Rattle.act_laws.specs.Strands.{PlacesLaw, StrandLaw};
ghost use Rattle.act_laws.specs.Words.{WordsLaw};

/// What stands in a seat comes into a register.
pub fn fetch_law()
    ensures { FetchLaw }
{}

/// At one place an act passes ops that stop nowhere there, and ends in the fault of the op at which they stop.
pub fn strand_law()
    ensures { StrandLaw }
{}

/// Ops that stop at many places stop at the place of their trouble by itself, and nowhere earlier.
pub fn places_law()
    ensures { PlacesLaw }
{}

/// A loop stores what its places give, or has the key of the fault at which they stop together.
pub fn loop_law()
    ensures { LoopLaw }
{}

/// Ops over words leave words.
pub fn words_law()
    ensures { WordsLaw }
{}

/// Where a place stands in each dimension comes into registers.
pub fn digits_law()
    ensures { DigitsLaw }
{}
