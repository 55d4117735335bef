//! Laws of reductions in parts, each the contract of a function that does nothing.

ghost use Rattle.part_phase_laws.specs.Parts.{PartLaw, ReductionLaw};
ghost use Rattle.part_phase_laws.specs.Stretch.{StretchLaw};

/// A Part has the key of its whole maps, or leaves the partials of all values.
pub fn part_law()
    ensures { PartLaw }
{}

/// A Part and its Join leave the exact reduction of all values in the slot, or its fault, or have the key of the first fault, for all seven
/// reductions and every chunk.
pub fn reduction_law()
    ensures { ReductionLaw }
{}

/// A Set, a reduction and a Set, one after another.
pub fn stretch_law()
    ensures { StretchLaw }
{}
