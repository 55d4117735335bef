//! Lowered programs mean what their sources mean.

ghost use Rattle.run_laws.specs.Laws.{OpeningsFit, NewStatesFit, PartsMakePrograms};

/// The variables and constants with which an accepted program begins are those that its names are lowered by, and stay so where a variable
/// takes another state of its kind.
pub fn worlds_fit_names()
    ensures opening { OpeningsFit }
    ensures states { NewStatesFit }
{}

/// The module of an accepted program runs over any data as the program does: the same regions entered, and the same end or fault. Its
/// scalars, left sides, assignments and constructs are taken to mean what their sources mean.
pub fn parts_make_programs()
    ensures { PartsMakePrograms }
{}
