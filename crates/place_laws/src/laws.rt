//! What stands in bodies and lists of lowered sources.

ghost use Rattle.place_laws.specs.Laws.{WheresFit, ForallsFit, ListsFit};

/// A WHERE holds assignments and WHERE under masks of their rank, and a FORALL assignments of scalars to elements.
pub fn bodies_hold_what_they_may()
    ensures wheres { WheresFit }
    ensures foralls { ForallsFit }
{}

/// Statements stand where their sort may, declares stand first, and an op with `also` follows one of its sort and line.
pub fn lists_hold_what_they_may()
    ensures { ListsFit }
{}
