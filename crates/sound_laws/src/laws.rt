//! What the rules give to the laws on lowered expressions.

ghost use Rattle.sound_laws.specs.Laws.{AcceptedIsSound};

/// Outside FORALL, an expression in which no rule is broken is sound: its names are known, its calls have their arguments, and what has to
/// be a scalar is one.
pub fn accepted_expressions_are_sound()
    ensures { AcceptedIsSound }
{}
